// The updates of a directory that one replica has and another lacks.
ghost use Rattle.std.specs.Prelude.{◌≡◌, ◌++◌, option_copied, map, IfOk, Some, ◌∷◌, []};
ghost use Rattle.std.specs.List.{filter, flat_map};
ghost use Rattle.coda_resolve.specs.Copies.{log_of};
ghost use Rattle.coda_resolve.specs.Missing.{is_missing, missing};
ghost use Rattle.coda_resolve.specs.Lent.{lent};

use crate::copies::{some_has, some_lacks};
use coda_reslog::{Held, ResEntry, Ring};
use std::alloc::{AllocError, Global};

// Whether the update is in one copy and not in another.
fn is_missing(copies: &[Option<&Held>], update: &ResEntry) -> bool
    ensures { result ≡ is_missing (map option_copied copies.now) update.now }
{
    some_has(copies, update) && some_lacks(copies, update)
}

// The updates found so far, with this one where it is missing.
fn with_update<'a>(
    mut found: Vec<&'a ResEntry>,
    copies: &[Option<&'a Held>],
    update: &'a ResEntry,
) -> Result<Vec<&'a ResEntry>, AllocError>
    ensures { IfOk result (λ all. lent all.items ≡ lent found.entry.items ++ filter (is_missing (map option_copied copies.now)) (update.now ∷ [])) }
{
    if is_missing(copies, update) {
        found.push(update)?;
        Ok(found)
    } else {
        Ok(found)
    }
}

// The updates found so far, with those of the log that are missing.
fn with_log<'a>(
    mut found: Vec<&'a ResEntry>,
    copies: &[Option<&'a Held>],
    log: &'a Ring,
) -> Result<Vec<&'a ResEntry>, AllocError>
    ensures { IfOk result (λ all. lent all.items ≡ lent found.entry.items ++ filter (is_missing (map option_copied copies.now)) log.now) }
{
    for index in 0..log.len() {
        let Some(update) = log.get(index) else {
            unreachable!()
        };
        found = with_update(found, copies, update)?;
    }
    Ok(found)
}

// The updates found so far, with those of the copy's log that are missing.
fn with_copy<'a>(
    found: Vec<&'a ResEntry>,
    copies: &[Option<&'a Held>],
    copy: Option<&'a Held>,
) -> Result<Vec<&'a ResEntry>, AllocError>
    ensures { IfOk result (λ all. lent all.items ≡ lent found.entry.items ++ filter (is_missing (map option_copied copies.now)) (log_of (option_copied copy.entry))) }
{
    let Some(held) = copy else {
        return Ok(found);
    };
    match &held.ring {
        Some(log) => with_log(found, copies, log),
        None => Ok(found),
    }
}

// The updates found so far, with those of these copies' logs that are missing.
fn with_copies<'a>(
    found: Vec<&'a ResEntry>,
    copies: &[Option<&'a Held>],
    rest: &[Option<&'a Held>],
) -> Result<Vec<&'a ResEntry>, AllocError>
    ensures { IfOk result (λ all. lent all.items ≡ lent found.entry.items ++ filter (is_missing (map option_copied copies.now)) (flat_map log_of (map option_copied rest.now))) }
{
    match rest {
        [] => Ok(found),
        [first, rest @ ..] => {
            let found = with_copy(found, copies, *first)?;
            with_copies(found, copies, rest)
        }
    }
}

// The missing updates that stand in some log.
pub(crate) fn missing<'a>(
    alloc: Global,
    copies: &[Option<&'a Held>],
) -> Result<Vec<&'a ResEntry>, AllocError>
    ensures { IfOk result (λ all. lent all.items ≡ missing (map option_copied copies.now)) }
{
    with_copies(Vec::new(alloc), copies, copies)
}
