// The names on which updates are missing: the least at which the copies cannot be merged, and what the merged directory binds.
ghost use Rattle.std.specs.Prelude.{ℕ, ◌≡◌, ◌≢◌, ◌++◌, ◌∷◌, [], not, cond, option_copied, map, is_some, IfOk, OnOk, List, Option};
ghost use Rattle.std.specs.List.{filter, flat_map, fold};
ghost use Rattle.std.specs.Ordering.{eq_by_cmp};
ghost use Rattle.std.specs.FinMap as finmap;
ghost use Rattle.coda_fid.specs.Name.{name_cmp};
ghost use Rattle.coda_resolve.specs.Copies.{bindings_of};
ghost use Rattle.coda_resolve.specs.Missing.{missing};
ghost use Rattle.coda_resolve.specs.Merged.{binding, names_in, is_name_of, is_on, flat, first_bindings, IsSettled, merged_bindings};
ghost use Rattle.coda_resolve.specs.Causes.{least, least_with, conflicts_of};
ghost use Rattle.coda_resolve.specs.Lent.{lent};
ghost use Rattle.coda_resolve.specs.Claims.{AreClaimsOf};

use crate::claims::{Claim, binding};
use coda_fid::{Fid, Name};
use coda_reslog::{Held, ResEntry};
use coda_tree::{Entries, NodeKind};
use std::alloc::{AllocError, Global};
use std::cmp::Ordering;

// ---- the least name at which the copies cannot be merged

// The least name so far, or this one where it is less.
fn lesser<'a>(least: Option<&'a Name>, name: &'a Name) -> Option<&'a Name>
    ensures { option_copied result ≡ least_with name_cmp (option_copied least.entry) name.now }
{
    let Some(other) = least else {
        return Some(name);
    };
    match other.compare(name) {
        Ordering::Less => Some(other),
        Ordering::Equal => Some(other),
        Ordering::Greater => Some(name),
    }
}

// The least name so far, or this one where it is less and the copies cannot be merged there.
fn with_name<'a>(
    least: Option<&'a Name>,
    claims: &[Claim],
    copies: &[Option<&Held>],
    name: &'a Name,
) -> Option<&'a Name>
    requires { AreClaimsOf (map option_copied copies.now) claims.now }
    ensures { option_copied result ≡ fold (least_with name_cmp) (option_copied least.entry) (filter (λ n. not (is_some (binding (map option_copied copies.now) n))) (name.now ∷ [])) }
{
    if binding(claims, copies, name).is_some() {
        least
    } else {
        lesser(least, name)
    }
}

// The same with the name, where there is one.
fn with_some_name<'a>(
    least: Option<&'a Name>,
    claims: &[Claim],
    copies: &[Option<&Held>],
    name: &'a Option<Name>,
) -> Option<&'a Name>
    requires { AreClaimsOf (map option_copied copies.now) claims.now }
    ensures { option_copied result ≡ fold (least_with name_cmp) (option_copied least.entry) (filter (λ n. not (is_some (binding (map option_copied copies.now) n))) (names_in name.now)) }
{
    match name {
        Some(name) => with_name(least, claims, copies, name),
        None => least,
    }
}

// The same with the names that the update names.
fn with_update<'a>(
    least: Option<&'a Name>,
    claims: &[Claim],
    copies: &[Option<&Held>],
    update: &'a ResEntry,
) -> Option<&'a Name>
    requires { AreClaimsOf (map option_copied copies.now) claims.now }
    ensures { option_copied result ≡ fold (least_with name_cmp) (option_copied least.entry) (conflicts_of (map option_copied copies.now) update.now) }
{
    let least = with_some_name(least, claims, copies, &update.name);
    with_some_name(least, claims, copies, &update.other)
}

// The least name at which the copies cannot be merged.
pub(crate) fn least_conflict<'a>(
    claims: &[Claim],
    copies: &[Option<&Held>],
    updates: &[&'a ResEntry],
) -> Option<&'a Name>
    requires claims { AreClaimsOf (map option_copied copies.now) claims.now }
    requires updates { lent updates.now ≡ missing (map option_copied copies.now) }
    ensures { option_copied result ≡ least name_cmp (flat_map (conflicts_of (map option_copied copies.now)) (missing (map option_copied copies.now))) }
{
    let mut least = None;
    for update in updates {
        least = with_update(least, claims, copies, update);
    }
    least
}

// ---- what the merged directory binds

// What the copy binds, in memory of its own.
fn entries_of(alloc: Global, copy: Option<&Held>) -> Result<Entries, AllocError>
    ensures { IfOk result (λ entries. entries ≡ bindings_of (option_copied copy.entry)) }
{
    let Some(held) = copy else {
        return Ok(Entries::new(alloc));
    };
    match &held.node.kind {
        NodeKind::Dir(entries) => entries.copy(),
        NodeKind::File(_) => Ok(Entries::new(alloc)),
        NodeKind::Link(_) => Ok(Entries::new(alloc)),
    }
}

// What the first of the copies binds, in memory of its own.
fn first_entries(alloc: Global, copies: &[Option<&Held>]) -> Result<Entries, AllocError>
    ensures { IfOk result (λ entries. entries ≡ first_bindings (map option_copied copies.now)) }
{
    match copies {
        [] => Ok(Entries::new(alloc)),
        [first, ..] => entries_of(alloc, *first),
    }
}

// Binds the name to the fid, in place of what it is bound to, or unbinds it.
fn rebind(entries: &mut Entries, name: &Name, to: Option<Fid>) -> Result<(), AllocError>
    ensures { OnOk result ((n : List ℕ) → finmap.get entries.new n ≡ cond (eq_by_cmp name_cmp n name.now) to (finmap.get entries.old n)) }
{
    let Some(fid) = to else {
        entries.remove(name);
        return Ok(());
    };
    if entries.find(name).is_some() {
        entries.rebind(name, fid);
        return Ok(());
    }
    let copy = name.copy()?;
    entries.insert(copy, fid)
}

// What is bound, where the copies can be merged.
fn flat(to: Option<Option<Fid>>) -> Option<Fid>
    ensures { result ≡ flat to }
{
    match to {
        Some(to) => to,
        None => None,
    }
}

// Binds the name as the merged directory does, where there is a name.
fn settle_name(
    entries: &mut Entries,
    claims: &[Claim],
    copies: &[Option<&Held>],
    name: &Option<Name>,
) -> Result<(), AllocError>
    requires { AreClaimsOf (map option_copied copies.now) claims.now }
    ensures { OnOk result (IsSettled (map option_copied copies.now) (λ n. is_name_of n name.now) entries.old entries.new) }
{
    match name {
        Some(name) => rebind(entries, name, flat(binding(claims, copies, name))),
        None => Ok(()),
    }
}

// Binds the names that the update names as the merged directory does.
fn settle_update(
    entries: &mut Entries,
    claims: &[Claim],
    copies: &[Option<&Held>],
    update: &ResEntry,
) -> Result<(), AllocError>
    requires { AreClaimsOf (map option_copied copies.now) claims.now }
    ensures { OnOk result (IsSettled (map option_copied copies.now) (λ n. is_on n update.now) entries.old entries.new) }
{
    settle_name(entries, claims, copies, &update.name)?;
    settle_name(entries, claims, copies, &update.other)
}

// What the merged directory binds.
pub(crate) fn merged_entries(
    alloc: Global,
    claims: &[Claim],
    copies: &[Option<&Held>],
    updates: &[&ResEntry],
) -> Result<Entries, AllocError>
    requires claims { AreClaimsOf (map option_copied copies.now) claims.now }
    requires updates { lent updates.now ≡ missing (map option_copied copies.now) }
    ensures { IfOk result (λ entries. entries ≡ merged_bindings (map option_copied copies.now)) }
{
    let mut entries = first_entries(alloc, copies)?;
    for update in updates {
        settle_update(&mut entries, claims, copies, update)?;
    }
    Ok(entries)
}
