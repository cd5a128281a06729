// The least missing update that stands in no log.
ghost use Rattle.std.specs.Prelude.{◌≡◌, ◌+◌, ◌-◌, ◌≤◌, ◌<◌, ◌^◌, IfOk, option_copied, map, not, Option, Some, None, List};
ghost use Rattle.std.specs.List.{find, range_with_len};
ghost use Rattle.coda_vv.specs.Vector.{count};
ghost use Rattle.coda_reslog.specs.declared.entry.ResEntry.{ResEntry};
ghost use Rattle.coda_resolve.specs.Copies.{vector_of};
ghost use Rattle.coda_resolve.specs.Missing.{fewest, most, wrapped};
ghost use Rattle.coda_resolve.specs.Stamps.{has_stamp, first_absent, absent_from};

use crate::stamps::{Stamp, has_stamp, logged};
use coda_reslog::Held;
use std::alloc::{AllocError, Global};
use std::collections::BTreeSet;

// How many of the server's updates are in the copy.
fn count(copy: Option<&Held>, origin: u8) -> u64
    ensures { result ≡ count (vector_of (option_copied copy.entry)) origin }
{
    let Some(held) = copy else {
        return 0;
    };
    let place = usize::from(origin).saturating_sub(1);
    match held.vector.0.get(place) {
        Some(count) => *count,
        None => 0,
    }
}

// How many of the server's updates are in every copy.
fn fewest(origin: u8, copies: &[Option<&Held>]) -> u64
    ensures { result ≡ fewest origin (map option_copied copies.now) }
{
    match copies {
        [] => 0,
        [only] => count(*only, origin),
        [first, rest @ ..] => count(*first, origin).min(fewest(origin, rest)),
    }
}

// How many are in the copy that has most of them.
fn most(origin: u8, copies: &[Option<&Held>]) -> u64
    ensures { result ≡ most origin (map option_copied copies.now) }
{
    match copies {
        [] => 0,
        [first, rest @ ..] => count(*first, origin).max(most(origin, rest)),
    }
}

// The least of so many numbers of the server's updates, from one on, that isn't among the updates.
fn first_absent(logged: &BTreeSet<Stamp>, origin: u8, from: u64, many: u64) -> Option<u64>
    requires { from + many < 2 ^ 64 }
    ensures { result ≡ find (λ seq. not (has_stamp logged.now origin seq)) (range_with_len (from + 1) many) }
{
    for step in 0..many {
        let seq = from + step + 1;
        if !has_stamp(logged, origin, seq) {
            return Some(seq);
        }
    }
    None
}

// The least number of the server's missing updates that isn't among the updates.
fn absent_of(logged: &BTreeSet<Stamp>, origin: u8, copies: &[Option<&Held>]) -> Option<u64>
    ensures { result ≡ first_absent logged.now (map option_copied copies.now) origin }
{
    let from = fewest(origin, copies);
    let to = most(origin, copies);
    first_absent(logged, origin, from, to.saturating_sub(from))
}

// The least missing update that isn't among the updates.
fn least_absent(logged: &BTreeSet<Stamp>, copies: &[Option<&Held>]) -> Option<(u8, u64)>
    ensures { result ≡ absent_from logged.now (map option_copied copies.now) 1 8 }
{
    for origin in 1..9 {
        if let Some(seq) = absent_of(logged, origin, copies) {
            return Some((origin, seq));
        }
    }
    None
}

// The least missing update that stands in no log, by its server and number.
pub(crate) fn wrapped(
    alloc: Global,
    copies: &[Option<&Held>],
) -> Result<Option<(u8, u64)>, AllocError>
    ensures { IfOk result (λ gap. gap ≡ wrapped (map option_copied copies.now)) }
{
    let logged = logged(alloc, copies)?;
    Ok(least_absent(&logged, copies))
}
