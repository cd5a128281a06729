// The log of a merged directory.
ghost use Rattle.std.specs.Prelude.{◌≡◌, ◌++◌, ◌∷◌, [], not, option_copied, map, IfOk, OnOk, List};
ghost use Rattle.std.specs.List.{filter, fold};
ghost use Rattle.coda_reslog.specs.declared.entry.ResEntry.{ResEntry};
ghost use Rattle.coda_reslog.specs.Rings.{last_entries};
ghost use Rattle.coda_resolve.specs.Copies.{log_of};
ghost use Rattle.coda_resolve.specs.Merged.{stands_in, followed_by, log_of_copies};
ghost use Rattle.coda_resolve.specs.Stamps.{AreStamps, HasLog};

use crate::stamps::{Stamp, add_log, has_stamp};
use coda_reslog::{Held, ResEntry, Ring};
use std::alloc::{AllocError, Global};
use std::collections::BTreeSet;

// Adds the update to the ring, unless it is among the updates.
fn push_new(ring: &mut Ring, stamps: &BTreeSet<Stamp>, update: &ResEntry) -> Result<(), AllocError>
    ensures { OnOk result ((known updates : List ResEntry) → AreStamps stamps.now known → ring.old ≡ last_entries updates → ring.new ≡ last_entries (updates ++ filter (λ u. not (stands_in known u)) (update.now ∷ []))) }
{
    if !has_stamp(stamps, update.origin, update.seq) {
        let copy = update.copy()?;
        ring.push(copy);
    }
    Ok(())
}

// Adds the updates of the log to the ring that aren't among the updates.
fn push_all_new(ring: &mut Ring, stamps: &BTreeSet<Stamp>, log: &Ring) -> Result<(), AllocError>
    ensures { OnOk result ((known updates : List ResEntry) → AreStamps stamps.now known → ring.old ≡ last_entries updates → ring.new ≡ last_entries (updates ++ filter (λ u. not (stands_in known u)) log.now)) }
{
    for index in 0..log.len() {
        let Some(update) = log.get(index) else {
            unreachable!()
        };
        push_new(ring, stamps, update)?;
    }
    Ok(())
}

// Adds a log to the ring and to the updates.
fn follow(ring: &mut Ring, stamps: &mut BTreeSet<Stamp>, log: &Ring) -> Result<(), AllocError>
    ensures { OnOk result ((updates : List ResEntry) → HasLog stamps.old ring.old updates → HasLog stamps.new ring.new (followed_by updates log.now)) }
{
    push_all_new(ring, stamps, log)?;
    add_log(stamps, log)
}

// Adds the log of a copy to the ring and to the updates.
fn follow_copy(
    ring: &mut Ring,
    stamps: &mut BTreeSet<Stamp>,
    copy: Option<&Held>,
) -> Result<(), AllocError>
    ensures { OnOk result ((updates : List ResEntry) → HasLog stamps.old ring.old updates → HasLog stamps.new ring.new (followed_by updates (log_of (option_copied copy.entry)))) }
{
    let Some(held) = copy else {
        return Ok(());
    };
    match &held.ring {
        Some(log) => follow(ring, stamps, log),
        None => Ok(()),
    }
}

// Adds the logs of the copies to the ring and to the updates.
fn follow_copies(
    ring: &mut Ring,
    stamps: &mut BTreeSet<Stamp>,
    copies: &[Option<&Held>],
) -> Result<(), AllocError>
    ensures { OnOk result ((updates : List ResEntry) → HasLog stamps.old ring.old updates → HasLog stamps.new ring.new (fold followed_by updates (map log_of (map option_copied copies.now)))) }
{
    match copies {
        [] => Ok(()),
        [first, rest @ ..] => {
            follow_copy(ring, stamps, *first)?;
            follow_copies(ring, stamps, rest)
        }
    }
}

// The log of the lowest copy, followed by the updates of the next ones that aren't there yet: the last 256.
pub(crate) fn merged_log(alloc: Global, copies: &[Option<&Held>]) -> Result<Ring, AllocError>
    ensures { IfOk result (λ ring. ring ≡ log_of_copies (map option_copied copies.now)) }
{
    let mut ring = Ring::new(alloc)?;
    let mut stamps = BTreeSet::new(alloc);
    follow_copies(&mut ring, &mut stamps, copies)?;
    Ok(ring)
}
