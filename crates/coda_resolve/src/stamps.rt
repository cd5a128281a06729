// Updates by their servers and numbers.
ghost use Rattle.std.specs.Prelude.{◌≡◌, ◌++◌, ◌∷◌, [], List, IfOk, OnOk, option_copied, map};
ghost use Rattle.std.specs.List.{flat_map};
ghost use Rattle.coda_reslog.specs.declared.entry.ResEntry.{ResEntry};
ghost use Rattle.coda_resolve.specs.Copies.{log_of};
ghost use Rattle.coda_resolve.specs.Stamps.{has_stamp, AreStamps, is_stamped};

use coda_reslog::{Held, ResEntry, Ring};
use std::alloc::{AllocError, Global};
use std::collections::BTreeSet;

// The server of an update, with the number that it gave to the update.
#[derive(Clone, Copy, Debug, PartialEq, Eq, PartialOrd, Ord)]
pub(crate) struct Stamp {
    pub(crate) origin: u8,
    pub(crate) seq: u64,
}

// Whether an update of that server and number is among them.
pub(crate) fn has_stamp(stamps: &BTreeSet<Stamp>, origin: u8, seq: u64) -> bool
    ensures { result ≡ has_stamp stamps.now origin seq }
{
    stamps.contains(&Stamp { origin, seq })
}

// Adds an update.
pub(crate) fn add_stamp(stamps: &mut BTreeSet<Stamp>, update: &ResEntry) -> Result<(), AllocError>
    ensures { OnOk result ((updates : List ResEntry) → AreStamps stamps.old updates → AreStamps stamps.new (updates ++ update.now ∷ [])) }
{
    let stamp = Stamp {
        origin: update.origin,
        seq: update.seq,
    };
    stamps.insert(stamp)?;
    Ok(())
}

// Adds the updates of a log.
pub(crate) fn add_log(stamps: &mut BTreeSet<Stamp>, log: &Ring) -> Result<(), AllocError>
    ensures { OnOk result ((updates : List ResEntry) → AreStamps stamps.old updates → AreStamps stamps.new (updates ++ log.now)) }
{
    for index in 0..log.len() {
        let Some(update) = log.get(index) else {
            unreachable!()
        };
        add_stamp(stamps, update)?;
    }
    Ok(())
}

// Adds the updates of a copy's log.
fn add_copy(stamps: &mut BTreeSet<Stamp>, copy: Option<&Held>) -> Result<(), AllocError>
    ensures { OnOk result ((updates : List ResEntry) → AreStamps stamps.old updates → AreStamps stamps.new (updates ++ log_of (option_copied copy.entry))) }
{
    let Some(held) = copy else {
        return Ok(());
    };
    match &held.ring {
        Some(log) => add_log(stamps, log),
        None => Ok(()),
    }
}

// Adds the updates of the copies' logs.
fn add_copies(stamps: &mut BTreeSet<Stamp>, copies: &[Option<&Held>]) -> Result<(), AllocError>
    ensures { OnOk result ((updates : List ResEntry) → AreStamps stamps.old updates → AreStamps stamps.new (updates ++ flat_map log_of (map option_copied copies.now))) }
{
    match copies {
        [] => Ok(()),
        [first, rest @ ..] => {
            add_copy(stamps, *first)?;
            add_copies(stamps, rest)
        }
    }
}

// The updates of the copies' logs.
pub(crate) fn logged(alloc: Global, copies: &[Option<&Held>]) -> Result<BTreeSet<Stamp>, AllocError>
    ensures { IfOk result (λ stamps. AreStamps stamps (flat_map log_of (map option_copied copies.now))) }
{
    let mut stamps = BTreeSet::new(alloc);
    add_copies(&mut stamps, copies)?;
    Ok(stamps)
}
