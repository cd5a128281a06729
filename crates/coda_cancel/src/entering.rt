// Operations that are added to the records of a tail.
ghost use Rattle.std.specs.Prelude.{◌≡◌, None, OnOk, OnErr, IfOk, IfErr};
ghost use Rattle.coda_fid.specs.Op.{carried};
ghost use Rattle.coda_cancel.specs.Cancel.{add};
ghost use Rattle.coda_cancel.specs.Mentions.{IsIndexOf};
ghost use Rattle.coda_cancel.specs.Numbers.{AreBelow, IsRising, dropped, least};
ghost use Rattle.coda_cancel.specs.Weights.{total_weight};

use crate::adding::add_reserved;
use crate::leaving::leaving_with;
use crate::mentions::{Mention, note};
use crate::shelf::Shelf;
use coda_fid::Record;
use std::collections::BTreeSet;
use thiserror::Error;

/// Why an operation was not added.
#[derive(Debug, Drop, Error)]
pub enum AddFault {
    /// There was no memory for its record, which comes back.
    #[error("out of memory for a record of the log")]
    Memory(Record),
}

/// Adds an operation that carries no version of an object, and so makes no other needless. Asks for no index.
pub(crate) fn add_bare(
    shelf: &mut Shelf,
    weight: &mut u64,
    rec: Record,
) -> Result<Option<u64>, AddFault>
    requires bare { carried rec.op ≡ None }
    requires later { AreBelow rec.number shelf.old.records }
    requires weighed { weight.old ≡ total_weight shelf.old.records }
    ensures ok { OnOk result (shelf.new.records ≡ add shelf.old.records rec) }
    ensures weighed { weight.new ≡ total_weight shelf.new.records }
    ensures least { IfOk result (λ number. number ≡ least (dropped shelf.old.records rec)) }
    ensures memory { IfErr result (λ fault. fault ≡ AddFault.Memory rec) }
    ensures err { OnErr result (shelf.new.records ≡ shelf.old.records) }
{
    let Some(heavier) = weight.checked_add(rec.weight()) else {
        return Err(AddFault::Memory(rec));
    };
    if shelf.reserve(1).is_err() {
        return Err(AddFault::Memory(rec));
    }
    shelf.push(rec);
    *weight = heavier;
    Ok(None)
}

/// Adds an operation, by the index of the records.
pub(crate) fn add_indexed(
    shelf: &mut Shelf,
    index: &mut BTreeSet<Mention>,
    weight: &mut u64,
    rec: Record,
) -> Result<Option<u64>, AddFault>
    requires later { AreBelow rec.number shelf.old.records }
    requires rising { IsRising shelf.old.records }
    requires indexed { IsIndexOf index.old shelf.old.records }
    requires weighed { weight.old ≡ total_weight shelf.old.records }
    ensures ok { OnOk result (shelf.new.records ≡ add shelf.old.records rec) }
    ensures indexed { IsIndexOf index.new shelf.new.records }
    ensures weighed { weight.new ≡ total_weight shelf.new.records }
    ensures least { IfOk result (λ number. number ≡ least (dropped shelf.old.records rec)) }
    ensures memory { IfErr result (λ fault. fault ≡ AddFault.Memory rec) }
    ensures err { OnErr result (shelf.new.records ≡ shelf.old.records) }
{
    let all = *weight;
    let gone = leaving_with(shelf, index, &rec.op);
    let Some(left) = (all - gone.weight).checked_add(gone.added(&rec)) else {
        return Err(AddFault::Memory(rec));
    };
    if shelf.reserve(1).is_err() || note(index, &rec).is_err() {
        return Err(AddFault::Memory(rec));
    }
    add_reserved(shelf, index, rec, gone);
    *weight = left;
    Ok(gone.least)
}
