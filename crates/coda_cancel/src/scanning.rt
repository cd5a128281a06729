// Which records stay where an operation is added, where there is no index of them: all are looked at.
ghost use Rattle.std.specs.Prelude.{◌≡◌, ◌+◌, nat_le, length};
ghost use Rattle.coda_fid.specs.Op.{carried};
ghost use Rattle.coda_fid.specs.declared.op.Record.{Record};
ghost use Rattle.coda_cancel.specs.Cancel.{object, cancels, is_undone};
ghost use Rattle.coda_cancel.specs.Passing.{goes, new_last, undropped};
ghost use Rattle.coda_cancel.specs.Weights.{total_weight};

use crate::dropping::creates;
use crate::leaving::goes;
use crate::lent::LentRecords;
use crate::shelf::Shelf;
use crate::undoing::is_other;
use coda_fid::{Fid, Op, Record};

/// The records that stay where an operation is added.
#[derive(Clone, Copy)]
pub(crate) struct Staying {
    /// Whether the operation undoes a creation, so that it isn't put there either.
    pub(crate) cancelled: bool,
    /// How many stay.
    pub(crate) count: usize,
    /// What they weigh together.
    pub(crate) weight: u64,
}

impl Staying {
    /// What the operation adds to the weight of the records.
    pub(crate) fn added(&self, rec: &Record) -> u64
        ensures { result ≡ total_weight (new_last self.now.cancelled rec.now) }
    {
        if self.cancelled { 0 } else { rec.weight() }
    }

    /// Whether they and the operation, unless it isn't put there, are so many at most.
    pub(crate) fn are_few(&self, count: usize) -> bool
        ensures { (rec : Record) → result ≡ nat_le (self.now.count + length (new_last self.now.cancelled rec)) count }
    {
        if self.cancelled {
            self.count <= count
        } else {
            self.count < count
        }
    }
}

// The object for which an operation carries a version; for one that carries none any will do.
fn object(op: &Op) -> Fid
    ensures { object (carried op.now) ≡ result }
{
    match op.carried() {
        Some(over) => over.fid,
        None => Fid {
            volume: 0,
            vnode: 0,
            uniq: 0,
        },
    }
}

// Whether the records create the object, and no other one mentions it, besides its Stores and Setattrs.
fn is_undone(mut records: LentRecords<'_>, fid: Fid) -> bool
    ensures { result ≡ is_undone fid records.entry }
{
    let mut created = false;
    while let Some(record) = records.take_first() {
        if is_other(&record.op, fid) {
            if created || !creates(&record.op, fid) {
                return false;
            }
            created = true;
        }
    }
    created
}

// Whether the operation removes an object whose creation in these records it undoes.
fn cancels(records: LentRecords<'_>, op: &Op) -> bool
    ensures { result ≡ cancels op.now records.entry }
{
    match op {
        Op::Remove { fid, .. } => is_undone(records, *fid),
        Op::Rmdir { fid, .. } => is_undone(records, *fid),
        _ => false,
    }
}

/// Which records stay where an operation is added; all weigh so much together.
pub(crate) fn staying_among(shelf: &Shelf, op: &Op, all: u64) -> Staying
    requires { all ≡ total_weight shelf.now.records }
    ensures cancelled { result.cancelled ≡ cancels op.now shelf.now.records }
    ensures count { result.count ≡ length (undropped (goes result.cancelled op.now) shelf.now.records) }
    ensures weight { result.weight ≡ total_weight (undropped (goes result.cancelled op.now) shelf.now.records) }
{
    let cancelled = cancels(shelf.records(), op);
    let fid = object(op);
    let mut count = shelf.len();
    let mut weight = all;
    let mut records = shelf.records();
    while let Some(record) = records.take_first() {
        if goes(op, cancelled, fid, &record.op) {
            count -= 1;
            weight -= record.weight();
        }
    }
    Staying {
        cancelled,
        count,
        weight,
    }
}
