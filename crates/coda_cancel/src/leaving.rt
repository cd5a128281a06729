// Which records go where an operation is added.
ghost use Rattle.std.specs.Prelude.{◌≡◌, ◌+◌, ◌<◌, ◌≤◌, ◌^◌, nat_le, length, IfSome, IfNone};
ghost use Rattle.coda_fid.specs.Op.{carried};
ghost use Rattle.coda_fid.specs.declared.op.Record.{Record};
ghost use Rattle.coda_cancel.specs.Cancel.{object, cancels};
ghost use Rattle.coda_cancel.specs.Mentions.{Covers, NoneBeyond};
ghost use Rattle.coda_cancel.specs.Numbers.{dropped, least, numbers};
ghost use Rattle.coda_cancel.specs.Passing.{goes, new_last, undropped};
ghost use Rattle.coda_cancel.specs.Weights.{total_weight};

use crate::dropping::drops;
use crate::mentions::{Mention, mentions_of, take_next};
use crate::shelf::Shelf;
use crate::undoing::cancels;
use coda_fid::{Fid, Op, Record};
use std::collections::BTreeSet;

/// The records that go where an operation is added.
#[derive(Clone, Copy)]
pub(crate) struct Leaving {
    /// Whether the operation undoes a creation, so that it isn't put there either.
    pub(crate) cancelled: bool,
    /// The least number of one that goes.
    pub(crate) least: Option<u64>,
    /// The number of the last record that mentions the operation's object.
    pub(crate) end: Option<u64>,
    /// How many go.
    pub(crate) count: usize,
    /// What they weigh together.
    pub(crate) weight: u64,
}

impl Leaving {
    /// What the operation adds to the weight of the records.
    pub(crate) fn added(&self, rec: &Record) -> u64
        ensures { result ≡ total_weight (new_last self.now.cancelled rec.now) }
    {
        if self.cancelled { 0 } else { rec.weight() }
    }
}

/// Whether so much and some more weigh a limit at most.
pub(crate) fn is_light(kept: u64, added: u64, weight: u64) -> bool
    ensures { result ≡ nat_le (kept + added) weight }
{
    kept <= weight && added <= weight - kept
}

// Whether a record goes where the operation is added.
pub(crate) fn goes(op: &Op, cancelled: bool, fid: Fid, earlier: &Op) -> bool
    requires { object (carried op.now) ≡ fid }
    ensures { result ≡ goes cancelled op.now earlier.now }
{
    if cancelled {
        earlier.mentions(fid)
    } else {
        drops(op, earlier)
    }
}

/// What goes where an operation is added. Looks at the records that mention the object that it has a kept version of, if
/// it has one.
pub(crate) fn leaving_with(shelf: &Shelf, index: &BTreeSet<Mention>, op: &Op) -> Leaving
    requires indexed { Covers index.now shelf.now.records }
    requires light { total_weight shelf.now.records < 2 ^ 64 }
    ensures cancelled { result.cancelled ≡ cancels op.now shelf.now.records }
    ensures least { result.least ≡ least (numbers (goes result.cancelled op.now) shelf.now.records) }
    ensures end { IfSome (carried op.now) (λ over. NoneBeyond shelf.now.records over.fid result.end) }
    ensures count { result.count + length (undropped (goes result.cancelled op.now) shelf.now.records) ≡ length shelf.now.records }
    ensures weight { result.weight + total_weight (undropped (goes result.cancelled op.now) shelf.now.records) ≡ total_weight shelf.now.records }
{
    match op.carried() {
        Some(over) => leaving_of(shelf, index, op, over.fid),
        None => Leaving {
            cancelled: false,
            least: None,
            end: None,
            count: 0,
            weight: 0,
        },
    }
}

// What goes where an operation on an object is added.
fn leaving_of(shelf: &Shelf, index: &BTreeSet<Mention>, op: &Op, fid: Fid) -> Leaving
    requires own { object (carried op.now) ≡ fid }
    requires indexed { Covers index.now shelf.now.records }
    requires light { total_weight shelf.now.records < 2 ^ 64 }
    ensures cancelled { result.cancelled ≡ cancels op.now shelf.now.records }
    ensures least { result.least ≡ least (numbers (goes result.cancelled op.now) shelf.now.records) }
    ensures end { NoneBeyond shelf.now.records fid result.end }
    ensures count { result.count + length (undropped (goes result.cancelled op.now) shelf.now.records) ≡ length shelf.now.records }
    ensures weight { result.weight + total_weight (undropped (goes result.cancelled op.now) shelf.now.records) ≡ total_weight shelf.now.records }
{
    let last = shelf.last();
    let cancelled = cancels(shelf, index, op);
    let mut least = None;
    let mut count = 0;
    let mut weight = 0;
    let mut after = None;
    let mut mentions = mentions_of(index, fid);
    while let Some(number) = take_next(&mut mentions, fid, last) {
        let record = shelf.at(number);
        if goes(op, cancelled, fid, &record.op) {
            least = least.or(Some(number));
            count += 1;
            weight += record.weight();
        }
        after = Some(number);
    }
    Leaving {
        cancelled,
        least,
        end: after,
        count,
        weight,
    }
}

/// What the records weigh together; none where that is 2^64 or more.
pub(crate) fn weigh(records: &[Record]) -> Option<u64>
    ensures some { IfSome result (λ weight. weight ≡ total_weight records.now) }
    ensures none { IfNone result (2 ^ 64 ≤ total_weight records.now) }
{
    let mut total: u64 = 0;
    for record in records {
        match total.checked_add(record.weight()) {
            Some(sum) => total = sum,
            None => return None,
        }
    }
    Some(total)
}

/// What records weigh together that weigh less than 2^64.
pub(crate) fn weigh_light(records: &[Record]) -> u64
    requires { total_weight records.now < 2 ^ 64 }
    ensures { result ≡ total_weight records.now }
{
    match weigh(records) {
        Some(weight) => weight,
        None => 0,
    }
}
