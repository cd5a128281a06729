ghost use Rattle.std.specs.Prelude.{◌≡◌, ◌↔◌, IsTrue, ◌<◌, ◌^◌, [], ◌∷◌, drop, length, IfOk, IfSome, IfNone};
ghost use Rattle.coda_cancel.specs.Mentions.{any_mentions};
ghost use Rattle.coda_cancel.specs.Slots.{kept_in};

use crate::shelf::{Slot, copy_kept};
use coda_fid::{Fid, Record};
use std::alloc::{AllocError, Global};
use std::marker::Model;

/// Records that are lent, in the order of their numbers.
///
/// Contracts see the list of the records. Between those of a tail there may be gaps, which reading goes past.
#[derive(Drop)]
pub struct LentRecords<'a> {
    // Those of a slice, and then those that stand in places; so many together.
    front: &'a [Record],
    slots: &'a [Slot],
    count: usize,
}

impl<'a> Model for LentRecords<'a> {
    ghost use Rattle.std.specs.Prelude.{◌≡◌, ◌<◌, ◌^◌, ◌++◌, List, length};
    ghost use Rattle.coda_fid.specs.declared.op.Record.{Record};
    ghost use Rattle.coda_cancel.specs.Slots.{kept_in};

    ghost Value = { List Record };

    ghost view = { λ r. r.front.now ++ kept_in r.slots.now };

    ghost invariant = { λ r. (r.count ≡ length (r.front.now ++ kept_in r.slots.now)) × (r.count < 2 ^ 63) };
}

impl<'a> LentRecords<'a> {
    // What stands in places, so many records.
    pub(crate) fn in_slots(slots: &'a [Slot], count: usize) -> LentRecords<'a>
        requires count { count ≡ length (kept_in slots.now) }
        requires small { count < 2 ^ 63 }
        ensures { result ≡ kept_in slots.now }
    {
        let front: &[Record] = &[];
        LentRecords {
            front,
            slots,
            count,
        }
    }

    /// The records of a slice.
    pub fn of(records: &'a [Record]) -> LentRecords<'a>
        ensures { result ≡ records.now }
    {
        let slots: &[Slot] = &[];
        LentRecords {
            front: records,
            slots,
            count: records.len(),
        }
    }

    /// How many records there are.
    pub fn len(&self) -> usize
        ensures count { result ≡ length self.now }
        ensures small { result < 2 ^ 63 }
    {
        self.count
    }

    /// Whether there is none.
    pub fn is_empty(&self) -> bool
        ensures { IsTrue result ↔ (self.now ≡ []) }
    {
        self.count == 0
    }

    /// The first record.
    pub fn first(&self) -> Option<&'a Record>
        ensures some { IfSome result (λ rec. self.now ≡ rec.now ∷ drop 1 self.now) }
        ensures none { IfNone result (self.now ≡ []) }
    {
        match self.front {
            [first, ..] => Some(first),
            [] => first_in(self.slots).0,
        }
    }

    /// The first record, which is left out from then on.
    pub fn take_first(&mut self) -> Option<&'a Record>
        ensures some { IfSome result (λ rec. self.old ≡ rec.now ∷ self.new) }
        ensures none { IfNone result (self.old ≡ []) }
        ensures end { IfNone result (self.new ≡ []) }
    {
        if let [first, rest @ ..] = self.front {
            self.front = rest;
            self.count -= 1;
            return Some(first);
        }
        let (first, rest) = first_in(self.slots);
        self.slots = rest;
        if first.is_some() {
            self.count -= 1;
        }
        first
    }

    /// Whether a record mentions an object. Costs the records up to the first that does.
    pub fn mentions(mut self, fid: Fid) -> bool
        ensures { result ≡ any_mentions fid self.entry }
    {
        while let Some(record) = self.take_first() {
            if record.op.mentions(fid) {
                return true;
            }
        }
        false
    }

    /// The same records, in memory of their own.
    pub fn to_vec(&self, alloc: Global) -> Result<Vec<Record>, AllocError>
        ensures { IfOk result (λ records. records.items ≡ self.now) }
    {
        let mut copies = Vec::new(alloc);
        for record in self.front {
            let copy = record.copy()?;
            copies.push(copy)?;
        }
        copy_kept(&mut copies, self.slots)?;
        Ok(copies)
    }
}

// The first record that stands in places, and the places behind it.
fn first_in(slots: &[Slot]) -> (Option<&Record>, &[Slot])
    ensures some { IfSome result.0 (λ rec. kept_in slots.now ≡ rec.now ∷ kept_in result.1.now) }
    ensures none { IfNone result.0 ((kept_in slots.now ≡ []) × (kept_in result.1.now ≡ [])) }
{
    let mut rest = slots;
    while let [slot, behind @ ..] = rest {
        rest = behind;
        if let Slot::Kept(record) = slot {
            return (Some(record), rest);
        }
    }
    (None, rest)
}
