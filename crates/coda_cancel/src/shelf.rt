// Records in the order of their numbers, found by these.
ghost use Rattle.std.specs.Prelude.{◌≡◌, ◌≤◌, ◌<◌, ◌+◌, ◌^◌, true, List, [], ◌∷◌, ◌++◌, Some, length, take, drop, map, not, IfOk, OnOk, OnErr, IfSome, IsSome};
ghost use Rattle.std.specs.Vec.{vec_len, vec_capacity};
ghost use Rattle.coda_fid.specs.declared.op.Record.{Record};
ghost use Rattle.coda_cancel.specs.declared.shelf.Slot.{Slot};
ghost use Rattle.coda_cancel.specs.declared.shelf.Slot.TheVariants.{Gone, Kept};
ghost use Rattle.coda_cancel.specs.Handing.{hand};
ghost use Rattle.coda_cancel.specs.Mentions.{last_number};
ghost use Rattle.coda_cancel.specs.Numbers.{AreBelow, IsRising};
ghost use Rattle.coda_cancel.specs.Passing.{owed_to};
ghost use Rattle.coda_cancel.specs.Shelved.{is_numbered, AtNumber};
ghost use Rattle.coda_cancel.specs.Slots.{number_of, is_kept, record_of, kept_in, DoSlotsRise, is_last_kept};

use crate::handing::pay;
use crate::lent::LentRecords;
use coda_fid::{Fid, Record, Sid};
use std::alloc::{AllocError, Global};
use std::marker::Model;
use std::mem;

// A place for a record, or for one of this number that is gone.
#[derive(Debug, Drop)]
pub(crate) enum Slot {
    Gone(u64),
    Kept(Record),
}

/// Records in the order of their numbers. One that is taken out leaves a gap; gaps are closed before a record is put in
/// where there are more of them than records.
#[derive(Debug, Drop)]
pub(crate) struct Shelf {
    slots: Vec<Slot>,
    count: usize,
    // Without elements, with room for all records, so that to hand them out wants no memory.
    spare: Vec<Record>,
}

impl Model for Shelf {
    ghost use Rattle.coda_cancel.specs.Shelved.{Shelved};
    ghost use Rattle.coda_cancel.specs.Slots.{view_of, IsShelf};

    ghost Value = { Shelved };

    ghost view = { view_of };

    ghost invariant = { IsShelf };
}

// ---- a place

impl Slot {
    fn number(&self) -> u64
        ensures { result ≡ number_of self.now }
    {
        match self {
            Slot::Gone(number) => *number,
            Slot::Kept(record) => record.number,
        }
    }

    fn is_kept(&self) -> bool
        ensures { result ≡ is_kept self.now }
    {
        match self {
            Slot::Gone(_) => false,
            Slot::Kept(_) => true,
        }
    }

    fn record(&self) -> Option<&Record>
        requires { is_kept self.now ≡ true }
        ensures record { IfSome result (λ rec. self.now ≡ Kept rec.now) }
        ensures there { IsSome result }
    {
        match self {
            Slot::Gone(_) => None,
            Slot::Kept(record) => Some(record),
        }
    }

    fn take(&mut self) -> Option<Record>
        ensures record { result ≡ record_of self.old }
        ensures gone { self.new ≡ Gone (number_of self.old) }
    {
        let number = self.number();
        match mem::replace(self, Slot::Gone(number)) {
            Slot::Gone(_) => None,
            Slot::Kept(record) => Some(record),
        }
    }

    fn pay(&mut self, fid: Fid, owed: Option<Sid>)
        ensures { (rec : Record) → self.old ≡ Kept rec → self.new ≡ Kept (hand (owed_to fid owed) rec) }
    {
        if let Slot::Kept(record) = self {
            pay(record, fid, owed);
        }
    }
}

// ---- places

// Where the place of the number is, by halves.
fn search(slots: &[Slot], number: u64) -> usize
    requires rising { DoSlotsRise slots.now }
    requires some { 0 < length slots.now }
    ensures place { (front : List Slot) (slot : Slot) (back : List Slot) → slots.now ≡ front ++ slot ∷ back → number_of slot ≡ number → result ≡ length front }
    ensures within { result < length slots.now }
{
    let mut low = 0;
    let mut high = slots.len();
    while low + 1 < high {
        let middle = low + (high - low) / 2;
        if slots[middle].number() <= number {
            low = middle;
        } else {
            high = middle;
        }
    }
    low
}

// Where the place of the number is if none is missing between it and the first.
fn place_behind_first(slots: &[Slot], number: u64) -> usize
    requires { 0 < length slots.now }
    ensures { result < length slots.now }
{
    let last = slots.len() - 1;
    let behind = number.saturating_sub(slots[0].number());
    if behind < last as u64 {
        behind as usize
    } else {
        last
    }
}

// Where the place of the number is if none is missing between it and the last.
fn place_before_last(slots: &[Slot], number: u64) -> usize
    requires { 0 < length slots.now }
    ensures { result < length slots.now }
{
    let last = slots.len() - 1;
    let before = slots[last].number().saturating_sub(number);
    if before < last as u64 {
        last - before as usize
    } else {
        0
    }
}

// Where the place of the number is.
//
// Most numbers stand where counting from the first or from the last leads.
fn position(slots: &[Slot], number: u64) -> usize
    requires rising { DoSlotsRise slots.now }
    requires some { 0 < length slots.now }
    ensures place { (front : List Slot) (slot : Slot) (back : List Slot) → slots.now ≡ front ++ slot ∷ back → number_of slot ≡ number → result ≡ length front }
    ensures within { result < length slots.now }
{
    let behind = place_behind_first(slots, number);
    if slots[behind].number() == number {
        return behind;
    }
    let before = place_before_last(slots, number);
    if slots[before].number() == number {
        return before;
    }
    search(slots, number)
}

// Whether the last place has no record.
fn ends_in_gap(slots: &[Slot]) -> bool
    ensures { result ≡ not (is_last_kept slots.now) }
{
    match slots.last() {
        Some(slot) => !slot.is_kept(),
        None => false,
    }
}

// Takes out the last places, as far as they have no record.
fn trim(slots: &mut Vec<Slot>)
    ensures records { kept_in slots.new.items ≡ kept_in slots.old.items }
    ensures last { is_last_kept slots.new.items ≡ true }
    ensures rising { DoSlotsRise slots.old.items → DoSlotsRise slots.new.items }
    ensures len { vec_len slots.new ≤ vec_len slots.old }
    ensures capacity { vec_capacity slots.new ≡ vec_capacity slots.old }
{
    while ends_in_gap(slots) {
        slots.truncate(slots.len() - 1);
    }
}

// Closes the gaps.
fn close_gaps(slots: &mut Vec<Slot>)
    ensures records { kept_in slots.new.items ≡ kept_in slots.old.items }
    ensures last { is_last_kept slots.new.items ≡ true }
    ensures rising { DoSlotsRise slots.old.items → DoSlotsRise slots.new.items }
    ensures len { vec_len slots.new ≤ vec_len slots.old }
    ensures capacity { vec_capacity slots.new ≡ vec_capacity slots.old }
{
    slots.retain(|slot| slot.is_kept());
}

// Moves records to the end of places.
fn fill(slots: &mut Vec<Slot>, records: Vec<Record>)
    requires { vec_len slots.old + vec_len records ≤ vec_capacity slots.old }
    ensures slots { slots.new.items ≡ slots.old.items ++ map Kept records.items }
    ensures capacity { vec_capacity slots.new ≡ vec_capacity slots.old }
{
    for record in records {
        slots.push_reserved(Slot::Kept(record));
    }
}

// Moves the records out of places, behind others.
fn empty(slots: Vec<Slot>, records: &mut Vec<Record>)
    requires { vec_len records.old + length (kept_in slots.items) ≤ vec_capacity records.old }
    ensures { records.new.items ≡ records.old.items ++ kept_in slots.items }
{
    for slot in slots {
        if let Slot::Kept(record) = slot {
            records.push_reserved(record);
        }
    }
}

// Takes the records out of the first places, so many, and puts them behind others. The places stay, as gaps, so that the
// other records need not be moved.
fn vacate(slots: &mut Vec<Slot>, places: usize, records: &mut Vec<Record>)
    requires within { places ≤ vec_len slots.old }
    requires room { vec_len records.old + length (kept_in (take places slots.old.items)) ≤ vec_capacity records.old }
    ensures records { records.new.items ≡ records.old.items ++ kept_in (take places slots.old.items) }
    ensures rest { kept_in slots.new.items ≡ kept_in (drop places slots.old.items) }
    ensures rising { DoSlotsRise slots.old.items → DoSlotsRise slots.new.items }
    ensures len { vec_len slots.new ≡ vec_len slots.old }
    ensures capacity { vec_capacity slots.new ≡ vec_capacity slots.old }
{
    for at in 0..places {
        if let Some(record) = slots[at].take() {
            records.push_reserved(record);
        }
    }
}

// How many places hold the first records, so many.
fn places_of(slots: &[Slot], count: usize) -> usize
    requires { count ≤ length (kept_in slots.now) }
    ensures front { kept_in (take result slots.now) ≡ take count (kept_in slots.now) }
    ensures rest { kept_in (drop result slots.now) ≡ drop count (kept_in slots.now) }
    ensures within { result ≤ length slots.now }
{
    let mut left = count;
    let mut places = 0;
    for slot in slots {
        if left == 0 {
            return places;
        }
        if slot.is_kept() {
            left -= 1;
        }
        places += 1;
    }
    places
}

impl Shelf {
    /// No records.
    pub(crate) fn new(alloc: Global) -> Shelf
        ensures { result.records ≡ [] }
    {
        Shelf {
            slots: Vec::new(alloc),
            count: 0,
            spare: Vec::new(alloc),
        }
    }

    /// These records, taken out of a vector, with room for so many more; where memory is wanted they stay there.
    pub(crate) fn of(
        alloc: Global,
        records: &mut Vec<Record>,
        more: usize,
    ) -> Result<Shelf, AllocError>
        requires { IsRising records.old.items }
        ensures records { IfOk result (λ shelf. shelf.records ≡ records.old.items) }
        ensures room { IfOk result (λ shelf. more ≤ shelf.room) }
        ensures emptied { OnOk result (records.new.items ≡ []) }
        ensures err { OnErr result (records.new.items ≡ records.old.items) }
    {
        let count = records.len();
        let Some(room) = count.checked_add(more) else {
            return Err(AllocError);
        };
        let mut slots = Vec::with_capacity(alloc, room)?;
        let spare = Vec::with_capacity(alloc, room)?;
        fill(&mut slots, mem::replace(records, Vec::new(alloc)));
        Ok(Shelf {
            slots,
            count,
            spare,
        })
    }

    /// Makes room for so many more.
    pub(crate) fn reserve(&mut self, count: usize) -> Result<(), AllocError>
        ensures records { self.new.records ≡ self.old.records }
        ensures room { OnOk result (count ≤ self.new.room) }
    {
        if self.slots.len() - self.count > self.count {
            close_gaps(&mut self.slots);
        }
        let Some(room) = self.slots.len().checked_add(count) else {
            return Err(AllocError);
        };
        self.slots.reserve(count)?;
        self.spare.reserve(room)
    }

    /// How many records there are.
    pub(crate) fn len(&self) -> usize
        ensures { result ≡ length self.now.records }
    {
        self.count
    }

    /// The number of the last record.
    pub(crate) fn last(&self) -> Option<u64>
        ensures last { result ≡ last_number self.now.records }
        ensures rising { IsRising self.now.records }
    {
        match self.slots.last() {
            Some(slot) => Some(slot.number()),
            None => None,
        }
    }

    /// The record of a number that is there.
    pub(crate) fn at(&self, number: u64) -> &Record
        requires { is_numbered number self.now.records ≡ true }
        ensures record { AtNumber number self.now.records (λ front rec back. result.now ≡ rec) }
        ensures rising { IsRising self.now.records }
        ensures few { length self.now.records < 2 ^ 64 }
    {
        self.slots[position(&self.slots, number)].record().unwrap()
    }

    /// Puts a record behind the others. Its number is above theirs.
    pub(crate) fn push(&mut self, rec: Record)
        requires room { 0 < self.old.room }
        requires later { AreBelow rec.number self.old.records }
        ensures records { self.new.records ≡ self.old.records ++ rec ∷ [] }
        ensures room { self.new.room + 1 ≡ self.old.room }
    {
        self.slots.push_reserved(Slot::Kept(rec));
        self.count += 1;
    }

    /// Takes out the record of a number that is there.
    pub(crate) fn take(&mut self, number: u64) -> Record
        requires { is_numbered number self.old.records ≡ true }
        ensures record { AtNumber number self.old.records (λ front rec back. result ≡ rec) }
        ensures others { AtNumber number self.old.records (λ front rec back. self.new.records ≡ front ++ back) }
        ensures rising { IsRising self.new.records }
        ensures room { self.old.room ≤ self.new.room }
    {
        let at = position(&self.slots, number);
        let record = self.slots[at].take();
        self.count -= 1;
        trim(&mut self.slots);
        record.unwrap()
    }

    /// Hands the record of a number that is there what is owed to an object.
    pub(crate) fn pay(&mut self, number: u64, fid: Fid, owed: Option<Sid>)
        requires there { is_numbered number self.old.records ≡ true }
        ensures paid { AtNumber number self.old.records (λ front rec back. self.new.records ≡ front ++ hand (owed_to fid owed) rec ∷ back) }
        ensures rising { IsRising self.new.records }
        ensures room { self.new.room ≡ self.old.room }
    {
        let at = position(&self.slots, number);
        self.slots[at].pay(fid, owed);
    }

    /// Takes out the first records, so many. Where memory is wanted all stay.
    pub(crate) fn take_front(&mut self, count: usize) -> Result<Vec<Record>, AllocError>
        requires { count ≤ length self.old.records }
        ensures front { IfOk result (λ front. front.items ≡ take count self.old.records) }
        ensures rest { OnOk result (self.new.records ≡ drop count self.old.records) }
        ensures err { OnErr result (self.new.records ≡ self.old.records) }
    {
        let mut front = Vec::with_capacity(*self.spare.allocator(), count)?;
        let places = places_of(&self.slots, count);
        vacate(&mut self.slots, places, &mut front);
        self.count -= count;
        trim(&mut self.slots);
        Ok(front)
    }

    /// The records, in the order of their numbers.
    pub(crate) fn records(&self) -> LentRecords<'_>
        ensures same { result ≡ self.now.records }
        ensures rising { IsRising result }
    {
        LentRecords::in_slots(&self.slots, self.count)
    }

    /// The records, in memory that was taken before.
    pub(crate) fn into_records(self) -> Vec<Record>
        ensures same { result.items ≡ self.records }
        ensures rising { IsRising result.items }
    {
        let Shelf {
            slots,
            mut spare,
            ..
        } = self;
        empty(slots, &mut spare);
        spare
    }

    /// The same records, in memory of their own.
    pub(crate) fn copy(&self, alloc: Global) -> Result<Shelf, AllocError>
        ensures { IfOk result (λ shelf. shelf.records ≡ self.now.records) }
    {
        let mut records = Vec::new(alloc);
        copy_kept(&mut records, &self.slots)?;
        Shelf::of(alloc, &mut records, 0)
    }
}

// Puts copies of the records that stand in places behind others.
pub(crate) fn copy_kept(copies: &mut Vec<Record>, slots: &[Slot]) -> Result<(), AllocError>
    ensures { OnOk result (copies.new.items ≡ copies.old.items ++ kept_in slots.now) }
{
    for slot in slots {
        if let Slot::Kept(record) = slot {
            let copy = record.copy()?;
            copies.push(copy)?;
        }
    }
    Ok(())
}
