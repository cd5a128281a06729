ghost use Rattle.std.specs.Prelude.{◌≡◌, ◌≤◌, ◌<◌, ◌^◌, true, [], ◌++◌, take, drop, length, ◌+◌, IfOk, OnOk, OnErr, IfErr, IfSome};
ghost use Rattle.coda_fid.specs.declared.op.Record.{Record};
ghost use Rattle.coda_cancel.specs.Cancel.{add, added, cancels};
ghost use Rattle.coda_cancel.specs.Numbers.{AreBelow, IsRising, dropped, least};
ghost use Rattle.coda_cancel.specs.Joins.{joins_of};
ghost use Rattle.coda_cancel.specs.Mentions.{any_mentions, has, is_mentioned, IsIndexOf, IsSame, Loses};
ghost use Rattle.coda_cancel.specs.Passing.{goes, undropped};
ghost use Rattle.coda_cancel.specs.Weights.{fits, total_weight};

use crate::Join;
use crate::adding::add_each;
use crate::entering::{AddFault, add_bare, add_indexed};
use crate::indexing::{index_of, note_all};
use crate::leaving::{is_light, leaving_with, weigh, weigh_light};
use crate::lent::LentRecords;
use crate::mentions::{Mention, forget, has_object};
use crate::scanning::{Staying, staying_among};
use crate::shelf::Shelf;
use coda_fid::{Fid, Op, Record};
use std::alloc::{AllocError, Global};
use std::collections::BTreeSet;
use std::marker::Model;
use std::mem;

/// The most records that are without an index.
const MOST_UNINDEXED: usize = 64;

/// The records of a log that were not sent yet, in the order of their numbers.
///
/// An operation that is added drops the earlier ones that it makes needless (Kistler and
/// Satyanarayanan 1992). Contracts see the list of the records.
///
/// Beside the records there is what they weigh together, and an index of them by the objects that they mention, so that
/// an operation is added at the cost of the records that mention its object. Creations, and renames that replace
/// nothing, look for nothing in it: so it is made where another operation is added, or where there are many records.
#[derive(Debug, Drop)]
pub struct Tail {
    alloc: Global,
    shelf: Shelf,
    index: Option<BTreeSet<Mention>>,
    weight: u64,
}

impl Model for Tail {
    ghost use Rattle.std.specs.Prelude.{List};
    ghost use Rattle.coda_fid.specs.declared.op.Record.{Record};
    ghost use Rattle.coda_cancel.specs.Kept.{IsKept};

    ghost Value = { List Record };

    ghost view = { λ t. t.shelf.records };

    ghost invariant = { IsKept };
}

impl Tail {
    /// No records.
    pub fn new(alloc: Global) -> Tail
        ensures { result ≡ [] }
    {
        Tail {
            alloc,
            shelf: Shelf::new(alloc),
            index: None,
            weight: 0,
        }
    }

    /// The records, in the order of their numbers.
    pub fn records(&self) -> LentRecords<'_>
        ensures same { result ≡ self.now }
        ensures rising { IsRising result }
    {
        self.shelf.records()
    }

    /// How many records there are.
    pub fn len(&self) -> usize
        ensures { result ≡ length self.now }
    {
        self.shelf.len()
    }

    /// What the records weigh together.
    pub fn weight(&self) -> u64
        ensures { result ≡ total_weight self.now }
    {
        self.weight
    }

    /// Whether a record mentions an object. Costs one search among what the records mention; and where there is no index
    /// of that yet, the records, of which there are 64 at most then.
    pub fn mentions(&self, fid: Fid) -> bool
        ensures { result ≡ any_mentions fid self.now }
    {
        match &self.index {
            Some(index) => has_object(index, fid),
            None => self.shelf.records().mentions(fid),
        }
    }

    /// The records, in memory that was taken before.
    pub fn into_records(self) -> Vec<Record>
        ensures same { result.items ≡ self }
        ensures rising { IsRising result.items }
    {
        self.shelf.into_records()
    }

    /// Takes out the first records, so many.
    ///
    /// # Errors
    ///
    /// Fails for want of memory alone, and then all records stay.
    pub fn take_front(&mut self, count: usize) -> Result<Vec<Record>, AllocError>
        requires { count ≤ length self.old }
        ensures front { IfOk result (λ front. front.items ≡ take count self.old) }
        ensures rest { OnOk result (self.new ≡ drop count self.old) }
        ensures err { OnErr result (self.new ≡ self.old) }
    {
        let front = self.shelf.take_front(count)?;
        self.index = forget_front(self.index.take(), &front, &self.shelf);
        self.weight -= weigh_light(&front);
        Ok(front)
    }

    /// Adds an operation: drops the earlier records that it makes needless, hands the versions that
    /// they carried on to the next record of the same object, and puts the operation at the end. A
    /// removal of an object that was created here, and that no other record mentions, besides Stores
    /// and Setattrs of it, leaves nothing of the object and is not put there.
    ///
    /// Answers the least number that was dropped. The number of the operation is above those here.
    /// Costs the records that mention its object, by the logarithm of how many there are; and where there is no index yet,
    /// those that there are, which are few.
    ///
    /// # Errors
    ///
    /// `Memory` gives the operation back, and then all records stay.
    pub fn add(&mut self, rec: Record) -> Result<Option<u64>, AddFault>
        requires { AreBelow rec.number self.old }
        ensures ok { OnOk result (self.new ≡ add self.old rec) }
        ensures least { IfOk result (λ number. number ≡ least (dropped self.old rec)) }
        ensures memory { IfErr result (λ fault. fault ≡ AddFault.Memory rec) }
        ensures err { OnErr result (self.new ≡ self.old) }
    {
        if self.index.is_none() && self.shelf.len() < MOST_UNINDEXED && rec.op.carried().is_none() {
            return add_bare(&mut self.shelf, &mut self.weight, rec);
        }
        let mut index = match self.index.take() {
            Some(index) => index,
            None => match index_of(self.alloc, self.shelf.records()) {
                Ok(index) => index,
                Err(_) => return Err(AddFault::Memory(rec)),
            },
        };
        let added = add_indexed(&mut self.shelf, &mut index, &mut self.weight, rec);
        self.index = Some(index);
        added
    }

    /// Adds the records to those of an earlier part of the log in turn, which is left empty.
    ///
    /// Answers those that dropped records as they were added.
    ///
    /// # Errors
    ///
    /// Fails for want of memory alone, and then both parts stay as they were.
    pub fn put_behind(&mut self, earlier: &mut Vec<Record>) -> Result<Vec<Join>, AllocError>
        requires { IsRising (earlier.old.items ++ self.old) }
        ensures records { OnOk result (self.new ≡ added earlier.old.items self.old) }
        ensures joins { IfOk result (λ joins. joins.items ≡ joins_of earlier.old.items self.old) }
        ensures earlier { OnOk result (earlier.new.items ≡ []) }
        ensures err { OnErr result (self.new ≡ self.old) }
        ensures err_earlier { OnErr result (earlier.new.items ≡ earlier.old.items) }
    {
        let Some(weight) = self.weight_before(earlier) else {
            return Err(AllocError);
        };
        let mut joins = Vec::with_capacity(self.alloc, self.shelf.len())?;
        let mut index = self.whole_index()?;
        note_all(&mut index, LentRecords::of(earlier))?;
        let mut shelf = Shelf::of(self.alloc, earlier, self.shelf.len())?;
        let later = mem::replace(&mut self.shelf, Shelf::new(self.alloc)).into_records();
        self.weight = add_each(&mut shelf, &mut index, later, &mut joins, weight);
        self.shelf = shelf;
        self.index = Some(index);
        Ok(joins)
    }

    // The index of the records, in memory of its own.
    fn whole_index(&self) -> Result<BTreeSet<Mention>, AllocError>
        ensures { IfOk result (λ index. IsIndexOf index self.now) }
    {
        match &self.index {
            Some(index) => copy_index(index),
            None => index_of(self.alloc, self.shelf.records()),
        }
    }

    // What records of an earlier part weigh, if that and what these weigh is below 2^64 together.
    fn weight_before(&self, earlier: &[Record]) -> Option<u64>
        ensures weight { IfSome result (λ weight. weight ≡ total_weight earlier.now) }
        ensures light { IfSome result (λ weight. weight + total_weight self.now < 2 ^ 64) }
    {
        let weight = weigh(earlier)?;
        weight.checked_add(self.weight)?;
        Some(weight)
    }

    // Whether there are few records, and light ones, so that the operation fits though none goes. Looks at none of them.
    #[tactic(auto, using(crate::proofs::Entered::room_left))]
    fn is_ample(&self, rec: &Record, count: usize, weight: u64) -> bool
        ensures { result ≡ true → fits count weight (add self.now rec.now) ≡ true }
    {
        self.shelf.len() < count && is_light(self.weight, rec.weight(), weight)
    }

    // Which records stay where the operation is added.
    fn staying(&self, op: &Op) -> Staying
        ensures cancelled { result.cancelled ≡ cancels op.now self.now }
        ensures count { result.count ≡ length (undropped (goes result.cancelled op.now) self.now) }
        ensures weight { result.weight ≡ total_weight (undropped (goes result.cancelled op.now) self.now) }
    {
        let all = self.weight;
        match &self.index {
            Some(index) => {
                let gone = leaving_with(&self.shelf, index, op);
                Staying {
                    cancelled: gone.cancelled,
                    count: self.shelf.len() - gone.count,
                    weight: all - gone.weight,
                }
            }
            None => staying_among(&self.shelf, op, all),
        }
    }

    // Whether the operation fits, by the records that stay.
    fn fits_with(&self, rec: &Record, count: usize, weight: u64) -> bool
        ensures { result ≡ fits count weight (add self.now rec.now) }
    {
        let staying = self.staying(&rec.op);
        staying.are_few(count) && is_light(staying.weight, staying.added(rec), weight)
    }

    /// Whether there would be so many records at most, and they would weigh so much at most, if the
    /// operation were added.
    pub fn fits_after(&self, rec: &Record, count: usize, weight: u64) -> bool
        ensures { result ≡ fits count weight (add self.now rec.now) }
    {
        self.is_ample(rec, count, weight) || self.fits_with(rec, count, weight)
    }

    /// The same records, in memory of their own.
    pub fn copy(&self) -> Result<Tail, AllocError>
        ensures { IfOk result (λ tail. tail ≡ self.now) }
    {
        let shelf = self.shelf.copy(self.alloc)?;
        let index = match &self.index {
            Some(index) => Some(copy_index(index)?),
            None => None,
        };
        Ok(Tail {
            alloc: self.alloc,
            shelf,
            index,
            weight: self.weight,
        })
    }
}

// The same index, in memory of its own.
fn copy_index(index: &BTreeSet<Mention>) -> Result<BTreeSet<Mention>, AllocError>
    ensures { IfOk result (λ copy. IsSame (has index.now) (has copy)) }
{
    index.clone()
}

// The index of the others, where records at the front are left out. Where there are no others, none is kept.
fn forget_front(
    index: Option<BTreeSet<Mention>>,
    front: &[Record],
    rest: &Shelf,
) -> Option<BTreeSet<Mention>>
    requires rising { IsRising (front.now ++ rest.now.records) }
    requires indexed { IfSome index (λ index. IsIndexOf index (front.now ++ rest.now.records)) }
    ensures { IfSome result (λ index. IsIndexOf index rest.now.records) }
{
    let mut index = index?;
    if rest.len() == 0 {
        return None;
    }
    forget_all(&mut index, front);
    Some(index)
}

// Takes out what records mention.
fn forget_all(index: &mut BTreeSet<Mention>, records: &[Record])
    ensures { Loses (has index.old) (has index.new) (is_mentioned records.now) }
{
    for record in records {
        forget(index, record);
    }
}
