ghost use Rattle.std.specs.Prelude.{◌≡◌, ◌+◌, ◌-◌, ◌<◌, ◌++◌, ◌∷◌, ◌||◌, ◌&&◌, [], false, not, cond, ℕ, List, Option, Some, None, IfOk, OnOk};
ghost use Rattle.coda_fid.specs.declared.fid.Fid.{Fid};
ghost use Rattle.coda_fid.specs.Fid.{same_fid};
ghost use Rattle.coda_walk.specs.declared.rank.Rank.{Rank};
ghost use Rattle.coda_walk.specs.declared.item.Item.{Item};
ghost use Rattle.coda_walk.specs.Going.{blocks_of, without};
ghost use Rattle.coda_walk.specs.Laws.{Among};
ghost use Rattle.coda_walk.specs.Planning.{item_at};
ghost use Rattle.coda_walk.specs.Queue.{place_in, count_in, is_in, used_at, under_count, one_under, set_at, same_rank, with_last, with_item, AreFree, AreFreeBut, AreKeyed, FitsBetween, IsQueueOf, time_of};

use crate::Item;
use crate::rank::{Rank, Standing, may_leave, rank_of};
use coda_fid::Fid;
use std::alloc::{AllocError, Global};
use std::collections::{BTreeSet, HashMap};

/// Items in the order of their use, kept so that who goes is found without a look at all of them.
///
/// A change takes logarithmic time. Clauses say of which items it is the queue. A call that fails leaves it as no queue of
/// any items: it is to be made anew.
#[derive(Drop)]
pub struct Queue {
    pub(crate) places: HashMap<Fid, Standing>,
    // how many items stand under each object
    pub(crate) children: HashMap<Fid, u64>,
    // the ranks of the items that aren't pinned and have nothing under them
    pub(crate) free: BTreeSet<Rank>,
    pub(crate) clock: u64,
    pub(crate) total: u64,
}

// ---- counts

// How many items stand under an object.
pub(crate) fn count(children: &HashMap<Fid, u64>, fid: Fid) -> u64
    ensures { result ≡ count_in children.now fid }
{
    children.get(&fid).copied().unwrap_or(0)
}

// Sets how many items stand under an object.
pub(crate) fn set_count(
    children: &mut HashMap<Fid, u64>,
    fid: Fid,
    count: u64,
) -> Result<(), AllocError>
    ensures { OnOk result ((p : Fid) → count_in children.new p ≡ set_at fid count (count_in children.old) p) }
{
    if count == 0 {
        let _ = children.remove(&fid);
    } else {
        children.insert(fid, count)?;
    }
    Ok(())
}

// ---- places

// Puts in where an item stands.
fn put_place(
    places: &mut HashMap<Fid, Standing>,
    fid: Fid,
    standing: Standing,
) -> Result<(), AllocError>
    ensures { OnOk result ((f : Fid) → place_in places.new f ≡ cond (same_fid f fid) (Some standing) (place_in places.old f)) }
{
    places.insert(fid, standing)?;
    Ok(())
}

// Takes out where an item stands.
fn take_place(places: &mut HashMap<Fid, Standing>, fid: Fid)
    ensures { (f : Fid) → place_in places.new f ≡ cond (same_fid f fid) None (place_in places.old f) }
{
    let _ = places.remove(&fid);
}

// ---- ranks

// Takes out the rank of an object.
fn hide(free: &mut BTreeSet<Rank>, places: &HashMap<Fid, Standing>, fid: Fid)
    ensures { (children : Fid → ℕ) → AreKeyed (place_in places.now) → AreFree (place_in places.now) children (is_in free.old) → AreFreeBut (place_in places.now) children fid (is_in free.new) }
{
    if let Some(standing) = places.get(&fid) {
        take_rank(free, rank_of(standing));
    }
}

// Takes out a rank.
pub(crate) fn take_rank(free: &mut BTreeSet<Rank>, rank: Rank)
    ensures { (r : Rank) → is_in free.new r ≡ (not (same_rank rank r) && is_in free.old r) }
{
    free.remove(&rank);
}

// Puts in a rank.
pub(crate) fn put_rank(free: &mut BTreeSet<Rank>, rank: Rank) -> Result<(), AllocError>
    ensures { OnOk result ((r : Rank) → is_in free.new r ≡ (same_rank rank r || is_in free.old r)) }
{
    free.insert(rank)?;
    Ok(())
}

// Puts in the rank of an object, where its item may go.
fn show(
    free: &mut BTreeSet<Rank>,
    places: &HashMap<Fid, Standing>,
    children: &HashMap<Fid, u64>,
    fid: Fid,
) -> Result<(), AllocError>
    ensures { AreKeyed (place_in places.now) → AreFreeBut (place_in places.now) (count_in children.now) fid (is_in free.old) → OnOk result (AreFree (place_in places.now) (count_in children.now) (is_in free.new)) }
{
    match places.get(&fid) {
        Some(standing) => {
            if may_leave(standing, count(children, fid)) {
                put_rank(free, rank_of(standing))
            } else {
                Ok(())
            }
        }
        None => Ok(()),
    }
}

// Counts one item more under a parent.
fn add_child(
    free: &mut BTreeSet<Rank>,
    places: &HashMap<Fid, Standing>,
    children: &mut HashMap<Fid, u64>,
    parent: Option<Fid>,
) -> Result<(), AllocError>
    ensures free { AreKeyed (place_in places.now) → AreFree (place_in places.now) (count_in children.old) (is_in free.old) → OnOk result (AreFree (place_in places.now) (count_in children.new) (is_in free.new)) }
    ensures counts { OnOk result ((p : Fid) → count_in children.new p ≡ count_in children.old p + one_under parent p) }
{
    match parent {
        Some(parent) => {
            hide(free, places, parent);
            let more = count(children, parent).checked_add(1).ok_or(AllocError)?;
            set_count(children, parent, more)
        }
        None => Ok(()),
    }
}

// Counts one item less under a parent.
fn take_child(
    free: &mut BTreeSet<Rank>,
    places: &HashMap<Fid, Standing>,
    children: &mut HashMap<Fid, u64>,
    parent: Option<Fid>,
) -> Result<(), AllocError>
    ensures free { AreKeyed (place_in places.now) → AreFree (place_in places.now) (count_in children.old) (is_in free.old) → OnOk result (AreFree (place_in places.now) (count_in children.new) (is_in free.new)) }
    ensures counts { OnOk result ((p : Fid) → count_in children.new p ≡ count_in children.old p - one_under parent p) }
{
    match parent {
        Some(parent) => {
            hide(free, places, parent);
            let less = count(children, parent).saturating_sub(1);
            set_count(children, parent, less)?;
            show(free, places, children, parent)?;
            Ok(())
        }
        None => Ok(()),
    }
}

impl Queue {
    /// A queue of no items.
    pub fn new(alloc: Global) -> Queue
        ensures { IsQueueOf result [] }
    {
        Queue {
            places: HashMap::new(alloc),
            children: HashMap::new(alloc),
            free: BTreeSet::new(alloc),
            clock: 0,
            total: 0,
        }
    }

    /// The blocks that the items take together.
    pub fn blocks(&self) -> u64
        ensures { (items : List Item) → IsQueueOf self.now items → result ≡ blocks_of items }
    {
        self.total
    }

    /// How many items stand under an object.
    pub fn under(&self, fid: Fid) -> u64
        ensures { (items : List Item) → IsQueueOf self.now items → result ≡ under_count fid items }
    {
        count(&self.children, fid)
    }

    /// The item of an object.
    pub fn get(&self, fid: Fid) -> Option<Item>
        ensures { (items : List Item) → IsQueueOf self.now items → result ≡ item_at items fid }
    {
        match self.places.get(&fid) {
            Some(standing) => Some(standing.item),
            None => None,
        }
    }

    /// When an object was used, 0 where it has no item: later than those that stand before it.
    pub fn used(&self, fid: Fid) -> u64
        ensures { result ≡ time_of self.now fid }
    {
        match self.places.get(&fid) {
            Some(standing) => standing.used,
            None => 0,
        }
    }

    // Takes out an item that stands there.
    fn take(&mut self, standing: Standing) -> Result<(), AllocError>
        ensures items { (items : List Item) → IsQueueOf self.old items → place_in self.old.places standing.item.fid ≡ Some standing → OnOk result (IsQueueOf self.new (without standing.item.fid items)) }
        ensures gone { place_in self.new.places standing.item.fid ≡ None }
        ensures others { (f : Fid) → same_fid f standing.item.fid ≡ false → place_in self.new.places f ≡ place_in self.old.places f }
        ensures clock { self.new.clock ≡ self.old.clock }
    {
        let item = standing.item;
        hide(&mut self.free, &self.places, item.fid);
        take_place(&mut self.places, item.fid);
        self.total = self.total.saturating_sub(item.blocks as u64);
        take_child(
            &mut self.free,
            &self.places,
            &mut self.children,
            item.parent,
        )?;
        Ok(())
    }

    // Puts in an item whose object has none.
    fn add(&mut self, standing: Standing) -> Result<(), AllocError>
        ensures { (front back : List Item) → IsQueueOf self.old (front ++ back) → FitsBetween (used_at (place_in self.old.places)) front back standing.used → place_in self.old.places standing.item.fid ≡ None → standing.used < self.old.clock → OnOk result (IsQueueOf self.new (front ++ standing.item ∷ back)) }
    {
        let item = standing.item;
        self.total = self
            .total
            .checked_add(item.blocks as u64)
            .ok_or(AllocError)?;
        add_child(
            &mut self.free,
            &self.places,
            &mut self.children,
            item.parent,
        )?;
        put_place(&mut self.places, item.fid, standing)?;
        show(&mut self.free, &self.places, &self.children, item.fid)?;
        Ok(())
    }

    /// Takes out the item of an object.
    pub fn take_out(&mut self, fid: Fid) -> Result<(), AllocError>
        ensures { (items : List Item) → IsQueueOf self.old items → OnOk result (IsQueueOf self.new (without fid items)) }
    {
        match self.places.get(&fid).copied() {
            Some(standing) => {
                self.take(standing)?;
                Ok(())
            }
            None => Ok(()),
        }
    }

    /// Puts in an item that is used last, in the place of the one that its object has.
    pub fn put(&mut self, item: Item) -> Result<(), AllocError>
        ensures { (items : List Item) → IsQueueOf self.old items → OnOk result (IsQueueOf self.new (with_last items item)) }
    {
        self.take_out(item.fid)?;
        let used = self.clock;
        self.clock = used.checked_add(1).ok_or(AllocError)?;
        self.add(Standing { item, used })?;
        Ok(())
    }

    /// Puts an item in the place of the one that its object has, where it has one.
    pub fn change(&mut self, item: Item) -> Result<(), AllocError>
        ensures { (items : List Item) → IsQueueOf self.old items → OnOk result (IsQueueOf self.new (with_item item items)) }
    {
        match self.places.get(&item.fid).copied() {
            Some(standing) => {
                self.take(standing)?;
                self.add(Standing {
                    item,
                    used: standing.used,
                })?;
                Ok(())
            }
            None => Ok(()),
        }
    }
}
