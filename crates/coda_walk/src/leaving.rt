ghost use Rattle.std.specs.Prelude.{◌≡◌, ◌-◌, ◌++◌, ◌∷◌, ◌&&◌, ◌||◌, [], true, false, not, ℕ, List, Option, Some, None, IfOk, OnOk, IfSome, IfNone, nat_le, Bool};
ghost use Rattle.std.specs.BTreeSet as tree_set;
ghost use Rattle.std.specs.Ordering.{is_gt};
ghost use Rattle.coda_fid.specs.declared.fid.Fid.{Fid};
ghost use Rattle.coda_fid.specs.Fid.{fid_cmp};
ghost use Rattle.coda_walk.specs.declared.item.Item.{Item};
ghost use Rattle.coda_walk.specs.declared.rank.Rank.{Rank};
ghost use Rattle.coda_walk.specs.Going.{blocks_of, is_listed, who_goes};
ghost use Rattle.coda_walk.specs.Laws.{left};
ghost use Rattle.coda_walk.specs.Queue.{place_in, is_in, one_under, frees_at, rank_cmp, same_rank, IsQueueOf};
ghost use Rattle.coda_walk.specs.Leaving.{is_after, is_pooled, remaining, frees_under, pool_of, IsFirstOf, Takes, AreKept, AreInTurn, IsTurn};

use crate::Item;
use crate::queue::{Queue, count, put_rank, take_rank};
use crate::rank::{Rank, Standing, may_leave, rank_of};
use coda_fid::Fid;
use std::alloc::{AllocError, Global};
use std::collections::{BTreeSet, HashMap};
use std::ops::Bound;

/// Who goes from a queue.
#[derive(Debug, Drop)]
pub struct Gone {
    /// Those who go, in order.
    pub fids: Vec<Fid>,
    /// Whether the rest fits.
    pub fits: bool,
}

// The ranks that are still to be looked at: those of the queue after one of them, and those of items under which nothing is
// left.
#[derive(Drop)]
pub(crate) struct Pool {
    pub after: Option<Rank>,
    pub more: BTreeSet<Rank>,
}

// How far it is: who went, which ranks are still to be looked at, under which objects fewer items are left than the queue
// has, and the blocks that are left.
#[derive(Drop)]
pub(crate) struct Leaving {
    pub gone: Vec<Fid>,
    pub pool: Pool,
    pub fewer: HashMap<Fid, u64>,
    pub left: u64,
}

// ---- ranks

// The first rank after one.
fn first_after(free: &BTreeSet<Rank>, after: Rank) -> Option<Rank>
    ensures some { IfSome result (λ r. (is_in free.now r ≡ true) × (is_after (Some after) r ≡ true) × ((q : Rank) → is_in free.now q ≡ true → is_after (Some after) q ≡ true → is_gt (rank_cmp r q) ≡ false)) }
    ensures none { IfNone result ((q : Rank) → is_in free.now q ≡ true → is_after (Some after) q ≡ false) }
{
    match free
        .range((Bound::Excluded(after), Bound::Unbounded))
        .next()
    {
        Some(rank) => Some(*rank),
        None => None,
    }
}

// The first rank.
fn first(free: &BTreeSet<Rank>) -> Option<Rank>
    ensures some { IfSome result (λ r. (is_in free.now r ≡ true) × ((q : Rank) → is_in free.now q ≡ true → is_gt (rank_cmp r q) ≡ false)) }
    ensures none { IfNone result ((q : Rank) → is_in free.now q ≡ false) }
{
    match free.first() {
        Some(rank) => Some(*rank),
        None => None,
    }
}

// The first rank of a queue that is still to be looked at.
fn first_left(free: &BTreeSet<Rank>, after: Option<Rank>) -> Option<Rank>
    ensures some { IfSome result (λ r. (is_in free.now r ≡ true) × (is_after after r ≡ true) × ((q : Rank) → is_in free.now q ≡ true → is_after after q ≡ true → is_gt (rank_cmp r q) ≡ false)) }
    ensures none { IfNone result ((q : Rank) → is_in free.now q ≡ true → is_after after q ≡ false) }
{
    match after {
        Some(after) => first_after(free, after),
        None => first(free),
    }
}

// Takes the first of the ranks that are still to be looked at, of which this is the first of the queue's.
fn pop_either(pool: &mut Pool, rank: Rank) -> Rank
    ensures { (free : Rank → Bool) → IsFirstOf (λ q. free q && is_after pool.old.after q) rank → Takes (is_pooled free pool.old.after (is_in pool.old.more)) (is_pooled free pool.new.after (is_in pool.new.more)) result }
{
    match first(&pool.more) {
        Some(other) => {
            if other.cmp(&rank).is_lt() {
                take_rank(&mut pool.more, other);
                other
            } else {
                pool.after = Some(rank);
                take_rank(&mut pool.more, rank);
                rank
            }
        }
        None => {
            pool.after = Some(rank);
            rank
        }
    }
}

// Takes the first of the ranks that are still to be looked at.
fn pop(free: &BTreeSet<Rank>, pool: &mut Pool) -> Option<Rank>
    ensures some { IfSome result (λ r. Takes (is_pooled (is_in free.now) pool.old.after (is_in pool.old.more)) (is_pooled (is_in free.now) pool.new.after (is_in pool.new.more)) r) }
    ensures none { IfNone result ((q : Rank) → is_pooled (is_in free.now) pool.old.after (is_in pool.old.more) q ≡ false) }
{
    match first_left(free, pool.after) {
        Some(rank) => Some(pop_either(pool, rank)),
        None => match first(&pool.more) {
            Some(other) => {
                take_rank(&mut pool.more, other);
                Some(other)
            }
            None => None,
        },
    }
}

// ---- counts

// How many items are left under an object.
fn under(children: &HashMap<Fid, u64>, fewer: &HashMap<Fid, u64>, fid: Fid) -> u64
    ensures { result ≡ remaining children.now fewer.now fid }
{
    match fewer.get(&fid) {
        Some(count) => *count,
        None => count(children, fid),
    }
}

// Counts one item less under an object, and answers how many are left there.
fn take_under(
    children: &HashMap<Fid, u64>,
    fewer: &mut HashMap<Fid, u64>,
    fid: Fid,
) -> Result<u64, AllocError>
    ensures counts { OnOk result ((p : Fid) → remaining children.now fewer.new p ≡ remaining children.now fewer.old p - one_under (Some fid) p) }
    ensures left { IfOk result (λ n. n ≡ remaining children.now fewer.new fid) }
{
    let less = under(children, fewer, fid).saturating_sub(1);
    fewer.insert(fid, less)?;
    Ok(less)
}

// Puts in the rank of an object under which nothing is left, where its item may go.
fn free_parent(
    more: &mut BTreeSet<Rank>,
    places: &HashMap<Fid, Standing>,
    fid: Fid,
    left: u64,
) -> Result<(), AllocError>
    ensures { OnOk result ((r : Rank) → is_in more.new r ≡ (frees_at (place_in places.now fid) left r || is_in more.old r)) }
{
    match places.get(&fid) {
        Some(standing) => {
            if may_leave(standing, left) {
                put_rank(more, rank_of(standing))
            } else {
                Ok(())
            }
        }
        None => Ok(()),
    }
}

// ---- going

// The item that stands under a parent goes from there.
fn go_from(queue: &Queue, leaving: &mut Leaving, parent: Option<Fid>) -> Result<(), AllocError>
    ensures counts { OnOk result ((p : Fid) → remaining queue.now.children leaving.new.fewer p ≡ remaining queue.now.children leaving.old.fewer p - one_under parent p) }
    ensures more { OnOk result ((r : Rank) → is_in leaving.new.pool.more r ≡ (frees_under (place_in queue.now.places) parent (remaining queue.now.children leaving.new.fewer) r || is_in leaving.old.pool.more r)) }
    ensures rest { (leaving.new.gone ≡ leaving.old.gone) × (leaving.new.pool.after ≡ leaving.old.pool.after) × (leaving.new.left ≡ leaving.old.left) }
{
    match parent {
        Some(parent) => {
            let left = take_under(&queue.children, &mut leaving.fewer, parent)?;
            free_parent(&mut leaving.pool.more, &queue.places, parent, left)
        }
        None => Ok(()),
    }
}

// An item goes.
fn go(queue: &Queue, leaving: &mut Leaving, item: &Item) -> Result<(), AllocError>
    ensures counts { OnOk result ((p : Fid) → remaining queue.now.children leaving.new.fewer p ≡ remaining queue.now.children leaving.old.fewer p - one_under item.now.parent p) }
    ensures pool { OnOk result ((r : Rank) → pool_of queue.now leaving.new r ≡ (frees_under (place_in queue.now.places) item.now.parent (remaining queue.now.children leaving.new.fewer) r || pool_of queue.now leaving.old r)) }
    ensures blocks { leaving.new.left ≡ leaving.old.left - item.now.blocks }
    ensures gone { OnOk result (leaving.new.gone.items ≡ leaving.old.gone.items ++ item.now.fid ∷ []) }
{
    leaving.left = leaving.left.saturating_sub(item.blocks as u64);
    leaving.gone.push(item.fid)?;
    go_from(queue, leaving, item.parent)?;
    Ok(())
}

// The item of a rank goes, unless it is kept.
fn go_at(
    queue: &Queue,
    kept: &BTreeSet<Fid>,
    leaving: &mut Leaving,
    rank: Rank,
) -> Result<(), AllocError>
    ensures { (size : ℕ) (fids : List Fid) (items : List Item) (pool : Rank → Bool) → IsQueueOf queue.now items → AreKept kept.now fids → nat_le leaving.old.left size ≡ false → Takes pool (pool_of queue.now leaving.old) rank → AreInTurn queue.now leaving.old pool size fids items → OnOk result (AreInTurn queue.now leaving.new (pool_of queue.now leaving.new) size fids items) }
{
    if kept.contains(&rank.fid.0) {
        return Ok(());
    }
    match queue.places.get(&rank.fid.0) {
        Some(standing) => {
            go(queue, leaving, &standing.item)?;
            Ok(())
        }
        None => Ok(()),
    }
}

// Whether blocks fit in so many.
fn fit(blocks: u64, size: u64) -> bool
    ensures { result ≡ nat_le blocks size }
{
    blocks <= size
}

// The next one goes, where one is to go and may. Answers whether all have gone that do.
fn step(
    queue: &Queue,
    size: u64,
    kept: &BTreeSet<Fid>,
    leaving: &mut Leaving,
) -> Result<bool, AllocError>
    ensures { (fids : List Fid) (items : List Item) → IsQueueOf queue.now items → AreKept kept.now fids → AreInTurn queue.now leaving.old (pool_of queue.now leaving.old) size fids items → IfOk result (λ over. IsTurn over queue.now leaving.new size fids items) }
{
    if fit(leaving.left, size) {
        return Ok(true);
    }
    match pop(&queue.free, &mut leaving.pool) {
        Some(rank) => {
            go_at(queue, kept, leaving, rank)?;
            Ok(false)
        }
        None => Ok(true),
    }
}

impl Queue {
    // Nobody has gone yet.
    fn begin(&self, alloc: Global) -> Leaving
        ensures { (size : ℕ) (fids : List Fid) (items : List Item) → IsQueueOf self.now items → AreInTurn self.now result (pool_of self.now result) size fids items }
    {
        Leaving {
            gone: Vec::new(alloc),
            pool: Pool {
                after: None,
                more: BTreeSet::new(alloc),
            },
            fewer: HashMap::new(alloc),
            left: self.total,
        }
    }

    /// Who goes, in order, so that the rest fits in so many blocks: see `who_goes`. It takes logarithmic time for each that
    /// goes or is kept.
    ///
    /// # Errors
    ///
    /// Fails for want of memory, and after 2^64 steps.
    pub fn who_goes(
        &self,
        alloc: Global,
        size: u64,
        kept: &BTreeSet<Fid>,
    ) -> Result<Gone, AllocError>
        ensures fids { (fids : List Fid) (items : List Item) → IsQueueOf self.now items → AreKept kept.now fids → IfOk result (λ gone. gone.fids.items ≡ who_goes size fids items) }
        ensures fits { (fids : List Fid) (items : List Item) → IsQueueOf self.now items → AreKept kept.now fids → IfOk result (λ gone. gone.fits ≡ nat_le (blocks_of (left gone.fids.items items)) size) }
    {
        let mut leaving = self.begin(alloc);
        for _step in 0..u64::MAX {
            if step(self, size, kept, &mut leaving)? {
                let fits = fit(leaving.left, size);
                return Ok(Gone {
                    fids: leaving.gone,
                    fits,
                });
            }
        }
        Err(AllocError)
    }
}
