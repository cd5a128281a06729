ghost use Rattle.std.specs.Prelude.{◌≡◌, ◌<◌, ◌≤◌, ◌^◌, nat_le, Option, Some, None, IfOk, IfSome, IsSome, OnOk, true, false, length, ◌||◌, ◌++◌, ◌∷◌, [], List};
ghost use Rattle.std.specs.List.{list_any, filter, IsDistinct};
ghost use Rattle.std.specs.Option.{option_map_or};
ghost use Rattle.std.specs.BTreeSet as set;
ghost use Rattle.coda_fid.specs.declared.fid.Fid.{Fid};
ghost use Rattle.coda_fid.specs.Fid.{fid_cmp, same_fid};
ghost use Rattle.coda_walk.specs.Going.{blocks_of, is_listed, is_under, may_go, goes_before, sooner, is_free, first_to_go, next_to_go, without, who_goes};
ghost use Rattle.std.specs.Bool.{OnTrue};
ghost use Rattle.coda_walk.specs.declared.item.Item.{Item};
ghost use Rattle.coda_walk.specs.Planning.{fids_of, item_at};
ghost use Rattle.coda_walk.specs.Queue.{IsQueueOf};

use crate::{Item, Queue};
use coda_fid::Fid;
use std::alloc::{AllocError, Global};
use std::collections::BTreeSet;

// Whether items fit in so many blocks.
fn fit(size: u64, items: &[Item]) -> bool
    ensures { result ≡ nat_le (blocks_of items.now) size }
{
    let mut room = size;
    for item in items {
        let blocks = item.blocks as u64;
        if blocks > room {
            return false;
        }
        room -= blocks;
    }
    true
}

// Notes a parent, where there is one.
fn note(above: &mut BTreeSet<Fid>, parent: Option<Fid>) -> Result<(), AllocError>
    ensures { OnOk result ((f : Fid) → set.contains fid_cmp above.new f ≡ (set.contains fid_cmp above.old f || option_map_or (λ p. same_fid p f) parent false)) }
{
    match parent {
        Some(parent) => {
            above.insert(parent)?;
            Ok(())
        }
        None => Ok(()),
    }
}

// The fids under which items stand.
fn parents(alloc: Global, items: &[Item]) -> Result<BTreeSet<Fid>, AllocError>
    ensures { IfOk result (λ s. (f : Fid) → set.contains fid_cmp s f ≡ list_any (is_under f) items.now) }
{
    let mut above = BTreeSet::new(alloc);
    for item in items {
        note(&mut above, item.parent)?;
    }
    Ok(above)
}

// Whether one goes before another that was used less recently.
fn goes_before(item: &Item, other: &Item) -> bool
    ensures { result ≡ goes_before item.now other.now }
{
    item.priority < other.priority
        || item.priority == other.priority && other.priority > 0 && item.fid.cmp(&other.fid).is_gt()
}

// The one that goes first, of the best so far and one that was used more recently.
fn sooner(best: Option<Item>, item: Item) -> Option<Item>
    ensures { result ≡ Some (sooner best item) }
{
    match best {
        Some(first) => {
            if goes_before(&item, &first) {
                Some(item)
            } else {
                Some(first)
            }
        }
        None => Some(item),
    }
}

// Whether an item is free to go.
fn is_free(kept: &BTreeSet<Fid>, above: &BTreeSet<Fid>, item: &Item) -> bool
    ensures { result ≡ is_free (set.contains fid_cmp kept.now) (set.contains fid_cmp above.now) item.now }
{
    !(item.pinned || kept.contains(&item.fid)) && !above.contains(&item.fid)
}

// The first of those that are free to go.
fn next_to_go(kept: &BTreeSet<Fid>, above: &BTreeSet<Fid>, items: &[Item]) -> Option<Item>
    ensures { result ≡ first_to_go (filter (is_free (set.contains fid_cmp kept.now) (set.contains fid_cmp above.now)) items.now) }
{
    let mut best = None;
    for item in items {
        if is_free(kept, above, item) {
            best = sooner(best, *item);
        }
    }
    best
}

// Adds fids to a set.
pub(crate) fn add(into: &mut BTreeSet<Fid>, fids: &[Fid]) -> Result<(), AllocError>
    ensures { OnOk result ((f : Fid) → set.contains fid_cmp into.new f ≡ (set.contains fid_cmp into.old f || is_listed fids.now f)) }
{
    for fid in fids {
        note(into, Some(*fid))?;
    }
    Ok(())
}

// Fids as a set.
pub(crate) fn listed(alloc: Global, fids: &[Fid]) -> Result<BTreeSet<Fid>, AllocError>
    ensures { IfOk result (λ s. (f : Fid) → set.contains fid_cmp s f ≡ is_listed fids.now f) }
{
    let mut set = BTreeSet::new(alloc);
    add(&mut set, fids)?;
    Ok(set)
}

// The item that goes next: the first of those that may go as things stand.
fn next(alloc: Global, kept: &BTreeSet<Fid>, items: &[Item]) -> Result<Option<Item>, AllocError>
    ensures { (fids : List Fid) → ((f : Fid) → set.contains fid_cmp kept.now f ≡ is_listed fids f) → IfOk result (λ o. o ≡ next_to_go fids items.now) }
{
    let above = parents(alloc, items)?;
    Ok(next_to_go(kept, &above, items))
}

// The items but that of an object.
fn others(alloc: Global, items: &[Item], fid: Fid) -> Result<Vec<Item>, AllocError>
    ensures { IfOk result (λ v. v.items ≡ without fid items.now) }
{
    let mut left = Vec::new(alloc);
    for item in items {
        if item.fid != fid {
            left.push(*item)?;
        }
    }
    Ok(left)
}

// Who goes beside those that are in a set, found by a look at all that are left for each that goes.
fn going_plainly(
    alloc: Global,
    size: u64,
    kept: &BTreeSet<Fid>,
    items: &[Item],
) -> Result<Vec<Fid>, AllocError>
    ensures { (fids : List Fid) → ((f : Fid) → set.contains fid_cmp kept.now f ≡ is_listed fids f) → IfOk result (λ v. v.items ≡ who_goes size fids items.now) }
{
    let mut left = Vec::from_slice(alloc, items)?;
    let mut gone = Vec::new(alloc);
    for _step in 0..items.len() {
        if fit(size, &left) {
            return Ok(gone);
        }
        match next(alloc, kept, &left)? {
            Some(next) => {
                gone.push(next.fid)?;
                left = others(alloc, &left, next.fid)?;
            }
            None => return Ok(gone),
        }
    }
    Ok(gone)
}

// Puts in an item whose object has none, and answers whether it has none.
fn put_new(queue: &mut Queue, item: &Item) -> Result<bool, AllocError>
    ensures there { (items : List Item) → IsQueueOf queue.old items → IfOk result (λ new. OnTrue new (IsQueueOf queue.new (items ++ item.now ∷ []))) }
    ensures new { (items : List Item) → IsQueueOf queue.old items → item_at items item.now.fid ≡ None → IfOk result (λ new. new ≡ true) }
{
    if queue.get(item.fid).is_some() {
        return Ok(false);
    }
    queue.put(*item)?;
    Ok(true)
}

/// The queue of items. There is one where no object has two of them. Fails for want of memory alone, and for want of times.
pub fn queue_of(alloc: Global, items: &[Item]) -> Result<Option<Queue>, AllocError>
    ensures queue { IfOk result (λ o. IfSome o (λ queue. IsQueueOf queue items.now)) }
    ensures once { IsDistinct same_fid (fids_of items.now) → IfOk result IsSome }
{
    let mut queue = Queue::new(alloc);
    for item in items {
        if !put_new(&mut queue, item)? {
            return Ok(None);
        }
    }
    Ok(Some(queue))
}

// Who goes beside those that are in a set, found by a queue, where that can be made.
fn going_by_queue(
    alloc: Global,
    size: u64,
    kept: &BTreeSet<Fid>,
    items: &[Item],
) -> Result<Option<Vec<Fid>>, AllocError>
    ensures fids { (fids : List Fid) → ((f : Fid) → set.contains fid_cmp kept.now f ≡ is_listed fids f) → IfOk result (λ o. IfSome o (λ v. v.items ≡ who_goes size fids items.now)) }
    ensures once { IsDistinct same_fid (fids_of items.now) → IfOk result IsSome }
{
    match queue_of(alloc, items)? {
        Some(queue) => {
            let gone = queue.who_goes(alloc, size, kept)?;
            Ok(Some(gone.fids))
        }
        None => Ok(None),
    }
}

// Who goes beside those that are in a set. It takes logarithmic time for each item, where no object has two.
pub(crate) fn going(
    alloc: Global,
    size: u64,
    kept: &BTreeSet<Fid>,
    items: &[Item],
) -> Result<Vec<Fid>, AllocError>
    ensures { (fids : List Fid) → ((f : Fid) → set.contains fid_cmp kept.now f ≡ is_listed fids f) → IfOk result (λ v. v.items ≡ who_goes size fids items.now) }
{
    match going_by_queue(alloc, size, kept, items)? {
        Some(gone) => Ok(gone),
        None => going_plainly(alloc, size, kept, items),
    }
}

/// Who goes from a cache of so many blocks, in order, so that the rest fits: one item after the other, each the first of
/// those that may go then. The items stand in the order of their use, the least recently used first. Nobody goes who is
/// pinned or kept, or who has others under it. Fails for want of memory alone.
pub fn who_goes(
    alloc: Global,
    size: u64,
    kept: &[Fid],
    items: &[Item],
) -> Result<Vec<Fid>, AllocError>
    ensures { IfOk result (λ v. v.items ≡ who_goes size kept.now items.now) }
{
    let kept = listed(alloc, kept)?;
    going(alloc, size, &kept, items)
}
