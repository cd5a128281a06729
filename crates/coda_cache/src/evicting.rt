ghost use Rattle.std.specs.Prelude.{◌≡◌, Option, ℕ, Ok, Err, MatchResult, Some, None, IfOk, OnOk, IfSome, List, [], ◌∷◌, ◌||◌, ◌&&◌, ◌++◌};
ghost use Rattle.std.specs.Prelude as prelude;
ghost use Rattle.std.specs.BTreeSet as btree;
ghost use Rattle.std.specs.List.{list_any};
ghost use Rattle.coda_fid.specs.declared.fid.Fid.{Fid};
ghost use Rattle.coda_fid.specs.Fid.{fid_cmp, same_fid};
ghost use Rattle.coda_walk.specs.Going.{is_listed};
ghost use Rattle.coda_cache.specs.State.{is_dirty, blocks_at};
ghost use Rattle.coda_cache.specs.Ways.{is_below, is_pinned};
ghost use Rattle.coda_cache.specs.Room.{item_of, items_of, way_of, with_ancestors, parent_then, way_from, kept_for, item_after, items_with, more_blocks, evicted_for};
ghost use Rattle.coda_walk.specs.Queue.{IsQueueOf};
ghost use Rattle.coda_cache.specs.Indexed.{standing_of, standings};
ghost use Rattle.coda_cache.specs.declared.fault.CacheFault.TheVariants.{CacheFull};

use crate::contents::Contents;
use crate::room;
use coda_fid::Fid;
use coda_walk::{Item, Queue, queue_of, who_goes};
use std::alloc::{AllocError, Global};
use std::collections::BTreeSet;

// Adds a fid to a set.
pub(crate) fn note(set: &mut BTreeSet<Fid>, fid: Fid) -> Result<(), AllocError>
    ensures { OnOk result ((f : Fid) → btree.contains fid_cmp set.new f ≡ (btree.contains fid_cmp set.old f || same_fid fid f)) }
{
    set.insert(fid)?;
    Ok(())
}

// Adds fids to a set.
pub(crate) fn add(set: &mut BTreeSet<Fid>, fids: &[Fid]) -> Result<(), AllocError>
    ensures { OnOk result ((f : Fid) → btree.contains fid_cmp set.new f ≡ (btree.contains fid_cmp set.old f || is_listed fids.now f)) }
{
    for fid in fids {
        note(set, *fid)?;
    }
    Ok(())
}

// The items, with so many blocks for that of an object.
fn items_after(
    alloc: Global,
    items: &[Item],
    fid: Fid,
    blocks: u32,
) -> Result<Vec<Item>, AllocError>
    ensures { IfOk result (λ v. v.items ≡ prelude.map (item_after fid blocks) items.now) }
{
    let mut after = Vec::new(alloc);
    for item in items {
        after.push(item_after(fid, blocks, item))?;
    }
    Ok(after)
}

// An item, with so many blocks where it is that of an object.
fn item_after(fid: Fid, blocks: u32, item: &Item) -> Item
    ensures { result ≡ item_after fid blocks item.now }
{
    let mut after = *item;
    if item.fid == fid {
        after.blocks = blocks;
    }
    after
}

impl Contents {
    // Adds a node and what is above it, where the node is dirty.
    pub(crate) fn add_pinned(&self, set: &mut BTreeSet<Fid>, fid: Fid) -> Result<(), AllocError>
        ensures { OnOk result ((f : Fid) → btree.contains fid_cmp set.new f ≡ (btree.contains fid_cmp set.old f || (is_dirty self.now fid && is_below self.now fid f))) }
    {
        if self.is_dirty(fid) {
            let way = self.way_up(fid)?;
            add(set, &way)?;
        }
        Ok(())
    }

    // Those of these nodes that are dirty, and what is above them.
    fn pinned_by(&self, fids: &[Fid]) -> Result<BTreeSet<Fid>, AllocError>
        ensures { IfOk result (λ s. (f : Fid) → btree.contains fid_cmp s f ≡ list_any (λ d. is_dirty self.now d && is_below self.now d f) fids.now) }
    {
        let mut pinned = BTreeSet::new(self.alloc);
        for fid in fids {
            self.add_pinned(&mut pinned, *fid)?;
        }
        Ok(pinned)
    }

    // The nodes that are pinned.
    pub(crate) fn pinned(&self) -> Result<BTreeSet<Fid>, AllocError>
        ensures { IfOk result (λ s. (f : Fid) → btree.contains fid_cmp s f ≡ is_pinned self.now f) }
    {
        let used = self.recency()?;
        self.pinned_by(&used)
    }

    // What a plan has to know of a cached node.
    fn item(&self, pinned: &BTreeSet<Fid>, fid: Fid) -> Item
        requires pinned { (f : Fid) → btree.contains fid_cmp pinned.now f ≡ is_pinned self.now f }
        ensures { result ≡ item_of self.now fid }
    {
        let dirty = self.is_dirty(fid);
        let valid = self.source(fid).is_some();
        Item {
            fid,
            parent: self.parent(fid),
            priority: self.priority(fid),
            blocks: self.blocks(fid),
            cached: true,
            served: valid || dirty,
            pinned: pinned.contains(&fid),
        }
    }

    // The items of nodes.
    fn items_among(&self, pinned: &BTreeSet<Fid>, fids: &[Fid]) -> Result<Vec<Item>, AllocError>
        requires pinned { (f : Fid) → btree.contains fid_cmp pinned.now f ≡ is_pinned self.now f }
        ensures { IfOk result (λ v. v.items ≡ prelude.map (item_of self.now) fids.now) }
    {
        let mut items = Vec::new(self.alloc);
        for fid in fids {
            items.push(self.item(pinned, *fid))?;
        }
        Ok(items)
    }

    // The cached nodes in the order of their use.
    fn items(&self, pinned: &BTreeSet<Fid>) -> Result<Vec<Item>, AllocError>
        requires pinned { (f : Fid) → btree.contains fid_cmp pinned.now f ≡ is_pinned self.now f }
        ensures { IfOk result (λ v. v.items ≡ items_of self.now) }
    {
        let used = self.recency()?;
        self.items_among(pinned, &used)
    }

    // Adds a node and what is above it, where it is cached.
    fn add_way(&self, kept: &mut Vec<Fid>, fid: Fid) -> Result<(), AllocError>
        ensures { OnOk result (kept.new.items ≡ kept.old.items ++ way_of self.now fid) }
    {
        if self.contains(fid) {
            let way = self.way_up(fid)?;
            kept.extend_from_slice(&way)?;
        }
        Ok(())
    }

    // Adds nodes and what is above them, where they are cached.
    pub(crate) fn add_ways(&self, kept: &mut Vec<Fid>, fids: &[Fid]) -> Result<(), AllocError>
        ensures { OnOk result (kept.new.items ≡ kept.old.items ++ with_ancestors self.now fids.now) }
    {
        for fid in fids {
            self.add_way(kept, *fid)?;
        }
        Ok(())
    }

    // The directory under which a node is, or would be, cached.
    fn parent_then(&self, fid: Fid, parent: Option<Fid>) -> Option<Fid>
        ensures { result ≡ parent_then self.now fid parent }
    {
        if self.contains(fid) {
            self.parent(fid)
        } else {
            parent
        }
    }

    // The way up from a directory, where there is one.
    fn way_from(&self, parent: Option<Fid>) -> Result<Vec<Fid>, AllocError>
        ensures { IfOk result (λ v. v.items ≡ way_from self.now parent) }
    {
        match parent {
            Some(dir) => self.way_up(dir),
            None => Ok(Vec::new(self.alloc)),
        }
    }

    // What stays for a node that is put.
    pub(crate) fn kept_for(
        &self,
        fid: Fid,
        parent: Option<Fid>,
        keep: &[Fid],
    ) -> Result<Vec<Fid>, AllocError>
        ensures { IfOk result (λ v. v.items ≡ kept_for self.now fid parent keep.now) }
    {
        let way = self.way_from(self.parent_then(fid, parent))?;
        let mut kept = Vec::new(self.alloc);
        kept.push(fid)?;
        kept.extend_from_slice(&way)?;
        self.add_ways(&mut kept, keep)?;
        Ok(kept)
    }

    // The items of the cache once a node of so many blocks is put.
    fn items_with(
        &self,
        items: Vec<Item>,
        fid: Fid,
        parent: Option<Fid>,
        blocks: u32,
    ) -> Result<Vec<Item>, AllocError>
        requires { items.items ≡ items_of self.now }
        ensures { IfOk result (λ v. v.items ≡ items_with self.now fid parent blocks) }
    {
        if self.contains(fid) {
            items_after(self.alloc, &items, fid, blocks)
        } else {
            let mut items = items;
            items.push(Item {
                fid,
                parent,
                priority: self.priority(fid),
                blocks,
                cached: false,
                served: false,
                pinned: false,
            })?;
            Ok(items)
        }
    }

    // The blocks that a node needs besides those that are pinned.
    pub(crate) fn more_blocks(&self, pinned: &BTreeSet<Fid>, fid: Fid, blocks: u32) -> u32
        requires pinned { (f : Fid) → btree.contains fid_cmp pinned.now f ≡ is_pinned self.now f }
        ensures { result ≡ more_blocks self.now fid blocks }
    {
        if pinned.contains(&fid) {
            blocks.saturating_sub(self.blocks(fid))
        } else {
            blocks
        }
    }

    // Who goes for a node of so many blocks that is put, or how many blocks are pinned and how many more are needed where
    // these don't fit. Fails for want of memory alone.
    pub(crate) fn going_for(
        &self,
        fid: Fid,
        parent: Option<Fid>,
        blocks: u32,
        keep: &[Fid],
    ) -> Result<Result<Vec<Fid>, (u64, u64)>, AllocError>
        ensures { IfOk result (λ r. MatchResult r (λ v. evicted_for self.now fid parent blocks keep.now ≡ Ok v.items) (λ e. evicted_for self.now fid parent blocks keep.now ≡ Err (CacheFull e.0 e.1 self.now.size))) }
    {
        let pinned = self.pinned()?;
        let items = self.items(&pinned)?;
        let kept = self.kept_for(fid, parent, keep)?;
        let pinned_blocks = room::pinned_blocks(&items)?;
        let more = self.more_blocks(&pinned, fid, blocks);
        let needed = room::needed_blocks(fid, &kept, &items, more)?;
        if !room::fits(self.size, pinned_blocks, needed) {
            return Ok(Err((pinned_blocks, needed)));
        }
        let items = self.items_with(items, fid, parent, blocks)?;
        let gone = who_goes(self.alloc, self.size as u64, &kept, &items)?;
        Ok(Ok(gone))
    }

    // The items of nodes as they stand in the queue.
    fn standings_among(&self, fids: &[Fid]) -> Result<Vec<Item>, AllocError>
        ensures { IfOk result (λ v. v.items ≡ prelude.map (standing_of self.now) fids.now) }
    {
        let mut items = Vec::new(self.alloc);
        for fid in fids {
            items.push(self.standing(*fid))?;
        }
        Ok(items)
    }

    // The queue of the cached nodes, where it can be made.
    pub(crate) fn queue(&self) -> Result<Option<Queue>, AllocError>
        ensures { IfOk result (λ o. IfSome o (λ queue. IsQueueOf queue (standings self.now))) }
    {
        let used = self.recency()?;
        let items = self.standings_among(&used)?;
        queue_of(self.alloc, &items)
    }

    // Adds a node, where it is dirty.
    fn add_dirty(&self, set: &mut BTreeSet<Fid>, fid: Fid) -> Result<(), AllocError>
        ensures { OnOk result ((f : Fid) → btree.contains fid_cmp set.new f ≡ (btree.contains fid_cmp set.old f || (is_dirty self.now fid && same_fid fid f))) }
    {
        if self.is_dirty(fid) {
            note(set, fid)?;
        }
        Ok(())
    }

    // Those of these nodes that are dirty.
    fn dirty_among(&self, fids: &[Fid]) -> Result<BTreeSet<Fid>, AllocError>
        ensures { IfOk result (λ s. (f : Fid) → btree.contains fid_cmp s f ≡ list_any (λ d. is_dirty self.now d && same_fid d f) fids.now) }
    {
        let mut dirty = BTreeSet::new(self.alloc);
        for fid in fids {
            self.add_dirty(&mut dirty, *fid)?;
        }
        Ok(dirty)
    }

    // The nodes that are dirty.
    pub(crate) fn dirty(&self) -> Result<BTreeSet<Fid>, AllocError>
        ensures { IfOk result (λ s. (f : Fid) → btree.contains fid_cmp s f ≡ is_dirty self.now f) }
    {
        self.agree();
        let used = self.recency()?;
        let dirty = self.dirty_among(&used)?;
        Ok(dirty)
    }
}
