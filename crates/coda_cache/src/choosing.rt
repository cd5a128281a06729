ghost use Rattle.std.specs.Prelude.{◌≡◌, ◌+◌, ◌≤◌, ◌||◌, true, Ok, Err, IfOk, MatchResult, List, Option};
ghost use Rattle.std.specs.BTreeSet as btree;
ghost use Rattle.std.specs.List.Sorted.{IsStrictlySortedBy};
ghost use Rattle.coda_fid.specs.declared.fid.Fid.{Fid};
ghost use Rattle.coda_fid.specs.Fid.{fid_cmp, same_fid};
ghost use Rattle.coda_walk.specs.Going.{is_listed, who_goes};
ghost use Rattle.coda_walk.specs.Queue.{IsQueueOf};
ghost use Rattle.coda_cache.specs.State.{is_dirty, blocks_at};
ghost use Rattle.coda_cache.specs.Ways.{is_pinned};
ghost use Rattle.coda_cache.specs.Room.{items_of, items_with, pinned_blocks, is_needed, blocks_where, kept_for, evicted_for};
ghost use Rattle.coda_cache.specs.Indexed.{standings, AreMarked, blocks_unless, blocks_beside};
ghost use Rattle.coda_cache.specs.declared.fault.CacheFault.TheVariants.{CacheFull};

use crate::contents::Contents;
use crate::evicting::{add, note};
use crate::marks::Marks;
use crate::room;
use coda_fid::Fid;
use coda_walk::Queue;
use std::alloc::AllocError;
use std::collections::BTreeSet;

impl Contents {
    // The nodes that are pinned, where the dirty ones are marked.
    pub(crate) fn pinned_from(&self, dirty: &Marks) -> Result<BTreeSet<Fid>, AllocError>
        requires { AreMarked dirty.now (is_dirty self.now) }
        ensures { IfOk result (λ s. (f : Fid) → btree.contains fid_cmp s f ≡ is_pinned self.now f) }
    {
        match &dirty.fids {
            Some(fids) => self.above(fids),
            None => self.pinned(),
        }
    }

    // The nodes that are pinned, where these are the dirty ones.
    fn above(&self, fids: &BTreeSet<Fid>) -> Result<BTreeSet<Fid>, AllocError>
        requires { (f : Fid) → btree.contains fid_cmp fids.now f ≡ is_dirty self.now f }
        ensures { IfOk result (λ s. (f : Fid) → btree.contains fid_cmp s f ≡ is_pinned self.now f) }
    {
        self.agree();
        let mut pinned = BTreeSet::new(self.alloc);
        for fid in fids.iter() {
            self.add_pinned(&mut pinned, *fid)?;
        }
        Ok(pinned)
    }

    // The blocks with those of a node, unless it is in a set.
    fn plus_unless(&self, blocks: u64, but: &BTreeSet<Fid>, fid: Fid) -> Result<u64, AllocError>
        ensures { IfOk result (λ sum. sum ≡ blocks + blocks_unless self.now (btree.contains fid_cmp but.now) fid) }
    {
        if but.contains(&fid) {
            Ok(blocks)
        } else {
            room::plus(blocks, self.blocks(fid) as u64)
        }
    }

    // So many blocks with those of the nodes in a set that are not in another.
    pub(crate) fn blocks_beside(
        &self,
        fids: &BTreeSet<Fid>,
        but: &BTreeSet<Fid>,
        more: u64,
    ) -> Result<u64, AllocError>
        ensures sum { IfOk result (λ sum. sum ≡ more + blocks_beside self.now (btree.contains fid_cmp but.now) fids.now.keys) }
        ensures rise { IfOk result (λ _. IsStrictlySortedBy fid_cmp fids.now.keys) }
    {
        let mut blocks = more;
        for fid in fids.iter() {
            blocks = self.plus_unless(blocks, but, *fid)?;
        }
        Ok(blocks)
    }

    // The blocks that are pinned.
    fn blocks_pinned(&self, queue: &Queue, pinned: &BTreeSet<Fid>) -> Result<u64, AllocError>
        requires queue { IsQueueOf queue.now (standings self.now) }
        requires pinned { (f : Fid) → btree.contains fid_cmp pinned.now f ≡ is_pinned self.now f }
        ensures { IfOk result (λ sum. sum ≡ pinned_blocks (items_of self.now)) }
    {
        self.agree();
        let none = BTreeSet::new(self.alloc);
        let blocks = self.blocks_beside(pinned, &none, 0)?;
        Ok(blocks)
    }

    // The blocks that are needed for a node besides those that are pinned, where a set has the pinned nodes and that one.
    fn blocks_needed(
        &self,
        queue: &Queue,
        but: &BTreeSet<Fid>,
        fid: Fid,
        kept: &BTreeSet<Fid>,
        more: u32,
    ) -> Result<u64, AllocError>
        requires queue { IsQueueOf queue.now (standings self.now) }
        requires but { (f : Fid) → btree.contains fid_cmp but.now f ≡ (is_pinned self.now f || same_fid fid f) }
        ensures { (fids : List Fid) → ((f : Fid) → btree.contains fid_cmp kept.now f ≡ is_listed fids f) → IfOk result (λ sum. sum ≡ more + blocks_where (is_needed fid fids) (items_of self.now)) }
    {
        self.agree();
        let blocks = self.blocks_beside(kept, but, more as u64)?;
        Ok(blocks)
    }

    // Who goes from a queue for a node of so many blocks that the cache has room for, where a set has those that stay.
    fn going_from(
        &self,
        queue: &Queue,
        stay: &BTreeSet<Fid>,
        fid: Fid,
        blocks: u32,
    ) -> Result<Vec<Fid>, AllocError>
        requires queue { IsQueueOf queue.now (standings self.now) }
        requires room { blocks ≤ self.now.size + blocks_at self.now fid }
        ensures { (parent : Option Fid) (keep : List Fid) → ((f : Fid) → btree.contains fid_cmp stay.now f ≡ (is_pinned self.now f || is_listed (kept_for self.now fid parent keep) f)) → IfOk result (λ v. v.items ≡ who_goes self.now.size (kept_for self.now fid parent keep) (items_with self.now fid parent blocks)) }
    {
        self.agree();
        let whole = self.size as u64 + self.blocks(fid) as u64;
        let gone = queue.who_goes(self.alloc, whole - blocks as u64, stay)?;
        Ok(gone.fids)
    }

    // Who goes for a node of so many blocks that is put, or how many blocks are pinned and how many more are needed where
    // these don't fit, found by a queue of the cached nodes and a set of the pinned ones.
    pub(crate) fn chosen_for(
        &self,
        queue: &Queue,
        pinned: BTreeSet<Fid>,
        fid: Fid,
        parent: Option<Fid>,
        blocks: u32,
        keep: &[Fid],
    ) -> Result<Result<Vec<Fid>, (u64, u64)>, AllocError>
        requires queue { IsQueueOf queue.now (standings self.now) }
        requires pinned { (f : Fid) → btree.contains fid_cmp pinned f ≡ is_pinned self.now f }
        ensures { IfOk result (λ r. MatchResult r (λ v. evicted_for self.now fid parent blocks keep.now ≡ Ok v.items) (λ e. evicted_for self.now fid parent blocks keep.now ≡ Err (CacheFull e.0 e.1 self.now.size))) }
    {
        let way = self.kept_for(fid, parent, keep)?;
        let mut kept = BTreeSet::new(self.alloc);
        add(&mut kept, &way)?;
        let pinned_blocks = self.blocks_pinned(queue, &pinned)?;
        let more = self.more_blocks(&pinned, fid, blocks);
        let mut stay = pinned;
        note(&mut stay, fid)?;
        let needed = self.blocks_needed(queue, &stay, fid, &kept, more)?;
        if !room::fits(self.size, pinned_blocks, needed) {
            return Ok(Err((pinned_blocks, needed)));
        }
        add(&mut stay, &way)?;
        let gone = self.going_from(queue, &stay, fid, blocks)?;
        Ok(Ok(gone))
    }
}
