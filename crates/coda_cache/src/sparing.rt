ghost use Rattle.std.specs.Prelude.{◌≡◌, ◌+◌, ◌++◌, ◌||◌, true, not, ℕ, IfOk, IfSome, OnOk, MatchResult, List, Ok, Err, Option};
ghost use Rattle.std.specs.BTreeSet as btree;
ghost use Rattle.std.specs.List.{list_any};
ghost use Rattle.std.specs.List.Sorted.{IsStrictlySortedBy};
ghost use Rattle.coda_fid.specs.declared.fid.Fid.{Fid};
ghost use Rattle.coda_fid.specs.declared.op.Record.{Record};
ghost use Rattle.coda_fid.specs.Fid.{fid_cmp};
ghost use Rattle.coda_walk.specs.Going.{who_goes, is_listed};
ghost use Rattle.coda_walk.specs.Queue.{IsQueueOf};
ghost use Rattle.coda_cache.specs.declared.fault.CacheFault.TheVariants.{CacheFull};
ghost use Rattle.coda_cache.specs.State.{CacheState, is_dirty, parent_of};
ghost use Rattle.coda_cache.specs.Ways.{is_pinned};
ghost use Rattle.coda_cache.specs.Room.{items_of, with_ancestors, pinned_blocks, further_blocks, evicted_between};
ghost use Rattle.coda_cache.specs.Indexed.{standings, AreMarked, blocks_unless, blocks_beside};
ghost use Rattle.coda_cache.specs.Prospects.{Foresees, parent_ahead, fids_made, holds_parent, holds_made, leaves};

use crate::contents::Contents;
use crate::evicting::{add, note};
use crate::prospect::{Prospect, set_of};
use crate::room;
use coda_fid::{Fid, Record};
use coda_walk::Queue;
use std::alloc::AllocError;
use std::collections::BTreeSet;

// Adds the fids of another set to a set.
fn add_set(set: &mut BTreeSet<Fid>, fids: &BTreeSet<Fid>) -> Result<(), AllocError>
    ensures { OnOk result ((f : Fid) → btree.contains fid_cmp set.new f ≡ (btree.contains fid_cmp set.old f || btree.contains fid_cmp fids.now f)) }
{
    for fid in fids.iter() {
        note(set, *fid)?;
    }
    Ok(())
}

// Adds the fids of a set to fids.
fn list_set(list: &mut Vec<Fid>, fids: &BTreeSet<Fid>) -> Result<(), AllocError>
    ensures { OnOk result (list.new.items ≡ list.old.items ++ fids.now.keys) }
{
    for fid in fids.iter() {
        list.push(*fid)?;
    }
    Ok(())
}

// Adds the node that is made to fids, where one is made.
fn list_made(list: &mut Vec<Fid>, made: Option<(Fid, Fid)>) -> Result<(), AllocError>
    ensures { OnOk result (list.new.items ≡ list.old.items ++ fids_made made) }
{
    if let Some((_, fid)) = made {
        list.push(fid)?;
    }
    Ok(())
}

// Whether all fids of a set are in another.
fn is_within(fids: &BTreeSet<Fid>, set: &BTreeSet<Fid>) -> bool
    ensures { result ≡ not (list_any (λ f. not (btree.contains fid_cmp set.now f)) fids.now.keys) }
{
    for fid in fids.iter() {
        if !set.contains(fid) {
            return false;
        }
    }
    true
}

// Whether a parent is in a set, where there is one.
fn holds_parent(set: &BTreeSet<Fid>, parent: Option<Fid>) -> bool
    ensures { result ≡ holds_parent set.now parent }
{
    match parent {
        Some(dir) => set.contains(&dir),
        None => true,
    }
}

// Whether the node that is made is in a set, where one is made.
fn holds_made(set: &BTreeSet<Fid>, made: Option<(Fid, Fid)>) -> bool
    ensures { result ≡ holds_made set.now made }
{
    match made {
        Some((_, fid)) => set.contains(&fid),
        None => true,
    }
}

impl Contents {
    // Whether a set has the parents of all that are in it.
    fn is_closed(&self, set: &BTreeSet<Fid>) -> bool
        ensures { result ≡ not (list_any (leaves set.now (parent_of self.now)) set.now.keys) }
    {
        for fid in set.iter() {
            if !holds_parent(set, self.parent(*fid)) {
                return false;
            }
        }
        true
    }

    // Whether a set has the parents that all that are in it have once the operation is made.
    fn is_closed_ahead(&self, prospect: &Prospect, set: &BTreeSet<Fid>) -> bool
        ensures { result ≡ not (list_any (leaves set.now (parent_ahead self.now prospect.now)) set.now.keys) }
    {
        for fid in set.iter() {
            if !holds_parent(set, self.parent_ahead(prospect, *fid)) {
                return false;
            }
        }
        true
    }

    // The blocks with those of a node once the operation is made, unless it is in a set.
    fn plus_unless_ahead(
        &self,
        prospect: &Prospect,
        rec: &Record,
        blocks: u64,
        but: &BTreeSet<Fid>,
        fid: Fid,
    ) -> Result<u64, AllocError>
        ensures { (client : ℕ) (n : CacheState) → Foresees self.now client rec.now n prospect.now → IfOk result (λ sum. sum ≡ blocks + blocks_unless n (btree.contains fid_cmp but.now) fid) }
    {
        if but.contains(&fid) {
            Ok(blocks)
        } else {
            let more = self.blocks_ahead(prospect, rec, fid)?;
            room::plus(blocks, more as u64)
        }
    }

    // The blocks of the nodes in a set once the operation is made, but for those that are in another.
    fn blocks_beside_ahead(
        &self,
        prospect: &Prospect,
        rec: &Record,
        fids: &BTreeSet<Fid>,
        but: &BTreeSet<Fid>,
    ) -> Result<u64, AllocError>
        ensures sum { (client : ℕ) (n : CacheState) → Foresees self.now client rec.now n prospect.now → IfOk result (λ sum. sum ≡ blocks_beside n (btree.contains fid_cmp but.now) fids.now.keys) }
        ensures rise { IfOk result (λ _. IsStrictlySortedBy fid_cmp fids.now.keys) }
    {
        let mut blocks = 0;
        for fid in fids.iter() {
            blocks = self.plus_unless_ahead(prospect, rec, blocks, but, *fid)?;
        }
        Ok(blocks)
    }

    // Who goes from a queue so that the rest fits in so much room beside what stays, where these stay. It isn't found so where
    // one that stays stands under one that doesn't, or the operation changes one that doesn't.
    fn sparing(
        &self,
        queue: &Queue,
        prospect: &Prospect,
        stay: BTreeSet<Fid>,
        room: u64,
    ) -> Result<Option<Vec<Fid>>, AllocError>
        requires queue { IsQueueOf queue.now (standings self.now) }
        ensures { (client : ℕ) (rec : Record) (n : CacheState) (kept : List Fid) → Foresees self.now client rec n prospect.now → ((f : Fid) → btree.contains fid_cmp stay f ≡ (is_pinned n f || is_listed kept f)) → room + (pinned_blocks (items_of n) + further_blocks kept (items_of n)) ≡ self.now.size → IfOk result (λ o. IfSome o (λ v. v.items ≡ who_goes self.now.size kept (items_of n))) }
    {
        self.agree();
        if !self.is_closed_ahead(prospect, &stay) || !holds_made(&stay, prospect.made) {
            return Ok(None);
        }
        let mut other = stay;
        add_set(&mut other, &prospect.gone)?;
        if !is_within(&prospect.touched, &other) || !self.is_closed(&other) {
            return Ok(None);
        }
        let none = BTreeSet::new(self.alloc);
        let held = self.blocks_beside(&other, &none, 0)?;
        let size = room::plus(room, held)?;
        let gone = queue.who_goes(self.alloc, size, &other)?;
        Ok(Some(gone.fids))
    }

    // All that may be dirty once the operation is made, where these are dirty.
    fn dirty_ahead(
        &self,
        prospect: &Prospect,
        dirty: &BTreeSet<Fid>,
    ) -> Result<Vec<Fid>, AllocError>
        requires { (f : Fid) → btree.contains fid_cmp dirty.now f ≡ is_dirty self.now f }
        ensures { (client : ℕ) (rec : Record) (n : CacheState) → Foresees self.now client rec n prospect.now → IfOk result (λ v. (d : Fid) → is_dirty n d ≡ true → is_listed v.items d ≡ true) }
    {
        let mut fids = Vec::new(self.alloc);
        list_set(&mut fids, dirty)?;
        list_set(&mut fids, &prospect.mentioned)?;
        list_set(&mut fids, &prospect.touched)?;
        list_made(&mut fids, prospect.made)?;
        Ok(fids)
    }

    // Who goes for an operation, or how many blocks are pinned once it is made and how many more are needed where these
    // don't fit, found by a queue of the cached nodes and a set of the dirty ones. It isn't found so where one that stays
    // stands under one that doesn't, or the operation changes one that doesn't.
    pub(crate) fn chosen_ahead(
        &self,
        queue: &Queue,
        dirty: &BTreeSet<Fid>,
        prospect: &Prospect,
        rec: &Record,
        looked_up: &[Fid],
    ) -> Result<Option<Result<Vec<Fid>, (u64, u64)>>, AllocError>
        requires queue { IsQueueOf queue.now (standings self.now) }
        requires dirty { (f : Fid) → btree.contains fid_cmp dirty.now f ≡ is_dirty self.now f }
        ensures { (client : ℕ) (n : CacheState) → Foresees self.now client rec.now n prospect.now → IfOk result (λ o. IfSome o (λ r. MatchResult r (λ v. evicted_between self.now n looked_up.now ≡ Ok v.items) (λ e. evicted_between self.now n looked_up.now ≡ Err (CacheFull e.0 e.1 self.now.size)))) }
    {
        self.agree();
        let dirty = self.dirty_ahead(prospect, dirty)?;
        let pinned = self.pinned_ahead(prospect, &dirty)?;
        let mut way = Vec::new(self.alloc);
        self.add_ways(&mut way, looked_up)?;
        let kept = set_of(self.alloc, &way)?;
        let none = BTreeSet::new(self.alloc);
        let pinned_blocks = self.blocks_beside_ahead(prospect, rec, &pinned, &none)?;
        let further = self.blocks_beside_ahead(prospect, rec, &kept, &pinned)?;
        if !room::fits(self.size, pinned_blocks, further) {
            return Ok(Some(Err((pinned_blocks, further))));
        }
        let mut stay = pinned;
        add(&mut stay, &way)?;
        let room = self.size as u64 - (pinned_blocks + further);
        match self.sparing(queue, prospect, stay, room)? {
            Some(gone) => Ok(Some(Ok(gone))),
            None => Ok(None),
        }
    }
}
