ghost use Rattle.std.specs.Prelude.{◌≡◌, ◌++◌, ◌∷◌, [], ◌||◌, ℕ, false, IfOk, OnOk, MatchResult, List, Ok, Err, is_some};
ghost use Rattle.std.specs.Prelude as prelude;
ghost use Rattle.std.specs.Option.{option_map_or};
ghost use Rattle.std.specs.BTreeSet as btree;
ghost use Rattle.coda_fid.specs.declared.fid.Fid.{Fid};
ghost use Rattle.coda_fid.specs.Fid.{fid_cmp};
ghost use Rattle.coda_cache.specs.declared.hold.Hold.{Hold};
ghost use Rattle.coda_cache.specs.declared.fault.CacheFault.TheVariants.{CacheFull};
ghost use Rattle.coda_cache.specs.State.{CacheState};
ghost use Rattle.coda_cache.specs.Ways.{is_pinned};
ghost use Rattle.coda_cache.specs.Room.{item_of, evicted_between};
ghost use Rattle.coda_cache.specs.Prospects.{hold_ahead, Foresees};

use crate::contents::Contents;
use crate::prospect::Prospect;
use crate::room;
use coda_fid::{Fid, Record};
use coda_walk::{Item, who_goes};
use std::alloc::AllocError;
use std::collections::BTreeSet;

impl Contents {
    // Whether the copy of a node may be served once the operation is made.
    fn is_served_ahead(&self, prospect: &Prospect, fid: Fid) -> bool
        ensures { result ≡ option_map_or (λ (hold : Hold). is_some hold.from || hold.dirty) (hold_ahead self.now prospect.now fid) false }
    {
        match self.hold_ahead(prospect, fid) {
            Some(hold) => hold.from.is_some() || hold.dirty,
            None => false,
        }
    }

    // What a plan has to know of a node once the operation is made.
    fn item_ahead(
        &self,
        prospect: &Prospect,
        rec: &Record,
        pinned: &BTreeSet<Fid>,
        fid: Fid,
    ) -> Result<Item, AllocError>
        ensures { (client : ℕ) (n : CacheState) → Foresees self.now client rec.now n prospect.now → ((f : Fid) → btree.contains fid_cmp pinned.now f ≡ is_pinned n f) → IfOk result (λ i. i ≡ item_of n fid) }
    {
        let blocks = self.blocks_ahead(prospect, rec, fid)?;
        Ok(Item {
            fid,
            parent: self.parent_ahead(prospect, fid),
            priority: self.priority(fid),
            blocks,
            cached: true,
            served: self.is_served_ahead(prospect, fid),
            pinned: pinned.contains(&fid),
        })
    }

    // Adds what a plan has to know of a node once the operation is made.
    fn push_item(
        &self,
        prospect: &Prospect,
        rec: &Record,
        pinned: &BTreeSet<Fid>,
        items: &mut Vec<Item>,
        fid: Fid,
    ) -> Result<(), AllocError>
        ensures { (client : ℕ) (n : CacheState) → Foresees self.now client rec.now n prospect.now → ((f : Fid) → btree.contains fid_cmp pinned.now f ≡ is_pinned n f) → OnOk result (items.new.items ≡ items.old.items ++ item_of n fid ∷ []) }
    {
        let item = self.item_ahead(prospect, rec, pinned, fid)?;
        items.push(item)?;
        Ok(())
    }

    // The items of nodes once the operation is made.
    fn items_ahead(
        &self,
        prospect: &Prospect,
        rec: &Record,
        pinned: &BTreeSet<Fid>,
        fids: &[Fid],
    ) -> Result<Vec<Item>, AllocError>
        ensures { (client : ℕ) (n : CacheState) → Foresees self.now client rec.now n prospect.now → ((f : Fid) → btree.contains fid_cmp pinned.now f ≡ is_pinned n f) → IfOk result (λ v. v.items ≡ prelude.map (item_of n) fids.now) }
    {
        let mut items = Vec::new(self.alloc);
        for fid in fids {
            self.push_item(prospect, rec, pinned, &mut items, *fid)?;
        }
        Ok(items)
    }

    // Who goes for an operation, or how many blocks are pinned once it is made and how many more are needed where these don't
    // fit, by a look at all cached nodes. Fails for want of memory alone.
    pub(crate) fn going_ahead(
        &self,
        prospect: &Prospect,
        rec: &Record,
        looked_up: &[Fid],
    ) -> Result<Result<Vec<Fid>, (u64, u64)>, AllocError>
        ensures { (client : ℕ) (n : CacheState) → Foresees self.now client rec.now n prospect.now → IfOk result (λ r. MatchResult r (λ v. evicted_between self.now n looked_up.now ≡ Ok v.items) (λ e. evicted_between self.now n looked_up.now ≡ Err (CacheFull e.0 e.1 self.now.size))) }
    {
        self.agree();
        let fids = self.recency_ahead(prospect)?;
        let pinned = self.pinned_ahead(prospect, &fids)?;
        let items = self.items_ahead(prospect, rec, &pinned, &fids)?;
        let mut kept = Vec::new(self.alloc);
        self.add_ways(&mut kept, looked_up)?;
        let pinned_blocks = room::pinned_blocks(&items)?;
        let further = room::further_blocks(&kept, &items)?;
        if !room::fits(self.size, pinned_blocks, further) {
            return Ok(Err((pinned_blocks, further)));
        }
        let gone = who_goes(self.alloc, self.size as u64, &kept, &items)?;
        Ok(Ok(gone))
    }
}
