ghost use Rattle.std.specs.Prelude.{◌≡◌, ◌++◌, ◌∷◌, [], ◌||◌, ◌&&◌, ◌+◌, ◌-◌, ℕ, IfOk, OnOk, List, Option};
ghost use Rattle.std.specs.Prelude as prelude;
ghost use Rattle.std.specs.FinMap as map;
ghost use Rattle.std.specs.List.{list_any, filter};
ghost use Rattle.std.specs.BTreeSet as btree;
ghost use Rattle.coda_fid.specs.declared.fid.Fid.{Fid};
ghost use Rattle.coda_fid.specs.Fid.{fid_cmp};
ghost use Rattle.coda_certify.specs.Replay.{MayApply};
ghost use Rattle.coda_walk.specs.Going.{is_listed};
ghost use Rattle.coda_cache.specs.Room.{operated};
ghost use Rattle.coda_cache.specs.Steps.{taken_out, taken_below};
ghost use Rattle.coda_cache.specs.Prospects.{will_go, hold_left, hold_made, hold_moved, hold_noted, hold_ahead, parent_ahead, is_dirty_ahead, way_ahead, pins_ahead, recency_ahead, Foresees};

use crate::Hold;
use crate::contents::Contents;
use crate::evicting::add;
use crate::operating::{mentioned, moved_node, new_node};
use coda_fid::{Fid, Record};
use std::alloc::{AllocError, Global};
use std::collections::BTreeSet;

// What is known of a cache as an operation on a volume will leave it.
#[derive(Drop)]
pub(crate) struct Prospect {
    // the volume, and what its log then mentions
    pub volume: u32,
    pub mentioned: BTreeSet<Fid>,
    // what the operation mentions
    pub touched: BTreeSet<Fid>,
    // what goes with the node that it takes out
    pub gone: BTreeSet<Fid>,
    // the directory in which it makes a node, and that node
    pub made: Option<(Fid, Fid)>,
    // the node that it moves, and the directory that then binds it
    pub moved: Option<(Fid, Fid)>,
    // how many nodes are cached then
    pub steps: usize,
}

// A set of fids.
pub(crate) fn set_of(alloc: Global, fids: &[Fid]) -> Result<BTreeSet<Fid>, AllocError>
    ensures { IfOk result (λ s. (f : Fid) → btree.contains fid_cmp s f ≡ is_listed fids.now f) }
{
    let mut set = BTreeSet::new(alloc);
    add(&mut set, fids)?;
    Ok(set)
}

// Adds a fid to fids, unless it is in a set.
fn push_unless(list: &mut Vec<Fid>, set: &BTreeSet<Fid>, fid: Fid) -> Result<(), AllocError>
    ensures { OnOk result (list.new.items ≡ list.old.items ++ prelude.cond (btree.contains fid_cmp set.now fid) [] (fid ∷ [])) }
{
    if !set.contains(&fid) {
        list.push(fid)?;
    }
    Ok(())
}

// The fids but those in a set.
fn but(alloc: Global, set: &BTreeSet<Fid>, fids: &[Fid]) -> Result<Vec<Fid>, AllocError>
    ensures { IfOk result (λ v. v.items ≡ filter (λ f. prelude.not (btree.contains fid_cmp set.now f)) fids.now) }
{
    let mut left = Vec::new(alloc);
    for fid in fids {
        push_unless(&mut left, set, *fid)?;
    }
    Ok(left)
}

// A hold, under another directory where its node is moved.
fn hold_moved(moved: Option<(Fid, Fid)>, fid: Fid, hold: Hold) -> Hold
    ensures { result ≡ hold_moved moved fid hold }
{
    match moved {
        Some((at, dir)) => {
            if at == fid {
                Hold {
                    parent: Some(dir),
                    from: hold.from,
                    dirty: hold.dirty,
                }
            } else {
                hold
            }
        }
        None => hold,
    }
}

impl Prospect {
    // A hold, dirty where the log then mentions its node.
    fn hold_noted(&self, fid: Fid, hold: Hold) -> Hold
        ensures { result ≡ hold_noted self.now fid hold }
    {
        let dirty = if fid.volume == self.volume {
            self.mentioned.contains(&fid)
        } else {
            hold.dirty || self.touched.contains(&fid)
        };
        Hold {
            parent: hold.parent,
            from: hold.from,
            dirty,
        }
    }
}

impl Contents {
    // How a node is held, unless it goes.
    fn hold_left(&self, prospect: &Prospect, fid: Fid) -> Option<Hold>
        ensures { result ≡ hold_left self.now prospect.now fid }
    {
        if prospect.gone.contains(&fid) {
            None
        } else {
            self.holds.get(fid)
        }
    }

    // The same, or how a node is held that is made.
    fn hold_made(&self, prospect: &Prospect, fid: Fid) -> Option<Hold>
        ensures { result ≡ hold_made prospect.now.made fid (hold_left self.now prospect.now fid) }
    {
        match prospect.made {
            Some((dir, at)) => {
                if at == fid {
                    Some(Hold {
                        parent: Some(dir),
                        from: None,
                        dirty: true,
                    })
                } else {
                    self.hold_left(prospect, fid)
                }
            }
            None => self.hold_left(prospect, fid),
        }
    }

    // How a node will be held.
    pub(crate) fn hold_ahead(&self, prospect: &Prospect, fid: Fid) -> Option<Hold>
        ensures { result ≡ hold_ahead self.now prospect.now fid }
    {
        match self.hold_made(prospect, fid) {
            Some(hold) => Some(prospect.hold_noted(fid, hold_moved(prospect.moved, fid, hold))),
            None => None,
        }
    }

    // The directory under which a node will be cached.
    pub(crate) fn parent_ahead(&self, prospect: &Prospect, fid: Fid) -> Option<Fid>
        ensures { result ≡ parent_ahead self.now prospect.now fid }
    {
        match self.hold_ahead(prospect, fid) {
            Some(hold) => hold.parent,
            None => None,
        }
    }

    // Whether a node will be dirty.
    fn is_dirty_ahead(&self, prospect: &Prospect, fid: Fid) -> bool
        ensures { result ≡ is_dirty_ahead self.now prospect.now fid }
    {
        match self.hold_ahead(prospect, fid) {
            Some(hold) => hold.dirty,
            None => false,
        }
    }

    // A node and what will be above it.
    fn way_ahead(&self, prospect: &Prospect, fid: Fid) -> Result<Vec<Fid>, AllocError>
        ensures { IfOk result (λ v. v.items ≡ way_ahead self.now prospect.now prospect.now.steps fid) }
    {
        let mut way = Vec::new(self.alloc);
        let mut at = Some(fid);
        for _step in 0..prospect.steps {
            match at {
                Some(on) => {
                    way.push(on)?;
                    at = self.parent_ahead(prospect, on);
                }
                None => return Ok(way),
            }
        }
        Ok(way)
    }

    // Adds a node and what will be above it, where the node will be dirty.
    fn add_pinned_ahead(
        &self,
        prospect: &Prospect,
        set: &mut BTreeSet<Fid>,
        fid: Fid,
    ) -> Result<(), AllocError>
        ensures { OnOk result ((f : Fid) → btree.contains fid_cmp set.new f ≡ (btree.contains fid_cmp set.old f || pins_ahead self.now prospect.now f fid)) }
    {
        if self.is_dirty_ahead(prospect, fid) {
            let way = self.way_ahead(prospect, fid)?;
            add(set, &way)?;
        }
        Ok(())
    }

    // Those of these nodes that will be dirty, and what will be above them.
    pub(crate) fn pinned_ahead(
        &self,
        prospect: &Prospect,
        fids: &[Fid],
    ) -> Result<BTreeSet<Fid>, AllocError>
        ensures { IfOk result (λ s. (f : Fid) → btree.contains fid_cmp s f ≡ list_any (pins_ahead self.now prospect.now f) fids.now) }
    {
        let mut pinned = BTreeSet::new(self.alloc);
        for fid in fids {
            self.add_pinned_ahead(prospect, &mut pinned, *fid)?;
        }
        Ok(pinned)
    }

    // Those of these nodes that don't go.
    fn staying(&self, prospect: &Prospect, fids: &[Fid]) -> Result<Vec<Fid>, AllocError>
        ensures { IfOk result (λ v. v.items ≡ filter (λ f. prelude.not (will_go prospect.now f)) fids.now) }
    {
        but(self.alloc, &prospect.gone, fids)
    }

    // The cached nodes in the order of their use, once the operation is made.
    pub(crate) fn recency_ahead(&self, prospect: &Prospect) -> Result<Vec<Fid>, AllocError>
        ensures { IfOk result (λ v. v.items ≡ recency_ahead self.now prospect.now) }
    {
        let used = self.recency()?;
        let mut left = self.staying(prospect, &used)?;
        if let Some((_, fid)) = prospect.made {
            left.push(fid)?;
        }
        Ok(left)
    }

    // How many nodes are cached once so many are gone and one is made, where one is.
    fn len_ahead(&self, gone: usize, makes: bool) -> Result<usize, AllocError>
        ensures { IfOk result (λ n. n ≡ (map.len self.now.holds - gone) + prelude.cond makes 1 0) }
    {
        let left = self.holds.len().saturating_sub(gone);
        if makes {
            left.checked_add(1).ok_or(AllocError)
        } else {
            Ok(left)
        }
    }

    // What is known of the cache as an operation will leave it, with which these go.
    pub(crate) fn prospect(
        &self,
        volume: u32,
        rec: &Record,
        gone: &[Fid],
        noted: &[Fid],
    ) -> Result<Prospect, AllocError>
        requires gone { (f : Fid) → is_listed gone.now f ≡ is_listed (taken_below self.now (taken_out rec.now.op)) f }
        requires may { MayApply self.now.nodes rec.now.op }
        ensures { (client : ℕ) → IfOk result (λ p. Foresees self.now client rec.now (operated self.now client volume rec.now noted.now) p) }
    {
        self.agree();
        let made = new_node(&rec.op);
        let gone = set_of(self.alloc, gone)?;
        let steps = self.len_ahead(gone.len(), made.is_some())?;
        Ok(Prospect {
            volume,
            mentioned: set_of(self.alloc, noted)?,
            touched: set_of(self.alloc, &mentioned(&rec.op))?,
            gone,
            made,
            moved: moved_node(&rec.op),
            steps,
        })
    }
}
