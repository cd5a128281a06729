ghost use Rattle.std.specs.Prelude.{◌≡◌, ◌&&◌, ◌||◌, not, Bool, false, cond, IfOk, IfSome, OnOk};
ghost use Rattle.std.specs.BTreeSet as btree;
ghost use Rattle.coda_fid.specs.declared.fid.Fid.{Fid};
ghost use Rattle.coda_fid.specs.Fid.{fid_cmp, same_fid};
ghost use Rattle.coda_walk.specs.Going.{is_listed};
ghost use Rattle.coda_cache.specs.State.{is_dirty};
ghost use Rattle.coda_cache.specs.Indexed.{AreMarked};

use crate::contents::Contents;
use coda_fid::Fid;
use std::alloc::{AllocError, Global};
use std::collections::BTreeSet;

// The fids of some cached nodes, as the dirty ones. Where a change wanted memory that was not there, they are given up.
#[derive(Drop)]
pub(crate) struct Marks {
    pub fids: Option<BTreeSet<Fid>>,
}

// Puts a fid into a set, where it is to be there, or takes it out.
pub(crate) fn set_in(fids: &mut BTreeSet<Fid>, fid: Fid, there: bool) -> Result<(), AllocError>
    ensures { OnOk result ((f : Fid) → btree.contains fid_cmp fids.new f ≡ cond (same_fid fid f) there (btree.contains fid_cmp fids.old f)) }
{
    if there {
        fids.insert(fid)?;
    } else {
        let _ = fids.remove(&fid);
    }
    Ok(())
}

// A set of one fid.
pub(crate) fn only(alloc: Global, fid: Fid) -> Result<BTreeSet<Fid>, AllocError>
    ensures { IfOk result (λ s. (f : Fid) → btree.contains fid_cmp s f ≡ same_fid fid f) }
{
    let mut fids = BTreeSet::new(alloc);
    fids.insert(fid)?;
    Ok(fids)
}

// The fids with one of them, where it is to be there, or without it.
pub(crate) fn with(fids: BTreeSet<Fid>, fid: Fid, there: bool) -> Option<BTreeSet<Fid>>
    ensures { IfSome result (λ s. (f : Fid) → btree.contains fid_cmp s f ≡ cond (same_fid fid f) there (btree.contains fid_cmp fids f)) }
{
    let mut fids = fids;
    match set_in(&mut fids, fid, there) {
        Ok(()) => Some(fids),
        Err(_) => None,
    }
}

// The fids of a set, in their order.
pub(crate) fn listed(alloc: Global, fids: &BTreeSet<Fid>) -> Result<Vec<Fid>, AllocError>
    ensures fids { IfOk result (λ v. v.items ≡ fids.now.keys) }
    ensures ordered { btree.IsOrdered fid_cmp fids.now }
{
    let mut list = Vec::new(alloc);
    for fid in fids.iter() {
        list.push(*fid)?;
    }
    Ok(list)
}

impl Marks {
    // No marks are kept.
    pub(crate) fn none() -> Marks
        ensures { (passes : Fid → Bool) → AreMarked result passes }
    {
        Marks { fids: None }
    }

    // Those of the nodes that are dirty.
    pub(crate) fn of(contents: &Contents) -> Marks
        ensures { AreMarked result (is_dirty contents.now) }
    {
        match contents.dirty() {
            Ok(fids) => Marks { fids: Some(fids) },
            Err(_) => Marks::none(),
        }
    }

    // Marks the dirty nodes anew, where marks were given up.
    pub(crate) fn restore(&mut self, contents: &Contents)
        ensures { AreMarked self.old (is_dirty contents.now) → AreMarked self.new (is_dirty contents.now) }
    {
        if self.fids.is_none() {
            *self = Marks::of(contents);
        }
    }

    // Those that are marked, where that is known and there is memory.
    pub(crate) fn list(&self, alloc: Global) -> Option<Vec<Fid>>
        ensures { (passes : Fid → Bool) → AreMarked self.now passes → IfSome result (λ v. (f : Fid) → is_listed v.items f ≡ passes f) }
    {
        match &self.fids {
            Some(fids) => match listed(alloc, fids) {
                Ok(list) => Some(list),
                Err(_) => None,
            },
            None => None,
        }
    }

    // Marks a fid, or marks it no longer.
    pub(crate) fn set(&mut self, fid: Fid, there: bool)
        ensures { (passes : Fid → Bool) → AreMarked self.old passes → AreMarked self.new (λ f. cond (same_fid fid f) there (passes f)) }
    {
        if let Some(fids) = self.fids.take() {
            self.fids = with(fids, fid, there);
        }
    }

    // Marks fids no longer.
    pub(crate) fn take_all(&mut self, fids: &[Fid])
        ensures { (passes : Fid → Bool) → AreMarked self.old passes → AreMarked self.new (λ f. not (is_listed fids.now f) && passes f) }
    {
        for fid in fids {
            self.set(*fid, false);
        }
    }

    // Marks a fid where its node is dirty, and else no longer. Whether it is is looked up where marks are kept alone.
    pub(crate) fn set_as(&mut self, contents: &Contents, fid: Fid)
        ensures { (passes : Fid → Bool) → AreMarked self.old passes → AreMarked self.new (λ f. cond (same_fid fid f) (is_dirty contents.now fid) (passes f)) }
    {
        if let Some(fids) = self.fids.take() {
            self.fids = with(fids, fid, contents.is_dirty(fid));
        }
    }

    // Marks those of these fids whose nodes are dirty, and the others no longer.
    pub(crate) fn renew(&mut self, contents: &Contents, fids: &[Fid])
        ensures { (passes : Fid → Bool) → AreMarked self.old passes → AreMarked self.new (λ f. cond (is_listed fids.now f) (is_dirty contents.now f) (passes f)) }
    {
        for fid in fids {
            self.set_as(contents, *fid);
        }
    }
}
