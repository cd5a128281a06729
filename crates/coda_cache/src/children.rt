ghost use Rattle.std.specs.Prelude.{◌≡◌, ◌&&◌, true, false, cond, Option, Some, None, IsSome, IfOk, OnOk};
ghost use Rattle.std.specs.Bool.{OnTrue};
ghost use Rattle.std.specs.HashMap as hash;
ghost use Rattle.std.specs.HashSet as hash_set;
ghost use Rattle.coda_fid.specs.declared.fid.Fid.{Fid};
ghost use Rattle.coda_fid.specs.Fid.{same_fid};
ghost use Rattle.coda_walk.specs.Going.{is_listed};
ghost use Rattle.coda_cache.specs.State.{parent_of};
ghost use Rattle.coda_cache.specs.Indexed.{AreUnder, is_parent, is_kept_under};

use crate::contents::Contents;
use coda_fid::Fid;
use coda_tree::{FidHash, FidMap};
use std::alloc::{AllocError, Global};
use std::collections::HashSet;
use std::hash::BuildHasherDefault;

// Fids, each found by its hash.
pub(crate) type FidSet = HashSet<Fid, FidHash>;

// The fids of the cached nodes, by the directory under which each is cached. Where a change wanted memory that was not there,
// they are given up.
#[derive(Drop)]
pub(crate) struct Children {
    pub alloc: Global,
    pub parents: Option<FidMap<FidSet>>,
}

// Puts a fid into a set, where it is to be there, or takes it out.
fn set_in(fids: &mut FidSet, fid: Fid, there: bool) -> Result<(), AllocError>
    ensures { OnOk result ((f : Fid) → hash_set.contains same_fid fids.new f ≡ cond (same_fid fid f) there (hash_set.contains same_fid fids.old f)) }
{
    if there {
        fids.insert(fid)?;
    } else {
        let _ = fids.remove(&fid);
    }
    Ok(())
}

// The same, and answers whether the set is empty then.
fn put_or_take(fids: &mut FidSet, fid: Fid, there: bool) -> Result<bool, AllocError>
    ensures fids { OnOk result ((f : Fid) → hash_set.contains same_fid fids.new f ≡ cond (same_fid fid f) there (hash_set.contains same_fid fids.old f)) }
    ensures none { IfOk result (λ none. OnTrue none ((f : Fid) → hash_set.contains same_fid fids.new f ≡ false)) }
{
    set_in(fids, fid, there)?;
    Ok(fids.is_empty())
}

// A set of one fid.
fn only(alloc: Global, fid: Fid) -> Result<FidSet, AllocError>
    ensures { IfOk result (λ s. (f : Fid) → hash_set.contains same_fid s f ≡ same_fid fid f) }
{
    let mut fids = FidSet::with_hasher(alloc, BuildHasherDefault::new());
    fids.insert(fid)?;
    Ok(fids)
}

// Changes the fids that are kept under a directory by one, where some are, and answers whether none are then.
fn change(
    parents: &mut FidMap<FidSet>,
    parent: Fid,
    fid: Fid,
    there: bool,
) -> Result<bool, AllocError>
    requires { IsSome (hash.get same_fid parents.old parent) }
    ensures kept { OnOk result ((p f : Fid) → is_kept_under parents.new p f ≡ cond (same_fid parent p && same_fid fid f) there (is_kept_under parents.old p f)) }
    ensures none { IfOk result (λ none. OnTrue none ((f : Fid) → is_kept_under parents.new parent f ≡ false)) }
{
    match parents.get_mut(&parent) {
        Some(fids) => put_or_take(fids, fid, there),
        None => Ok(false),
    }
}

// Keeps a first fid under a directory, where it is to be there.
fn begin(
    alloc: Global,
    parents: &mut FidMap<FidSet>,
    parent: Fid,
    fid: Fid,
    there: bool,
) -> Result<(), AllocError>
    requires { hash.get same_fid parents.old parent ≡ None }
    ensures { OnOk result ((p f : Fid) → is_kept_under parents.new p f ≡ cond (same_fid parent p && same_fid fid f) there (is_kept_under parents.old p f)) }
{
    if there {
        let fids = only(alloc, fid)?;
        parents.insert(parent, fids)?;
    }
    Ok(())
}

// Keeps no set for a directory under which no fid is kept.
fn forget(parents: &mut FidMap<FidSet>, parent: Fid)
    requires { (f : Fid) → is_kept_under parents.old parent f ≡ false }
    ensures { (p f : Fid) → is_kept_under parents.new p f ≡ is_kept_under parents.old p f }
{
    let _ = parents.remove(&parent);
}

// Keeps a fid under a directory, where it is to be there, or keeps it no longer.
fn set_under(
    alloc: Global,
    parents: &mut FidMap<FidSet>,
    parent: Fid,
    fid: Fid,
    there: bool,
) -> Result<(), AllocError>
    ensures { OnOk result ((p f : Fid) → is_kept_under parents.new p f ≡ cond (same_fid parent p && same_fid fid f) there (is_kept_under parents.old p f)) }
{
    if parents.contains_key(&parent) {
        if change(parents, parent, fid, there)? {
            forget(parents, parent);
        }
        Ok(())
    } else {
        begin(alloc, parents, parent, fid, there)
    }
}

impl Children {
    // No node is cached.
    pub(crate) fn new(alloc: Global) -> Children
        ensures { AreUnder result (λ _. None) }
    {
        Children {
            alloc,
            parents: Some(FidMap::with_hasher(alloc, BuildHasherDefault::new())),
        }
    }

    // Gives up what is kept.
    pub(crate) fn give_up(&mut self)
        ensures { (parent : Fid → Option Fid) → AreUnder self.new parent }
    {
        self.parents = None;
    }

    // Those of the cached nodes.
    pub(crate) fn of(contents: &Contents) -> Children
        ensures { AreUnder result (parent_of contents.now) }
    {
        contents.agree();
        let mut children = Children::new(contents.alloc());
        match contents.recency() {
            Ok(fids) => children.add_all(contents, &fids),
            Err(_) => children.give_up(),
        }
        children
    }

    // Those of the cached nodes anew, where they were given up.
    pub(crate) fn restore(&mut self, contents: &Contents)
        ensures { AreUnder self.old (parent_of contents.now) → AreUnder self.new (parent_of contents.now) }
    {
        if self.parents.is_none() {
            *self = Children::of(contents);
        }
    }

    // Keeps a fid under a directory, or keeps it no longer.
    fn keep(&mut self, under: Fid, fid: Fid, there: bool)
        ensures added { (parent : Fid → Option Fid) → AreUnder self.old parent → there ≡ true → AreUnder self.new (λ f. cond (same_fid fid f) (Some under) (parent f)) }
        ensures taken { (parent : Fid → Option Fid) → AreUnder self.old parent → AreUnder self.new (λ f. cond (same_fid fid f && is_parent under (parent f)) None (parent f)) }
    {
        if let Some(parents) = &mut self.parents {
            if set_under(self.alloc, parents, under, fid, there).is_err() {
                self.give_up();
            }
        }
    }

    // Keeps a fid no longer under the directory that it was cached under, where there was one.
    fn lose(&mut self, was: Option<Fid>, fid: Fid)
        ensures { (parent : Fid → Option Fid) → AreUnder self.old parent → AreUnder self.new (λ f. cond (same_fid fid f) None (parent f)) }
    {
        match was {
            Some(under) => self.keep(under, fid, false),
            None => {}
        }
    }

    // Keeps a fid under the directory that it is cached under, where there is one.
    fn gain(&mut self, now: Option<Fid>, fid: Fid)
        ensures { (parent : Fid → Option Fid) → AreUnder self.old (λ f. cond (same_fid fid f) None (parent f)) → AreUnder self.new (λ f. cond (same_fid fid f) now (parent f)) }
    {
        match now {
            Some(under) => self.keep(under, fid, true),
            None => {}
        }
    }

    // A node that was cached under one directory, where there was one, is cached under another now, where there is one.
    pub(crate) fn set(&mut self, was: Option<Fid>, now: Option<Fid>, fid: Fid)
        ensures { (parent : Fid → Option Fid) → AreUnder self.old parent → AreUnder self.new (λ f. cond (same_fid fid f) now (parent f)) }
    {
        self.lose(was, fid);
        self.gain(now, fid);
    }

    // Keeps these nodes' fids under their directories.
    pub(crate) fn add_all(&mut self, contents: &Contents, fids: &[Fid])
        ensures { (parent : Fid → Option Fid) → AreUnder self.old parent → AreUnder self.new (λ f. cond (is_listed fids.now f) (parent_of contents.now f) (parent f)) }
    {
        for fid in fids {
            self.set(None, contents.parent(*fid), *fid);
        }
    }

    // Keeps these nodes' fids no longer: they go from the cache, or change their places in it.
    pub(crate) fn take_all(&mut self, contents: &Contents, fids: &[Fid])
        ensures { (parent : Fid → Option Fid) → AreUnder self.old parent → AreUnder self.new (λ f. cond (is_listed fids.now f) None (parent f)) }
    {
        for fid in fids {
            self.set(contents.parent(*fid), None, *fid);
        }
    }
}
