ghost use Rattle.std.specs.Prelude.{◌≡◌, ◌&&◌, ◌==◌, Bool, true, false, cond, ℕ, Option, None, Some, IfOk, IfSome, IsSome, OnOk};
ghost use Rattle.std.specs.List.{filter};
ghost use Rattle.std.specs.BTreeMap as tree;
ghost use Rattle.std.specs.Ordering.{nat_cmp};
ghost use Rattle.coda_fid.specs.declared.fid.Fid.{Fid};
ghost use Rattle.coda_fid.specs.Fid.{same_fid};
ghost use Rattle.coda_walk.specs.Going.{is_listed};
ghost use Rattle.coda_cache.specs.State.{source_of};
ghost use Rattle.coda_cache.specs.Indexed.{AreCovered, same_server, is_from, is_kept_for};

use crate::contents::Contents;
use crate::marks::{only, set_in};
use coda_fid::Fid;
use std::alloc::{AllocError, Global};
use std::collections::{BTreeMap, BTreeSet};

// The fids of the valid copies, by the server that each is from. Where a change wanted memory that was not there, they are given
// up.
#[derive(Drop)]
pub(crate) struct Sources {
    pub alloc: Global,
    pub servers: Option<BTreeMap<u8, BTreeSet<Fid>>>,
}

// Changes the fids that are kept for a server by one, where a set of them is kept.
fn change(
    servers: &mut BTreeMap<u8, BTreeSet<Fid>>,
    server: u8,
    fid: Fid,
    there: bool,
) -> Result<(), AllocError>
    requires { IsSome (tree.get nat_cmp servers.old server) }
    ensures { OnOk result ((t : ℕ) (f : Fid) → is_kept_for servers.new t f ≡ cond (same_server server t && same_fid fid f) there (is_kept_for servers.old t f)) }
{
    match servers.get_mut(&server) {
        Some(fids) => set_in(fids, fid, there),
        None => Ok(()),
    }
}

// Keeps a first fid for a server, where it is to be there.
fn begin(
    alloc: Global,
    servers: &mut BTreeMap<u8, BTreeSet<Fid>>,
    server: u8,
    fid: Fid,
    there: bool,
) -> Result<(), AllocError>
    requires { tree.get nat_cmp servers.old server ≡ None }
    ensures { OnOk result ((t : ℕ) (f : Fid) → is_kept_for servers.new t f ≡ cond (same_server server t && same_fid fid f) there (is_kept_for servers.old t f)) }
{
    if there {
        let fids = only(alloc, fid)?;
        servers.insert(server, fids)?;
    }
    Ok(())
}

// Keeps a fid for a server, where it is to be there, or keeps it no longer.
fn set_for(
    alloc: Global,
    servers: &mut BTreeMap<u8, BTreeSet<Fid>>,
    server: u8,
    fid: Fid,
    there: bool,
) -> Result<(), AllocError>
    ensures { OnOk result ((t : ℕ) (f : Fid) → is_kept_for servers.new t f ≡ cond (same_server server t && same_fid fid f) there (is_kept_for servers.old t f)) }
{
    if servers.contains_key(&server) {
        change(servers, server, fid, there)
    } else {
        begin(alloc, servers, server, fid, there)
    }
}

// What is kept, with a fid for a server, where it is to be there, or without it.
fn with_fid(
    alloc: Global,
    servers: BTreeMap<u8, BTreeSet<Fid>>,
    server: u8,
    fid: Fid,
    there: bool,
) -> Option<BTreeMap<u8, BTreeSet<Fid>>>
    ensures { IfSome result (λ s. (t : ℕ) (f : Fid) → is_kept_for s t f ≡ cond (same_server server t && same_fid fid f) there (is_kept_for servers t f)) }
{
    let mut servers = servers;
    match set_for(alloc, &mut servers, server, fid, there) {
        Ok(()) => Some(servers),
        Err(_) => None,
    }
}

// The fids of a set that are of a volume, in their order.
fn listed_in(alloc: Global, fids: &BTreeSet<Fid>, volume: u32) -> Result<Vec<Fid>, AllocError>
    ensures { IfOk result (λ v. v.items ≡ filter (λ (f : Fid). f.volume == volume) fids.now.keys) }
{
    let mut list = Vec::new(alloc);
    for fid in fids.iter() {
        if fid.volume == volume {
            list.push(*fid)?;
        }
    }
    Ok(list)
}

// The fids of a volume that are kept for a server, where there is memory.
fn kept_in(
    alloc: Global,
    servers: &BTreeMap<u8, BTreeSet<Fid>>,
    volume: u32,
    server: u8,
) -> Option<Vec<Fid>>
    ensures { IfSome result (λ v. (f : Fid) → is_listed v.items f ≡ ((f.volume == volume) && is_kept_for servers.now server f)) }
{
    match servers.get(&server) {
        Some(fids) => match listed_in(alloc, fids, volume) {
            Ok(list) => Some(list),
            Err(_) => None,
        },
        None => Some(Vec::new(alloc)),
    }
}

impl Sources {
    // No copy is valid.
    pub(crate) fn new(alloc: Global) -> Sources
        ensures { AreCovered result (λ _. None) }
    {
        Sources {
            alloc,
            servers: Some(BTreeMap::new(alloc)),
        }
    }

    // None are kept.
    pub(crate) fn none(alloc: Global) -> Sources
        ensures { (source : Fid → Option ℕ) → AreCovered result source }
    {
        Sources {
            alloc,
            servers: None,
        }
    }

    // Gives up what is kept.
    pub(crate) fn give_up(&mut self)
        ensures { (source : Fid → Option ℕ) → AreCovered self.new source }
    {
        self.servers = None;
    }

    // Those of the cached nodes.
    pub(crate) fn of(contents: &Contents) -> Sources
        ensures { AreCovered result (source_of contents.now) }
    {
        contents.agree();
        let mut sources = Sources::new(contents.alloc());
        match contents.recency() {
            Ok(fids) => sources.add_all(contents, &fids),
            Err(_) => sources.give_up(),
        }
        sources
    }

    // Those of the cached nodes anew, where they were given up.
    pub(crate) fn restore(&mut self, contents: &Contents)
        ensures { AreCovered self.old (source_of contents.now) → AreCovered self.new (source_of contents.now) }
    {
        if self.servers.is_none() {
            *self = Sources::of(contents);
        }
    }

    // The fids of a volume that are kept for a server, where that is known and there is memory.
    pub(crate) fn list(&self, volume: u32, server: u8) -> Option<Vec<Fid>>
        ensures covers { (source : Fid → Option ℕ) → AreCovered self.now source → IfSome result (λ v. (f : Fid) → (f.volume == volume) ≡ true → source f ≡ Some server → is_listed v.items f ≡ true) }
        ensures volume { IfSome result (λ v. (f : Fid) → is_listed v.items f ≡ true → (f.volume == volume) ≡ true) }
    {
        match &self.servers {
            Some(servers) => kept_in(self.alloc, servers, volume, server),
            None => None,
        }
    }

    // Keeps a fid for a server, or keeps it no longer.
    fn keep(&mut self, server: u8, fid: Fid, there: bool)
        ensures added { (source : Fid → Option ℕ) → AreCovered self.old source → there ≡ true → AreCovered self.new (λ f. cond (same_fid fid f) (Some server) (source f)) }
        ensures taken { (source : Fid → Option ℕ) → AreCovered self.old source → AreCovered self.new (λ f. cond (same_fid fid f && is_from server (source f)) None (source f)) }
    {
        if let Some(servers) = self.servers.take() {
            self.servers = with_fid(self.alloc, servers, server, fid, there);
        }
    }

    // Keeps a fid no longer for the server that its copy was from, where it was valid.
    fn lose(&mut self, was: Option<u8>, fid: Fid)
        ensures { (source : Fid → Option ℕ) → AreCovered self.old source → AreCovered self.new (λ f. cond (same_fid fid f) None (source f)) }
    {
        match was {
            Some(server) => self.keep(server, fid, false),
            None => {}
        }
    }

    // Keeps a fid for the server that its copy is from, where it is valid.
    fn gain(&mut self, from: Option<u8>, fid: Fid)
        ensures { (source : Fid → Option ℕ) → AreCovered self.old (λ f. cond (same_fid fid f) None (source f)) → AreCovered self.new (λ f. cond (same_fid fid f) from (source f)) }
    {
        match from {
            Some(server) => self.keep(server, fid, true),
            None => {}
        }
    }

    // The server that the copy of a node is from, where it is valid and any are kept.
    pub(crate) fn known(&self, contents: &Contents, fid: Fid) -> Option<u8> {
        if self.servers.is_none() {
            return None;
        }
        contents.source(fid)
    }

    // The copy of a node that was from one server, where it was valid, is from another now, where it is.
    pub(crate) fn set(&mut self, was: Option<u8>, from: Option<u8>, fid: Fid)
        ensures { (source : Fid → Option ℕ) → AreCovered self.old source → AreCovered self.new (λ f. cond (same_fid fid f) from (source f)) }
    {
        self.lose(was, fid);
        self.gain(from, fid);
    }

    // Keeps these nodes' fids, where their copies are valid.
    fn add_all(&mut self, contents: &Contents, fids: &[Fid])
        ensures { (source : Fid → Option ℕ) → AreCovered self.old source → AreCovered self.new (λ f. cond (is_listed fids.now f) (source_of contents.now f) (source f)) }
    {
        for fid in fids {
            self.set(None, contents.source(*fid), *fid);
        }
    }

    // Keeps these nodes' fids no longer: they go from the cache.
    pub(crate) fn take_all(&mut self, contents: &Contents, fids: &[Fid])
        ensures { (source : Fid → Option ℕ) → AreCovered self.old source → AreCovered self.new (λ f. cond (is_listed fids.now f) None (source f)) }
    {
        for fid in fids {
            let was = self.known(contents, *fid);
            self.set(was, None, *fid);
        }
    }

    // Keeps fids for a server no longer.
    pub(crate) fn leave(&mut self, server: u8, fids: &[Fid])
        ensures { (source : Fid → Option ℕ) → AreCovered self.old source → AreCovered self.new (λ f. cond (is_listed fids.now f && is_from server (source f)) None (source f)) }
    {
        for fid in fids {
            self.keep(server, *fid, false);
        }
    }
}
