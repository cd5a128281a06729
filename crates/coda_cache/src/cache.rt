ghost use Rattle.std.specs.Prelude.{◌≡◌, ◌==◌, ◌⊎◌, ◌<◌, ◌^◌, Option, Ok, Err, true, Some, None, IfOk, IfErr, IfSome, OnOk, OnErr, MatchResult, option_copied, ℕ, is_some, List, [], ◌∷◌};
ghost use Rattle.std.specs.Bool.{OnTrue};
ghost use Rattle.std.specs.FinMap as map;
ghost use Rattle.coda_fid.specs.declared.fid.Fid.{Fid};
ghost use Rattle.coda_tree.specs.Volume as volume;
ghost use Rattle.coda_certify.specs.Replay.{MayApply};
ghost use Rattle.coda_cache.specs.Rows.{rows_of};
ghost use Rattle.coda_cache.specs.Ways.{at_or_below};
ghost use Rattle.coda_cache.specs.State.{CacheState, empty_cache, is_cached, parent_of, source_of, is_dirty, priority_of, blocks_at};
ghost use Rattle.coda_cache.specs.Room.{evicted_for, evicted_between, evicted_after};
ghost use Rattle.coda_cache.specs.Prospects.{Foresees};
ghost use Rattle.coda_cache.specs.declared.fault.CacheFault as CacheFault;
ghost use Rattle.coda_cache.specs.declared.fault.CacheFault.TheVariants.{CacheFull};
ghost use Rattle.coda_cache.specs.Steps.{taken_out, taken_below, used, invalidated, invalidated_from, pinned_to, pinned_in, marked, put_in, without, dropped, removed, walked};
ghost use Rattle.coda_cache.specs.Walking.{AreCounted};
ghost use Rattle.coda_walk.specs.Going.{is_listed};
ghost use Rattle.coda_cache.specs.Indexed.{pinned_of};

use crate::children::Children;
use crate::contents::Contents;
use crate::marks::Marks;
use crate::operating::{mentioned, taken_out};
use crate::prospect::{Prospect, set_of};
use crate::queued::Queued;
use crate::sources::Sources;
use crate::{CacheFault, CacheRow, by_use, descending, room};
use coda_fid::{Fid, Record};
use coda_tree::Node;
use std::alloc::{AllocError, Global};
use std::marker::Model;

/// The cache of a client: copies of nodes of whatever volumes, how each is held, and in which order they were used
/// (Kistler and Satyanarayanan 1992).
///
/// Each node but a volume's root is cached under one directory, which is cached too. Contracts see a record of the size in
/// blocks, the nodes, their holds, the order of use and the priorities of the last walk. A node is found by its hash in
/// constant time, and each one that goes in logarithmic time.
#[derive(Drop)]
pub struct Cache {
    pub(crate) contents: Contents,
    pub(crate) queued: Queued,
    pub(crate) dirty: Marks,
    pub(crate) sources: Sources,
    pub(crate) children: Children,
}

impl Model for Cache {
    ghost use Rattle.coda_tree.specs.contracts.node.Node as node_row;
    ghost use Rattle.coda_cache.specs.contracts.hold.Hold as hold_row;
    ghost use Rattle.coda_cache.specs.State.{CacheState, coded_cache};
    ghost use Rattle.coda_cache.specs.Indexed.{IsIndexed};

    ghost Value = { CacheState };

    ghost coded = { coded_cache node_row.the_row.coded hold_row.the_row.coded };

    ghost view = { λ a. a.contents };

    ghost invariant = { IsIndexed };
}

impl Cache {
    ghost use Rattle.std.specs.Borrow.{sem};
    ghost use Rattle.coda_cache.specs.Lending.{ends_as};

    /// A cache of so many blocks, in which nothing is. Fails for want of memory alone. Who goes, what is dirty and what is from a
    /// server is found by a look at all that is cached, until `index` was called.
    pub fn new(alloc: Global, size: u32) -> Result<Cache, AllocError>
        ensures { IfOk result (λ c. c ≡ empty_cache size) }
    {
        let contents = Contents::new(alloc, size)?;
        Ok(Cache {
            contents,
            queued: Queued::none(),
            dirty: Marks::none(),
            sources: Sources::none(alloc),
            children: Children::new(alloc),
        })
    }

    /// The blocks that it may take.
    pub fn size(&self) -> u32
        ensures { result ≡ self.now.size }
    {
        self.contents.size()
    }

    /// Whether a node is cached.
    pub fn contains(&self, fid: Fid) -> bool
        ensures { result ≡ is_cached self.now fid }
    {
        self.contents.contains(fid)
    }

    /// The node at a fid. Does not count as use.
    pub fn peek(&self, fid: Fid) -> Option<&Node>
        ensures { option_copied result ≡ map.get self.now.nodes fid }
    {
        self.contents.peek(fid)
    }

    /// The directory that binds a fid, the first in the order of fids; `None` where no cached one does.
    pub fn binder(&self, fid: Fid) -> Option<Fid>
        ensures { result ≡ volume.parent_of self.now.nodes fid }
    {
        self.contents.binder(fid)
    }

    /// The server that a valid copy of a node is from.
    pub fn source(&self, fid: Fid) -> Option<u8>
        ensures { result ≡ source_of self.now fid }
    {
        self.contents.source(fid)
    }

    /// The directory under which a node is cached.
    pub fn parent(&self, fid: Fid) -> Option<Fid>
        ensures { result ≡ parent_of self.now fid }
    {
        self.contents.parent(fid)
    }

    /// Whether a record of the log mentions a cached node.
    pub fn is_dirty(&self, fid: Fid) -> bool
        ensures { result ≡ is_dirty self.now fid }
    {
        self.contents.is_dirty(fid)
    }

    /// The priority that the last walk gave a node, 0 for none.
    pub fn priority(&self, fid: Fid) -> u16
        ensures { result ≡ priority_of self.now fid }
    {
        self.contents.priority(fid)
    }

    /// The blocks that a cached node takes, 0 where it isn't cached.
    pub fn blocks(&self, fid: Fid) -> u32
        ensures { result ≡ blocks_at self.now fid }
    {
        self.contents.blocks(fid)
    }

    /// The cached nodes in the order of their use, the least recently used first. Fails for want of memory alone.
    pub fn recency(&self) -> Result<Vec<Fid>, AllocError>
        ensures { IfOk result (λ v. v.items ≡ self.now.recency) }
    {
        self.contents.recency()
    }

    /// What is told of all cached nodes, in the order of their fids. Fails for want of memory alone.
    pub fn rows(&self) -> Result<Vec<CacheRow>, AllocError>
        ensures { IfOk result (λ v. v.items ≡ rows_of self.now) }
    {
        self.contents.rows()
    }

    // The cached nodes that are a node, or cached below it, in no order. Fails for want of memory alone.
    pub(crate) fn below(&self, fid: Fid) -> Result<Vec<Fid>, AllocError>
        ensures { IfOk result (λ v. (f : Fid) → is_listed v.items f ≡ is_listed (at_or_below self.now fid) f) }
    {
        self.contents.agree();
        match &self.children.parents {
            Some(parents) => descending::below(&self.contents, parents, fid),
            None => self.contents.at_or_below(fid),
        }
    }

    /// The cached nodes that are a node, or cached below it, in the order of their use. Fails for want of memory alone.
    pub fn at_or_below(&self, fid: Fid) -> Result<Vec<Fid>, AllocError>
        ensures { IfOk result (λ v. v.items ≡ at_or_below self.now fid) }
    {
        match &self.queued.queue {
            Some(queue) => {
                let below = self.below(fid)?;
                by_use::in_order(&self.contents, queue, &below)
            }
            None => self.contents.at_or_below(fid),
        }
    }

    // What goes from the cache where a node is taken out, in no order.
    fn taken_below(&self, taken: Option<Fid>) -> Result<Vec<Fid>, AllocError>
        ensures { IfOk result (λ v. (f : Fid) → is_listed v.items f ≡ is_listed (taken_below self.now taken) f) }
    {
        match taken {
            Some(fid) => self.below(fid),
            None => Ok(Vec::new(self.contents.alloc())),
        }
    }

    /// Notes that a node was used, where it is cached.
    pub fn touch(&mut self, fid: Fid)
        ensures { self.new ≡ used self.old fid }
    {
        if self.contents.touch(fid) {
            self.queued.put(&self.contents, fid);
        }
    }

    /// The node at a fid, which counts as use.
    pub fn get(&mut self, fid: Fid) -> Option<&Node>
        ensures* uses { sem 𝓛 (ends_as self.entry (used self.old fid)) }
        ensures value { option_copied result ≡ map.get self.old.nodes fid }
    {
        self.touch(fid);
        self.contents.peek(fid)
    }

    /// Makes the copy of a node not valid, and answers whether it was valid. Takes no memory.
    pub fn invalidate(&mut self, fid: Fid) -> bool
        ensures was { result ≡ is_some (source_of self.old fid) }
        ensures left { self.new ≡ invalidated self.old fid }
    {
        let was = self.sources.known(&self.contents, fid);
        self.sources.set(was, None, fid);
        self.contents.invalidate(fid)
    }

    // Makes no copy of a volume's node valid that is from a server, by a list of its nodes that has all that are so.
    fn invalidate_among(&mut self, volume: u32, server: u8, fids: &[Fid])
        requires covers { (f : Fid) → (f.volume == volume) ≡ true → source_of self.old f ≡ Some server → is_listed fids.now f ≡ true }
        requires volume { (f : Fid) → is_listed fids.now f ≡ true → (f.volume == volume) ≡ true }
        ensures { self.new ≡ invalidated_from self.old volume server }
    {
        self.contents.invalidate_among(volume, server, fids);
        self.sources.leave(server, fids);
    }

    // The same by a look at all cached nodes.
    fn invalidate_all(&mut self, volume: u32, server: u8)
        ensures { self.new ≡ invalidated_from self.old volume server }
    {
        self.contents.invalidate_from(volume, server);
    }

    /// Makes no copy of a volume's node valid that is from a server.
    pub fn invalidate_from(&mut self, volume: u32, server: u8)
        ensures { self.new ≡ invalidated_from self.old volume server }
    {
        match self.sources.list(volume, server) {
            Some(fids) => self.invalidate_among(volume, server, &fids),
            None => self.invalidate_all(volume, server),
        }
    }

    // Makes exactly these nodes dirty, where they are cached and of a volume, or of any where none is given, by a list that
    // has all that are dirty.
    fn pin_of(&mut self, volume: Option<u32>, dirty: &[Fid], fids: &[Fid])
        requires { (f : Fid) → is_dirty self.old f ≡ true → is_listed dirty.now f ≡ true }
        ensures { self.new ≡ pinned_of self.old volume fids.now }
    {
        self.contents.pin_of(volume, dirty, fids);
        self.dirty.renew(&self.contents, dirty);
        self.dirty.renew(&self.contents, fids);
    }

    // The same by a look at all cached nodes.
    fn pin_all(&mut self, volume: Option<u32>, fids: &[Fid])
        ensures { self.new ≡ pinned_of self.old volume fids.now }
    {
        self.contents.pin_all(volume, fids);
        self.dirty = Marks::of(&self.contents);
    }

    /// Makes exactly the cached nodes among these dirty.
    pub fn pin(&mut self, fids: &[Fid])
        ensures { self.new ≡ pinned_to self.old fids.now }
    {
        match self.dirty.list(self.contents.alloc()) {
            Some(dirty) => self.pin_of(None, &dirty, fids),
            None => self.pin_all(None, fids),
        }
    }

    /// Makes exactly these nodes of a volume dirty, where they are cached.
    pub fn pin_in(&mut self, volume: u32, fids: &[Fid])
        ensures { self.new ≡ pinned_in self.old volume fids.now }
    {
        match self.dirty.list(self.contents.alloc()) {
            Some(dirty) => self.pin_of(Some(volume), &dirty, fids),
            None => self.pin_all(Some(volume), fids),
        }
    }

    /// Makes a node dirty or clean, where it is cached. Costs a constant, and a logarithm more where the marks are kept.
    pub fn mark(&mut self, fid: Fid, dirty: bool)
        ensures { self.new ≡ marked self.old fid dirty }
    {
        self.contents.mark(fid, dirty);
        self.dirty.set_as(&self.contents, fid);
    }

    /// Takes out a node alone, with its hold and its place in the order of use.
    pub fn take_out(&mut self, fid: Fid)
        ensures { self.new ≡ without self.old fid }
    {
        let was = self.sources.known(&self.contents, fid);
        self.sources.set(was, None, fid);
        self.children.set(self.contents.parent(fid), None, fid);
        self.contents.take_out(fid);
        self.queued.take_out(fid);
        self.dirty.set(fid, false);
    }

    /// Takes out these nodes.
    pub fn drop_all(&mut self, fids: &[Fid])
        ensures { self.new ≡ dropped self.old fids.now }
    {
        self.sources.take_all(&self.contents, fids);
        self.children.take_all(&self.contents, fids);
        self.contents.drop_all(fids);
        self.queued.take_all(fids);
        self.dirty.take_all(fids);
    }

    /// Takes out a node and what is cached below it.
    pub fn remove(&mut self, fid: Fid)
        ensures { self.new ≡ removed self.old fid }
    {
        match self.below(fid) {
            Ok(gone) => self.drop_all(&gone),
            Err(_) => {
                self.contents.remove(fid);
                self.queued = Queued::none();
                self.dirty = Marks::none();
                self.sources.give_up();
                self.children.give_up();
            }
        }
    }

    /// Keeps from now on what finds nodes by their use, marks, servers and parents. It is made anew where it isn't kept: in a new
    /// cache, and where a call found no memory for it.
    pub fn index(&mut self)
        ensures { self.new ≡ self.old }
    {
        self.queued.restore(&self.contents);
        self.dirty.restore(&self.contents);
        self.sources.restore(&self.contents);
        self.children.restore(&self.contents);
    }

    /// Puts a node at a fid that is not dirty: under the parent that it has where it is cached, and else under this one.
    /// Its copy is valid where it is from a server. Counts as use.
    ///
    /// # Errors
    ///
    /// Fails for want of memory alone, which stands too for blocks of the node that don't fit in 32 bits, and then changes
    /// nothing.
    pub fn put(
        &mut self,
        fid: Fid,
        parent: Option<Fid>,
        node: Node,
        from: Option<u8>,
    ) -> Result<(), AllocError>
        ensures ok { OnOk result (self.new ≡ put_in self.old fid parent node from) }
        ensures err { OnErr result (self.new ≡ self.old) }
    {
        let was = self.sources.known(&self.contents, fid);
        self.contents.put(fid, parent, node, from)?;
        self.queued.put(&self.contents, fid);
        self.dirty.set(fid, false);
        self.sources.set(was, from, fid);
        self.children.set(None, self.contents.parent(fid), fid);
        Ok(())
    }

    /// Puts the nodes of a walk, each under its parent and from its server, and sets all priorities to those that the walk
    /// gave, where 0 is none.
    ///
    /// # Errors
    ///
    /// Fails for want of memory alone, and then changes nothing.
    pub fn put_walk(
        &mut self,
        nodes: Vec<(Fid, Option<Fid>, Node, u8)>,
        of: &[(Fid, u16)],
    ) -> Result<(), AllocError>
        requires { AreCounted nodes.items }
        ensures ok { OnOk result (self.new ≡ walked self.old nodes.items of.now) }
        ensures err { OnErr result (self.new ≡ self.old) }
    {
        self.contents.put_walk(nodes, of)?;
        self.queued = Queued::of(&self.contents);
        self.dirty = Marks::of(&self.contents);
        self.sources = Sources::of(&self.contents);
        self.children = Children::of(&self.contents);
        Ok(())
    }

    // Whether there is room for a node of so many blocks, so that nobody goes for it.
    fn has_room(&self, fid: Fid, blocks: u32) -> bool
        ensures { (parent : Option Fid) (keep : List Fid) → OnTrue result (evicted_for self.now fid parent blocks keep ≡ Ok []) }
    {
        self.contents.agree();
        match self.queued.blocks() {
            Some(total) => room::has_room(
                self.contents.size(),
                total,
                blocks.saturating_sub(self.contents.blocks(fid)),
            ),
            None => false,
        }
    }

    // Who goes for a node of so many blocks that is put, or how many blocks are pinned and how many more are needed where
    // these don't fit. Fails for want of memory alone.
    fn going_for(
        &self,
        fid: Fid,
        parent: Option<Fid>,
        blocks: u32,
        keep: &[Fid],
    ) -> Result<Result<Vec<Fid>, (u64, u64)>, AllocError>
        ensures { IfOk result (λ r. MatchResult r (λ v. evicted_for self.now fid parent blocks keep.now ≡ Ok v.items) (λ e. evicted_for self.now fid parent blocks keep.now ≡ Err (CacheFull e.0 e.1 self.now.size))) }
    {
        match &self.queued.queue {
            Some(queue) => {
                let pinned = self.contents.pinned_from(&self.dirty)?;
                self.contents
                    .chosen_for(queue, pinned, fid, parent, blocks, keep)
            }
            None => self.contents.going_for(fid, parent, blocks, keep),
        }
    }

    /// Who goes for a node of so many blocks that is to be put under a parent, in order: as few as make the rest fit, without
    /// the node and what it is to keep, and what is above all these. A cached node has its own parent, and not this one.
    ///
    /// # Errors
    ///
    /// `CacheFull` exactly where the blocks that are pinned, and those that are needed besides, exceed the size; else only
    /// `Memory`, which stands too for a number of blocks that doesn't fit in 64 bits.
    pub fn evict_for(
        &self,
        fid: Fid,
        parent: Option<Fid>,
        blocks: u32,
        keep: &[Fid],
    ) -> Result<Vec<Fid>, CacheFault>
        ensures gone { IfOk result (λ v. evicted_for self.now fid parent blocks keep.now ≡ Ok v.items) }
        ensures causes { IfErr result (λ why. (why ≡ CacheFault.Memory) ⊎ (evicted_for self.now fid parent blocks keep.now ≡ Err why)) }
    {
        if self.has_room(fid, blocks) {
            return Ok(Vec::new(self.contents.alloc()));
        }
        match self.going_for(fid, parent, blocks, keep)? {
            Ok(gone) => Ok(gone),
            Err((pinned, needed)) => {
                Err(CacheFault::CacheFull(pinned, needed, self.contents.size() as u64))
            }
        }
    }

    // Whether there is room for an operation beside all that is cached, so that nobody goes for it.
    fn has_room_after(&self, prospect: &Prospect, rec: &Record) -> Result<bool, AllocError>
        ensures { (client : ℕ) (n : CacheState) (looked_up : List Fid) → Foresees self.now client rec.now n prospect.now → IfOk result (λ b. OnTrue b (evicted_between self.now n looked_up ≡ Ok [])) }
    {
        self.contents.agree();
        match self.queued.blocks() {
            Some(total) => {
                let more = self.contents.growth(prospect, rec)?;
                Ok(room::fits(self.contents.size(), total, more))
            }
            None => Ok(false),
        }
    }

    /// Whether what an operation adds surely fits beside all that is cached, so that nobody goes for it, whatever it looked up and
    /// whatever the log mentions once it is made. Where the nodes are not kept by their use (`index`), this is not known.
    ///
    /// Costs a constant. Where the answer is no, `evict_after` says who goes.
    ///
    /// # Errors
    ///
    /// Fails for want of memory alone, which stands too for a number of blocks that doesn't fit in 64 bits, or of one node in 32.
    pub fn fits_after(&self, rec: &Record) -> Result<bool, AllocError>
        requires { MayApply self.now.nodes rec.now.op }
        ensures { (client volume : ℕ) (mentioned looked_up : List Fid) → IfOk result (λ fits. OnTrue fits (evicted_after self.now client volume rec.now mentioned looked_up ≡ Ok [])) }
    {
        self.contents.agree();
        match self.queued.blocks() {
            Some(total) => {
                let touched = set_of(self.contents.alloc(), &mentioned(&rec.op))?;
                let more = self.contents.growth_by(rec, &touched)?;
                Ok(room::fits(self.contents.size(), total, more))
            }
            None => Ok(false),
        }
    }

    // Who goes for an operation by what is known ahead of it, or how many blocks are pinned once it is made and how many
    // more are needed where these don't fit. Fails for want of memory alone.
    fn going_after(
        &self,
        prospect: &Prospect,
        rec: &Record,
        looked_up: &[Fid],
    ) -> Result<Result<Vec<Fid>, (u64, u64)>, AllocError>
        ensures { (client : ℕ) (n : CacheState) → Foresees self.now client rec.now n prospect.now → IfOk result (λ r. MatchResult r (λ v. evicted_between self.now n looked_up.now ≡ Ok v.items) (λ e. evicted_between self.now n looked_up.now ≡ Err (CacheFull e.0 e.1 self.now.size))) }
    {
        if self.has_room_after(prospect, rec)? {
            return Ok(Ok(Vec::new(self.contents.alloc())));
        }
        match self.chosen_after(prospect, rec, looked_up)? {
            Some(gone) => Ok(gone),
            None => self.contents.going_ahead(prospect, rec, looked_up),
        }
    }

    // The same by the queue of the cached nodes, where it is kept and finds it.
    fn chosen_after(
        &self,
        prospect: &Prospect,
        rec: &Record,
        looked_up: &[Fid],
    ) -> Result<Option<Result<Vec<Fid>, (u64, u64)>>, AllocError>
        ensures { (client : ℕ) (n : CacheState) → Foresees self.now client rec.now n prospect.now → IfOk result (λ o. IfSome o (λ r. MatchResult r (λ v. evicted_between self.now n looked_up.now ≡ Ok v.items) (λ e. evicted_between self.now n looked_up.now ≡ Err (CacheFull e.0 e.1 self.now.size)))) }
    {
        match &self.queued.queue {
            Some(queue) => match &self.dirty.fids {
                Some(dirty) => self
                    .contents
                    .chosen_ahead(queue, dirty, prospect, rec, looked_up),
                None => Ok(None),
            },
            None => Ok(None),
        }
    }

    /// Who goes for a client's operation on a volume that looked up nodes, in order, where the volume's log mentions these once
    /// the operation is made: as few as make the rest fit, without what is pinned then, what was looked up and what is above
    /// that. The operation isn't made.
    ///
    /// # Errors
    ///
    /// `CacheFull` exactly where the blocks that are pinned once the operation is made, and those of what is kept besides,
    /// exceed the size; else only `Memory`, which stands too for a number of blocks that doesn't fit in 64 bits, or of one node
    /// in 32.
    pub fn evict_after(
        &self,
        volume: u32,
        rec: &Record,
        mentioned: &[Fid],
        looked_up: &[Fid],
    ) -> Result<Vec<Fid>, CacheFault>
        requires { MayApply self.now.nodes rec.now.op }
        ensures gone { (client : ℕ) → IfOk result (λ v. evicted_after self.now client volume rec.now mentioned.now looked_up.now ≡ Ok v.items) }
        ensures causes { (client : ℕ) → IfErr result (λ why. (why ≡ CacheFault.Memory) ⊎ (evicted_after self.now client volume rec.now mentioned.now looked_up.now ≡ Err why)) }
    {
        let below = self.taken_below(taken_out(&rec.op))?;
        let prospect = self.contents.prospect(volume, rec, &below, mentioned)?;
        match self.going_after(&prospect, rec, looked_up)? {
            Ok(gone) => Ok(gone),
            Err((pinned, needed)) => {
                Err(CacheFault::CacheFull(pinned, needed, self.contents.size() as u64))
            }
        }
    }
}
