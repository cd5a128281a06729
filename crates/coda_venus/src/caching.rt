// What the journal has of objects that were fetched into a client's cache, and of those that were dropped from it.
ghost use Rattle.std.specs.Prelude.{◌≡◌, true, Some, Err, OnOk, OnErr};
ghost use Rattle.std.specs.BTreeMap as tree;
ghost use Rattle.std.specs.FinMap as map;
ghost use Rattle.std.specs.Ordering.{nat_cmp};
ghost use Rattle.coda_tree.specs.Volume.{IsDirAt};
ghost use Rattle.coda_record.specs.declared.entry.ClientEntry.TheVariants.{Fetched as FetchedEntry, Dropped as DroppedEntry};
ghost use Rattle.coda_venus.specs.Accepting.{is_mentioned};
ghost use Rattle.coda_venus.specs.Code.{volume_in};
ghost use Rattle.coda_venus.specs.History.{MayBeParent, IsParent, MayEnter};
ghost use Rattle.coda_venus.specs.State.{ClientState, client_after};

use crate::client::Client;
use crate::recovery::Unfit;
use coda_fid::Fid;
use coda_tree::{Node, NodeKind};
use std::alloc::AllocError;

impl Client {
    ghost use Rattle.coda_venus.specs.Code.{IsClient, held_of};

    // Whether a record of the log of its volume mentions an object. It costs the records of the chunk, and one search
    // among what those of the tail mention (`mentions` of `Log`).
    pub(crate) fn is_dirty(&self, fid: Fid) -> bool
        ensures { result ≡ is_mentioned (volume_in (tree.get nat_cmp self.now.logs fid.volume)) fid }
    {
        match self.logs.get(&fid.volume) {
            Some(log) => log.log.mentions(fid),
            None => false,
        }
    }

    // Whether a directory is held at a fid.
    fn holds_dir(&self, dir: Fid) -> bool
        ensures yes { result ≡ true → IsDirAt self.now.cache.nodes dir }
        ensures no { IsDirAt self.now.cache.nodes dir → result ≡ true }
    {
        match self.cache.peek(dir) {
            Some(node) => match &node.kind {
                NodeKind::Dir(_) => true,
                NodeKind::File(_) => false,
                NodeKind::Link(_) => false,
            },
            None => false,
        }
    }

    // Whether an object that isn't cached may get this parent.
    fn may_be_below(&self, fid: Fid, dir: Fid) -> bool
        ensures yes { result ≡ true → MayBeParent self.now.cache.nodes fid dir }
        ensures no { MayBeParent self.now.cache.nodes fid dir → result ≡ true }
    {
        if self.cache.binder(fid) == Some(dir) {
            return true;
        }
        fid != Fid::root(fid.volume) && self.holds_dir(dir)
    }

    // Whether this is the parent that an object is cached with.
    fn is_parent(&self, fid: Fid, parent: Option<Fid>) -> bool
        ensures yes { result ≡ true → IsParent (held_of self.now) fid parent }
        ensures no { IsParent (held_of self.now) fid parent → result ≡ true }
    {
        let cached = self.cache.peek(fid).is_some();
        match parent {
            None => { self.parent(fid).is_none() && (cached || fid == Fid::root(fid.volume)) }
            Some(dir) => {
                self.parent(fid) == Some(dir) || (!cached && self.may_be_below(fid, dir))
            }
        }
    }

    /// Holds an object that was fetched, with the parent that it has. Fails for want of memory alone; then all is as it was.
    pub fn hold(&mut self, fid: Fid, parent: Option<Fid>, node: Node) -> Result<(), AllocError>
        requires { IsParent (held_of self.old) fid parent }
        ensures entered { (c : ClientState) → IsClient c self.old → OnOk result (IsClient (client_after c (FetchedEntry fid parent node)) self.new) }
        ensures err { (c : ClientState) → IsClient c self.old → OnErr result (IsClient c self.new) }
        ensures nodes { OnOk result (self.new.cache.nodes ≡ map.insert self.old.cache.nodes fid node) }
        ensures nodes_err { OnErr result (self.new.cache.nodes ≡ self.old.cache.nodes) }
        ensures number { self.new.number ≡ self.old.number }
    {
        self.cache.agree();
        self.cache.put(fid, parent, node, None)
    }

    /// Takes up that an object was fetched, as the journal has it.
    ///
    /// # Errors
    ///
    /// `Misfit` exactly where it can't follow, and `Memory`; then all is as it was.
    pub fn enter_fetched(&mut self, fid: Fid, parent: Option<Fid>, node: Node) -> Result<(), Unfit>
        ensures ok { (c : ClientState) → IsClient c self.old → OnOk result (MayEnter c (FetchedEntry fid parent node)) }
        ensures leaves { (c : ClientState) → IsClient c self.old → OnOk result (IsClient (client_after c (FetchedEntry fid parent node)) self.new) }
        ensures misfit { (c : ClientState) → IsClient c self.old → result ≡ Err Unfit.Misfit → ¬ MayEnter c (FetchedEntry fid parent node) }
        ensures err { (c : ClientState) → IsClient c self.old → OnErr result (IsClient c self.new) }
    {
        if self.cache.peek(fid).is_some() && self.is_dirty(fid) {
            return Err(Unfit::Misfit);
        }
        if !self.is_parent(fid, parent) {
            return Err(Unfit::Misfit);
        }
        self.hold(fid, parent, node)?;
        Ok(())
    }

    /// Takes up that an object was dropped, as the journal has it.
    ///
    /// # Errors
    ///
    /// `Misfit` exactly where it can't follow; then all is as it was.
    pub fn enter_dropped(&mut self, fid: Fid) -> Result<(), Unfit>
        ensures ok { (c : ClientState) → IsClient c self.old → OnOk result (MayEnter c (DroppedEntry fid)) }
        ensures leaves { (c : ClientState) → IsClient c self.old → OnOk result (IsClient (client_after c (DroppedEntry fid)) self.new) }
        ensures misfit { (c : ClientState) → IsClient c self.old → result ≡ Err Unfit.Misfit → ¬ MayEnter c (DroppedEntry fid) }
        ensures err { (c : ClientState) → IsClient c self.old → OnErr result (IsClient c self.new) }
    {
        if self.cache.peek(fid).is_none() || self.is_dirty(fid) {
            return Err(Unfit::Misfit);
        }
        if self.has_below(fid) {
            return Err(Unfit::Misfit);
        }
        self.cache.take_out(fid);
        Ok(())
    }
}
