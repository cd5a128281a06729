ghost use Rattle.std.specs.Prelude.{◌≡◌, ◌==◌, Option, ◌<◌, ◌^◌, true, false, Some, None, IfOk, OnOk, OnErr, option_copied, is_some, List};
ghost use Rattle.std.specs.Prelude as prelude;
ghost use Rattle.std.specs.FinMap as map;
ghost use Rattle.std.specs.List.{filter};
ghost use Rattle.coda_fid.specs.declared.fid.Fid.{Fid};
ghost use Rattle.coda_tree.specs.Blocks.{blocks_of};
ghost use Rattle.coda_tree.specs.Volume as volume;
ghost use Rattle.coda_cache.specs.Keeping.{Agree};
ghost use Rattle.coda_cache.specs.Rows.{row_of, rows_of};
ghost use Rattle.coda_cache.specs.Ways.{way_up, way_on, is_below, at_or_below};
ghost use Rattle.coda_cache.specs.State.{empty_cache, is_cached, parent_of, source_of, is_dirty, priority_of, blocks_at};
ghost use Rattle.coda_cache.specs.Steps.{used, invalidated, invalidated_from, pinned_to, pinned_in, put_in, without, kept_parent, dropped};
ghost use Rattle.coda_walk.specs.Going.{is_listed};
ghost use Rattle.coda_cache.specs.Indexed.{standing_of, pinned_of};

use crate::holds::HoldTable;
use crate::operating::take_out_all;
use crate::priorities::PriorityTable;
use crate::sizes::check_node;
use crate::{CacheRow, Hold, Recency, room};
use coda_fid::Fid;
use coda_tree::{Node, NodeTable};
use coda_walk::Item;
use std::alloc::{AllocError, Global};
use std::marker::Model;

// What is in a cache: the nodes, how each is held, in which order they were used, and the priorities of the last walk. Contracts
// see a record of these and of the size in blocks.
#[derive(Drop)]
pub(crate) struct Contents {
    pub(crate) alloc: Global,
    pub(crate) size: u32,
    pub(crate) nodes: NodeTable,
    pub(crate) holds: HoldTable,
    pub(crate) recency: Recency,
    pub(crate) priorities: PriorityTable,
}

impl Model for Contents {
    ghost use Rattle.coda_tree.specs.contracts.node.Node as node_row;
    ghost use Rattle.coda_cache.specs.contracts.hold.Hold as hold_row;
    ghost use Rattle.coda_cache.specs.State.{CacheState, coded_cache};
    ghost use Rattle.coda_cache.specs.Keeping.{cache_of, AreOne};

    ghost Value = { CacheState };

    ghost coded = { coded_cache node_row.the_row.coded hold_row.the_row.coded };

    ghost view = { cache_of };

    ghost invariant = { AreOne };
}

// Puts a hold and a node at a fid that has neither. Fails for want of memory alone, and then changes nothing.
fn hold_and_node(
    holds: &mut HoldTable,
    nodes: &mut NodeTable,
    fid: Fid,
    hold: Hold,
    node: Node,
) -> Result<(), AllocError>
    requires free { map.get holds.old fid ≡ None }
    ensures ok { OnOk result ((holds.new ≡ map.insert holds.old fid hold) × (nodes.new ≡ map.insert nodes.old fid node)) }
    ensures err { OnErr result ((holds.new ≡ holds.old) × (nodes.new ≡ nodes.old)) }
{
    holds.put(fid, hold)?;
    match nodes.put(fid, node) {
        Ok(()) => Ok(()),
        Err(e) => {
            holds.take_out(fid);
            Err(e)
        }
    }
}

impl Contents {
    // A cache of so many blocks, in which nothing is. Fails for want of memory alone.
    pub(crate) fn new(alloc: Global, size: u32) -> Result<Contents, AllocError>
        ensures { IfOk result (λ c. c ≡ empty_cache size) }
    {
        let recency = Recency::new(alloc)?;
        Ok(Contents {
            alloc,
            size,
            nodes: NodeTable::new(alloc),
            holds: HoldTable::new(alloc),
            recency,
            priorities: PriorityTable::new(alloc),
        })
    }

    // The blocks that it may take.
    pub(crate) fn size(&self) -> u32
        ensures { result ≡ self.now.size }
    {
        self.size
    }

    // How many nodes are cached.
    pub(crate) fn len(&self) -> usize
        ensures { result ≡ map.len self.now.holds }
    {
        self.holds.len()
    }

    // What memory is taken from.
    pub(crate) fn alloc(&self) -> Global {
        self.alloc
    }

    // Whether a node is cached.
    pub(crate) fn contains(&self, fid: Fid) -> bool
        ensures { result ≡ is_cached self.now fid }
    {
        self.nodes.get(fid).is_some()
    }

    // The node at a fid. Does not count as use.
    pub(crate) fn peek(&self, fid: Fid) -> Option<&Node>
        ensures { option_copied result ≡ map.get self.now.nodes fid }
    {
        self.nodes.get(fid)
    }

    // The directory that binds a fid, the first in the order of fids.
    pub(crate) fn binder(&self, fid: Fid) -> Option<Fid>
        ensures { result ≡ volume.parent_of self.now.nodes fid }
    {
        self.nodes.binder(fid)
    }

    // The server that a valid copy of a node is from.
    pub(crate) fn source(&self, fid: Fid) -> Option<u8>
        ensures { result ≡ source_of self.now fid }
    {
        match self.holds.get(fid) {
            Some(hold) => hold.from,
            None => None,
        }
    }

    // The directory under which a node is cached.
    pub(crate) fn parent(&self, fid: Fid) -> Option<Fid>
        ensures { result ≡ parent_of self.now fid }
    {
        match self.holds.get(fid) {
            Some(hold) => hold.parent,
            None => None,
        }
    }

    // Whether a record of the log mentions a cached node.
    pub(crate) fn is_dirty(&self, fid: Fid) -> bool
        ensures { result ≡ is_dirty self.now fid }
    {
        match self.holds.get(fid) {
            Some(hold) => hold.dirty,
            None => false,
        }
    }

    // The priority that the last walk gave a node, 0 for none.
    pub(crate) fn priority(&self, fid: Fid) -> u16
        ensures { result ≡ priority_of self.now fid }
    {
        self.priorities.get(fid)
    }

    // Notes that a node was used, where it is cached, and answers whether it is.
    pub(crate) fn touch(&mut self, fid: Fid) -> bool
        ensures there { result ≡ is_cached self.old fid }
        ensures used { self.new ≡ used self.old fid }
    {
        self.recency.touch_if_there(fid)
    }

    // Makes the copy of a node not valid, and answers whether it was valid. Takes no memory.
    pub(crate) fn invalidate(&mut self, fid: Fid) -> bool
        ensures was { result ≡ is_some (source_of self.old fid) }
        ensures left { self.new ≡ invalidated self.old fid }
    {
        let was = self.source(fid).is_some();
        self.holds.invalidate(fid);
        was
    }

    // Makes no copy of a volume's node valid that is from a server. Takes no memory.
    pub(crate) fn invalidate_from(&mut self, volume: u32, server: u8)
        ensures { self.new ≡ invalidated_from self.old volume server }
    {
        self.holds.invalidate_from(volume, server);
    }

    // The same, where the fids of all copies that are so are among the given ones.
    pub(crate) fn invalidate_among(&mut self, volume: u32, server: u8, fids: &[Fid])
        requires { (f : Fid) → (f.volume == volume) ≡ true → source_of self.old f ≡ Some server → is_listed fids.now f ≡ true }
        ensures { self.new ≡ invalidated_from self.old volume server }
    {
        self.holds.invalidate_among(volume, server, fids);
    }

    // Makes exactly the cached nodes among these dirty. Takes no memory.
    pub(crate) fn pin(&mut self, fids: &[Fid])
        ensures { self.new ≡ pinned_to self.old fids.now }
    {
        self.holds.pin(fids);
    }

    // Makes exactly these nodes of a volume dirty, where they are cached. Takes no memory.
    pub(crate) fn pin_in(&mut self, volume: u32, fids: &[Fid])
        ensures { self.new ≡ pinned_in self.old volume fids.now }
    {
        self.holds.pin_in(volume, fids);
    }

    // Makes exactly these nodes dirty, where they are cached and of a volume, or of any where none is given. All that are dirty
    // are among the given ones. Takes no memory.
    pub(crate) fn pin_of(&mut self, volume: Option<u32>, dirty: &[Fid], fids: &[Fid])
        requires { (f : Fid) → is_dirty self.old f ≡ true → is_listed dirty.now f ≡ true }
        ensures { self.new ≡ pinned_of self.old volume fids.now }
    {
        self.holds.pin_of(volume, dirty, fids);
    }

    // The same, where it isn't known which are dirty. Takes no memory.
    pub(crate) fn pin_all(&mut self, volume: Option<u32>, fids: &[Fid])
        ensures { self.new ≡ pinned_of self.old volume fids.now }
    {
        match volume {
            Some(volume) => self.pin_in(volume, fids),
            None => self.pin(fids),
        }
    }

    // Takes out a node alone, with its hold and its place in the order of use. Takes no memory.
    pub(crate) fn take_out(&mut self, fid: Fid)
        ensures { self.new ≡ without self.old fid }
    {
        self.nodes.take_out(fid);
        self.holds.take_out(fid);
        self.recency.take_out(fid);
    }

    // Puts a node at a fid that is not dirty: under the parent that it has where it is cached, and else under this one.
    // Its copy is valid where it is from a server. Counts as use. Fails for want of memory alone, also where the node's blocks
    // don't fit in 32 bits, and then changes nothing.
    pub(crate) fn put(
        &mut self,
        fid: Fid,
        parent: Option<Fid>,
        node: Node,
        from: Option<u8>,
    ) -> Result<(), AllocError>
        ensures ok { OnOk result (self.new ≡ put_in self.old fid parent node from) }
        ensures err { OnErr result (self.new ≡ self.old) }
    {
        check_node(&node)?;
        if self.contains(fid) {
            self.renew(fid, node, from);
            Ok(())
        } else {
            self.begin(fid, parent, node, from)
        }
    }

    // Puts a node in the place of a cached one. Takes no memory.
    pub(crate) fn renew(&mut self, fid: Fid, node: Node, from: Option<u8>)
        requires held { is_cached self.old fid ≡ true }
        requires small { blocks_of node.kind < 2 ^ 32 }
        ensures { (parent : Option Fid) → self.new ≡ put_in self.old fid parent node from }
    {
        self.nodes.set(fid, node);
        self.holds.renew(fid, from);
        self.recency.touch(fid);
    }

    // Puts a node that is not cached.
    pub(crate) fn begin(
        &mut self,
        fid: Fid,
        parent: Option<Fid>,
        node: Node,
        from: Option<u8>,
    ) -> Result<(), AllocError>
        requires free { is_cached self.old fid ≡ false }
        requires small { blocks_of node.kind < 2 ^ 32 }
        ensures ok { OnOk result (self.new ≡ put_in self.old fid parent node from) }
        ensures err { OnErr result (self.new ≡ self.old) }
    {
        self.recency.begin(fid)?;
        let hold = Hold {
            parent,
            from,
            dirty: false,
        };
        match hold_and_node(&mut self.holds, &mut self.nodes, fid, hold, node) {
            Ok(()) => Ok(()),
            Err(e) => {
                self.recency.take_out(fid);
                Err(e)
            }
        }
    }

    // The parts agree: each node has a hold and a place in the order of use, and nothing else has.
    pub(crate) fn agree(&self)
        ensures { Agree self.now.nodes self.now.holds self.now.recency }
    {
        let _ = &self.alloc;
    }

    // A cached node as it stands in the queue.
    pub(crate) fn standing(&self, fid: Fid) -> Item
        ensures { result ≡ standing_of self.now fid }
    {
        Item {
            fid,
            parent: self.parent(fid),
            priority: self.priority(fid),
            blocks: self.blocks(fid),
            cached: true,
            served: false,
            pinned: false,
        }
    }

    // The cached nodes in the order of their use, the least recently used first. Fails for want of memory alone.
    pub(crate) fn recency(&self) -> Result<Vec<Fid>, AllocError>
        ensures { IfOk result (λ v. v.items ≡ self.now.recency) }
    {
        self.recency.list(self.alloc)
    }

    // What is told of a cached node.
    fn row(&self, fid: Fid) -> CacheRow
        ensures { result ≡ row_of self.now fid }
    {
        CacheRow {
            fid,
            parent: self.parent(fid),
            priority: self.priority(fid),
            blocks: self.blocks(fid),
            valid: self.source(fid).is_some(),
            dirty: self.is_dirty(fid),
        }
    }

    // What is told of nodes.
    fn rows_among(&self, fids: &[Fid]) -> Result<Vec<CacheRow>, AllocError>
        ensures { IfOk result (λ v. v.items ≡ prelude.map (row_of self.now) fids.now) }
    {
        let mut rows = Vec::new(self.alloc);
        for fid in fids {
            rows.push(self.row(*fid))?;
        }
        Ok(rows)
    }

    // What is told of all cached nodes, in the order of their fids. Fails for want of memory alone.
    pub(crate) fn rows(&self) -> Result<Vec<CacheRow>, AllocError>
        ensures { IfOk result (λ v. v.items ≡ rows_of self.now) }
    {
        let fids = self.holds.fids(self.alloc)?;
        self.rows_among(&fids)
    }

    // A node, its parent, and so on.
    pub(crate) fn way_up(&self, fid: Fid) -> Result<Vec<Fid>, AllocError>
        ensures { IfOk result (λ v. v.items ≡ way_up self.now fid) }
    {
        let mut way = Vec::new(self.alloc);
        let mut at = Some(fid);
        for _step in 0..self.holds.len() {
            match at {
                Some(on) => {
                    way.push(on)?;
                    at = self.parent(on);
                }
                None => return Ok(way),
            }
        }
        Ok(way)
    }

    // The blocks that a cached node takes, 0 where it isn't cached.
    pub(crate) fn blocks(&self, fid: Fid) -> u32
        ensures { result ≡ blocks_at self.now fid }
    {
        match self.nodes.get(fid) {
            Some(node) => node.blocks(),
            None => 0,
        }
    }

    // Whether a node is another, or cached below it.
    fn is_below(&self, fid: Fid, of: Fid) -> Result<bool, AllocError>
        ensures { IfOk result (λ b. b ≡ is_below self.now fid of) }
    {
        let way = self.way_up(fid)?;
        Ok(room::is_listed(&way, of))
    }

    // Those of these nodes that are a node, or cached below it.
    fn among_below(&self, fids: &[Fid], fid: Fid) -> Result<Vec<Fid>, AllocError>
        ensures { IfOk result (λ v. v.items ≡ filter (λ g. is_below self.now g fid) fids.now) }
    {
        let mut below = Vec::new(self.alloc);
        for other in fids {
            if self.is_below(*other, fid)? {
                below.push(*other)?;
            }
        }
        Ok(below)
    }

    // The cached nodes that are a node, or cached below it. Fails for want of memory alone.
    pub(crate) fn at_or_below(&self, fid: Fid) -> Result<Vec<Fid>, AllocError>
        ensures { IfOk result (λ v. v.items ≡ at_or_below self.now fid) }
    {
        let used = self.recency()?;
        self.among_below(&used, fid)
    }

    // Takes out these nodes. Takes no memory.
    pub(crate) fn drop_all(&mut self, fids: &[Fid])
        ensures { self.new ≡ dropped self.old fids.now }
    {
        take_out_all(&mut self.nodes, &mut self.holds, &mut self.recency, fids);
    }
}
