ghost use Rattle.std.specs.Prelude.{◌≡◌, false, Some, None, OnOk, OnErr, IfOk};
ghost use Rattle.coda_cache.specs.State.{is_cached};
ghost use Rattle.coda_cache.specs.Steps.{put_in, put_all, walked};
ghost use Rattle.coda_cache.specs.Walking.{blank, begun, begun_all, undone, AreCached, AreCounted};

use crate::contents::Contents;
use crate::priorities::PriorityTable;
use coda_fid::{Bytes, Fid, Sid};
use coda_tree::{Node, NodeKind};
use std::alloc::{AllocError, Global};

// A node that stands for another until that is put. Fails for want of memory alone.
fn blank(alloc: Global) -> Result<Node, AllocError>
    ensures { IfOk result (λ node. node ≡ blank) }
{
    let target = Bytes::of(alloc, &[])?;
    Ok(Node {
        kind: NodeKind::Link(target),
        mode: 0,
        owner: 0,
        mtime: 0,
        sid: Sid {
            client: 0,
            number: 0,
        },
        marked: false,
    })
}

impl Contents {
    // Caches a blank node that isn't cached, and notes it before. Fails for want of memory alone.
    fn begin_blank(
        &mut self,
        noted: &mut Vec<Fid>,
        fid: Fid,
        parent: Option<Fid>,
    ) -> Result<(), AllocError>
        requires { is_cached self.old fid ≡ false }
        ensures ok { OnOk result (self.new ≡ put_in self.old fid parent blank None) }
        ensures undone { undone self.new noted.new.items ≡ undone self.old noted.old.items }
    {
        let node = blank(self.alloc)?;
        noted.push(fid)?;
        self.put(fid, parent, node, None)
    }

    // Caches a node, if only as a blank one, and notes it before where it wasn't cached. Fails for want of memory alone.
    fn begin_one(
        &mut self,
        noted: &mut Vec<Fid>,
        fid: Fid,
        parent: Option<Fid>,
    ) -> Result<(), AllocError>
        ensures ok { OnOk result (self.new ≡ begun self.old fid parent) }
        ensures undone { undone self.new noted.new.items ≡ undone self.old noted.old.items }
    {
        if self.contains(fid) {
            Ok(())
        } else {
            self.begin_blank(noted, fid, parent)
        }
    }

    // Caches nodes, if only as blank ones, and notes those that weren't cached. Fails for want of memory alone.
    fn begin_all(
        &mut self,
        noted: &mut Vec<Fid>,
        nodes: &[(Fid, Option<Fid>, Node, u8)],
    ) -> Result<(), AllocError>
        ensures ok { OnOk result (self.new ≡ begun_all self.old nodes.now) }
        ensures undone { undone self.new noted.new.items ≡ undone self.old noted.old.items }
    {
        for put in nodes {
            self.begin_one(noted, put.0, put.1)?;
        }
        Ok(())
    }

    // Takes out what was noted, the last first. Takes no memory.
    fn undo(&mut self, noted: Vec<Fid>)
        ensures { self.new ≡ undone self.old noted.items }
    {
        let mut noted = noted;
        for _step in 0..noted.len() {
            if let Some(fid) = noted.pop() {
                self.take_out(fid);
            }
        }
    }

    // Puts nodes in the places of cached ones. Takes no memory.
    fn put_each(&mut self, nodes: Vec<(Fid, Option<Fid>, Node, u8)>)
        requires cached { AreCached self.old nodes.items }
        requires small { AreCounted nodes.items }
        ensures { self.new ≡ put_all self.old nodes.items }
    {
        for put in nodes {
            let (fid, _, node, from) = put;
            self.renew(fid, node, Some(from));
        }
    }

    // Puts the nodes of a walk, each under its parent and from its server, and sets all priorities to those that the walk
    // gave, where 0 is none.
    //
    // # Errors
    //
    // Fails for want of memory alone, and then changes nothing.
    pub(crate) fn put_walk(
        &mut self,
        nodes: Vec<(Fid, Option<Fid>, Node, u8)>,
        of: &[(Fid, u16)],
    ) -> Result<(), AllocError>
        requires { AreCounted nodes.items }
        ensures ok { OnOk result (self.new ≡ walked self.old nodes.items of.now) }
        ensures err { OnErr result (self.new ≡ self.old) }
    {
        let priorities = PriorityTable::of(self.alloc, of)?;
        let mut noted = Vec::new(self.alloc);
        match self.begin_all(&mut noted, &nodes) {
            Ok(()) => {
                self.put_each(nodes);
                self.priorities = priorities;
                Ok(())
            }
            Err(e) => {
                self.undo(noted);
                Err(e)
            }
        }
    }
}
