ghost use Rattle.std.specs.Prelude.{◌≡◌, Some, None, IfOk, OnOk, OnErr, IsSome, option_copied};
ghost use Rattle.std.specs.FinMap as map;
ghost use Rattle.coda_tree.specs.Volume.{child, added, detached, moved, replaced, changed, bound, unbound, written, content_patch, attrs_patch, IsDirAt, parent_of};

use crate::Node;
use crate::binders::{Binders, Bound, Change};
use crate::nodes::NodeMap;
use coda_fid::{Attrs, Bytes, Fid, Name, Sid};
use std::alloc::{AllocError, Global};
use std::marker::Model;

/// The nodes that somebody has copies of, each under its fid.
///
/// It need be no tree: a client holds a directory without all that is bound there. Contracts see it as a finite map
/// from fids to nodes. A fid is found by its hash, and so is the directory that binds it, where no other name is bound
/// to it.
#[derive(Drop)]
pub struct NodeTable {
    nodes: NodeMap,
    binders: Binders,
}

impl Model for NodeTable {
    ghost use Rattle.coda_tree.specs.Volume.{Nodes, coded_nodes, child};
    ghost use Rattle.coda_tree.specs.Binders.{AreBinders};
    ghost use Rattle.coda_tree.specs.contracts.node.Node as node_row;

    ghost Value = { Nodes };

    ghost coded = { coded_nodes node_row.the_row.coded };

    ghost view = { λ a. a.nodes };

    ghost invariant = { λ a. AreBinders (child a.nodes) a.binders };
}

impl NodeTable {
    /// No nodes.
    pub fn new(alloc: Global) -> NodeTable
        ensures { result ≡ map.empty }
    {
        NodeTable {
            nodes: NodeMap::new(alloc),
            binders: Binders::new(alloc),
        }
    }

    /// How many nodes there are.
    pub fn len(&self) -> usize
        ensures { result ≡ map.len self.now }
    {
        self.nodes.len()
    }

    /// The node at a fid.
    pub fn get(&self, fid: Fid) -> Option<&Node>
        ensures { option_copied result ≡ map.get self.now fid }
    {
        self.nodes.get(fid)
    }

    /// What the directory at a fid binds at a name; `None` too where no directory stands there.
    pub fn child(&self, dir: Fid, name: &Name) -> Option<Fid>
        ensures { result ≡ child self.now dir name.now }
    {
        self.nodes.child(dir, name)
    }

    /// The directory that binds a fid, the first in the order of fids; `None` where none does.
    pub fn binder(&self, fid: Fid) -> Option<Fid>
        ensures { result ≡ parent_of self.now fid }
    {
        match self.binders.get(fid) {
            Bound::Nowhere => None,
            Bound::Once(dir) => Some(dir),
            Bound::Unsure => self.nodes.first_binder(fid),
        }
    }

    /// Puts a node at a fid, in the place of the one there. Fails for want of memory alone, and then changes nothing.
    pub fn put(&mut self, fid: Fid, node: Node) -> Result<(), AllocError>
        ensures ok { OnOk result (self.new ≡ map.insert self.old fid node) }
        ensures err { OnErr result (self.new ≡ self.old) }
    {
        let was = self.nodes.put(fid, node)?;
        self.binders.change_all(was.as_ref(), Change::Less);
        self.binders
            .change_all(self.nodes.get(fid), Change::More(fid));
        Ok(())
    }

    /// Puts another node in the place of the one at a fid. Takes no memory.
    pub fn set(&mut self, fid: Fid, node: Node)
        requires { IsSome (map.get self.old fid) }
        ensures { self.new ≡ map.insert self.old fid node }
    {
        self.binders.change_all(self.nodes.get(fid), Change::Less);
        self.nodes.set(fid, node);
        self.binders
            .change_all(self.nodes.get(fid), Change::More(fid));
    }

    /// Puts a node at a free fid and binds it in a directory at a free name. Fails for want of memory alone, and then
    /// changes nothing.
    pub fn create(&mut self, dir: Fid, name: Name, fid: Fid, node: Node) -> Result<(), AllocError>
        requires dir_there { IsDirAt self.old dir }
        requires name_free { child self.old dir name ≡ None }
        requires fid_free { map.get self.old fid ≡ None }
        ensures ok { OnOk result (self.new ≡ added self.old dir name fid node) }
        ensures err { OnErr result (self.new ≡ self.old) }
    {
        self.put(fid, node)?;
        match self.bind(dir, name, fid) {
            Ok(()) => Ok(()),
            Err(e) => {
                self.take_out(fid);
                Err(e)
            }
        }
    }

    /// Unbinds a name in a directory and takes out the node at a fid.
    #[tactic(auto, unfolding(crate::specs::Volume::detached))]
    pub fn detach(&mut self, dir: Fid, name: &Name, fid: Fid)
        requires { IsDirAt self.old dir }
        ensures { self.new ≡ detached self.old dir name.now fid }
    {
        self.unbind(dir, name);
        self.take_out(fid);
    }

    /// Binds a fid at a free name of a directory and unbinds its old name. Fails for want of memory alone, and then
    /// changes nothing.
    pub fn move_to(
        &mut self,
        from: Fid,
        name: &Name,
        to: Fid,
        new: Name,
        fid: Fid,
    ) -> Result<(), AllocError>
        requires from_there { IsDirAt self.old from }
        requires to_there { IsDirAt self.old to }
        requires name_free { child self.old to new ≡ None }
        ensures ok { OnOk result (self.new ≡ moved self.old from name.now to new fid) }
        ensures err { OnErr result (self.new ≡ self.old) }
    {
        let was = self.nodes.child(from, name);
        self.nodes.move_to(from, name, to, new, fid)?;
        self.binders.move_to(was, fid, to);
        Ok(())
    }

    /// Binds a fid at the name that another has in a directory, unbinds its old name, and takes out the node of the
    /// other. Fails in no case.
    pub fn replace(&mut self, old: Fid, from: Fid, name: &Name, to: Fid, new: &Name, fid: Fid)
        requires from_there { IsDirAt self.old from }
        requires to_there { IsDirAt self.old to }
        requires had { child self.old to new.now ≡ Some old }
        ensures { self.new ≡ replaced self.old old from name.now to new.now fid }
    {
        self.move_over(from, name, to, new, fid);
        self.take_out(old);
    }

    /// Sets the content of the file at a fid, the time, and the version that this leaves. A link or a directory keeps
    /// what it holds. Takes no memory, and does nothing where there is no node.
    pub fn store(&mut self, fid: Fid, content: Bytes, mtime: u64, sid: Sid)
        ensures { self.new ≡ changed self.old fid (written (content_patch content mtime) sid) }
    {
        self.nodes.store(fid, content, mtime, sid);
    }

    /// Sets attributes of the node at a fid, and the version that this leaves. Takes no memory, and does nothing where
    /// there is no node.
    pub fn set_attributes(&mut self, fid: Fid, attrs: &Attrs, sid: Sid)
        ensures { self.new ≡ changed self.old fid (written (attrs_patch attrs.now) sid) }
    {
        self.nodes.set_attributes(fid, attrs, sid);
    }

    /// A copy with all content. Fails for want of memory alone.
    pub fn copy(&self) -> Result<NodeTable, AllocError>
        ensures { IfOk result (λ t. t ≡ self.now) }
    {
        self.nodes.copied()
    }

    /// Binds a fid at a free name of a directory, beside the names that it has. Fails for want of memory alone, and then
    /// changes nothing. `unbind` undoes it.
    pub fn bind(&mut self, dir: Fid, name: Name, fid: Fid) -> Result<(), AllocError>
        requires dir_there { IsDirAt self.old dir }
        requires name_free { child self.old dir name ≡ None }
        ensures ok { OnOk result (self.new ≡ bound self.old dir name fid) }
        ensures err { OnErr result (self.new ≡ self.old) }
    {
        self.nodes.bind(dir, name, fid)?;
        self.binders.change(fid, Change::More(dir));
        Ok(())
    }

    /// Unbinds a name in a directory, and leaves what it was bound to where it is. Takes no memory.
    pub fn unbind(&mut self, dir: Fid, name: &Name)
        requires { IsDirAt self.old dir }
        ensures { self.new ≡ unbound self.old dir name.now }
    {
        let was = self.nodes.child(dir, name);
        self.nodes.unbind(dir, name);
        self.binders.leave(was);
    }

    // Binds a fid at a bound name of a directory, and unbinds its old name.
    fn move_over(&mut self, from: Fid, name: &Name, to: Fid, new: &Name, fid: Fid)
        requires from_there { IsDirAt self.old from }
        requires to_there { IsDirAt self.old to }
        requires name_bound { IsSome (child self.old to new.now) }
        ensures { self.new ≡ moved self.old from name.now to new.now fid }
    {
        let over = self.nodes.child(to, new);
        let was = self.nodes.child_elsewhere(from, name, to, new);
        self.nodes.move_over(from, name, to, new, fid);
        self.binders.leave(over);
        self.binders.move_to(was, fid, to);
    }

    /// Takes out the node at a fid, where there is one, and leaves the names that are bound to it. Takes no memory.
    pub fn take_out(&mut self, fid: Fid)
        ensures { self.new ≡ map.remove self.old fid }
    {
        let was = self.nodes.take_out(fid);
        self.binders.change_all(was.as_ref(), Change::Less);
    }
}
