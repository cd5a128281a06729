ghost use Rattle.std.specs.Prelude.{◌≡◌, ◌↔◌, Some, None, IfOk, IfSome, IsSome, IsTrue, OnOk, OnErr, option_copied};
ghost use Rattle.std.specs.FinMap as map;
ghost use Rattle.std.specs.HashMap as hash;
ghost use Rattle.coda_fid.specs.Fid.{same_fid};
ghost use Rattle.coda_tree.specs.Volume.{child, moved, changed, bound, unbound, written, content_patch, attrs_patch, IsDir, IsDirAt, bindings, parent_of};
ghost use Rattle.coda_tree.specs.Table.{nodes_of, earliest, ChangesAt, BindsAt, UnbindsAt, IsSame};

use crate::hasher::FidMap;
use crate::{Node, NodeKind, NodeTable};
use coda_fid::{Attrs, Bytes, Fid, Name, Sid};
use std::alloc::{AllocError, Global};
use std::cmp::Ordering;
use std::hash::BuildHasherDefault;
use std::marker::Model;

// Nodes under their fids, without what is known of who binds them.
#[derive(Drop)]
pub(crate) struct NodeMap {
    alloc: Global,
    nodes: FidMap<Node>,
}

impl Model for NodeMap {
    ghost use Rattle.coda_tree.specs.Volume.{Nodes, coded_nodes};
    ghost use Rattle.coda_tree.specs.Table.{nodes_of};
    ghost use Rattle.coda_tree.specs.contracts.node.Node as node_row;

    ghost Value = { Nodes };

    ghost coded = { coded_nodes node_row.the_row.coded };

    ghost view = { λ a. nodes_of a.nodes.entries };
}

// Binds a free name in the directory at a fid.
fn bind(nodes: &mut FidMap<Node>, dir: Fid, name: Name, fid: Fid) -> Result<(), AllocError>
    requires { IfSome (hash.get same_fid nodes.old dir) (λ node. IsDir node.kind × (map.get (bindings node.kind) name ≡ None)) }
    ensures ok { OnOk result (BindsAt nodes.old nodes.new dir name fid) }
    ensures err { OnErr result (IsSame nodes.old nodes.new) }
{
    match nodes.get_mut(&dir) {
        Some(node) => node.bind(name, fid),
        None => Ok(()),
    }
}

// Unbinds a name in the directory at a fid.
fn unbind(nodes: &mut FidMap<Node>, dir: Fid, name: &Name)
    requires { IfSome (hash.get same_fid nodes.old dir) (λ node. IsDir node.kind) }
    ensures { UnbindsAt nodes.old nodes.new dir name.now }
{
    if let Some(node) = nodes.get_mut(&dir) {
        node.unbind(name);
    }
}

// Binds a bound name of the directory at a fid to another fid.
fn rebind(nodes: &mut FidMap<Node>, dir: Fid, name: &Name, fid: Fid)
    requires { IfSome (hash.get same_fid nodes.old dir) (λ node. IsDir node.kind × IsSome (map.get (bindings node.kind) name.now)) }
    ensures { BindsAt nodes.old nodes.new dir name.now fid }
{
    if let Some(node) = nodes.get_mut(&dir) {
        node.rebind(name, fid);
    }
}

// Writes a content with its time to the node at a fid, where there is one.
fn store(nodes: &mut FidMap<Node>, fid: Fid, content: Bytes, mtime: u64, sid: Sid)
    ensures { ChangesAt nodes.old nodes.new fid (written (content_patch content mtime) sid) }
{
    if let Some(node) = nodes.get_mut(&fid) {
        node.store(content, mtime, sid);
    }
}

// Sets attributes of the node at a fid, where there is one.
fn set_attributes(nodes: &mut FidMap<Node>, fid: Fid, attrs: &Attrs, sid: Sid)
    ensures { ChangesAt nodes.old nodes.new fid (written (attrs_patch attrs.now) sid) }
{
    if let Some(node) = nodes.get_mut(&fid) {
        node.set_attributes(attrs, sid);
    }
}

// Puts another node in the place of the one at a fid, where there is one.
fn set(nodes: &mut FidMap<Node>, fid: Fid, node: Node)
    ensures { ChangesAt nodes.old nodes.new fid (λ _. node) }
{
    if let Some(held) = nodes.get_mut(&fid) {
        *held = node;
    }
}

// Whether two places in directories are one.
fn is_same_place(from: Fid, name: &Name, to: Fid, new: &Name) -> bool
    ensures { IsTrue result ↔ ((from ≡ to) × (name.now ≡ new.now)) }
{
    from == to && name.compare(new).is_eq()
}

// The first of two fids, in their order.
fn earliest(first: Option<Fid>, fid: Fid) -> Fid
    ensures { result ≡ earliest first fid }
{
    match first {
        Some(before) => match before.cmp(&fid) {
            Ordering::Less => before,
            Ordering::Equal => fid,
            Ordering::Greater => fid,
        },
        None => fid,
    }
}

// The first node, in the order of fids, that binds a fid.
fn first_binder(nodes: &FidMap<Node>, fid: Fid) -> Option<Fid>
    ensures { result ≡ parent_of (nodes_of nodes.now.entries) fid }
{
    let mut first = None;
    for (dir, node) in nodes {
        if node.binds(fid) {
            first = Some(earliest(first, *dir));
        }
    }
    first
}

// A copy of each node.
fn copy_nodes(alloc: Global, nodes: &FidMap<Node>) -> Result<NodeTable, AllocError>
    ensures { IfOk result (λ t. t ≡ nodes_of nodes.now.entries) }
{
    let mut copy = NodeTable::new(alloc);
    for (fid, node) in nodes {
        let node = node.copy()?;
        copy.put(*fid, node)?;
    }
    Ok(copy)
}

impl NodeMap {
    // No nodes.
    pub(crate) fn new(alloc: Global) -> NodeMap
        ensures { result ≡ map.empty }
    {
        NodeMap {
            alloc,
            nodes: FidMap::with_hasher(alloc, BuildHasherDefault::new()),
        }
    }

    // How many nodes there are.
    pub(crate) fn len(&self) -> usize
        ensures { result ≡ map.len self.now }
    {
        self.nodes.len()
    }

    // The node at a fid.
    pub(crate) fn get(&self, fid: Fid) -> Option<&Node>
        ensures { option_copied result ≡ map.get self.now fid }
    {
        self.nodes.get(&fid)
    }

    // What the directory at a fid binds at a name; `None` too where no directory stands there.
    pub(crate) fn child(&self, dir: Fid, name: &Name) -> Option<Fid>
        ensures { result ≡ child self.now dir name.now }
    {
        match self.get(dir) {
            Some(node) => match &node.kind {
                NodeKind::Dir(entries) => entries.find(name),
                NodeKind::File(_) => None,
                NodeKind::Link(_) => None,
            },
            None => None,
        }
    }

    // What the directory at a fid binds at a name, unless this is the other place.
    pub(crate) fn child_elsewhere(
        &self,
        dir: Fid,
        name: &Name,
        other: Fid,
        taken: &Name,
    ) -> Option<Fid>
        ensures { result ≡ child (unbound self.now other taken.now) dir name.now }
    {
        if is_same_place(dir, name, other, taken) {
            return None;
        }
        self.child(dir, name)
    }

    // The directory that binds a fid, the first in the order of fids; `None` where none does.
    pub(crate) fn first_binder(&self, fid: Fid) -> Option<Fid>
        ensures { result ≡ parent_of self.now fid }
    {
        first_binder(&self.nodes, fid)
    }

    // Puts a node at a fid, and answers the one that was there. Fails for want of memory alone, and then changes nothing.
    pub(crate) fn put(&mut self, fid: Fid, node: Node) -> Result<Option<Node>, AllocError>
        ensures ok { OnOk result (self.new ≡ map.insert self.old fid node) }
        ensures was { IfOk result (λ was. was ≡ map.get self.old fid) }
        ensures err { OnErr result (self.new ≡ self.old) }
    {
        Ok(self.nodes.insert(fid, node)?)
    }

    // Puts another node in the place of the one at a fid. Takes no memory.
    pub(crate) fn set(&mut self, fid: Fid, node: Node)
        requires { IsSome (map.get self.old fid) }
        ensures { self.new ≡ map.insert self.old fid node }
    {
        set(&mut self.nodes, fid, node);
    }

    // Binds a fid at a free name of a directory and unbinds its old name. Fails for want of memory alone, and then
    // changes nothing.
    pub(crate) fn move_to(
        &mut self,
        from: Fid,
        name: &Name,
        to: Fid,
        new: Name,
        fid: Fid,
    ) -> Result<(), AllocError>
        requires from_there { IsDirAt self.old from }
        requires to_there { IsDirAt self.old to }
        requires name_free { child self.old to new ≡ None }
        ensures ok { OnOk result (self.new ≡ moved self.old from name.now to new fid) }
        ensures err { OnErr result (self.new ≡ self.old) }
    {
        if is_same_place(from, name, to, &new) {
            return self.bind(to, new, fid);
        }
        self.bind(to, new, fid)?;
        self.unbind(from, name);
        Ok(())
    }

    // Sets the content of the file at a fid, the time, and the version that this leaves.
    pub(crate) fn store(&mut self, fid: Fid, content: Bytes, mtime: u64, sid: Sid)
        ensures { self.new ≡ changed self.old fid (written (content_patch content mtime) sid) }
    {
        store(&mut self.nodes, fid, content, mtime, sid);
    }

    // Sets attributes of the node at a fid, and the version that this leaves.
    pub(crate) fn set_attributes(&mut self, fid: Fid, attrs: &Attrs, sid: Sid)
        ensures { self.new ≡ changed self.old fid (written (attrs_patch attrs.now) sid) }
    {
        set_attributes(&mut self.nodes, fid, attrs, sid);
    }

    // A table of copies of the nodes. Fails for want of memory alone.
    pub(crate) fn copied(&self) -> Result<NodeTable, AllocError>
        ensures { IfOk result (λ t. t ≡ self.now) }
    {
        copy_nodes(self.alloc, &self.nodes)
    }

    // Binds a name in a directory. Fails for want of memory alone, and then changes nothing.
    pub(crate) fn bind(&mut self, dir: Fid, name: Name, fid: Fid) -> Result<(), AllocError>
        requires dir_there { IsDirAt self.old dir }
        requires name_free { child self.old dir name ≡ None }
        ensures ok { OnOk result (self.new ≡ bound self.old dir name fid) }
        ensures err { OnErr result (self.new ≡ self.old) }
    {
        bind(&mut self.nodes, dir, name, fid)
    }

    // Binds a fid at a bound name of a directory, and unbinds its old name.
    pub(crate) fn move_over(&mut self, from: Fid, name: &Name, to: Fid, new: &Name, fid: Fid)
        requires from_there { IsDirAt self.old from }
        requires to_there { IsDirAt self.old to }
        requires name_bound { IsSome (child self.old to new.now) }
        ensures { self.new ≡ moved self.old from name.now to new.now fid }
    {
        self.rebind(to, new, fid);
        if !is_same_place(from, name, to, new) {
            self.unbind(from, name);
        }
    }

    // Binds a bound name of a directory to another fid.
    fn rebind(&mut self, dir: Fid, name: &Name, fid: Fid)
        requires dir_there { IsDirAt self.old dir }
        requires name_bound { IsSome (child self.old dir name.now) }
        ensures { self.new ≡ bound self.old dir name.now fid }
    {
        rebind(&mut self.nodes, dir, name, fid);
    }

    // Unbinds a name in a directory.
    pub(crate) fn unbind(&mut self, dir: Fid, name: &Name)
        requires { IsDirAt self.old dir }
        ensures { self.new ≡ unbound self.old dir name.now }
    {
        unbind(&mut self.nodes, dir, name);
    }

    // Takes out the node at a fid, and answers it.
    pub(crate) fn take_out(&mut self, fid: Fid) -> Option<Node>
        ensures nodes { self.new ≡ map.remove self.old fid }
        ensures was { result ≡ map.get self.old fid }
    {
        self.nodes.remove(&fid)
    }
}
