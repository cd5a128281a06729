ghost use Rattle.std.specs.Prelude.{◌≡◌, ◌<◌, ◌+◌, ◌^◌, None, Some, OnOk, OnErr, IfOk, IsSome};
ghost use Rattle.std.specs.FinMap as map;
ghost use Rattle.coda_tree.specs.Blocks.{blocks_of};
ghost use Rattle.coda_tree.specs.Volume.{binds_fid, bindings, bind_in, unbind_in, with_content, written, content_patch, attrs_patch, IsDir};
ghost use Rattle.coda_tree.specs.Parts.{displaced, parts_before, given_back};

use crate::Entries;
use crate::entries::Room;
use coda_fid::{Attrs, Bytes, Fid, Name, Sid};
use std::alloc::AllocError;
use std::mem::replace;

/// What kind of object a node is, with what it holds.
#[derive(Debug, Drop)]
pub enum NodeKind {
    /// A file, with its content.
    File(Bytes),
    /// A symbolic link, with its target.
    Link(Bytes),
    /// A directory, with what it binds.
    Dir(Entries),
}

/// An object of a volume: a file, a symbolic link or a directory, with its attributes.
#[derive(Debug, Drop)]
pub struct Node {
    /// What it is and holds.
    pub kind: NodeKind,
    /// The permission bits, as in `0o755`.
    pub mode: u16,
    /// The user number of the owner.
    pub owner: u32,
    /// When it was made or its content last stored, in seconds, unless an operation set another time.
    pub mtime: u64,
    /// The operation that made it or last changed its content or attributes: its version, by which conflicts are told,
    /// as the storeid is (Kistler and Satyanarayanan 1992). Changes of what a directory binds leave it.
    pub sid: Sid,
    /// Whether it is marked as inconsistent, until somebody repairs it (Satyanarayanan et al. 1990).
    pub marked: bool,
}

// The parts of a node that a write sets, with the content where it sets that of a file.
#[derive(Drop)]
pub(crate) struct Parts {
    pub(crate) content: Option<Bytes>,
    pub(crate) mode: u16,
    pub(crate) owner: u32,
    pub(crate) mtime: u64,
    pub(crate) sid: Sid,
}

impl NodeKind {
    /// A copy with all content. Fails for want of memory alone.
    pub fn copy(&self) -> Result<NodeKind, AllocError>
        ensures { IfOk result (λ k. k ≡ self.now) }
    {
        match self {
            NodeKind::File(content) => {
                let content = content.copy()?;
                Ok(NodeKind::File(content))
            }
            NodeKind::Link(target) => {
                let target = target.copy()?;
                Ok(NodeKind::Link(target))
            }
            NodeKind::Dir(entries) => {
                let entries = entries.copy()?;
                Ok(NodeKind::Dir(entries))
            }
        }
    }

    // Sets the content of a file, and answers the one that it had. Links and directories have none.
    fn exchange(&mut self, content: Bytes) -> Option<Bytes>
        ensures content { self.new ≡ with_content (Some content) self.old }
        ensures before { result ≡ displaced (Some content) self.old }
    {
        match self {
            NodeKind::File(held) => Some(replace(held, content)),
            NodeKind::Link(_) => None,
            NodeKind::Dir(_) => None,
        }
    }

    // Sets the content of a file, where there is a new one.
    fn give_back(&mut self, content: Option<Bytes>)
        ensures { self.new ≡ with_content content self.old }
    {
        if let Some(content) = content {
            self.set_content(content);
        }
    }

    // Sets the content of a file. Links and directories have none.
    fn set_content(&mut self, content: Bytes)
        ensures { self.new ≡ with_content (Some content) self.old }
    {
        match self {
            NodeKind::File(held) => *held = content,
            NodeKind::Link(_) => {}
            NodeKind::Dir(_) => {}
        }
    }
}

impl Node {
    /// A copy with all content. Fails for want of memory alone.
    pub fn copy(&self) -> Result<Node, AllocError>
        ensures { IfOk result (λ n. n ≡ self.now) }
    {
        let kind = self.kind.copy()?;
        Ok(Node {
            kind,
            mode: self.mode,
            owner: self.owner,
            mtime: self.mtime,
            sid: self.sid,
            marked: self.marked,
        })
    }

    /// How many blocks of a cache the node takes: one, and a file one more for each 1024 bytes begun, a directory one
    /// more for each 32 names that it binds.
    pub fn blocks(&self) -> u32
        requires { blocks_of self.now.kind < 2 ^ 32 }
        ensures { result ≡ blocks_of self.now.kind }
    {
        let more = match &self.kind {
            NodeKind::File(content) => content.len().div_ceil(1024),
            NodeKind::Link(_) => 0,
            NodeKind::Dir(entries) => entries.len() / 32,
        };
        1 + more as u32
    }

    // Whether a directory binds a fid, at whatever name.
    pub(crate) fn binds(&self, fid: Fid) -> bool
        ensures { result ≡ binds_fid (Some self.now) fid }
    {
        match &self.kind {
            NodeKind::Dir(entries) => entries.binds(fid),
            NodeKind::File(_) => false,
            NodeKind::Link(_) => false,
        }
    }

    // Binds a name that is free in a directory. Fails for want of memory alone, and then changes nothing.
    pub(crate) fn bind(&mut self, name: Name, fid: Fid) -> Result<(), AllocError>
        requires dir { IsDir self.old.kind }
        requires free { map.get (bindings self.old.kind) name ≡ None }
        ensures ok { OnOk result (self.new ≡ bind_in self.old name fid) }
        ensures err { OnErr result (self.new ≡ self.old) }
    {
        match &mut self.kind {
            NodeKind::Dir(entries) => entries.insert(name, fid),
            NodeKind::File(_) | NodeKind::Link(_) => Ok(()),
        }
    }

    // Unbinds a name in a directory.
    pub(crate) fn unbind(&mut self, name: &Name)
        requires { IsDir self.old.kind }
        ensures { self.new ≡ unbind_in self.old name.now }
    {
        match &mut self.kind {
            NodeKind::Dir(entries) => entries.remove(name),
            NodeKind::File(_) | NodeKind::Link(_) => {}
        }
    }

    // Binds a bound name of a directory to another fid.
    pub(crate) fn rebind(&mut self, name: &Name, fid: Fid)
        requires dir { IsDir self.old.kind }
        requires bound { IsSome (map.get (bindings self.old.kind) name.now) }
        ensures { self.new ≡ bind_in self.old name.now fid }
    {
        match &mut self.kind {
            NodeKind::Dir(entries) => entries.rebind(name, fid),
            NodeKind::File(_) | NodeKind::Link(_) => {}
        }
    }

    // Memory in which the directory can take back a name that it is to lose.
    pub(crate) fn room(&self) -> Result<Room, AllocError>
        requires { IsDir self.now.kind }
        ensures { IfOk result (λ room. map.len (bindings self.now.kind) + 1 < room) }
    {
        match &self.kind {
            NodeKind::Dir(entries) => entries.room(),
            NodeKind::File(_) => unreachable!(),
            NodeKind::Link(_) => unreachable!(),
        }
    }

    // Binds a name that is free in a directory. Takes no memory but the room.
    pub(crate) fn take_back(&mut self, name: Name, fid: Fid, room: Room)
        requires dir { IsDir self.old.kind }
        requires free { map.get (bindings self.old.kind) name ≡ None }
        requires room { map.len (bindings self.old.kind) < room }
        ensures { self.new ≡ bind_in self.old name fid }
    {
        match &mut self.kind {
            NodeKind::Dir(entries) => entries.take_back(name, fid, room),
            NodeKind::File(_) => {}
            NodeKind::Link(_) => {}
        }
    }

    // The parts that a change of attributes sets.
    pub(crate) fn parts(&self) -> Parts
        ensures { result ≡ parts_before None self.now }
    {
        Parts {
            content: None,
            mode: self.mode,
            owner: self.owner,
            mtime: self.mtime,
            sid: self.sid,
        }
    }

    // Sets the content of a file, the time, and the version that this leaves, and answers what these parts were.
    pub(crate) fn exchange(&mut self, content: Bytes, mtime: u64, sid: Sid) -> Parts
        ensures content { self.new ≡ written (content_patch content mtime) sid self.old }
        ensures before { result ≡ parts_before (Some content) self.old }
    {
        let was = self.kind.exchange(content);
        let parts = Parts {
            content: was,
            mode: self.mode,
            owner: self.owner,
            mtime: self.mtime,
            sid: self.sid,
        };
        self.mtime = mtime;
        self.sid = sid;
        parts
    }

    // Sets these parts.
    pub(crate) fn give_back(&mut self, parts: Parts)
        ensures { self.new ≡ given_back parts self.old }
    {
        self.kind.give_back(parts.content);
        self.mode = parts.mode;
        self.owner = parts.owner;
        self.mtime = parts.mtime;
        self.sid = parts.sid;
    }

    // Sets the content of a file, the time, and the version that this leaves.
    pub(crate) fn store(&mut self, content: Bytes, mtime: u64, sid: Sid)
        ensures { self.new ≡ written (content_patch content mtime) sid self.old }
    {
        self.kind.set_content(content);
        self.mtime = mtime;
        self.sid = sid;
    }

    // Sets attributes, and the version that this leaves.
    pub(crate) fn set_attributes(&mut self, attrs: &Attrs, sid: Sid)
        ensures { self.new ≡ written (attrs_patch attrs.now) sid self.old }
    {
        self.mode = attrs.mode.unwrap_or(self.mode);
        self.owner = attrs.owner.unwrap_or(self.owner);
        self.mtime = attrs.mtime.unwrap_or(self.mtime);
        self.sid = sid;
    }
}
