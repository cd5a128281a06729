ghost use Rattle.std.specs.Prelude.{◌≡◌, ◌↔◌, ℕ, ◌+◌, ◌/◌, ◌<◌, ◌^◌, IfOk, OnOk, IsTrue, None, is_some, length};
ghost use Rattle.std.specs.FinMap as map;
ghost use Rattle.coda_fid.specs.declared.fid.Fid.{Fid};
ghost use Rattle.coda_fid.specs.declared.fid.Sid.{Sid};
ghost use Rattle.coda_tree.specs.declared.node.Node.{Node};
ghost use Rattle.coda_tree.specs.declared.node.NodeKind.TheVariants.{File};
ghost use Rattle.coda_tree.specs.Bindings.{Name};
ghost use Rattle.coda_tree.specs.Blocks.{blocks_of};
ghost use Rattle.coda_tree.specs.Volume.{bindings, child, bound, unbound, changed, written, content_patch, edited_all};
ghost use Rattle.coda_certify.specs.Replay.{applied, rename_effects};
ghost use Rattle.coda_cache.specs.State.{CacheState, blocks_in, blocks_at};
ghost use Rattle.coda_cache.specs.Prospects.{Foresees};

use crate::contents::Contents;
use crate::prospect::Prospect;
use coda_fid::{Bytes, Fid, Name, Op, Over, Record};
use coda_tree::{Node, NodeKind};
use std::alloc::AllocError;

// ---- names

// How many names a node binds.
fn names(kind: &NodeKind) -> usize
    ensures { result ≡ map.len (bindings kind.now) }
{
    match kind {
        NodeKind::Dir(entries) => entries.len(),
        NodeKind::File(_) => 0,
        NodeKind::Link(_) => 0,
    }
}

// Whether a node binds a name.
fn binds(kind: &NodeKind, name: &Name) -> bool
    ensures { result ≡ is_some (map.get (bindings kind.now) name.now) }
{
    match kind {
        NodeKind::Dir(entries) => entries.find(name).is_some(),
        NodeKind::File(_) => false,
        NodeKind::Link(_) => false,
    }
}

// How many names a node binds without one.
fn names_without(kind: &NodeKind, name: &Name) -> usize
    ensures { result ≡ map.len (map.remove (bindings kind.now) name.now) }
{
    let count = names(kind);
    if binds(kind, name) {
        count.saturating_sub(1)
    } else {
        count
    }
}

// One more, which fails where it doesn't fit in 64 bits.
fn one_more(count: usize) -> Result<usize, AllocError>
    ensures { IfOk result (λ n. n ≡ count + 1) }
{
    match count.checked_add(1) {
        Some(more) => Ok(more),
        None => Err(AllocError),
    }
}

// How many names a node binds with one.
fn names_with(kind: &NodeKind, name: &Name) -> Result<usize, AllocError>
    ensures { (f : Fid) → IfOk result (λ n. n ≡ map.len (map.insert (bindings kind.now) name.now f)) }
{
    let count = names(kind);
    if binds(kind, name) {
        Ok(count)
    } else {
        one_more(count)
    }
}

// Whether two names are one.
fn is_same_name(one: &Name, other: &Name) -> bool
    ensures { IsTrue result ↔ (one.now ≡ other.now) }
{
    one.compare(other).is_eq()
}

// Whether a node binds a name once another is unbound.
fn binds_still(kind: &NodeKind, gone: &Name, name: &Name) -> bool
    ensures { result ≡ is_some (map.get (map.remove (bindings kind.now) gone.now) name.now) }
{
    !is_same_name(gone, name) && binds(kind, name)
}

// How many names a node binds without one and with another.
fn names_renamed(kind: &NodeKind, from: &Name, to: &Name) -> Result<usize, AllocError>
    ensures { (f : Fid) → IfOk result (λ n. n ≡ map.len (map.insert (map.remove (bindings kind.now) from.now) to.now f)) }
{
    let count = names_without(kind, from);
    if binds_still(kind, from, to) {
        Ok(count)
    } else {
        one_more(count)
    }
}

// ---- blocks

// So many blocks, which fail where they don't fit in 32 bits.
fn small(blocks: usize) -> Result<u32, AllocError>
    ensures { IfOk result (λ b. b ≡ blocks) }
{
    match u32::try_from(blocks) {
        Ok(blocks) => Ok(blocks),
        Err(_) => Err(AllocError),
    }
}

// The blocks of a directory that binds so many names.
fn dir_blocks(names: usize) -> Result<u32, AllocError>
    ensures { IfOk result (λ b. b ≡ 1 + names / 32) }
{
    small(1 + names / 32)
}

// The blocks of a file with a content.
fn file_blocks(content: &Bytes) -> Result<u32, AllocError>
    ensures { IfOk result (λ b. b ≡ 1 + (length content.now + 1023) / 1024) }
{
    small(1 + content.len().div_ceil(1024))
}

/// The blocks of a node of a kind. Fails where they don't fit in 32 bits.
pub fn kind_blocks(kind: &NodeKind) -> Result<u32, AllocError>
    ensures { IfOk result (λ b. b ≡ blocks_of kind.now) }
{
    match kind {
        NodeKind::File(content) => file_blocks(content),
        NodeKind::Link(_) => Ok(1),
        NodeKind::Dir(entries) => dir_blocks(entries.len()),
    }
}

// Fails where the blocks of a node don't fit in 32 bits.
pub(crate) fn check_node(node: &Node) -> Result<(), AllocError>
    ensures { OnOk result (blocks_of node.now.kind < 2 ^ 32) }
{
    let _blocks = kind_blocks(&node.kind)?;
    Ok(())
}

// Fails where the blocks of a file with a content don't fit in 32 bits.
pub(crate) fn check_content(content: &Bytes) -> Result<(), AllocError>
    ensures { OnOk result (blocks_of (File content.now) < 2 ^ 32) }
{
    let _blocks = file_blocks(content)?;
    Ok(())
}

impl Contents {
    // The blocks of a directory once it binds a name.
    pub(crate) fn blocks_with(&self, dir: Fid, name: &Name) -> Result<u32, AllocError>
        ensures { (f : Fid) → IfOk result (λ b. b ≡ blocks_in (bound self.now.nodes dir name.now f) dir) }
    {
        match self.nodes.get(dir) {
            Some(node) => dir_blocks(names_with(&node.kind, name)?),
            None => Ok(0),
        }
    }

    // The blocks of a directory once it binds a name that is free, which is not looked for.
    pub(crate) fn blocks_with_one_more(&self, dir: Fid) -> Result<u32, AllocError>
        ensures { (name : Name) (f : Fid) → child self.now.nodes dir name ≡ None → IfOk result (λ b. b ≡ blocks_in (bound self.now.nodes dir name f) dir) }
    {
        match self.nodes.get(dir) {
            Some(node) => dir_blocks(one_more(names(&node.kind))?),
            None => Ok(0),
        }
    }

    // The blocks of a directory once it doesn't bind a name.
    fn blocks_without(&self, dir: Fid, name: &Name) -> Result<u32, AllocError>
        ensures { IfOk result (λ b. b ≡ blocks_in (unbound self.now.nodes dir name.now) dir) }
    {
        match self.nodes.get(dir) {
            Some(node) => dir_blocks(names_without(&node.kind, name)),
            None => Ok(0),
        }
    }

    // The blocks of a directory once it binds one name in the place of another.
    fn blocks_renamed(&self, dir: Fid, from: &Name, to: &Name) -> Result<u32, AllocError>
        ensures { (f : Fid) → IfOk result (λ b. b ≡ blocks_in (bound (unbound self.now.nodes dir from.now) dir to.now f) dir) }
    {
        match self.nodes.get(dir) {
            Some(node) => dir_blocks(names_renamed(&node.kind, from, to)?),
            None => Ok(0),
        }
    }

    // The blocks of a node once a content is stored, where it is a file.
    fn blocks_stored(&self, fid: Fid, content: &Bytes) -> Result<u32, AllocError>
        ensures { (time : ℕ) (sid : Sid) → IfOk result (λ b. b ≡ blocks_in (changed self.now.nodes fid (written (content_patch content.now time) sid)) fid) }
    {
        match self.nodes.get(fid) {
            Some(node) => match &node.kind {
                NodeKind::File(_) => file_blocks(content),
                NodeKind::Link(_) => Ok(self.blocks(fid)),
                NodeKind::Dir(_) => Ok(self.blocks(fid)),
            },
            None => Ok(0),
        }
    }

    // The blocks of a node once another one is made.
    fn blocks_created(&self, dir: Fid, name: &Name, new: Fid, fid: Fid) -> Result<u32, AllocError>
        ensures { (node : Node) → blocks_of node.kind ≡ 1 → IfOk result (λ b. b ≡ blocks_in (map.insert (bound self.now.nodes dir name.now new) new node) fid) }
    {
        if fid == new {
            Ok(1)
        } else if fid == dir {
            self.blocks_with(dir, name)
        } else {
            Ok(self.blocks(fid))
        }
    }

    // The blocks of a node once another one is taken out.
    fn blocks_removed(&self, dir: Fid, name: &Name, old: Fid, fid: Fid) -> Result<u32, AllocError>
        ensures { IfOk result (λ b. b ≡ blocks_in (map.remove (unbound self.now.nodes dir name.now) old) fid) }
    {
        if fid == old {
            Ok(0)
        } else if fid == dir {
            self.blocks_without(dir, name)
        } else {
            Ok(self.blocks(fid))
        }
    }

    // The blocks of a node once another one is bound elsewhere.
    fn blocks_moved(
        &self,
        from_dir: Fid,
        from: &Name,
        to_dir: Fid,
        to: &Name,
        fid: Fid,
    ) -> Result<u32, AllocError>
        ensures { (f : Fid) → IfOk result (λ b. b ≡ blocks_in (bound (unbound self.now.nodes from_dir from.now) to_dir to.now f) fid) }
    {
        if fid == from_dir {
            if fid == to_dir {
                self.blocks_renamed(fid, from, to)
            } else {
                self.blocks_without(fid, from)
            }
        } else if fid == to_dir {
            self.blocks_with(fid, to)
        } else {
            Ok(self.blocks(fid))
        }
    }

    // The same, where one may be taken out for it.
    fn blocks_replaced(
        &self,
        from_dir: Fid,
        from: &Name,
        to_dir: Fid,
        to: &Name,
        over: Option<Over>,
        fid: Fid,
    ) -> Result<u32, AllocError>
        ensures { (f : Fid) → IfOk result (λ b. b ≡ blocks_in (edited_all self.now.nodes (rename_effects from_dir from.now to_dir to.now f over)) fid) }
    {
        match over {
            Some(over) => {
                if fid == over.fid {
                    Ok(0)
                } else {
                    self.blocks_moved(from_dir, from, to_dir, to, fid)
                }
            }
            None => self.blocks_moved(from_dir, from, to_dir, to, fid),
        }
    }

    // The blocks of a node once an operation is applied.
    pub(crate) fn blocks_applied(&self, rec: &Record, fid: Fid) -> Result<u32, AllocError>
        ensures { (client : ℕ) → IfOk result (λ b. b ≡ blocks_in (applied self.now.nodes client rec.now) fid) }
    {
        match &rec.op {
            Op::Create {
                dir,
                name,
                fid: at,
                ..
            } => self.blocks_created(*dir, name, *at, fid),
            Op::Mkdir {
                dir,
                name,
                fid: at,
                ..
            } => self.blocks_created(*dir, name, *at, fid),
            Op::Symlink {
                dir,
                name,
                fid: at,
                ..
            } => self.blocks_created(*dir, name, *at, fid),
            Op::Store {
                fid: at,
                content,
                ..
            } => {
                if *at == fid {
                    self.blocks_stored(fid, content)
                } else {
                    Ok(self.blocks(fid))
                }
            }
            Op::Setattr { .. } => Ok(self.blocks(fid)),
            Op::Remove {
                dir,
                name,
                fid: at,
                ..
            } => self.blocks_removed(*dir, name, *at, fid),
            Op::Rmdir {
                dir,
                name,
                fid: at,
                ..
            } => self.blocks_removed(*dir, name, *at, fid),
            Op::Rename {
                from_dir,
                from,
                to_dir,
                to,
                over,
                ..
            } => self.blocks_replaced(*from_dir, from, *to_dir, to, *over, fid),
        }
    }

    // The blocks that a node will take, 0 where it won't be cached.
    pub(crate) fn blocks_ahead(
        &self,
        prospect: &Prospect,
        rec: &Record,
        fid: Fid,
    ) -> Result<u32, AllocError>
        ensures { (client : ℕ) (n : CacheState) → Foresees self.now client rec.now n prospect.now → IfOk result (λ b. b ≡ blocks_at n fid) }
    {
        if prospect.gone.contains(&fid) {
            Ok(0)
        } else if prospect.touched.contains(&fid) {
            self.blocks_applied(rec, fid)
        } else {
            Ok(self.blocks(fid))
        }
    }
}
