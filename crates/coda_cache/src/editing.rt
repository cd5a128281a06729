ghost use Rattle.std.specs.Prelude.{◌≡◌, ◌<◌, ◌^◌, Some, None, OnOk, OnErr};
ghost use Rattle.coda_fid.specs.declared.fid.Fid.{Fid};
ghost use Rattle.coda_tree.specs.Blocks.{blocks_of};
ghost use Rattle.coda_tree.specs.declared.node.NodeKind.TheVariants.{File};
ghost use Rattle.coda_tree.specs.Volume.{child, changed, bound, unbound, moved, written, content_patch, attrs_patch, IsDirAt};
ghost use Rattle.coda_walk.specs.Going.{is_listed};
ghost use Rattle.coda_cache.specs.Ways.{at_or_below};
ghost use Rattle.coda_cache.specs.Steps.{removed, moved_under, dirtied, marked};
ghost use Rattle.coda_cache.specs.Operating.{with_nodes};

use crate::contents::Contents;
use crate::operating::take_out_all;
use coda_fid::{Attrs, Bytes, Fid, Name, Sid};
use std::alloc::AllocError;

// A number of blocks in 32 bits is small enough to be counted.
fn counted(_blocks: u32)
    ensures { _blocks < 2 ^ 32 }
{}

// The single changes that operations are made of.
impl Contents {
    // Binds a fid at a free name of a directory. Fails for want of memory alone, also where the directory's blocks would not
    // fit in 32 bits, and then changes nothing.
    pub(crate) fn bind(&mut self, dir: Fid, name: Name, fid: Fid) -> Result<(), AllocError>
        requires there { IsDirAt self.old.nodes dir }
        requires free { child self.old.nodes dir name ≡ None }
        ensures ok { OnOk result (self.new ≡ with_nodes self.old (bound self.old.nodes dir name fid)) }
        ensures err { OnErr result (self.new ≡ self.old) }
    {
        counted(self.blocks_with_one_more(dir)?);
        self.nodes.bind(dir, name, fid)?;
        Ok(())
    }

    // Unbinds a name in a directory. Takes no memory.
    pub(crate) fn unbind(&mut self, dir: Fid, name: &Name)
        requires { IsDirAt self.old.nodes dir }
        ensures { self.new ≡ with_nodes self.old (unbound self.old.nodes dir name.now) }
    {
        self.nodes.unbind(dir, name);
    }

    // Stores a content in a file, where there is one. Takes no memory.
    pub(crate) fn store(&mut self, fid: Fid, content: Bytes, mtime: u64, sid: Sid)
        requires { blocks_of (File content) < 2 ^ 32 }
        ensures { self.new ≡ with_nodes self.old (changed self.old.nodes fid (written (content_patch content mtime) sid)) }
    {
        self.nodes.store(fid, content, mtime, sid);
    }

    // Sets attributes of a node, where there is one. Takes no memory.
    pub(crate) fn set_attributes(&mut self, fid: Fid, attrs: &Attrs, sid: Sid)
        ensures { self.new ≡ with_nodes self.old (changed self.old.nodes fid (written (attrs_patch attrs.now) sid)) }
    {
        self.nodes.set_attributes(fid, attrs, sid);
    }

    // Binds a node in the place of another, and takes that one out with what is cached below it, of which this is a list. Takes
    // no memory.
    pub(crate) fn replace_among(
        &mut self,
        over: Fid,
        from_dir: Fid,
        from: &Name,
        to_dir: Fid,
        to: &Name,
        fid: Fid,
        gone: &[Fid],
    )
        requires from_there { IsDirAt self.old.nodes from_dir }
        requires to_there { IsDirAt self.old.nodes to_dir }
        requires had { child self.old.nodes to_dir to.now ≡ Some over }
        requires gone { (f : Fid) → is_listed gone.now f ≡ is_listed (at_or_below self.old over) f }
        ensures { self.new ≡ removed (with_nodes self.old (moved self.old.nodes from_dir from.now to_dir to.now fid)) over }
    {
        self.nodes.replace(over, from_dir, from, to_dir, to, fid);
        take_out_all(&mut self.nodes, &mut self.holds, &mut self.recency, gone);
    }

    // The same by a look at all cached nodes.
    pub(crate) fn replace(
        &mut self,
        over: Fid,
        from_dir: Fid,
        from: &Name,
        to_dir: Fid,
        to: &Name,
        fid: Fid,
    )
        requires from_there { IsDirAt self.old.nodes from_dir }
        requires to_there { IsDirAt self.old.nodes to_dir }
        requires had { child self.old.nodes to_dir to.now ≡ Some over }
        ensures { self.new ≡ removed (with_nodes self.old (moved self.old.nodes from_dir from.now to_dir to.now fid)) over }
    {
        self.nodes.replace(over, from_dir, from, to_dir, to, fid);
        self.holds.remove(&mut self.nodes, &mut self.recency, over);
    }

    // Gives a node its new parent, where it is held. Takes no memory.
    pub(crate) fn move_under(&mut self, fid: Fid, dir: Fid)
        ensures { self.new ≡ moved_under (Some (fid, dir)) self.old }
    {
        self.holds.move_under(fid, dir);
    }

    // Makes a node dirty or clean, where it is held. Takes no memory.
    pub(crate) fn mark(&mut self, fid: Fid, dirty: bool)
        ensures { self.new ≡ marked self.old fid dirty }
    {
        self.holds.set_dirty(fid, dirty);
    }

    // Makes nodes dirty, where they are held. Takes no memory.
    pub(crate) fn make_dirty(&mut self, fids: &[Fid])
        ensures { self.new ≡ dirtied self.old fids.now }
    {
        self.holds.make_all_dirty(fids);
    }
}
