ghost use Rattle.std.specs.Prelude.{◌≡◌, ◌<◌, ◌^◌, false, Some, None, IfOk, OnOk, OnErr, List};
ghost use Rattle.coda_fid.specs.declared.fid.Fid.{Fid};
ghost use Rattle.coda_fid.specs.declared.op.Op.TheVariants.{Rename};
ghost use Rattle.coda_tree.specs.Blocks.{blocks_of};
ghost use Rattle.coda_tree.specs.declared.node.NodeKind.TheVariants.{File};
ghost use Rattle.coda_tree.specs.Volume.{child, changed, bound, unbound, moved, written, content_patch, attrs_patch, IsDirAt};
ghost use Rattle.coda_certify.specs.Replay.{MayApply, MayCreate, MayRename};
ghost use Rattle.coda_walk.specs.Going.{is_listed};
ghost use Rattle.coda_cache.specs.State.{is_cached};
ghost use Rattle.coda_cache.specs.Ways.{at_or_below};
ghost use Rattle.coda_cache.specs.Steps.{put_in, removed, moved_under, dirtied, mutated};
ghost use Rattle.coda_cache.specs.Operating.{with_nodes, is_same_place, left_behind, created, finished, undone, MayEnd, HasBegun};

use crate::begun::Begun;
use crate::cache::Cache;
use crate::making::{make_link, new_dir, new_file, sid_for};
use crate::marks::Marks;
use crate::queued::Queued;
use crate::sizes::{check_content, check_node};
use coda_fid::{Attrs, Bytes, Fid, Name, Op, Over, Record, Sid};
use coda_tree::Node;
use std::alloc::AllocError;

// Whether two places in directories are one.
fn is_same_place(from_dir: Fid, from: &Name, to_dir: Fid, to: &Name) -> bool
    ensures { result ≡ is_same_place from_dir from.now to_dir to.now }
{
    from_dir == to_dir && from.compare(to).is_eq()
}

// ---- single changes, with the index beside the contents

impl Cache {
    // Binds a fid at a free name of a directory. Fails for want of memory alone, also where the directory's blocks would not
    // fit in 32 bits, and then changes nothing.
    fn bind(&mut self, dir: Fid, name: Name, fid: Fid) -> Result<(), AllocError>
        requires there { IsDirAt self.old.nodes dir }
        requires free { child self.old.nodes dir name ≡ None }
        ensures ok { OnOk result (self.new ≡ with_nodes self.old (bound self.old.nodes dir name fid)) }
        ensures err { OnErr result (self.new ≡ self.old) }
    {
        self.contents.bind(dir, name, fid)?;
        self.queued.change(&self.contents, dir);
        Ok(())
    }

    // Unbinds a name in a directory.
    fn unbind(&mut self, dir: Fid, name: &Name)
        requires { IsDirAt self.old.nodes dir }
        ensures { self.new ≡ with_nodes self.old (unbound self.old.nodes dir name.now) }
    {
        self.contents.unbind(dir, name);
        self.queued.change(&self.contents, dir);
    }

    // Stores a content in a file, where there is one.
    fn store(&mut self, fid: Fid, content: Bytes, mtime: u64, sid: Sid)
        requires { blocks_of (File content) < 2 ^ 32 }
        ensures { self.new ≡ with_nodes self.old (changed self.old.nodes fid (written (content_patch content mtime) sid)) }
    {
        self.contents.store(fid, content, mtime, sid);
        self.queued.change(&self.contents, fid);
    }

    // Sets attributes of a node, where there is one.
    fn set_attributes(&mut self, fid: Fid, attrs: &Attrs, sid: Sid)
        ensures { self.new ≡ with_nodes self.old (changed self.old.nodes fid (written (attrs_patch attrs.now) sid)) }
    {
        self.contents.set_attributes(fid, attrs, sid);
    }

    // Makes nodes dirty, where they are cached.
    fn make_dirty(&mut self, fids: &[Fid])
        ensures { self.new ≡ dirtied self.old fids.now }
    {
        self.contents.make_dirty(fids);
        self.dirty.renew(&self.contents, fids);
    }

    // Gives a node its new parent, where it is cached.
    fn move_under(&mut self, fid: Fid, dir: Fid)
        ensures { self.new ≡ moved_under (Some (fid, dir)) self.old }
    {
        let was = self.contents.parent(fid);
        self.contents.move_under(fid, dir);
        self.queued.change(&self.contents, fid);
        self.children.set(was, self.contents.parent(fid), fid);
    }

    // Unbinds the old name of a node that moved, unless it is the new one.
    fn leave_behind(&mut self, from_dir: Fid, from: &Name, to_dir: Fid, to: &Name)
        requires { IsDirAt self.old.nodes from_dir }
        ensures { self.new ≡ with_nodes self.old (left_behind self.old.nodes from_dir from.now to_dir to.now) }
    {
        if !is_same_place(from_dir, from, to_dir, to) {
            self.unbind(from_dir, from);
        }
    }

    // Binds a node in the place of another, and takes that one out with what is cached below it, of which this is a list.
    fn replace_among(
        &mut self,
        over: Fid,
        from_dir: Fid,
        from: &Name,
        to_dir: Fid,
        to: &Name,
        fid: Fid,
        gone: &[Fid],
    )
        requires from_there { IsDirAt self.old.nodes from_dir }
        requires to_there { IsDirAt self.old.nodes to_dir }
        requires had { child self.old.nodes to_dir to.now ≡ Some over }
        requires gone { (f : Fid) → is_listed gone.now f ≡ is_listed (at_or_below self.old over) f }
        ensures { self.new ≡ removed (with_nodes self.old (moved self.old.nodes from_dir from.now to_dir to.now fid)) over }
    {
        self.sources.take_all(&self.contents, gone);
        self.children.take_all(&self.contents, gone);
        self.contents
            .replace_among(over, from_dir, from, to_dir, to, fid, gone);
        self.queued.take_all(gone);
        self.queued.renew(&self.contents, &[from_dir, to_dir]);
        self.dirty.take_all(gone);
    }

    // The same by a look at all cached nodes.
    fn replace_by_all(
        &mut self,
        over: Fid,
        from_dir: Fid,
        from: &Name,
        to_dir: Fid,
        to: &Name,
        fid: Fid,
    )
        requires from_there { IsDirAt self.old.nodes from_dir }
        requires to_there { IsDirAt self.old.nodes to_dir }
        requires had { child self.old.nodes to_dir to.now ≡ Some over }
        ensures { self.new ≡ removed (with_nodes self.old (moved self.old.nodes from_dir from.now to_dir to.now fid)) over }
    {
        self.contents.replace(over, from_dir, from, to_dir, to, fid);
        self.queued = Queued::none();
        self.dirty = Marks::none();
        self.sources.give_up();
        self.children.give_up();
    }

    // Binds a node in the place of another, and takes that one out with what is cached below it.
    fn replace(&mut self, over: Fid, from_dir: Fid, from: &Name, to_dir: Fid, to: &Name, fid: Fid)
        requires from_there { IsDirAt self.old.nodes from_dir }
        requires to_there { IsDirAt self.old.nodes to_dir }
        requires had { child self.old.nodes to_dir to.now ≡ Some over }
        ensures { self.new ≡ removed (with_nodes self.old (moved self.old.nodes from_dir from.now to_dir to.now fid)) over }
    {
        match self.below(over) {
            Ok(gone) => self.replace_among(over, from_dir, from, to_dir, to, fid, &gone),
            Err(_) => self.replace_by_all(over, from_dir, from, to_dir, to, fid),
        }
    }
}

// ---- operations

impl Cache {
    // Puts a node that isn't cached under a directory. Fails for want of memory alone, also where the node's blocks don't fit
    // in 32 bits, and then changes nothing.
    fn put_new(&mut self, dir: Fid, fid: Fid, node: Node) -> Result<(), AllocError>
        requires { is_cached self.old fid ≡ false }
        ensures ok { OnOk result (self.new ≡ put_in self.old fid (Some dir) node None) }
        ensures err { OnErr result (self.new ≡ self.old) }
    {
        self.contents.agree();
        check_node(&node)?;
        self.contents.begin(fid, Some(dir), node, None)?;
        self.queued.put(&self.contents, fid);
        self.dirty.set(fid, false);
        self.children.set(None, Some(dir), fid);
        Ok(())
    }

    // Begins an operation that makes a node.
    fn begin_creation(
        &mut self,
        dir: Fid,
        name: &Name,
        fid: Fid,
        node: Node,
    ) -> Result<Begun, AllocError>
        requires { MayCreate self.old.nodes dir name.now fid }
        ensures begun { IfOk result (λ begun. begun ≡ Begun.Made dir name.now fid) }
        ensures ok { OnOk result (self.new ≡ created self.old dir name.now fid node) }
        ensures err { OnErr result (self.new ≡ self.old) }
    {
        self.contents.agree();
        let kept = name.copy()?;
        let name = name.copy()?;
        self.put_new(dir, fid, node)?;
        match self.bind(dir, name, fid) {
            Ok(()) => Ok(Begun::Made {
                dir,
                name: kept,
                fid,
            }),
            Err(e) => {
                self.take_out(fid);
                Err(e)
            }
        }
    }

    // Begins a removal.
    fn begin_removal(dir: Fid, name: &Name, fid: Fid) -> Result<Begun, AllocError>
        ensures { IfOk result (λ begun. begun ≡ Begun.Leaving dir name.now fid) }
    {
        let name = name.copy()?;
        Ok(Begun::Leaving { dir, name, fid })
    }

    // Begins a rename to a free name.
    fn begin_move(
        &mut self,
        from_dir: Fid,
        from: &Name,
        to_dir: Fid,
        to: &Name,
        fid: Fid,
    ) -> Result<Begun, AllocError>
        requires there { IsDirAt self.old.nodes to_dir }
        requires free { child self.old.nodes to_dir to.now ≡ None }
        ensures begun { IfOk result (λ begun. begun ≡ Begun.Moving from_dir from.now to_dir to.now fid) }
        ensures ok { OnOk result (self.new ≡ with_nodes self.old (bound self.old.nodes to_dir to.now fid)) }
        ensures err { OnErr result (self.new ≡ self.old) }
    {
        let from = from.copy()?;
        let name = to.copy()?;
        let to = to.copy()?;
        self.bind(to_dir, to, fid)?;
        Ok(Begun::Moving {
            from_dir,
            from,
            to_dir,
            to: name,
            fid,
        })
    }

    // Begins a rename over another node.
    fn begin_replacing(
        over: Fid,
        from_dir: Fid,
        from: &Name,
        to_dir: Fid,
        to: &Name,
        fid: Fid,
    ) -> Result<Begun, AllocError>
        ensures { IfOk result (λ begun. begun ≡ Begun.Replacing over from_dir from.now to_dir to.now fid) }
    {
        let from = from.copy()?;
        let to = to.copy()?;
        Ok(Begun::Replacing {
            over,
            from_dir,
            from,
            to_dir,
            to,
            fid,
        })
    }

    // Begins a rename, by what it replaces.
    fn begin_rename(
        &mut self,
        client: u8,
        rec: &Record,
        from_dir: Fid,
        from: &Name,
        to_dir: Fid,
        to: &Name,
        fid: Fid,
        over: Option<Over>,
    ) -> Result<Begun, AllocError>
        requires op { rec.now.op ≡ Rename from_dir from.now to_dir to.now fid over }
        requires may { MayRename self.old.nodes from_dir to_dir to.now over }
        ensures begun { IfOk result (HasBegun self.old self.new client rec.now) }
        ensures err { OnErr result (self.new ≡ self.old) }
    {
        self.contents.agree();
        match over {
            None => self.begin_move(from_dir, from, to_dir, to, fid),
            Some(over) => Cache::begin_replacing(over.fid, from_dir, from, to_dir, to, fid),
        }
    }

    // Begins to store a content.
    fn begin_store(fid: Fid, content: &Bytes, mtime: u64, sid: Sid) -> Result<Begun, AllocError>
        ensures begun { IfOk result (λ begun. begun ≡ Begun.Content fid content.now mtime sid) }
        ensures small { OnOk result (blocks_of (File content.now) < 2 ^ 32) }
    {
        check_content(content)?;
        let content = content.copy()?;
        Ok(Begun::Content {
            fid,
            content,
            mtime,
            sid,
        })
    }

    /// Does what wants memory of a client's operation: `finish` then does the rest, and `undo` leaves the cache as it was.
    ///
    /// A node that is made is cached, held by its directory and bound there, and counts as used; a node that moves to a free
    /// name is bound there too; the content of a file and names are copied. Nothing is asked but that the operation may be
    /// applied.
    ///
    /// # Errors
    ///
    /// Fails for want of memory alone, which stands too for blocks of one node that don't fit in 32 bits, and then changes
    /// nothing.
    pub fn begin(&mut self, client: u8, rec: &Record) -> Result<Begun, AllocError>
        requires { MayApply self.old.nodes rec.now.op }
        ensures begun { IfOk result (HasBegun self.old self.new client rec.now) }
        ensures err { OnErr result (self.new ≡ self.old) }
    {
        self.contents.agree();
        let sid = sid_for(client, rec);
        match &rec.op {
            Op::Create {
                dir,
                name,
                fid,
                mode,
                owner,
            } => {
                let node = new_file(self.contents.alloc(), *mode, *owner, rec.time, sid)?;
                self.begin_creation(*dir, name, *fid, node)
            }
            Op::Mkdir {
                dir,
                name,
                fid,
                mode,
                owner,
            } => {
                let node = new_dir(self.contents.alloc(), *mode, *owner, rec.time, sid);
                self.begin_creation(*dir, name, *fid, node)
            }
            Op::Symlink {
                dir,
                name,
                fid,
                target,
                mode,
                owner,
            } => {
                let node = make_link(target, *mode, *owner, rec.time, sid)?;
                self.begin_creation(*dir, name, *fid, node)
            }
            Op::Store { fid, content, .. } => Cache::begin_store(*fid, content, rec.time, sid),
            Op::Setattr { fid, attrs, .. } => Ok(Begun::Attributes {
                fid: *fid,
                attrs: *attrs,
                sid,
            }),
            Op::Remove { dir, name, fid, .. } => Cache::begin_removal(*dir, name, *fid),
            Op::Rmdir { dir, name, fid, .. } => Cache::begin_removal(*dir, name, *fid),
            Op::Rename {
                from_dir,
                from,
                to_dir,
                to,
                fid,
                over,
            } => self.begin_rename(client, rec, *from_dir, from, *to_dir, to, *fid, *over),
        }
    }

    /// Does the rest of a client's operation that has begun. Takes no memory.
    pub fn finish(&mut self, begun: Begun)
        requires { MayEnd self.old begun }
        ensures { self.new ≡ finished self.old begun }
    {
        match begun {
            Begun::Made { dir, fid, .. } => self.make_dirty(&[dir, fid]),
            Begun::Content {
                fid,
                content,
                mtime,
                sid,
            } => {
                self.store(fid, content, mtime, sid);
                self.make_dirty(&[fid]);
            }
            Begun::Attributes { fid, attrs, sid } => {
                self.set_attributes(fid, &attrs, sid);
                self.make_dirty(&[fid]);
            }
            Begun::Leaving { dir, name, fid } => {
                self.unbind(dir, &name);
                self.remove(fid);
                self.make_dirty(&[dir, fid]);
            }
            Begun::Moving {
                from_dir,
                from,
                to_dir,
                to,
                fid,
            } => {
                self.leave_behind(from_dir, &from, to_dir, &to);
                self.move_under(fid, to_dir);
                self.make_dirty(&[from_dir, to_dir, fid]);
            }
            Begun::Replacing {
                over,
                from_dir,
                from,
                to_dir,
                to,
                fid,
            } => {
                self.replace(over, from_dir, &from, to_dir, &to, fid);
                self.move_under(fid, to_dir);
                self.make_dirty(&[from_dir, to_dir, fid, over]);
            }
        }
    }

    /// Undoes a client's operation that has begun, where it can't be logged. Takes no memory.
    pub fn undo(&mut self, begun: Begun)
        requires { MayEnd self.old begun }
        ensures { self.new ≡ undone self.old begun }
    {
        match begun {
            Begun::Made { dir, name, fid } => {
                self.unbind(dir, &name);
                self.take_out(fid);
            }
            Begun::Moving { to_dir, to, .. } => self.unbind(to_dir, &to),
            Begun::Content { .. } => {}
            Begun::Attributes { .. } => {}
            Begun::Leaving { .. } => {}
            Begun::Replacing { .. } => {}
        }
    }

    /// Does a client's operation: the nodes change as it says, what it takes out goes with all that is cached below it, a
    /// new node is held by its directory and used last, a moved one has its new parent, and what is mentioned is dirty.
    ///
    /// # Errors
    ///
    /// Fails for want of memory alone, which stands too for blocks of one node that don't fit in 32 bits, and then changes
    /// nothing.
    pub fn mutate(&mut self, client: u8, rec: &Record) -> Result<(), AllocError>
        requires { MayApply self.old.nodes rec.now.op }
        ensures ok { OnOk result (self.new ≡ mutated self.old client rec.now) }
        ensures err { OnErr result (self.new ≡ self.old) }
    {
        let begun = self.begin(client, rec)?;
        self.finish(begun);
        Ok(())
    }
}
