ghost use Rattle.std.specs.Prelude.{◌≡◌, ℕ, List, Some, None, OnOk, OnErr};
ghost use Rattle.std.specs.FinMap as map;
ghost use Rattle.coda_tree.specs.Volume.{child, added, detached, moved, replaced, changed, written, content_patch, attrs_patch, IsDirAt, IsLeaf, MayMove, MayReplace};
ghost use Rattle.coda_tree.specs.Slots.{nodes_in};
ghost use Rattle.coda_tree.specs.Drafted.{fresh_draft, committed, rolled_back};

use crate::undo::Undo;
use crate::{Body, Node, Volume};
use coda_fid::{Attrs, Bytes, Fid, Name, Sid};
use std::alloc::{AllocError, Global};
use std::marker::Model;

/// A draft of a volume: edits that are made in place, and can all be undone until they are committed.
///
/// Each edit takes, before it changes anything, all the memory that undoing it will want; so to roll a draft back takes
/// none and always succeeds. A node that is taken out leaves its slot empty until then. Only what is edited is touched:
/// nothing of the volume is copied. Contracts see the volume's number, its nodes at the start, and its nodes now.
#[derive(Drop)]
pub struct Draft {
    body: Body,
    undos: Vec<Undo>,
}

impl Model for Draft {
    ghost use Rattle.coda_tree.specs.Drafted.{Drafted, coded_drafted};
    ghost use Rattle.coda_tree.specs.contracts.node.Node as node_row;

    ghost Value = { Drafted };

    ghost coded = { coded_drafted node_row.the_row.coded };

    ghost use Rattle.coda_tree.specs.Drafts.{drafted_of, IsDraft};

    ghost view = { drafted_of };

    ghost invariant = { IsDraft };
}

impl Draft {
    /// A draft of a volume, without edits. Takes no memory.
    pub fn of(alloc: Global, volume: Volume) -> Draft
        ensures { result ≡ fresh_draft volume }
    {
        Draft {
            body: volume.into_body(),
            undos: Vec::new(alloc),
        }
    }

    /// The objects as the edits left them.
    pub fn body(&self) -> &Body
        ensures number { result.now.number ≡ self.now.number }
        ensures nodes { nodes_in result.now.slots ≡ self.now.nodes }
    {
        &self.body
    }

    /// Puts a node that binds nothing at a free fid and binds it in a directory at a free name. Fails for want of
    /// memory alone, and then changes nothing.
    pub fn add(&mut self, dir: Fid, name: &Name, fid: Fid, node: Node) -> Result<(), AllocError>
        requires dir_there { IsDirAt self.old.nodes dir }
        requires name_free { child self.old.nodes dir name.now ≡ None }
        requires fid_free { map.get self.old.nodes fid ≡ None }
        requires leaf { IsLeaf node }
        ensures ok { OnOk result (self.new ≡ record self.old { nodes = added self.old.nodes dir name.now fid node }) }
        ensures err { OnErr result (self.new ≡ self.old) }
    {
        self.undos.reserve(1)?;
        let kept = name.copy()?;
        let bound = name.copy()?;
        let fresh = self.body.add(dir, bound, fid, node)?;
        self.undos.push_reserved(Undo::Added {
            dir,
            name: kept,
            fid,
            fresh,
        });
        Ok(())
    }

    /// Takes a node that binds nothing out of the directory that binds it, and out of the volume. Fails for want of
    /// memory alone, and then changes nothing.
    pub fn detach(&mut self, dir: Fid, name: &Name, fid: Fid) -> Result<(), AllocError>
        requires bound { child self.old.nodes dir name.now ≡ Some fid }
        requires leaf { (n : List ℕ) → child self.old.nodes fid n ≡ None }
        ensures ok { OnOk result (self.new ≡ record self.old { nodes = detached self.old.nodes dir name.now fid }) }
        ensures err { OnErr result (self.new ≡ self.old) }
    {
        self.undos.reserve(1)?;
        let kept = name.copy()?;
        let room = self.body.room(dir)?;
        let held = self.body.detach(dir, name, fid);
        self.undos.push_reserved(Undo::Detached {
            dir,
            name: kept,
            fid,
            held,
            room,
        });
        Ok(())
    }

    /// Moves a node to a free name of a directory that does not stand at or below it. Fails for want of memory alone,
    /// and then changes nothing.
    pub fn move_to(
        &mut self,
        from: Fid,
        name: &Name,
        to: Fid,
        new: &Name,
        fid: Fid,
    ) -> Result<(), AllocError>
        requires may { MayMove self.old.nodes from name.now to new.now }
        requires bound { child self.old.nodes from name.now ≡ Some fid }
        ensures ok { OnOk result (self.new ≡ record self.old { nodes = moved self.old.nodes from name.now to new.now fid }) }
        ensures err { OnErr result (self.new ≡ self.old) }
    {
        self.undos.reserve(1)?;
        let kept = name.copy()?;
        let kept_new = new.copy()?;
        let bound = new.copy()?;
        let room = self.body.room(from)?;
        self.body.move_to(from, name, to, bound, fid)?;
        self.undos.push_reserved(Undo::Moved {
            from,
            name: kept,
            to,
            new: kept_new,
            fid,
            room,
        });
        Ok(())
    }

    /// Moves a node that binds nothing to the name of another that binds nothing, which is taken out of the volume. Fails
    /// for want of memory alone, and then changes nothing.
    pub fn replace(
        &mut self,
        old: Fid,
        from: Fid,
        name: &Name,
        to: Fid,
        new: &Name,
        fid: Fid,
    ) -> Result<(), AllocError>
        requires may { MayReplace self.old.nodes old from name.now to new.now }
        requires bound { child self.old.nodes from name.now ≡ Some fid }
        ensures ok { OnOk result (self.new ≡ record self.old { nodes = replaced self.old.nodes old from name.now to new.now fid }) }
        ensures err { OnErr result (self.new ≡ self.old) }
    {
        self.undos.reserve(1)?;
        let kept = name.copy()?;
        let kept_new = new.copy()?;
        let room = self.body.room(from)?;
        let held = self.body.replace(old, from, name, to, new, fid);
        self.undos.push_reserved(Undo::Replaced {
            old,
            held,
            from,
            name: kept,
            to,
            new: kept_new,
            fid,
            room,
        });
        Ok(())
    }

    /// Sets the content of the file at a fid, the time, and the version that this leaves. A link or a directory keeps
    /// what it holds, and nothing happens where there is no node. Fails for want of memory alone, and then changes
    /// nothing.
    pub fn store(
        &mut self,
        fid: Fid,
        content: Bytes,
        mtime: u64,
        sid: Sid,
    ) -> Result<(), AllocError>
        ensures ok { OnOk result (self.new ≡ record self.old { nodes = changed self.old.nodes fid (written (content_patch content mtime) sid) }) }
        ensures err { OnErr result (self.new ≡ self.old) }
    {
        self.undos.reserve(1)?;
        match self.body.exchange(fid, content, mtime, sid) {
            Some(parts) => self.undos.push_reserved(Undo::Written { fid, parts }),
            None => {}
        }
        Ok(())
    }

    /// Sets attributes of the node at a fid, and the version that this leaves; nothing happens where there is none. Fails
    /// for want of memory alone, and then changes nothing.
    pub fn set_attributes(&mut self, fid: Fid, attrs: &Attrs, sid: Sid) -> Result<(), AllocError>
        ensures ok { OnOk result (self.new ≡ record self.old { nodes = changed self.old.nodes fid (written (attrs_patch attrs.now) sid) }) }
        ensures err { OnErr result (self.new ≡ self.old) }
    {
        self.undos.reserve(1)?;
        if let Some(parts) = self.body.parts(fid) {
            self.body.set_attributes(fid, attrs, sid);
            self.undos.push_reserved(Undo::Written { fid, parts });
        }
        Ok(())
    }

    /// The volume that the edits made. Takes no memory.
    pub fn commit(self) -> Volume
        ensures { result ≡ committed self }
    {
        let Draft { body, undos } = self;
        let mut body = body;
        body.purge_all(undos);
        Volume::from_body(body)
    }

    /// The volume before the edits. Takes no memory.
    pub fn roll_back(self) -> Volume
        ensures { result ≡ rolled_back self }
    {
        let Draft { body, undos } = self;
        let mut body = body;
        body.undo_all(undos);
        Volume::from_body(body)
    }
}
