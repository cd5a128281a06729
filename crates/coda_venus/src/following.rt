// Whether an operation that the journal has may follow: acceptance makes it of some ask.
ghost use Rattle.std.specs.Prelude.{◌≡◌, true, IfOk};
ghost use Rattle.std.specs.FinMap as map;
ghost use Rattle.coda_fid.specs.declared.op.Op.TheVariants as Op;
ghost use Rattle.coda_fid.specs.declared.op.Attrs.{Attrs as Attributes};
ghost use Rattle.coda_venus.specs.Accepting.{new_under, store_at, setattr_at, remove_at, rmdir_at};
ghost use Rattle.coda_venus.specs.Reaching.{IsAccepted, MovesThere, IsMadeThere, ArePlaced};

use crate::accepting::LINK_MODE;
use crate::ask::too_long;
use crate::client::Client;
use coda_fid::{Attrs, Bytes, Fid, Name, Op, Over, Sid};
use coda_tree::NodeKind;
use std::alloc::AllocError;

impl Client {
    ghost use Rattle.std.specs.Prelude.{None, Ok};
    ghost use Rattle.coda_tree.specs.Volume.{has};
    ghost use Rattle.coda_venus.specs.Ask.{too_long};
    ghost use Rattle.coda_venus.specs.Looking.{step_from};
    ghost use Rattle.coda_venus.specs.Code.{held_of, sight};

    // Whether an object is the next one that the client creates, at a free name.
    fn is_new(&self, volume: u32, dir: Fid, name: &Name, fid: Fid) -> bool
        ensures yes { result ≡ true → new_under (sight self.now volume) volume (map.get self.now.cache.nodes dir) dir name.now ≡ Ok fid }
        ensures no { new_under (sight self.now volume) volume (map.get self.now.cache.nodes dir) dir name.now ≡ Ok fid → result ≡ true }
    {
        self.new_under(true, volume, dir, name) == Ok(fid)
    }

    // Whether a file that is held may get a content, and had this version.
    fn may_store(&self, fid: Fid, pre: Sid, content: &Bytes) -> bool
        ensures yes { result ≡ true → (too_long content.now ≡ None) × (store_at (map.get self.now.cache.nodes fid) fid content.now ≡ Ok (Op.Store fid pre content.now)) }
        ensures no { too_long content.now ≡ None → store_at (map.get self.now.cache.nodes fid) fid content.now ≡ Ok (Op.Store fid pre content.now) → result ≡ true }
    {
        if too_long(content).is_some() {
            return false;
        }
        match self.cache.peek(fid) {
            Some(node) => match &node.kind {
                NodeKind::File(_) => node.sid == pre,
                NodeKind::Link(_) => false,
                NodeKind::Dir(_) => false,
            },
            None => false,
        }
    }

    // Whether an object that is held has this version.
    fn is_version(&self, fid: Fid, pre: Sid) -> bool
        ensures yes { result ≡ true → (attrs : Attributes) → setattr_at (map.get self.now.cache.nodes fid) fid attrs ≡ Ok (Op.Setattr fid pre attrs) }
        ensures no { (attrs : Attributes) → setattr_at (map.get self.now.cache.nodes fid) fid attrs ≡ Ok (Op.Setattr fid pre attrs) → result ≡ true }
    {
        match self.cache.peek(fid) {
            Some(node) => node.sid == pre,
            None => false,
        }
    }

    // Whether a directory binds a file or a link, which had this version.
    fn may_remove(&self, dir: Fid, name: &Name, fid: Fid, pre: Sid) -> bool
        ensures yes { result ≡ true → (step_from (map.get self.now.cache.nodes dir) dir name.now ≡ Ok fid) × (remove_at (map.get self.now.cache.nodes fid) dir name.now fid ≡ Ok (Op.Remove dir name.now fid pre)) }
        ensures no { step_from (map.get self.now.cache.nodes dir) dir name.now ≡ Ok fid → remove_at (map.get self.now.cache.nodes fid) dir name.now fid ≡ Ok (Op.Remove dir name.now fid pre) → result ≡ true }
    {
        if self.step(true, dir, name) != Ok(fid) {
            return false;
        }
        match self.cache.peek(fid) {
            Some(node) => match &node.kind {
                NodeKind::File(_) => node.sid == pre,
                NodeKind::Link(_) => node.sid == pre,
                NodeKind::Dir(_) => false,
            },
            None => false,
        }
    }

    // Whether a directory binds one that may go, which had this version.
    fn may_rmdir(&self, volume: u32, dir: Fid, name: &Name, fid: Fid, pre: Sid) -> bool
        ensures yes { result ≡ true → (step_from (map.get self.now.cache.nodes dir) dir name.now ≡ Ok fid) × (rmdir_at (sight self.now volume) (map.get self.now.cache.nodes fid) dir name.now fid ≡ Ok (Op.Rmdir dir name.now fid pre)) }
        ensures no { step_from (map.get self.now.cache.nodes dir) dir name.now ≡ Ok fid → rmdir_at (sight self.now volume) (map.get self.now.cache.nodes fid) dir name.now fid ≡ Ok (Op.Rmdir dir name.now fid pre) → result ≡ true }
    {
        if self.step(true, dir, name) != Ok(fid) {
            return false;
        }
        match self.cache.peek(fid) {
            Some(node) => match &node.kind {
                NodeKind::Dir(entries) => {
                    if entries.is_empty() && !self.is_dirty_below(true, volume, fid) {
                        node.sid == pre
                    } else {
                        false
                    }
                }
                NodeKind::File(_) => false,
                NodeKind::Link(_) => false,
            },
            None => false,
        }
    }

    // Whether a rename of what is held is accepted so.
    fn may_rename(
        &self,
        from_dir: Fid,
        from: &Name,
        to_dir: Fid,
        to: &Name,
        fid: Fid,
        over: Option<Over>,
    ) -> bool
        ensures yes { result ≡ true → MovesThere (held_of self.now) from_dir from.now to_dir to.now fid over }
        ensures no { MovesThere (held_of self.now) from_dir from.now to_dir to.now fid over → result ≡ true }
    {
        if self.step(true, from_dir, from) != Ok(fid) || self.cache.peek(fid).is_none() {
            return false;
        }
        match self.bound_at(true, to_dir, to) {
            Ok(bound) => {
                !self.is_below(to_dir, fid) && self.replaced_by(true, fid, bound) == Ok(over)
            }
            Err(_) => false,
        }
    }

    // Whether acceptance makes an operation where the paths lead that it names.
    fn is_made_there(&self, volume: u32, op: &Op) -> bool
        ensures yes { result ≡ true → IsMadeThere (sight self.now volume) volume op.now }
        ensures no { IsMadeThere (sight self.now volume) volume op.now → result ≡ true }
    {
        match op {
            Op::Create { dir, name, fid, .. } => self.is_new(volume, *dir, name, *fid),
            Op::Mkdir { dir, name, fid, .. } => self.is_new(volume, *dir, name, *fid),
            Op::Symlink {
                dir,
                name,
                fid,
                mode,
                owner,
                ..
            } => *mode == LINK_MODE && *owner == 0 && self.is_new(volume, *dir, name, *fid),
            Op::Store { fid, pre, content } => self.may_store(*fid, *pre, content),
            Op::Setattr { fid, pre, .. } => self.is_version(*fid, *pre),
            Op::Remove {
                dir,
                name,
                fid,
                pre,
            } => self.may_remove(*dir, name, *fid, *pre),
            Op::Rmdir {
                dir,
                name,
                fid,
                pre,
            } => self.may_rmdir(volume, *dir, name, *fid, *pre),
            Op::Rename {
                from_dir,
                from,
                to_dir,
                to,
                fid,
                over,
            } => self.may_rename(*from_dir, from, *to_dir, to, *fid, *over),
        }
    }

    // Whether paths lead to the objects that the ask of an operation names.
    fn is_placed(&self, volume: u32, op: &Op) -> Result<bool, AllocError>
        ensures yes { IfOk result (λ b. b ≡ true → ArePlaced self.now.cache.nodes volume op.now) }
        ensures no { IfOk result (λ b. ArePlaced self.now.cache.nodes volume op.now → b ≡ true) }
    {
        match op {
            Op::Create { dir, .. } => self.reaches(volume, *dir),
            Op::Mkdir { dir, .. } => self.reaches(volume, *dir),
            Op::Symlink { dir, .. } => self.reaches(volume, *dir),
            Op::Store { fid, .. } => self.reaches(volume, *fid),
            Op::Setattr { fid, .. } => self.reaches(volume, *fid),
            Op::Remove { dir, .. } => self.reaches(volume, *dir),
            Op::Rmdir { dir, .. } => self.reaches(volume, *dir),
            Op::Rename {
                from_dir,
                to_dir,
                ..
            } => {
                if self.reaches(volume, *from_dir)? {
                    self.reaches(volume, *to_dir)
                } else {
                    Ok(false)
                }
            }
        }
    }

    /// Whether acceptance makes an operation of some ask.
    pub fn accepts(&self, volume: u32, op: &Op) -> Result<bool, AllocError>
        ensures yes { IfOk result (λ b. b ≡ true → IsAccepted (sight self.now volume) volume op.now) }
        ensures no { IfOk result (λ b. IsAccepted (sight self.now volume) volume op.now → b ≡ true) }
    {
        if self.is_made_there(volume, op) {
            self.is_placed(volume, op)
        } else {
            Ok(false)
        }
    }
}
