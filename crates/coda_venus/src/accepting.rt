// Acceptance: what a client is asked to do becomes an operation on what it may serve of its cache, or is refused.
ghost use Rattle.std.specs.Prelude.{◌≡◌};

use crate::ask::{Ask, ending};
use crate::client::Client;
use crate::refused::Refused;
use coda_fid::{Attrs, Bytes, Fid, Name, Op, Over, Path};
use coda_tree::NodeKind;

/// The most objects that a client creates in a volume.
const MOST_CREATIONS: u32 = 4_294_967_295;

/// The mode of a new link: anybody may follow it.
pub(crate) const LINK_MODE: u16 = 0o777;

impl Client {
    ghost use Rattle.std.specs.Prelude.{◌≡◌, Some, None, Ok};
    ghost use Rattle.std.specs.FinMap as map;
    ghost use Rattle.coda_fid.specs.Fid.{root_of};
    ghost use Rattle.coda_fid.specs.declared.op.Op.TheVariants as Op;
    ghost use Rattle.coda_venus.specs.Ask.{asked, ending};
    ghost use Rattle.coda_venus.specs.Looking.{then_find, resolve};
    ghost use Rattle.coda_venus.specs.Looking.{OrMemory};
    ghost use Rattle.coda_venus.specs.Accepting.{new_fid, new_under, new_place, at_root, accept_creation, store_at, setattr_at, remove_at, rmdir_at, spot, bound_at, place, is_dir_at, with_version, replaced_by, move_to, rename_to, rename_root, accept_rename, accept_remove, accept_rmdir, accept};
    ghost use Rattle.coda_venus.specs.Caching.{served_nodes, served_held, served_sight};

    // What is refused of the root, where that may be served.
    fn at_root(&self, emulating: bool, volume: u32, refusal: Refused) -> Result<Op, Refused>
        ensures { result ≡ at_root (served_sight emulating self.now volume) volume refusal }
    {
        match self.held(emulating, Fid::root(volume)) {
            Ok(_) => Err(refusal),
            Err(miss) => Err(miss),
        }
    }

    // The fid of a new object.
    fn new_fid(&self, emulating: bool, volume: u32) -> Result<Fid, Refused>
        ensures { result ≡ new_fid (served_sight emulating self.now volume) volume }
    {
        let creations = self.creations(volume);
        if creations >= MOST_CREATIONS {
            return Err(Refused::JournalFull);
        }
        let fid = Fid {
            volume,
            vnode: u32::from(self.number),
            uniq: creations + 1,
        };
        if self.serve(emulating, fid).is_some() {
            Err(Refused::Exists)
        } else {
            Ok(fid)
        }
    }

    // The fid of a new object under a name of a directory.
    pub(crate) fn new_under(
        &self,
        emulating: bool,
        volume: u32,
        dir: Fid,
        name: &Name,
    ) -> Result<Fid, Refused>
        ensures { result ≡ new_under (served_sight emulating self.now volume) volume (map.get (served_nodes emulating self.now) dir) dir name.now }
    {
        match self.serve(emulating, dir) {
            Some(node) => match &node.kind {
                NodeKind::Dir(entries) => match entries.find(name) {
                    Some(_) => Err(Refused::Exists),
                    None => self.new_fid(emulating, volume),
                },
                NodeKind::File(_) => Err(Refused::NotDir),
                NodeKind::Link(_) => Err(Refused::NotDir),
            },
            None => Err(Refused::Need(dir)),
        }
    }

    // The directory of a new object and its fid. Where the directory may not be served, it is what is needed for the fid.
    fn new_place(
        &self,
        emulating: bool,
        volume: u32,
        front: &[Name],
        name: &Name,
    ) -> Result<(Fid, Fid), Refused>
        ensures { result ≡ new_place (served_sight emulating self.now volume) volume (front.now, name.now) }
    {
        let dir = self.follow(emulating, Fid::root(volume), front)?;
        let fid = self.new_under(emulating, volume, dir, name)?;
        Ok((dir, fid))
    }

    fn accept_create(
        &self,
        emulating: bool,
        volume: u32,
        path: &Path,
        mode: u16,
        owner: u32,
    ) -> Result<Op, Refused>
        ensures { OrMemory result (accept_creation (served_sight emulating self.now volume) volume (ending path.now) (λ dir name fid. Op.Create dir name fid mode owner)) }
    {
        let Some((front, name)) = ending(path.names()) else {
            return self.at_root(emulating, volume, Refused::Exists);
        };
        let (dir, fid) = self.new_place(emulating, volume, front, name)?;
        let name = name.copy()?;
        Ok(Op::Create {
            dir,
            name,
            fid,
            mode,
            owner,
        })
    }

    fn accept_mkdir(
        &self,
        emulating: bool,
        volume: u32,
        path: &Path,
        mode: u16,
        owner: u32,
    ) -> Result<Op, Refused>
        ensures { OrMemory result (accept_creation (served_sight emulating self.now volume) volume (ending path.now) (λ dir name fid. Op.Mkdir dir name fid mode owner)) }
    {
        let Some((front, name)) = ending(path.names()) else {
            return self.at_root(emulating, volume, Refused::Exists);
        };
        let (dir, fid) = self.new_place(emulating, volume, front, name)?;
        let name = name.copy()?;
        Ok(Op::Mkdir {
            dir,
            name,
            fid,
            mode,
            owner,
        })
    }

    fn accept_symlink(
        &self,
        emulating: bool,
        volume: u32,
        path: &Path,
        target: &Bytes,
    ) -> Result<Op, Refused>
        ensures { OrMemory result (accept_creation (served_sight emulating self.now volume) volume (ending path.now) (λ dir name fid. Op.Symlink dir name fid target.now 511 0)) }
    {
        let Some((front, name)) = ending(path.names()) else {
            return self.at_root(emulating, volume, Refused::Exists);
        };
        let (dir, fid) = self.new_place(emulating, volume, front, name)?;
        let name = name.copy()?;
        let target = target.copy()?;
        Ok(Op::Symlink {
            dir,
            name,
            fid,
            target,
            mode: LINK_MODE,
            owner: 0,
        })
    }

    // A store at an object that was found.
    fn store_at(&self, emulating: bool, fid: Fid, content: &Bytes) -> Result<Op, Refused>
        ensures { OrMemory result (store_at (map.get (served_nodes emulating self.now) fid) fid content.now) }
    {
        match self.serve(emulating, fid) {
            Some(node) => match &node.kind {
                NodeKind::File(_) => Ok(Op::Store {
                    fid,
                    pre: node.sid,
                    content: content.copy()?,
                }),
                NodeKind::Link(_) => Err(Refused::NotFile),
                NodeKind::Dir(_) => Err(Refused::IsDir),
            },
            None => Err(Refused::Need(fid)),
        }
    }

    // A removal of an object that was found.
    fn remove_at(&self, emulating: bool, dir: Fid, name: &Name, fid: Fid) -> Result<Op, Refused>
        ensures { OrMemory result (remove_at (map.get (served_nodes emulating self.now) fid) dir name.now fid) }
    {
        let name = name.copy()?;
        match self.serve(emulating, fid) {
            Some(node) => match &node.kind {
                NodeKind::Dir(_) => Err(Refused::IsDir),
                NodeKind::File(_) => Ok(Op::Remove {
                    dir,
                    name,
                    fid,
                    pre: node.sid,
                }),
                NodeKind::Link(_) => Ok(Op::Remove {
                    dir,
                    name,
                    fid,
                    pre: node.sid,
                }),
            },
            None => Err(Refused::Need(fid)),
        }
    }

    // A removal of a directory that was found. Though it binds nothing, objects may be held below it: it may have been fetched again
    // since they were.
    fn rmdir_at(
        &self,
        emulating: bool,
        volume: u32,
        dir: Fid,
        name: &Name,
        fid: Fid,
    ) -> Result<Op, Refused>
        ensures { OrMemory result (rmdir_at (served_sight emulating self.now volume) (map.get (served_nodes emulating self.now) fid) dir name.now fid) }
    {
        let name = name.copy()?;
        match self.serve(emulating, fid) {
            Some(node) => match &node.kind {
                NodeKind::Dir(entries) => {
                    if entries.is_empty() && !self.is_dirty_below(emulating, volume, fid) {
                        Ok(Op::Rmdir {
                            dir,
                            name,
                            fid,
                            pre: node.sid,
                        })
                    } else {
                        Err(Refused::NotEmpty)
                    }
                }
                NodeKind::File(_) => Err(Refused::NotDir),
                NodeKind::Link(_) => Err(Refused::NotDir),
            },
            None => Err(Refused::Need(fid)),
        }
    }

    // The directory in which a path ends, and the object under its last name.
    fn spot(
        &self,
        emulating: bool,
        volume: u32,
        front: &[Name],
        name: &Name,
    ) -> Result<(Fid, Fid), Refused>
        ensures { result ≡ spot (served_nodes emulating self.now) volume (front.now, name.now) }
    {
        let dir = self.follow(emulating, Fid::root(volume), front)?;
        let fid = self.step(emulating, dir, name)?;
        let there = self.held(emulating, fid)?;
        Ok((dir, there))
    }

    fn accept_remove(&self, emulating: bool, volume: u32, path: &Path) -> Result<Op, Refused>
        ensures { OrMemory result (accept_remove (served_sight emulating self.now volume) volume (ending path.now)) }
    {
        let Some((front, name)) = ending(path.names()) else {
            return self.at_root(emulating, volume, Refused::IsDir);
        };
        match self.spot(emulating, volume, front, name) {
            Ok((dir, fid)) => self.remove_at(emulating, dir, name, fid),
            Err(refusal) => Err(refusal),
        }
    }

    fn accept_rmdir(&self, emulating: bool, volume: u32, path: &Path) -> Result<Op, Refused>
        ensures { OrMemory result (accept_rmdir (served_sight emulating self.now volume) volume (ending path.now)) }
    {
        let Some((front, name)) = ending(path.names()) else {
            return self.at_root(emulating, volume, Refused::Loop);
        };
        match self.spot(emulating, volume, front, name) {
            Ok((dir, fid)) => self.rmdir_at(emulating, volume, dir, name, fid),
            Err(refusal) => Err(refusal),
        }
    }

    // What a directory may bind at a name, where that may be served.
    pub(crate) fn bound_at(
        &self,
        emulating: bool,
        dir: Fid,
        name: &Name,
    ) -> Result<Option<Fid>, Refused>
        ensures { result ≡ bound_at (served_nodes emulating self.now) (map.get (served_nodes emulating self.now) dir) dir name.now }
    {
        match self.serve(emulating, dir) {
            Some(node) => match &node.kind {
                NodeKind::Dir(entries) => match entries.find(name) {
                    Some(fid) => match self.held(emulating, fid) {
                        Ok(there) => Ok(Some(there)),
                        Err(miss) => Err(miss),
                    },
                    None => Ok(None),
                },
                NodeKind::File(_) => Err(Refused::NotDir),
                NodeKind::Link(_) => Err(Refused::NotDir),
            },
            None => Err(Refused::Need(dir)),
        }
    }

    // The place of a new name: its directory and what stands there.
    fn place(
        &self,
        emulating: bool,
        volume: u32,
        front: &[Name],
        name: &Name,
    ) -> Result<(Fid, Option<Fid>), Refused>
        ensures { result ≡ place (served_nodes emulating self.now) volume (front.now, name.now) }
    {
        let dir = self.resolve(emulating, Fid::root(volume), front)?;
        let bound = self.bound_at(emulating, dir, name)?;
        Ok((dir, bound))
    }

    // Whether a directory stands there that may be served.
    fn is_dir(&self, emulating: bool, fid: Fid) -> bool
        ensures { result ≡ is_dir_at (map.get (served_nodes emulating self.now) fid) }
    {
        match self.serve(emulating, fid) {
            Some(node) => match &node.kind {
                NodeKind::Dir(_) => true,
                NodeKind::File(_) => false,
                NodeKind::Link(_) => false,
            },
            None => false,
        }
    }

    // An object that is to be replaced, with its version.
    fn with_version(&self, emulating: bool, old: Fid) -> Result<Option<Over>, Refused>
        ensures { result ≡ with_version (map.get (served_nodes emulating self.now) old) old }
    {
        match self.serve(emulating, old) {
            Some(node) => Ok(Some(Over {
                fid: old,
                pre: node.sid,
            })),
            None => Err(Refused::Need(old)),
        }
    }

    // What a rename of an object replaces.
    pub(crate) fn replaced_by(
        &self,
        emulating: bool,
        fid: Fid,
        bound: Option<Fid>,
    ) -> Result<Option<Over>, Refused>
        ensures { result ≡ replaced_by (served_nodes emulating self.now) fid bound }
    {
        match bound {
            None => Ok(None),
            Some(old) => {
                if old == fid || (self.is_dir(emulating, fid) || self.is_dir(emulating, old)) {
                    Err(Refused::Exists)
                } else {
                    self.with_version(emulating, old)
                }
            }
        }
    }

    // A rename of an object to a place that was found.
    fn move_to(
        &self,
        emulating: bool,
        from_dir: Fid,
        from: &Name,
        fid: Fid,
        to: &Name,
        to_dir: Fid,
        bound: Option<Fid>,
    ) -> Result<Op, Refused>
        ensures { OrMemory result (move_to (served_held emulating self.now) from_dir from.now fid to.now (to_dir, bound)) }
    {
        if self.is_below(to_dir, fid) {
            return Err(Refused::Loop);
        }
        let over = self.replaced_by(emulating, fid, bound)?;
        let from = from.copy()?;
        let to = to.copy()?;
        Ok(Op::Rename {
            from_dir,
            from,
            to_dir,
            to,
            fid,
            over,
        })
    }

    // A rename of an object to a new path.
    fn rename_to(
        &self,
        emulating: bool,
        volume: u32,
        from_dir: Fid,
        from: &Name,
        fid: Fid,
        to: &Path,
    ) -> Result<Op, Refused>
        ensures { OrMemory result (rename_to (served_sight emulating self.now volume) volume from_dir from.now fid (ending to.now)) }
    {
        let Some((front, name)) = ending(to.names()) else {
            return self.at_root(emulating, volume, Refused::Exists);
        };
        match self.place(emulating, volume, front, name) {
            Ok((dir, bound)) => self.move_to(emulating, from_dir, from, fid, name, dir, bound),
            Err(refusal) => Err(refusal),
        }
    }

    // The root is not renamed.
    fn rename_root(&self, emulating: bool, volume: u32, to: &Path) -> Result<Op, Refused>
        ensures { result ≡ rename_root (served_sight emulating self.now volume) volume (ending to.now) }
    {
        match ending(to.names()) {
            Some((front, name)) => match self.place(emulating, volume, front, name) {
                Ok(_) => Err(Refused::Loop),
                Err(refusal) => Err(refusal),
            },
            None => self.at_root(emulating, volume, Refused::Loop),
        }
    }

    fn accept_rename(
        &self,
        emulating: bool,
        volume: u32,
        from: &Path,
        to: &Path,
    ) -> Result<Op, Refused>
        ensures { OrMemory result (accept_rename (served_sight emulating self.now volume) volume (ending from.now) (ending to.now)) }
    {
        match ending(from.names()) {
            Some((front, name)) => match self.spot(emulating, volume, front, name) {
                Ok((dir, fid)) => self.rename_to(emulating, volume, dir, name, fid, to),
                Err(refusal) => Err(refusal),
            },
            None => match self.held(emulating, Fid::root(volume)) {
                Ok(_) => self.rename_root(emulating, volume, to),
                Err(miss) => Err(miss),
            },
        }
    }

    fn accept_store(
        &self,
        emulating: bool,
        volume: u32,
        path: &Path,
        content: &Bytes,
    ) -> Result<Op, Refused>
        ensures { OrMemory result (then_find (resolve (served_nodes emulating self.now) (root_of volume) path.now) (λ fid. store_at (map.get (served_nodes emulating self.now) fid) fid content.now)) }
    {
        let fid = self.resolve(emulating, Fid::root(volume), path.names())?;
        self.store_at(emulating, fid, content)
    }

    fn accept_setattr(
        &self,
        emulating: bool,
        volume: u32,
        path: &Path,
        attrs: Attrs,
    ) -> Result<Op, Refused>
        ensures { result ≡ then_find (resolve (served_nodes emulating self.now) (root_of volume) path.now) (λ fid. setattr_at (map.get (served_nodes emulating self.now) fid) fid attrs) }
    {
        let fid = self.resolve(emulating, Fid::root(volume), path.names())?;
        match self.serve(emulating, fid) {
            Some(node) => Ok(Op::Setattr {
                fid,
                pre: node.sid,
                attrs,
            }),
            None => Err(Refused::Need(fid)),
        }
    }

    /// What the client accepts an ask as, over what it may serve.
    #[tactic(auto, unfolding(crate::specs::Accepting::accept))]
    pub fn accept(&self, emulating: bool, volume: u32, ask: &Ask) -> Result<Op, Refused>
        ensures { OrMemory result (accept (served_sight emulating self.now volume) volume (asked ask.now)) }
    {
        match ask {
            Ask::Create { path, mode, owner } => self.accept_create(
                emulating, volume, path, *mode, *owner,
            ),
            Ask::Mkdir { path, mode, owner } => self.accept_mkdir(
                emulating, volume, path, *mode, *owner,
            ),
            Ask::Symlink { path, target } => self.accept_symlink(emulating, volume, path, target),
            Ask::Store { path, content } => self.accept_store(emulating, volume, path, content),
            Ask::Setattr { path, attrs } => self.accept_setattr(emulating, volume, path, *attrs),
            Ask::Remove { path } => self.accept_remove(emulating, volume, path),
            Ask::Rmdir { path } => self.accept_rmdir(emulating, volume, path),
            Ask::Rename { from, to } => self.accept_rename(emulating, volume, from, to),
        }
    }
}
