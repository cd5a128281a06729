ghost use Rattle.std.specs.Prelude.{◌≡◌, ◌↔◌, ◌<◌, ◌+◌, ◌^◌, IfOk, IsTrue, ◌||◌};
ghost use Rattle.std.specs.List.{Contains, list_any};
ghost use Rattle.coda_fid.specs.Fid.{same_fid};
ghost use Rattle.coda_fid.specs.Op.{over_fids, fids_of, mentions, seen_at, carried, kept_for, pre_of, bytes_of, weight_of};

use crate::{Bytes, Fid, Name, Sid};
use std::alloc::AllocError;

/// Attributes of an object, each where it is to be set.
#[derive(Clone, Copy, Debug, PartialEq, Eq)]
pub struct Attrs {
    /// The permission bits.
    pub mode: Option<u16>,
    /// The user who owns the object.
    pub owner: Option<u32>,
    /// When the content was last changed.
    pub mtime: Option<u64>,
}

/// An object with the version of it that a client had when it performed an operation.
#[derive(Clone, Copy, Debug, PartialEq, Eq)]
pub struct Over {
    /// The object.
    pub fid: Fid,
    /// The operation that had left this version.
    pub pre: Sid,
}

/// An operation on a volume.
///
/// It carries what is needed to perform it again at a server, and to see there whether that may
/// be done (Kistler and Satyanarayanan 1992).
#[derive(Debug, Drop)]
pub enum Op {
    /// An empty file comes to be, bound in a directory.
    Create {
        /// The directory.
        dir: Fid,
        /// The name that the file gets there.
        name: Name,
        /// The identifier that the client gave to the file.
        fid: Fid,
        /// The file's permission bits.
        mode: u16,
        /// The file's owner.
        owner: u32,
    },
    /// An empty directory comes to be, bound in another.
    Mkdir {
        /// The directory in which the new one is bound.
        dir: Fid,
        /// The name that the new one gets there.
        name: Name,
        /// The identifier that the client gave to the new one.
        fid: Fid,
        /// The new one's permission bits.
        mode: u16,
        /// The new one's owner.
        owner: u32,
    },
    /// A symbolic link comes to be, bound in a directory.
    Symlink {
        /// The directory.
        dir: Fid,
        /// The name that the link gets there.
        name: Name,
        /// The identifier that the client gave to the link.
        fid: Fid,
        /// What the link leads to.
        target: Bytes,
        /// The link's permission bits.
        mode: u16,
        /// The link's owner.
        owner: u32,
    },
    /// A file's content is replaced as a whole.
    Store {
        /// The file.
        fid: Fid,
        /// The version of it that the client had.
        pre: Sid,
        /// The new content.
        content: Bytes,
    },
    /// Attributes of an object are set.
    Setattr {
        /// The object.
        fid: Fid,
        /// The version of it that the client had.
        pre: Sid,
        /// What is set.
        attrs: Attrs,
    },
    /// A file or a link is unbound, and is no more.
    Remove {
        /// The directory that binds it.
        dir: Fid,
        /// The name that it has there.
        name: Name,
        /// The file or the link.
        fid: Fid,
        /// The version of it that the client had.
        pre: Sid,
    },
    /// An empty directory is unbound, and is no more.
    Rmdir {
        /// The directory that binds it.
        dir: Fid,
        /// The name that it has there.
        name: Name,
        /// The directory that goes.
        fid: Fid,
        /// The version of it that the client had.
        pre: Sid,
    },
    /// An object gets another name, in the same directory or in another.
    Rename {
        /// The directory that bound it.
        from_dir: Fid,
        /// The name that it had there.
        from: Name,
        /// The directory that binds it from then on.
        to_dir: Fid,
        /// The name that it gets there.
        to: Name,
        /// The object.
        fid: Fid,
        /// The object that had the new name, which is no more; none where the name was free.
        over: Option<Over>,
    },
}

/// One record of a client's log: an operation with its number and its time.
#[derive(Debug, Drop)]
pub struct Record {
    /// The number that the client gave to the operation.
    pub number: u64,
    /// When the client performed it.
    pub time: u64,
    /// The operation.
    pub op: Op,
}

// Whether one of two is the object.
fn is_either(a: Fid, b: Fid, fid: Fid) -> bool
    ensures { result ≡ (same_fid a fid || same_fid b fid) }
{
    a == fid || b == fid
}

// Whether the object is the replaced one.
fn is_replaced(over: &Option<Over>, fid: Fid) -> bool
    ensures { result ≡ list_any (λ f. same_fid f fid) (over_fids over.now) }
{
    match over {
        Some(over) => over.fid == fid,
        None => false,
    }
}

// An object with its version.
fn seen(fid: Fid, pre: Sid) -> Option<Over>
    ensures { result ≡ seen_at fid pre }
{
    Some(Over { fid, pre })
}

impl Op {
    /// Whether the object is among those that the operation names.
    pub fn mentions(&self, fid: Fid) -> bool
        ensures test { result ≡ mentions self.now fid }
        ensures among { IsTrue result ↔ Contains (fids_of self.now) fid }
    {
        self.names(fid)
    }

    // Whether the object is among the fields.
    fn names(&self, fid: Fid) -> bool
        ensures { result ≡ mentions self.now fid }
    {
        match self {
            Op::Create { dir, fid: it, .. } => is_either(*dir, *it, fid),
            Op::Mkdir { dir, fid: it, .. } => is_either(*dir, *it, fid),
            Op::Symlink { dir, fid: it, .. } => is_either(*dir, *it, fid),
            Op::Store { fid: it, .. } => *it == fid,
            Op::Setattr { fid: it, .. } => *it == fid,
            Op::Remove { dir, fid: it, .. } => is_either(*dir, *it, fid),
            Op::Rmdir { dir, fid: it, .. } => is_either(*dir, *it, fid),
            Op::Rename {
                from_dir,
                to_dir,
                fid: it,
                over,
                ..
            } => is_either(*from_dir, *to_dir, fid) || *it == fid || is_replaced(over, fid),
        }
    }

    /// The object that the operation has kept a version of, and that version: an operation that
    /// needs an object to be as the client saw it carries this (Kistler and Satyanarayanan 1992).
    ///
    /// It is the stored, the changed or the removed object, or the one that a rename replaces. A creation
    /// has none, and neither has a rename to a free name.
    pub fn carried(&self) -> Option<Over>
        ensures { result ≡ carried self.now }
    {
        match self {
            Op::Create { .. } => None,
            Op::Mkdir { .. } => None,
            Op::Symlink { .. } => None,
            Op::Store { fid, pre, .. } => seen(*fid, *pre),
            Op::Setattr { fid, pre, .. } => seen(*fid, *pre),
            Op::Remove { fid, pre, .. } => seen(*fid, *pre),
            Op::Rmdir { fid, pre, .. } => seen(*fid, *pre),
            Op::Rename { over, .. } => *over,
        }
    }

    /// The version that the operation has kept for the object.
    pub fn pre_of(&self, fid: Fid) -> Option<Sid>
        ensures { result ≡ pre_of self.now fid }
    {
        match self.carried() {
            Some(over) if over.fid == fid => Some(over.pre),
            _ => None,
        }
    }

    // The bytes of the names, the target and the content in it.
    fn byte_count(&self) -> u64
        ensures count { result ≡ bytes_of self.now }
        ensures small { result < 2 ^ 63 + 512 }
    {
        match self {
            Op::Create { name, .. } => name.bytes().len() as u64,
            Op::Mkdir { name, .. } => name.bytes().len() as u64,
            Op::Symlink { name, target, .. } => name.bytes().len() as u64 + target.len() as u64,
            Op::Store { content, .. } => content.len() as u64,
            Op::Setattr { .. } => 0,
            Op::Remove { name, .. } => name.bytes().len() as u64,
            Op::Rmdir { name, .. } => name.bytes().len() as u64,
            Op::Rename { from, to, .. } => from.bytes().len() as u64 + to.bytes().len() as u64,
        }
    }

    /// The same operation, in memory of its own.
    pub fn copy(&self) -> Result<Op, AllocError>
        ensures { IfOk result (λ o. o ≡ self.now) }
    {
        match self {
            Op::Create {
                dir,
                name,
                fid,
                mode,
                owner,
            } => {
                let name = name.copy()?;
                Ok(Op::Create {
                    dir: *dir,
                    name,
                    fid: *fid,
                    mode: *mode,
                    owner: *owner,
                })
            }
            Op::Mkdir {
                dir,
                name,
                fid,
                mode,
                owner,
            } => {
                let name = name.copy()?;
                Ok(Op::Mkdir {
                    dir: *dir,
                    name,
                    fid: *fid,
                    mode: *mode,
                    owner: *owner,
                })
            }
            Op::Symlink {
                dir,
                name,
                fid,
                target,
                mode,
                owner,
            } => {
                let name = name.copy()?;
                let target = target.copy()?;
                Ok(Op::Symlink {
                    dir: *dir,
                    name,
                    fid: *fid,
                    target,
                    mode: *mode,
                    owner: *owner,
                })
            }
            Op::Store { fid, pre, content } => {
                let content = content.copy()?;
                Ok(Op::Store {
                    fid: *fid,
                    pre: *pre,
                    content,
                })
            }
            Op::Setattr { fid, pre, attrs } => Ok(Op::Setattr {
                fid: *fid,
                pre: *pre,
                attrs: *attrs,
            }),
            Op::Remove {
                dir,
                name,
                fid,
                pre,
            } => {
                let name = name.copy()?;
                Ok(Op::Remove {
                    dir: *dir,
                    name,
                    fid: *fid,
                    pre: *pre,
                })
            }
            Op::Rmdir {
                dir,
                name,
                fid,
                pre,
            } => {
                let name = name.copy()?;
                Ok(Op::Rmdir {
                    dir: *dir,
                    name,
                    fid: *fid,
                    pre: *pre,
                })
            }
            Op::Rename {
                from_dir,
                from,
                to_dir,
                to,
                fid,
                over,
            } => {
                let from = from.copy()?;
                let to = to.copy()?;
                Ok(Op::Rename {
                    from_dir: *from_dir,
                    from,
                    to_dir: *to_dir,
                    to,
                    fid: *fid,
                    over: *over,
                })
            }
        }
    }
}

impl Record {
    /// What the record weighs on its way to a server: 64, and the bytes of the names, the target and the
    /// content in it.
    pub fn weight(&self) -> u64
        ensures { result ≡ weight_of self.now.op }
    {
        64 + self.op.byte_count()
    }

    /// The same record, in memory of its own.
    pub fn copy(&self) -> Result<Record, AllocError>
        ensures { IfOk result (λ r. r ≡ self.now) }
    {
        let op = self.op.copy()?;
        Ok(Record {
            number: self.number,
            time: self.time,
            op,
        })
    }
}
