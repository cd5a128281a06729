ghost use Rattle.std.specs.Prelude.{◌≡◌, IfOk};

use coda_fid::{Fid, Name, Sid};
use coda_vv::Vv;
use std::alloc::AllocError;

/// What an update did to a directory.
#[derive(Clone, Copy, Debug, PartialEq, Eq)]
pub enum ResKind {
    /// It bound a new object at the name.
    Add,
    /// It unbound the name and took the object out.
    Drop,
    /// It bound the object at the other name in place of the name.
    Rename,
    /// It moved an object out of the directory or into it: both directories have such an entry.
    Cross,
    /// It changed the directory's attributes.
    Attr,
}

/// An object that an update took out, with the vector that it had.
#[derive(Clone, Copy, Debug)]
pub struct Lost {
    /// The object.
    pub fid: Fid,
    /// The updates that were in it.
    pub vector: Vv,
}

/// An update of a directory, as a resolution log keeps it (Kumar and Satyanarayanan 1993).
#[derive(Debug, Drop)]
pub struct ResEntry {
    /// The server that decided it.
    pub origin: u8,
    /// Its number among that server's updates of the directory, from 1.
    pub seq: u64,
    /// The operation that made it.
    pub sid: Sid,
    /// What it did.
    pub kind: ResKind,
    /// The name that it changed: that of the object before a rename, and where it moved into the directory its new one.
    pub name: Option<Name>,
    /// The new name, where it renamed inside the directory.
    pub other: Option<Name>,
    /// The object that it added, took out or moved, or the directory whose attributes it changed.
    pub fid: Fid,
    /// The object that it took out.
    pub lost: Option<Lost>,
}

// The same name where there is one, in memory of its own.
fn copy_name(name: &Option<Name>) -> Result<Option<Name>, AllocError>
    ensures { IfOk result (λ copy. copy ≡ name.now) }
{
    match name {
        Some(name) => {
            let copy = name.copy()?;
            Ok(Some(copy))
        }
        None => Ok(None),
    }
}

impl ResEntry {
    /// The same entry, in memory of its own.
    pub fn copy(&self) -> Result<ResEntry, AllocError>
        ensures { IfOk result (λ entry. entry ≡ self.now) }
    {
        let name = copy_name(&self.name)?;
        let other = copy_name(&self.other)?;
        Ok(ResEntry {
            origin: self.origin,
            seq: self.seq,
            sid: self.sid,
            kind: self.kind,
            name,
            other,
            fid: self.fid,
            lost: self.lost,
        })
    }
}
