ghost use Rattle.std.specs.Prelude.{Some};

use coda_fid::{Fid, Sid};
use std::fmt;

/// Why certification refuses an operation: what of the volume is no longer as the client saw it
/// (Kistler and Satyanarayanan 1992).
///
/// It prints as a word, with what the reason names behind it: `no-dir FID`, `marked FID`,
/// `no-object FID`, `wrong-kind FID`, `name-taken FID`, `name-other FID` or `name-other -`,
/// `fid-used FID`, `changed SID SID`, `attr-changed SID SID`, `not-empty`, `loop`,
/// `volume-full COUNT`.
#[derive(Clone, Copy, Debug, PartialEq, Eq)]
pub enum Reason {
    /// No directory stands there.
    NoDir(Fid),
    /// The object is marked as in conflict.
    Marked(Fid),
    /// No object stands there.
    NoObject(Fid),
    /// The object is of another kind.
    WrongKind(Fid),
    /// The name is bound, to this object.
    NameTaken(Fid),
    /// The name is bound to this other object, or to none.
    NameOther(Option<Fid>),
    /// An object stands at the identifier that a creation chose.
    FidUsed(Fid),
    /// The content is of another version than the one that the client had.
    Changed {
        /// The version that the client had.
        kept: Sid,
        /// The version that is there.
        found: Sid,
    },
    /// The attributes of a directory are of another version than the one that the client had.
    AttrChanged {
        /// The version that the client had.
        kept: Sid,
        /// The version that is there.
        found: Sid,
    },
    /// The directory still binds something.
    NotEmpty,
    /// A directory would come to stand below itself.
    Loop,
    /// The volume has this many objects, and may have no more.
    VolumeFull(u64),
}

impl fmt::Display for Reason {
    ghost use Rattle.coda_certify.specs.Texts.{reason_text};

    ghost output = { λ reason. Some (reason_text reason) };

    fn fmt<W: fmt::Write>(&self, f: &mut fmt::Formatter<W>) -> fmt::Result {
        match *self {
            Reason::NoDir(fid) => write!(f, "no-dir {fid}"),
            Reason::Marked(fid) => write!(f, "marked {fid}"),
            Reason::NoObject(fid) => write!(f, "no-object {fid}"),
            Reason::WrongKind(fid) => write!(f, "wrong-kind {fid}"),
            Reason::NameTaken(found) => write!(f, "name-taken {found}"),
            Reason::NameOther(Some(found)) => write!(f, "name-other {found}"),
            Reason::NameOther(None) => write!(f, "name-other -"),
            Reason::FidUsed(fid) => write!(f, "fid-used {fid}"),
            Reason::Changed { kept, found } => write!(f, "changed {kept} {found}"),
            Reason::AttrChanged { kept, found } => write!(f, "attr-changed {kept} {found}"),
            Reason::NotEmpty => write!(f, "not-empty"),
            Reason::Loop => write!(f, "loop"),
            Reason::VolumeFull(count) => write!(f, "volume-full {count}"),
        }
    }
}
