// What a client is asked to do.
ghost use Rattle.std.specs.Prelude.{◌≡◌, ◌≤◌, option_map};
ghost use Rattle.coda_venus.specs.Ask.{asked, ending, front_of, too_long, too_big, object_of};
ghost use Rattle.coda_plain.specs.Deeds.{created_by};

use coda_fid::{Attrs, Bytes, Fid, Name, Op, Path};

/// The most bytes of a file's content: 1 MiB.
const MOST_CONTENT: usize = 1_048_576;

/// What a client is asked to do in a volume: an operation that it is to accept. The line that asks lends what is named.
#[derive(Clone, Copy, Debug)]
pub enum Ask<'a> {
    /// An empty file, at a free path.
    Create {
        path: &'a Path,
        mode: u16,
        owner: u32,
    },
    /// An empty directory, at a free path.
    Mkdir {
        path: &'a Path,
        mode: u16,
        owner: u32,
    },
    /// A link to a target, at a free path.
    Symlink {
        path: &'a Path,
        target: &'a Bytes,
    },
    /// The file at a path has this content.
    Store {
        path: &'a Path,
        content: &'a Bytes,
    },
    /// The object at a path has these attributes.
    Setattr {
        path: &'a Path,
        attrs: Attrs,
    },
    /// The file or link at a path goes.
    Remove {
        path: &'a Path,
    },
    /// The empty directory at a path goes.
    Rmdir {
        path: &'a Path,
    },
    /// The object at a path moves to another, over a file or link that is there.
    Rename {
        from: &'a Path,
        to: &'a Path,
    },
}

/// The first names of a path and its last one.
pub fn ending(names: &[Name]) -> Option<(&[Name], &Name)>
    ensures { option_map (λ e. (e.0.now, e.1.now)) result ≡ ending names.now }
{
    match names.split_last() {
        Some((last, front)) => Some((front, last)),
        None => None,
    }
}

/// The names that lead to the directory in which a path ends.
pub fn front(names: &[Name]) -> &[Name]
    ensures { result.now ≡ front_of (ending names.now) }
{
    match ending(names) {
        Some((front, _)) => front,
        None => &[],
    }
}

// The length of content that no file may have.
pub(crate) fn too_long(content: &Bytes) -> Option<u64>
    ensures { result ≡ too_long content.now }
{
    if content.len() > MOST_CONTENT {
        Some(content.len() as u64)
    } else {
        None
    }
}

/// The length of the content to be stored, where it is too long.
pub fn too_big(ask: &Ask) -> Option<u64>
    ensures { result ≡ too_big (asked ask.now) }
{
    match ask {
        Ask::Store { content, .. } => too_long(content),
        Ask::Create { .. } => None,
        Ask::Mkdir { .. } => None,
        Ask::Symlink { .. } => None,
        Ask::Setattr { .. } => None,
        Ask::Remove { .. } => None,
        Ask::Rmdir { .. } => None,
        Ask::Rename { .. } => None,
    }
}

/// The object that an operation creates, changes, removes or moves.
pub fn object_of(op: &Op) -> Fid
    ensures { result ≡ object_of op.now }
{
    match op {
        Op::Create { fid, .. } => *fid,
        Op::Mkdir { fid, .. } => *fid,
        Op::Symlink { fid, .. } => *fid,
        Op::Store { fid, .. } => *fid,
        Op::Setattr { fid, .. } => *fid,
        Op::Remove { fid, .. } => *fid,
        Op::Rmdir { fid, .. } => *fid,
        Op::Rename { fid, .. } => *fid,
    }
}

/// How many objects an operation creates.
pub fn created_by(op: &Op) -> u32
    ensures count { result ≡ created_by op.now }
    ensures few { result ≤ 1 }
{
    match op {
        Op::Create { .. } => 1,
        Op::Mkdir { .. } => 1,
        Op::Symlink { .. } => 1,
        Op::Store { .. } => 0,
        Op::Setattr { .. } => 0,
        Op::Remove { .. } => 0,
        Op::Rmdir { .. } => 0,
        Op::Rename { .. } => 0,
    }
}
