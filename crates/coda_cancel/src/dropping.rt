// Which earlier records an operation makes needless.
ghost use Rattle.std.specs.Prelude.{◌≡◌};
ghost use Rattle.coda_cancel.specs.Dropping.{creates, stores, writes, part_covers, covers, is_covered, writes_over, drops};

use coda_fid::{Attrs, Fid, Op, Over};

/// Whether an operation creates the object.
pub fn creates(op: &Op, fid: Fid) -> bool
    ensures { result ≡ creates fid op.now }
{
    match op {
        Op::Create { fid: it, .. } => *it == fid,
        Op::Mkdir { fid: it, .. } => *it == fid,
        Op::Symlink { fid: it, .. } => *it == fid,
        Op::Store { .. } => false,
        Op::Setattr { .. } => false,
        Op::Remove { .. } => false,
        Op::Rmdir { .. } => false,
        Op::Rename { .. } => false,
    }
}

fn stores(op: &Op, fid: Fid) -> bool
    ensures { result ≡ stores fid op.now }
{
    match op {
        Op::Store { fid: it, .. } => *it == fid,
        _ => false,
    }
}

/// Whether an operation stores the object or sets attributes of it.
pub fn writes(op: &Op, fid: Fid) -> bool
    ensures { result ≡ writes fid op.now }
{
    match op {
        Op::Store { fid: it, .. } => *it == fid,
        Op::Setattr { fid: it, .. } => *it == fid,
        _ => false,
    }
}

// Whether each part that was set before is set again.
fn covers(attrs: &Attrs, before: &Attrs) -> bool
    ensures { result ≡ covers attrs.now before.now }
{
    (attrs.mode.is_some() || before.mode.is_none())
        && (attrs.owner.is_some() || before.owner.is_none())
        && (attrs.mtime.is_some() || before.mtime.is_none())
}

// Whether an operation sets attributes of the object, and no part that these don't set.
fn is_covered(op: &Op, fid: Fid, attrs: &Attrs) -> bool
    ensures { result ≡ is_covered fid attrs.now op.now }
{
    match op {
        Op::Setattr {
            fid: it,
            attrs: before,
            ..
        } => *it == fid && covers(attrs, before),
        _ => false,
    }
}

fn writes_over(op: &Op, over: &Option<Over>) -> bool
    ensures { result ≡ writes_over over.now op.now }
{
    match over {
        Some(over) => writes(op, over.fid),
        None => false,
    }
}

/// Whether an operation makes an earlier one needless.
pub fn drops(op: &Op, earlier: &Op) -> bool
    ensures { result ≡ drops op.now earlier.now }
{
    match op {
        Op::Create { .. } => false,
        Op::Mkdir { .. } => false,
        Op::Symlink { .. } => false,
        Op::Store { fid, .. } => stores(earlier, *fid),
        Op::Setattr { fid, attrs, .. } => is_covered(earlier, *fid, attrs),
        Op::Remove { fid, .. } => writes(earlier, *fid),
        Op::Rmdir { fid, .. } => writes(earlier, *fid),
        Op::Rename { over, .. } => writes_over(earlier, over),
    }
}
