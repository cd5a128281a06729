ghost use Rattle.std.specs.Prelude.{◌≡◌, Some, None};
ghost use Rattle.coda_fid.specs.Op.{fids_of};
ghost use Rattle.coda_walk.specs.Going.{is_listed};
ghost use Rattle.coda_cache.specs.Steps.{new_node, taken_out, moved_node, taken_from, except_all, removed};

use crate::Recency;
use crate::contents::Contents;
use crate::holds::HoldTable;
use coda_fid::{Fid, Op};
use coda_tree::NodeTable;

// The directory and the fid of the node that an operation makes.
pub(crate) fn new_node(op: &Op) -> Option<(Fid, Fid)>
    ensures { result ≡ new_node op.now }
{
    match op {
        Op::Create { dir, fid, .. } => Some((*dir, *fid)),
        Op::Mkdir { dir, fid, .. } => Some((*dir, *fid)),
        Op::Symlink { dir, fid, .. } => Some((*dir, *fid)),
        Op::Store { .. } => None,
        Op::Setattr { .. } => None,
        Op::Remove { .. } => None,
        Op::Rmdir { .. } => None,
        Op::Rename { .. } => None,
    }
}

/// The node that an operation takes out.
pub fn taken_out(op: &Op) -> Option<Fid>
    ensures { result ≡ taken_out op.now }
{
    match op {
        Op::Create { .. } => None,
        Op::Mkdir { .. } => None,
        Op::Symlink { .. } => None,
        Op::Store { .. } => None,
        Op::Setattr { .. } => None,
        Op::Remove { fid, .. } => Some(*fid),
        Op::Rmdir { fid, .. } => Some(*fid),
        Op::Rename { over, .. } => match over {
            Some(over) => Some(over.fid),
            None => None,
        },
    }
}

// The node that an operation moves, and the directory that then binds it.
pub(crate) fn moved_node(op: &Op) -> Option<(Fid, Fid)>
    ensures { result ≡ moved_node op.now }
{
    match op {
        Op::Create { .. } => None,
        Op::Mkdir { .. } => None,
        Op::Symlink { .. } => None,
        Op::Store { .. } => None,
        Op::Setattr { .. } => None,
        Op::Remove { .. } => None,
        Op::Rmdir { .. } => None,
        Op::Rename { fid, to_dir, .. } => Some((*fid, *to_dir)),
    }
}

/// The nodes that an operation mentions, some of them maybe twice.
pub fn mentioned(op: &Op) -> [Fid; 4]
    ensures { (f : Fid) → is_listed result f ≡ is_listed (fids_of op.now) f }
{
    match op {
        Op::Create { dir, fid, .. } => [*dir, *fid, *dir, *fid],
        Op::Mkdir { dir, fid, .. } => [*dir, *fid, *dir, *fid],
        Op::Symlink { dir, fid, .. } => [*dir, *fid, *dir, *fid],
        Op::Store { fid, .. } => [*fid, *fid, *fid, *fid],
        Op::Setattr { fid, .. } => [*fid, *fid, *fid, *fid],
        Op::Remove { dir, fid, .. } => [*dir, *fid, *dir, *fid],
        Op::Rmdir { dir, fid, .. } => [*dir, *fid, *dir, *fid],
        Op::Rename {
            from_dir,
            to_dir,
            fid,
            over,
            ..
        } => match over {
            Some(over) => [*from_dir, *to_dir, *fid, over.fid],
            None => [*from_dir, *to_dir, *fid, *fid],
        },
    }
}

// Takes out nodes with their holds and their places in the order of use. Takes no memory.
pub(crate) fn take_out_all(
    nodes: &mut NodeTable,
    holds: &mut HoldTable,
    recency: &mut Recency,
    fids: &[Fid],
)
    ensures nodes { nodes.new ≡ taken_from nodes.old fids.now }
    ensures holds { holds.new ≡ taken_from holds.old fids.now }
    ensures recency { recency.new ≡ except_all recency.old fids.now }
{
    for fid in fids {
        nodes.take_out(*fid);
        holds.take_out(*fid);
        recency.take_out(*fid);
    }
}

impl Contents {
    // Takes out a node and what is cached below it. Takes no memory.
    pub(crate) fn remove(&mut self, fid: Fid)
        ensures { self.new ≡ removed self.old fid }
    {
        self.holds.remove(&mut self.nodes, &mut self.recency, fid);
    }
}
