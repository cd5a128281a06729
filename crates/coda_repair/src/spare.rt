// What a replica keeps of directories that bind repaired objects elsewhere.
ghost use Rattle.std.specs.Prelude.{◌≡◌, ◌&&◌, true, not, cond, IsTrue, IfOk, Some, option_copied};
ghost use Rattle.std.specs.FinMap as finmap;
ghost use Rattle.std.specs.FinMap.{is_sorted};
ghost use Rattle.coda_fid.specs.Fid.{fid_cmp, same_fid};
ghost use Rattle.coda_tree.specs.declared.node.NodeKind.TheVariants.{Dir};
ghost use Rattle.coda_resolve.specs.Counted.{has_fid};
ghost use Rattle.coda_lineage.specs.Repairs.{is_taken, others_of, binds_one};
ghost use Rattle.coda_repair.specs.Making.{loser, left_out, with_bindings};

use coda_fid::{Fid, Name};
use coda_reslog::{Held, Ring};
use coda_tree::{Entries, Node, NodeKind};
use std::alloc::AllocError;
use std::collections::BTreeSet;

// Whether the object is one of these and not their top.
fn is_taken(subtree: &BTreeSet<Fid>, top: Fid, fid: Fid) -> bool
    ensures { result ≡ is_taken (has_fid subtree.now) top (Some fid) }
{
    fid != top && subtree.contains(&fid)
}

// Whether the directory binds one of them.
fn binds_one(subtree: &BTreeSet<Fid>, top: Fid, entries: &Entries) -> bool
    ensures { result ≡ binds_one (has_fid subtree.now) top entries.now }
{
    for index in 0..entries.len() {
        let Some((_, fid)) = entries.at(index) else {
            unreachable!()
        };
        if is_taken(subtree, top, fid) {
            return true;
        }
    }
    false
}

// Unbinds the name, if what it is bound to is taken.
fn leave_out(others: &mut Entries, subtree: &BTreeSet<Fid>, top: Fid, name: &Name, fid: Fid)
    ensures { others.new ≡ left_out (has_fid subtree.now) top name.now fid others.old }
{
    if is_taken(subtree, top, fid) {
        others.remove(name);
    }
}

// What the directory binds but for these, in memory of its own.
fn others_of(subtree: &BTreeSet<Fid>, top: Fid, entries: &Entries) -> Result<Entries, AllocError>
    ensures { IfOk result (λ others. others ≡ others_of (has_fid subtree.now) top entries.now) }
{
    let mut others = entries.copy()?;
    for index in 0..entries.len() {
        let Some((name, fid)) = entries.at(index) else {
            unreachable!()
        };
        leave_out(&mut others, subtree, top, name, fid);
    }
    Ok(others)
}

// The same log, where there is one, in memory of its own.
fn copy_ring(ring: &Option<Ring>) -> Result<Option<Ring>, AllocError>
    ensures { IfOk result (λ copy. copy ≡ ring.now) }
{
    match ring {
        Some(ring) => {
            let copy = ring.copy()?;
            Ok(Some(copy))
        }
        None => Ok(None),
    }
}

// The directory with these bindings, marked.
fn with_entries(held: &Held, entries: Entries) -> Result<Held, AllocError>
    ensures { IfOk result (λ copy. copy ≡ with_bindings held.now entries) }
{
    let ring = copy_ring(&held.ring)?;
    Ok(Held {
        node: Node {
            kind: NodeKind::Dir(entries),
            mode: held.node.mode,
            owner: held.node.owner,
            mtime: held.node.mtime,
            sid: held.node.sid,
            marked: true,
        },
        vector: held.vector,
        ring,
    })
}

// What comes in place of an object: a directory that binds one of these doesn't any more, and is marked.
pub(crate) fn loser(
    subtree: &BTreeSet<Fid>,
    top: Fid,
    held: &Held,
) -> Result<Option<Held>, AllocError>
    ensures { IfOk result (λ spare. spare ≡ loser (has_fid subtree.now) top held.now) }
{
    let NodeKind::Dir(entries) = &held.node.kind else {
        return Ok(None);
    };
    if !binds_one(subtree, top, entries) {
        return Ok(None);
    }
    let entries = others_of(subtree, top, entries)?;
    let spare = with_entries(held, entries)?;
    Ok(Some(spare))
}
