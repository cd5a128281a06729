// What is put at the replicas in place of a repaired object.
ghost use Rattle.std.specs.Prelude.{◌≡◌, ◌<◌, ◌≤◌, ◌^◌, ◌∷◌, [], false, length, map, IfOk, option_map, option_copied};
ghost use Rattle.std.specs.List.{fold};
ghost use Rattle.std.specs.FinMap as finmap;
ghost use Rattle.coda_vv.specs.Vector.{joined};
ghost use Rattle.coda_resolve.specs.Copies.{vector_of};
ghost use Rattle.coda_resolve.specs.Merged.{updates_of};
ghost use Rattle.coda_resolve.specs.Resolution.{copies_at};
ghost use Rattle.coda_resolve.specs.Views.{objects_of, replicas_of, AreInOrder};
ghost use Rattle.coda_lineage.specs.Repairs.{repaired};
ghost use Rattle.coda_repair.specs.Finding.{HaveRoom};
ghost use Rattle.coda_repair.specs.Making.{IsWide};

use coda_fid::Fid;
use coda_record::View;
use coda_reslog::{Held, Ring};
use coda_resolve::held_in;
use coda_tree::Node;
use coda_vv::Vv;
use std::alloc::{AllocError, Global};

// The same version: it has a count for each of eight servers.
fn eight(vector: &Vv) -> Vv
    ensures same { result ≡ vector.now }
    ensures wide { length result.0 ≡ 8 }
{
    let counts = vector.0;
    Vv(counts)
}

// The updates that are in what a view holds of an object.
fn vector_at(view: &View, fid: Fid) -> Vv
    requires { AreInOrder (view.now ∷ []) }
    ensures same { result.0 ≡ vector_of (finmap.get (objects_of view.now) fid) }
    ensures wide { length result.0 ≡ 8 }
{
    match held_in(view.held.objects(), fid) {
        Some(held) => eight(&held.vector),
        None => Vv([0; 8]),
    }
}

// These updates, with those that are in what the views hold of an object.
fn joined_with(vector: Vv, views: &[View], fid: Fid) -> Vv
    requires { AreInOrder views.now }
    ensures same { result.0 ≡ fold joined vector.0 (map vector_of (copies_at (replicas_of views.now) fid)) }
    ensures wide { length result.0 ≡ 8 }
{
    match views {
        [] => vector,
        [first, rest @ ..] => joined_with(vector.merge(&vector_at(first, fid)), rest, fid),
    }
}

// All updates that are in what the views hold of an object.
fn updates(views: &[View], fid: Fid) -> Vv
    requires { AreInOrder views.now }
    ensures same { result.0 ≡ updates_of (copies_at (replicas_of views.now) fid) }
    ensures wide { length result.0 ≡ 8 }
{
    match views {
        [] => Vv([0; 8]),
        [first, rest @ ..] => joined_with(vector_at(first, fid), rest, fid),
    }
}

// An empty log, where there is one.
fn emptied(alloc: Global, ring: &Option<Ring>) -> Result<Option<Ring>, AllocError>
    ensures { IfOk result (λ copy. copy ≡ option_map (λ log. []) ring.now) }
{
    match ring {
        Some(_) => {
            let ring = Ring::new(alloc)?;
            Ok(Some(ring))
        }
        None => Ok(None),
    }
}

// The same node, not marked, in memory of its own.
fn unmarked(node: &Node) -> Result<Node, AllocError>
    ensures { IfOk result (λ copy. copy ≡ record node.now { marked = false }) }
{
    let mut copy = node.copy()?;
    copy.marked = false;
    Ok(copy)
}

// The object as the source has it, not marked, with all updates and one more of the source, and an empty log.
pub(crate) fn repaired(
    alloc: Global,
    views: &[View],
    from: u8,
    fid: Fid,
    held: &Held,
) -> Result<Held, AllocError>
    requires order { AreInOrder views.now }
    requires from_one { 1 ≤ from }
    requires to_eight { from ≤ 8 }
    requires room { HaveRoom from views.now }
    ensures same { IfOk result (λ copy. copy ≡ repaired from (copies_at (replicas_of views.now) fid) held.now) }
    ensures wide { IfOk result (λ copy. IsWide (copies_at (replicas_of views.now) fid)) }
{
    let node = unmarked(&held.node)?;
    let ring = emptied(alloc, &held.ring)?;
    let vector = updates(views, fid).bump(from);
    Ok(Held { node, vector, ring })
}
