// What a replica holds anew of an object that a resolution takes up.
ghost use Rattle.std.specs.Prelude.{◌≡◌, [], true, option_copied, IfOk, Some, None};
ghost use Rattle.std.specs.FinMap as finmap;
ghost use Rattle.coda_tree.specs.declared.node.NodeKind.TheVariants.{Dir};
ghost use Rattle.coda_vv.specs.Vector.{no_updates};
ghost use Rattle.coda_resolve.specs.Copies.{first_some};
ghost use Rattle.coda_resolve.specs.Settling.{marked, stand_in, stand_in_by, settled_copy};
ghost use Rattle.coda_resolve.specs.Resolution.{copies_at};
ghost use Rattle.coda_resolve.specs.Views.{replicas_of, AreInOrder};
ghost use Rattle.coda_resolve.specs.Renewals.{IsRenewal};

use crate::copies::lowest;
use crate::fate::{Fate, copy_held};
use crate::same::{same_node, same_updates};
use crate::view::copies_at;
use coda_fid::Fid;
use coda_record::View;
use coda_reslog::{Held, Ring};
use coda_tree::{Entries, Node, NodeKind};
use coda_vv::Vv;
use std::alloc::{AllocError, Global};

// What is held anew, and whether its node is another than that of what was held.
#[derive(Debug, Drop)]
pub(crate) struct Renewal {
    pub(crate) held: Held,
    pub(crate) touched: bool,
}

// What comes in place of a copy, in memory of its own.
fn renewed(held: &Held, touched: bool) -> Result<Option<Renewal>, AllocError>
    ensures { IfOk result (λ renewal. renewal ≡ Some (record { held = held.now; touched = touched })) }
{
    let held = copy_held(held)?;
    Ok(Some(Renewal { held, touched }))
}

// What comes in place of a copy that the replica has.
fn in_place(held: &Held, own: &Held) -> Result<Option<Renewal>, AllocError>
    ensures { IfOk result (λ renewal. IsRenewal (Some own.now) (Some held.now) renewal) }
{
    if !same_node(&held.node, &own.node) {
        return renewed(held, true);
    }
    if same_updates(held, own) {
        Ok(None)
    } else {
        renewed(held, false)
    }
}

// What comes where all replicas hold the same.
fn same_renewal(held: &Held, own: Option<&Held>) -> Result<Option<Renewal>, AllocError>
    ensures { IfOk result (λ renewal. IsRenewal (option_copied own.entry) (Some held.now) renewal) }
{
    match own {
        Some(own) => in_place(held, own),
        None => renewed(held, true),
    }
}

// The object, marked, in memory of its own.
fn marked(held: &Held) -> Result<Held, AllocError>
    ensures { IfOk result (λ copy. copy ≡ marked held.now) }
{
    let mut copy = copy_held(held)?;
    copy.node.marked = true;
    Ok(copy)
}

// The marked directory where there was none: it is empty and has no updates.
fn empty_directory(alloc: Global, node: &Node) -> Result<Held, AllocError>
    ensures { IfOk result (λ held. held ≡ record { node = record node.now { kind = Dir finmap.empty; marked = true }; vector = record { 0 = no_updates }; ring = Some [] }) }
{
    let ring = Ring::new(alloc)?;
    Ok(Held {
        node: Node {
            kind: NodeKind::Dir(Entries::new(alloc)),
            mode: node.mode,
            owner: node.owner,
            mtime: node.mtime,
            sid: node.sid,
            marked: true,
        },
        vector: Vv([0; 8]),
        ring: Some(ring),
    })
}

// The marked object where there was none, from what the lowest replica that has it holds.
fn stand_in(alloc: Global, lowest: &Held) -> Result<Held, AllocError>
    ensures { IfOk result (λ held. held ≡ stand_in_by lowest.now lowest.now.node.kind) }
{
    match &lowest.node.kind {
        NodeKind::File(_) => marked(lowest),
        NodeKind::Link(_) => marked(lowest),
        NodeKind::Dir(_) => empty_directory(alloc, &lowest.node),
    }
}

// What comes of a copy where all replicas have the object marked.
fn marked_renewal(own: &Held) -> Result<Option<Renewal>, AllocError>
    ensures { IfOk result (λ renewal. IsRenewal (Some own.now) (Some (marked own.now)) renewal) }
{
    if own.node.marked {
        return Ok(None);
    }
    let held = marked(own)?;
    Ok(Some(Renewal {
        held,
        touched: true,
    }))
}

// What comes where all replicas have the object marked and this one lacks it.
fn new_renewal(alloc: Global, views: &[View], fid: Fid) -> Result<Option<Renewal>, AllocError>
    requires { AreInOrder views.now }
    ensures { IfOk result (λ renewal. IsRenewal None (stand_in (first_some (copies_at (replicas_of views.now) fid))) renewal) }
{
    let copies = copies_at(alloc, views, fid)?;
    match lowest(&copies) {
        Some(lowest) => {
            let held = stand_in(alloc, lowest)?;
            Ok(Some(Renewal {
                held,
                touched: true,
            }))
        }
        None => Ok(None),
    }
}

// What is held anew of an object with this fate, where it isn't what the replica held.
pub(crate) fn renewal_of(
    alloc: Global,
    views: &[View],
    fid: Fid,
    fate: &Fate,
    own: Option<&Held>,
) -> Result<Option<Renewal>, AllocError>
    requires { AreInOrder views.now }
    ensures { IfOk result (λ renewal. IsRenewal (option_copied own.entry) (settled_copy fate.now (first_some (copies_at (replicas_of views.now) fid)) (option_copied own.entry)) renewal) }
{
    match fate {
        Fate::Same(held) => same_renewal(held, own),
        Fate::Marked(_) => match own {
            Some(own) => marked_renewal(own),
            None => new_renewal(alloc, views, fid),
        },
        Fate::Gone => Ok(None),
    }
}
