// The least object that a missing update took out, while a replica that lacks the update has it with something that the
// update didn't see.
ghost use Rattle.std.specs.Prelude.{ℕ, ◌≡◌, ◌&&◌, true, not, nat_le, option_copied, map, IfOk, Some, Option, List};
ghost use Rattle.std.specs.List.{flat_map, fold, list_any, zip};
ghost use Rattle.std.specs.FinMap as finmap;
ghost use Rattle.coda_fid.specs.Fid.{fid_cmp};
ghost use Rattle.coda_vv.specs.Vector.{includes};
ghost use Rattle.coda_reslog.specs.declared.change.Held.{Held};
ghost use Rattle.coda_resolve.specs.Copies.{bindings_of};
ghost use Rattle.coda_resolve.specs.Missing.{has_update};
ghost use Rattle.coda_resolve.specs.Causes.{least, least_with, is_newer, is_updated, updated_of};
ghost use Rattle.coda_resolve.specs.Resolution.{copies_at};
ghost use Rattle.coda_resolve.specs.Views.{replicas_of, AreInOrder};
ghost use Rattle.coda_resolve.specs.Lent.{lent};

use crate::copies::has_update;
use crate::doubles::lesser;
use crate::view::copies_at;
use coda_fid::Fid;
use coda_record::View;
use coda_reslog::{Held, Lost, ResEntry};
use coda_tree::NodeKind;
use coda_vv::{Compare, Vv};
use std::alloc::{AllocError, Global};

// Whether the first version has each update of the second.
pub(crate) fn includes(one: &Vv, other: &Vv) -> bool
    ensures { result ≡ includes one.now.0 other.now.0 }
{
    match one.compare(other) {
        Compare::Equal => true,
        Compare::Dominates => true,
        Compare::Submits => false,
        Compare::Inconsistent => false,
    }
}

// Whether the object binds something.
fn binds(held: &Held) -> bool
    ensures { result ≡ nat_le 1 (finmap.len (bindings_of (Some held.now))) }
{
    match &held.node.kind {
        NodeKind::Dir(entries) => entries.len() >= 1,
        NodeKind::File(_) => false,
        NodeKind::Link(_) => false,
    }
}

// Whether there is a copy that binds something or has updates that the vector hasn't.
fn is_newer(vector: &Vv, copy: Option<&Held>) -> bool
    ensures { result ≡ is_newer vector.now.0 (option_copied copy.entry) }
{
    match copy {
        Some(held) => !includes(vector, &held.vector) || binds(held),
        None => false,
    }
}

// Whether the replica lacks the update, and has the object with something that the update didn't see.
fn is_updated_at(copy: Option<&Held>, object: Option<&Held>, update: &ResEntry, vector: &Vv) -> bool
    ensures { result ≡ (not (has_update update.now (option_copied copy.entry)) && is_newer vector.now.0 (option_copied object.entry)) }
{
    !has_update(copy, update) && is_newer(vector, object)
}

// Whether a replica that lacks the update has the object with something that the update didn't see.
fn is_updated(
    copies: &[Option<&Held>],
    objects: &[Option<&Held>],
    update: &ResEntry,
    vector: &Vv,
) -> bool
    ensures { result ≡ is_updated (map option_copied copies.now) (map option_copied objects.now) update.now vector.now.0 }
{
    match copies {
        [] => false,
        [copy, copies @ ..] => match objects {
            [] => false,
            [object, objects @ ..] => {
                is_updated_at(*copy, *object, update, vector)
                    || is_updated(copies, objects, update, vector)
            }
        },
    }
}

// The least so far, or the object that the update took out where it is less and a replica has it with more.
fn with_lost(
    alloc: Global,
    least: Option<Fid>,
    views: &[View],
    copies: &[Option<&Held>],
    update: &ResEntry,
    lost: &Option<Lost>,
) -> Result<Option<Fid>, AllocError>
    requires { AreInOrder views.now }
    ensures { IfOk result (λ found. found ≡ fold (least_with fid_cmp) least (updated_of (map option_copied copies.now) (copies_at (replicas_of views.now)) update.now lost.now)) }
{
    let Some(lost) = lost else {
        return Ok(least);
    };
    let objects = copies_at(alloc, views, lost.fid)?;
    if is_updated(copies, &objects, update, &lost.vector) {
        Ok(lesser(least, lost.fid))
    } else {
        Ok(least)
    }
}

// The least of the objects that the updates took out and a replica has with more.
pub(crate) fn least_updated(
    alloc: Global,
    views: &[View],
    copies: &[Option<&Held>],
    updates: &[&ResEntry],
) -> Result<Option<Fid>, AllocError>
    requires { AreInOrder views.now }
    ensures { IfOk result (λ found. found ≡ least fid_cmp (flat_map (λ u. updated_of (map option_copied copies.now) (copies_at (replicas_of views.now)) u u.lost) (lent updates.now))) }
{
    let mut least = None;
    for update in updates {
        least = with_lost(alloc, least, views, copies, update, &update.lost)?;
    }
    Ok(least)
}
