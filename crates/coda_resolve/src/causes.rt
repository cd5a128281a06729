// Why a directory is marked, and else what it becomes.
ghost use Rattle.std.specs.Prelude.{◌≡◌, [], ◌∷◌, option_copied, map, IfOk, List, Option, Some, None};
ghost use Rattle.coda_reslog.specs.declared.change.Held.{Held};
ghost use Rattle.coda_resolve.specs.Copies.{first_some};
ghost use Rattle.coda_resolve.specs.Missing.{missing, wrapped};
ghost use Rattle.coda_resolve.specs.Merged.{merged, merged_bindings, attributes_of};
ghost use Rattle.coda_resolve.specs.Causes.{cause, kept, wrapped_by, cross_rename, name_name, double_name, remove_update, attr_attr};
ghost use Rattle.coda_resolve.specs.Settling.{dir_fate};
ghost use Rattle.coda_resolve.specs.Resolution.{copies_at};
ghost use Rattle.coda_resolve.specs.Views.{replicas_of, AreInOrder};
ghost use Rattle.coda_resolve.specs.Claims.{AreClaimsOf};
ghost use Rattle.coda_resolve.specs.Lent.{lent};

use crate::claims::{Claim, claims};
use crate::copies::some_marked;
use crate::doubles::least_double;
use crate::fate::Fate;
use crate::log::merged_log;
use crate::merged::{attributes, some_cross, updates};
use crate::missing::missing;
use crate::names::{least_conflict, merged_entries};
use crate::updated::least_updated;
use crate::why::Why;
use crate::wrapped::wrapped;
use coda_record::View;
use coda_reslog::{Held, ResEntry};
use coda_tree::{Entries, Node, NodeKind};
use std::alloc::{AllocError, Global};

// The first cause that holds, of those that look at no name.
fn early_cause(
    alloc: Global,
    copies: &[Option<&Held>],
    updates: &[&ResEntry],
) -> Result<Option<Why>, AllocError>
    requires { lent updates.now ≡ missing (map option_copied copies.now) }
    ensures { IfOk result (λ why. why ≡ first_some (kept (map option_copied copies.now) ∷ wrapped_by (wrapped (map option_copied copies.now)) ∷ cross_rename (map option_copied copies.now) ∷ [])) }
{
    if some_marked(copies) {
        return Ok(Some(Why::Kept));
    }
    match wrapped(alloc, copies)? {
        Some((origin, seq)) => Ok(Some(Why::Wrapped(origin, seq))),
        None => {
            if some_cross(updates) {
                Ok(Some(Why::CrossRename))
            } else {
                Ok(None)
            }
        }
    }
}

// The least name at which the copies cannot be merged, as a cause.
fn name_cause(
    claims: &[Claim],
    copies: &[Option<&Held>],
    updates: &[&ResEntry],
) -> Result<Option<Why>, AllocError>
    requires claims { AreClaimsOf (map option_copied copies.now) claims.now }
    requires updates { lent updates.now ≡ missing (map option_copied copies.now) }
    ensures { IfOk result (λ why. why ≡ name_name (map option_copied copies.now)) }
{
    match least_conflict(claims, copies, updates) {
        Some(name) => {
            let copy = name.copy()?;
            Ok(Some(Why::NameName(copy)))
        }
        None => Ok(None),
    }
}

// The first cause that holds, of those that look at what the merged directory binds and at what was taken out.
fn late_cause(
    alloc: Global,
    views: &[View],
    copies: &[Option<&Held>],
    updates: &[&ResEntry],
    entries: &Entries,
) -> Result<Option<Why>, AllocError>
    requires order { AreInOrder views.now }
    requires updates { lent updates.now ≡ missing (map option_copied copies.now) }
    requires entries { entries.now ≡ merged_bindings (map option_copied copies.now) }
    ensures { IfOk result (λ why. why ≡ first_some (double_name (map option_copied copies.now) (copies_at (replicas_of views.now)) ∷ remove_update (map option_copied copies.now) (copies_at (replicas_of views.now)) ∷ [])) }
{
    if let Some(fid) = least_double(alloc, views, copies, entries, updates)? {
        return Ok(Some(Why::DoubleName(fid)));
    }
    match least_updated(alloc, views, copies, updates)? {
        Some(fid) => Ok(Some(Why::RemoveUpdate(fid))),
        None => Ok(None),
    }
}

// The merged directory, with the attributes of that copy.
fn merged_held(
    alloc: Global,
    copies: &[Option<&Held>],
    held: &Held,
    entries: Entries,
) -> Result<Held, AllocError>
    requires { entries ≡ merged_bindings (map option_copied copies.now) }
    ensures { IfOk result (λ all. all ≡ merged (map option_copied copies.now) held.now) }
{
    let ring = merged_log(alloc, copies)?;
    Ok(Held {
        node: Node {
            kind: NodeKind::Dir(entries),
            mode: held.node.mode,
            owner: held.node.owner,
            mtime: held.node.mtime,
            sid: held.node.sid,
            marked: held.node.marked,
        },
        vector: updates(copies),
        ring: Some(ring),
    })
}

// What becomes of a directory that no other cause marks than that of its attributes.
fn attributes_fate(
    alloc: Global,
    copies: &[Option<&Held>],
    updates: &[&ResEntry],
    entries: Entries,
) -> Result<Fate, AllocError>
    requires updates { lent updates.now ≡ missing (map option_copied copies.now) }
    requires entries { entries ≡ merged_bindings (map option_copied copies.now) }
    ensures { IfOk result (λ fate. fate ≡ dir_fate (map option_copied copies.now) (attr_attr (map option_copied copies.now)) (attributes_of (map option_copied copies.now))) }
{
    match attributes(updates, copies) {
        Some(held) => {
            let merged = merged_held(alloc, copies, held, entries)?;
            Ok(Fate::Same(merged))
        }
        None => Ok(Fate::Marked(Why::AttrAttr)),
    }
}

// What becomes of a directory whose copies bind what they should at each name.
fn entries_fate(
    alloc: Global,
    views: &[View],
    copies: &[Option<&Held>],
    updates: &[&ResEntry],
    entries: Entries,
) -> Result<Fate, AllocError>
    requires order { AreInOrder views.now }
    requires updates { lent updates.now ≡ missing (map option_copied copies.now) }
    requires entries { entries ≡ merged_bindings (map option_copied copies.now) }
    ensures { IfOk result (λ fate. fate ≡ dir_fate (map option_copied copies.now) (first_some (double_name (map option_copied copies.now) (copies_at (replicas_of views.now)) ∷ remove_update (map option_copied copies.now) (copies_at (replicas_of views.now)) ∷ attr_attr (map option_copied copies.now) ∷ [])) (attributes_of (map option_copied copies.now))) }
{
    match late_cause(alloc, views, copies, updates, &entries)? {
        Some(why) => Ok(Fate::Marked(why)),
        None => attributes_fate(alloc, copies, updates, entries),
    }
}

// What becomes of a directory that no cause marks that looks at no name.
fn names_fate(
    alloc: Global,
    views: &[View],
    copies: &[Option<&Held>],
    updates: &[&ResEntry],
) -> Result<Fate, AllocError>
    requires order { AreInOrder views.now }
    requires updates { lent updates.now ≡ missing (map option_copied copies.now) }
    ensures { IfOk result (λ fate. fate ≡ dir_fate (map option_copied copies.now) (first_some (name_name (map option_copied copies.now) ∷ double_name (map option_copied copies.now) (copies_at (replicas_of views.now)) ∷ remove_update (map option_copied copies.now) (copies_at (replicas_of views.now)) ∷ attr_attr (map option_copied copies.now) ∷ [])) (attributes_of (map option_copied copies.now))) }
{
    let claims = claims(alloc, copies, updates)?;
    match name_cause(&claims, copies, updates)? {
        Some(why) => Ok(Fate::Marked(why)),
        None => {
            let entries = merged_entries(alloc, &claims, copies, updates)?;
            entries_fate(alloc, views, copies, updates, entries)
        }
    }
}

// What becomes of a directory.
pub(crate) fn dir_fate(
    alloc: Global,
    views: &[View],
    copies: &[Option<&Held>],
) -> Result<Fate, AllocError>
    requires { AreInOrder views.now }
    ensures { IfOk result (λ fate. fate ≡ dir_fate (map option_copied copies.now) (cause (map option_copied copies.now) (copies_at (replicas_of views.now))) (attributes_of (map option_copied copies.now))) }
{
    let updates = missing(alloc, copies)?;
    match early_cause(alloc, copies, &updates)? {
        Some(why) => Ok(Fate::Marked(why)),
        None => names_fate(alloc, views, copies, &updates),
    }
}
