ghost use Rattle.std.specs.Prelude.{IsTrue, ◌≡◌, ◌≢◌, [], ◌∷◌, ◌||◌, true, cond, option_copied, map, IfOk, List, Option, Some, None};
ghost use Rattle.std.specs.List.{list_all, list_any};
ghost use Rattle.std.specs.FinMap as finmap;
ghost use Rattle.coda_fid.specs.Fid.{fid_cmp};
ghost use Rattle.coda_vv.specs.Vector.{includes};
ghost use Rattle.coda_reslog.specs.declared.change.Held.{Held};
ghost use Rattle.coda_resolve.specs.Copies.{vector_of, is_marked, first_some};
ghost use Rattle.coda_resolve.specs.Missing.{missing, wrapped};
ghost use Rattle.coda_resolve.specs.Merged.{merged, merged_bindings, attributes_of, first_of_copies};
ghost use Rattle.coda_resolve.specs.Causes.{cause, kept, wrapped_by, cross_rename, name_name, double_name, remove_update};
ghost use Rattle.coda_resolve.specs.Settling.{dominating, leaf_fate, dir_fate, fate, fate_from};
ghost use Rattle.coda_resolve.specs.Resolution.{copies_at, fate_at};
ghost use Rattle.coda_resolve.specs.Views.{replicas_of, AreInOrder};
ghost use Rattle.coda_resolve.specs.Lent.{lent};
ghost use Rattle.coda_resolve.specs.Reading.{AreKnown};
ghost use Rattle.coda_resolve.specs.Survey.{IsFateOf, IsOutlook};

use crate::causes::dir_fate;
use crate::copies::{lowest, some_marked, vector_of};
use crate::hints::{Hints, meet_all};
use crate::leaves::all_hold;
use crate::reading::{Known, is_known_at};
use crate::updated::includes;
use crate::view::copies_near;
use crate::why::Why;
use coda_fid::Fid;
use coda_record::View;
use coda_reslog::{Held, Ring};
use coda_tree::NodeKind;
use coda_vv::Vv;
use std::alloc::{AllocError, Global};

/// What becomes of an object at all replicas.
#[derive(Debug, Drop)]
pub enum Fate {
    /// All replicas hold this.
    Same(Held),
    /// All have it marked for the cause, each with what it held.
    Marked(Why),
    /// No replica holds it.
    Gone,
}

// ---- copies of what is held

// The same log, where there is one, in memory of its own.
fn copy_ring(ring: &Option<Ring>) -> Result<Option<Ring>, AllocError>
    ensures { IfOk result (λ copy. copy ≡ ring.now) }
{
    match ring {
        Some(ring) => {
            let copy = ring.copy()?;
            Ok(Some(copy))
        }
        None => Ok(None),
    }
}

// The same, in memory of its own.
pub(crate) fn copy_held(held: &Held) -> Result<Held, AllocError>
    ensures { IfOk result (λ copy. copy ≡ held.now) }
{
    let node = held.node.copy()?;
    let ring = copy_ring(&held.ring)?;
    Ok(Held {
        node,
        vector: held.vector,
        ring,
    })
}

// ---- files and links

// Whether the version has each update that is in one of the copies.
fn includes_all(vector: &Vv, copies: &[Option<&Held>]) -> bool
    ensures { result ≡ list_all (λ other. includes vector.now.0 (vector_of other)) (map option_copied copies.now) }
{
    match copies {
        [] => true,
        [first, rest @ ..] => { includes(vector, &vector_of(*first)) && includes_all(vector, rest) }
    }
}

// The copy, if it is there and has each update that is in one of all copies.
fn dominating<'a>(copy: Option<&'a Held>, all: &[Option<&'a Held>]) -> Option<&'a Held>
    ensures { option_copied result ≡ dominating (map option_copied all.now) (option_copied copy.entry) }
{
    let held = copy?;
    if includes_all(&held.vector, all) {
        Some(held)
    } else {
        None
    }
}

// The lowest of the copies that has each update that is in one of all copies.
fn newest<'a>(copies: &[Option<&'a Held>], all: &[Option<&'a Held>]) -> Option<&'a Held>
    ensures { option_copied result ≡ first_of_copies (dominating (map option_copied all.now)) (map option_copied copies.now) }
{
    match copies {
        [] => None,
        [first, rest @ ..] => match dominating(*first, all) {
            Some(held) => Some(held),
            None => newest(rest, all),
        },
    }
}

// What becomes of a file or link.
fn leaf_fate(copies: &[Option<&Held>]) -> Result<Fate, AllocError>
    ensures { IfOk result (λ fate. fate ≡ leaf_fate (list_any is_marked (map option_copied copies.now)) (first_of_copies (dominating (map option_copied copies.now)) (map option_copied copies.now))) }
{
    if some_marked(copies) {
        return Ok(Fate::Marked(Why::Kept));
    }
    match newest(copies, copies) {
        Some(held) => {
            let copy = copy_held(held)?;
            Ok(Fate::Same(copy))
        }
        None => Ok(Fate::Marked(Why::FileFile)),
    }
}

// ---- any object

// What becomes of the object with these copies, of which this is the lowest that is there.
fn fate_from(
    alloc: Global,
    views: &[View],
    copies: &[Option<&Held>],
    lowest: &Held,
) -> Result<Fate, AllocError>
    requires { AreInOrder views.now }
    ensures { IfOk result (λ fate. fate ≡ fate_from (map option_copied copies.now) (copies_at (replicas_of views.now)) (Some lowest.now)) }
{
    match &lowest.node.kind {
        NodeKind::File(_) => leaf_fate(copies),
        NodeKind::Link(_) => leaf_fate(copies),
        NodeKind::Dir(_) => dir_fate(alloc, views, copies),
    }
}

// What becomes of the object with these copies.
pub(crate) fn fate_of(
    alloc: Global,
    views: &[View],
    copies: &[Option<&Held>],
) -> Result<Fate, AllocError>
    requires { AreInOrder views.now }
    ensures { IfOk result (λ found. found ≡ fate (map option_copied copies.now) (copies_at (replicas_of views.now))) }
{
    match lowest(copies) {
        Some(held) => fate_from(alloc, views, copies, held),
        None => Ok(Fate::Gone),
    }
}

// What becomes of the object at all replicas, which is met then, and looked for first where the hints of each view say.
pub(crate) fn fate_near(
    alloc: Global,
    views: &[View],
    fid: Fid,
    hints: &mut [Hints],
    when: usize,
) -> Result<Fate, AllocError>
    requires { AreInOrder views.now }
    ensures { IfOk result (λ fate. fate ≡ fate_at (replicas_of views.now) fid) }
{
    let copies = copies_near(alloc, views, fid, hints, when)?;
    fate_of(alloc, views, &copies)
}

// What becomes of an object, unless it is known already; and whether it stays as all hold it.
#[derive(Drop)]
pub(crate) struct Outlook {
    pub(crate) fate: Option<Fate>,
    pub(crate) stays: bool,
}

// Whether the object stays as all replicas hold it. Where it isn't so, nothing is said.
fn stays(fate: &Fate, copies: &[Option<&Held>]) -> bool
    ensures { IsTrue result → IsFateOf fate.now (map option_copied copies.now) }
{
    match fate {
        Fate::Same(held) => all_hold(held, copies),
        Fate::Marked(_) => false,
        Fate::Gone => false,
    }
}

// The outlook of an object, which is met then, and looked for first where the hints of each view say.
pub(crate) fn look_ahead(
    alloc: Global,
    views: &[View],
    fid: Fid,
    known: &Known,
    hints: &mut [Hints],
    when: usize,
) -> Result<Outlook, AllocError>
    requires order { AreInOrder views.now }
    requires known { AreKnown (replicas_of views.now) known.now.changed.items known.now.sights.items }
    ensures { IfOk result (λ outlook. IsOutlook (replicas_of views.now) known.now.changed.items fid outlook.fate outlook.stays) }
{
    let place = meet_all(hints, fid, when);
    if is_known_at(&known.sights, place, fid) {
        return Ok(Outlook {
            fate: None,
            stays: true,
        });
    }
    let copies = copies_near(alloc, views, fid, hints, when)?;
    let fate = fate_of(alloc, views, &copies)?;
    let stays = stays(&fate, &copies);
    Ok(Outlook {
        fate: Some(fate),
        stays,
    })
}

/// What becomes of the object at all replicas, from what each of them holds, the lowest server first.
///
/// A directory is merged from the resolution logs where no cause of the table marks it (Kumar and Satyanarayanan 1993);
/// of a file or link the version that has all updates goes everywhere. The work is linear in what the directory binds at
/// the replicas and in the entries of its logs, times a logarithm.
///
/// # Errors
///
/// There is no memory.
pub fn fate_at(alloc: Global, views: &[View], fid: Fid) -> Result<Fate, AllocError>
    requires { AreInOrder views.now }
    ensures { IfOk result (λ fate. fate ≡ fate_at (replicas_of views.now) fid) }
{
    fate_near(alloc, views, fid, &mut [], 0)
}
