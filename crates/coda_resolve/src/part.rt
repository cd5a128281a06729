// What a resolution makes of one replica.
ghost use Rattle.std.specs.Prelude.{◌≡◌, ◌++◌, ◌∷◌, [], ◌||◌, true, not, cond, map, Bool, false, IsTrue, IfOk, OnOk, List};
ghost use Rattle.std.specs.List.{filter};
ghost use Rattle.std.specs.BTreeMap.{get};
ghost use Rattle.std.specs.FinMap as finmap;
ghost use Rattle.std.specs.FinMap.{is_sorted};
ghost use Rattle.coda_fid.specs.Fid.{fid_cmp};
ghost use Rattle.coda_fid.specs.declared.fid.Fid.{Fid};
ghost use Rattle.coda_resolve.specs.Counted.{has_fid, has_hashed};
ghost use Rattle.coda_resolve.specs.Outcome.{taken_up};
ghost use Rattle.coda_resolve.specs.Placement.{IsIn, AreTreesOfOneKind};
ghost use Rattle.coda_resolve.specs.Resolution.{Objects, Replicas};
ghost use Rattle.coda_resolve.specs.Changes.{is_among};
ghost use Rattle.coda_resolve.specs.Renewals.{IsRenewal, left_at, AreRenewed, is_mark, marked_among, IsPart};
ghost use Rattle.coda_resolve.specs.Survey.{ArePlain, AreOthersBut};
ghost use Rattle.coda_resolve.specs.Taken.{fids_of, AreFates};
ghost use Rattle.coda_resolve.specs.Views.{objects_in, objects_of, replicas_of, AreInOrder};

use crate::fate::Fate;
use crate::hints::{Hints, met_at, place};
use crate::reached::below;
use crate::renewal::{Renewal, renewal_of};
use crate::view::held_near;
use crate::walking::{Survey, Taken};
use coda_fid::Fid;
use coda_record::View;
use coda_reslog::{Change, Fids, Held, HeldObjects};
use std::alloc::{AllocError, Global};
use std::collections::{BTreeMap, BTreeSet, HashSet};

// The change of a replica, and the objects of which it then has another node, a new one, or none any more.
#[derive(Drop)]
pub(crate) struct Part {
    pub(crate) change: Change,
    pub(crate) touched: Vec<Fid>,
}

// What is held anew of some objects, and of which of them the node is another.
#[derive(Drop)]
pub(crate) struct Renewals {
    pub(crate) held: BTreeMap<Fid, Held>,
    pub(crate) touched: Vec<Fid>,
}

// ---- what is held anew

// Adds the fid where this is so.
fn add_where(fids: &mut Vec<Fid>, fid: Fid, so: bool) -> Result<(), AllocError>
    ensures { OnOk result (fids.new.items ≡ fids.old.items ++ cond so (fid ∷ []) []) }
{
    if so {
        fids.push(fid)?;
    }
    Ok(())
}

// Adds what is held anew of an object, where anything is.
pub(crate) fn add_renewal(
    held: &mut BTreeMap<Fid, Held>,
    touched: &mut Vec<Fid>,
    fid: Fid,
    renewal: Option<Renewal>,
) -> Result<(), AllocError>
    ensures { OnOk result ((views : Replicas) (view : Objects) (objects : List Fid) → IsRenewal (finmap.get view fid) (left_at views view fid) renewal → AreRenewed views view objects held.old touched.old.items → AreRenewed views view (objects ++ fid ∷ []) held.new touched.new.items) }
{
    let Some(renewal) = renewal else {
        return Ok(());
    };
    add_where(touched, fid, renewal.touched)?;
    held.insert(fid, renewal.held)?;
    Ok(())
}

// What the replica holds anew, with what it holds anew of the objects.
fn renewed(
    alloc: Global,
    views: &[View],
    view: &View,
    objects: &[Taken],
    hints: Option<&Hints>,
    own: Renewals,
) -> Result<Renewals, AllocError>
    requires order { AreInOrder views.now }
    requires sorted { is_sorted fid_cmp view.now.held ≡ true }
    requires fates { AreFates (replicas_of views.now) objects.now }
    ensures { IfOk result (λ renewed. (before : List Fid) → AreRenewed (replicas_of views.now) (objects_of view.now) before own.held own.touched.items → AreRenewed (replicas_of views.now) (objects_of view.now) (before ++ fids_of objects.now) renewed.held renewed.touched.items) }
{
    let mut held = own.held;
    let mut touched = own.touched;
    for object in objects {
        let near = place(hints, object.fid);
        let own = held_near(view.held.objects(), object.fid, near);
        let renewal = renewal_of(alloc, views, object.fid, &object.fate, own)?;
        add_renewal(&mut held, &mut touched, object.fid, renewal)?;
    }
    Ok(Renewals { held, touched })
}

// The objects in the order of their fids.
fn in_order(alloc: Global, held: BTreeMap<Fid, Held>) -> Result<HeldObjects, AllocError>
    ensures sorted { IfOk result (λ objects. is_sorted fid_cmp objects ≡ true) }
    ensures same { IfOk result (λ objects. (f : Fid) → finmap.get (objects_in objects) f ≡ get fid_cmp held f) }
{
    let mut items = Vec::with_capacity(alloc, held.len())?;
    for (fid, object) in held {
        items.push((fid, object))?;
    }
    Ok(HeldObjects::from_vec(items))
}

// ---- what goes

// Whether all replicas have the object marked.
fn is_mark(fate: &Fate) -> bool
    ensures { result ≡ is_mark fate.now }
{
    match fate {
        Fate::Same(_) => false,
        Fate::Marked(_) => true,
        Fate::Gone => false,
    }
}

// Those of the objects that all replicas have marked.
fn marked(alloc: Global, objects: &[Taken]) -> Result<Vec<Fid>, AllocError>
    ensures { IfOk result (λ fids. fids.items ≡ marked_among objects.now) }
{
    let mut fids = Vec::new(alloc);
    for object in objects {
        add_where(&mut fids, object.fid, is_mark(&object.fate))?;
    }
    Ok(fids)
}

// The fids, found by their hashes.
fn hashed(alloc: Global, fids: &[Fid]) -> Result<HashSet<Fid>, AllocError>
    ensures { IfOk result (λ set. (f : Fid) → has_hashed set f ≡ is_among fids.now f) }
{
    let mut set = HashSet::new(alloc);
    for fid in fids {
        set.insert(*fid)?;
    }
    Ok(set)
}

// Whether the object stands at a place of the list. Where it doesn't, nothing is said.
fn stands_at(fids: &[Fid], place: usize, fid: Fid) -> bool
    ensures { IsTrue result → is_among fids.now fid ≡ true }
{
    match fids.get(place) {
        Some(other) => *other == fid,
        None => false,
    }
}

// The objects of the replica, in their order, but for some that are among the fids: those that were met where the hints say.
fn unmet(
    alloc: Global,
    held: &[(Fid, Held)],
    hints: Option<&Hints>,
    fids: &[Fid],
) -> Result<Vec<Fid>, AllocError>
    ensures { IfOk result (λ unmet. (t : Fid → Bool) → ((f : Fid) → is_among fids.now f ≡ true → t f ≡ false) → filter t unmet.items ≡ filter t (map (λ object. object.0) held.now)) }
{
    let mut unmet = Vec::new(alloc);
    for place in 0..held.len() {
        let fid = held[place].0;
        let met = stands_at(fids, met_at(hints, place), fid);
        add_where(&mut unmet, fid, !met)?;
    }
    Ok(unmet)
}

// Those of the objects that aren't in the set, in their order.
fn outside(alloc: Global, objects: &[Fid], set: &HashSet<Fid>) -> Result<Vec<Fid>, AllocError>
    ensures { IfOk result (λ fids. fids.items ≡ filter (λ f. not (has_hashed set.now f)) objects.now) }
{
    let mut fids = Vec::new(alloc);
    for fid in objects {
        add_where(&mut fids, *fid, !set.contains(fid))?;
    }
    Ok(fids)
}

// Those of the objects that aren't among the others, in their order.
fn apart(alloc: Global, objects: &[Fid], others: &[Fid]) -> Result<Vec<Fid>, AllocError>
    ensures { IfOk result (λ fids. fids.items ≡ filter (λ f. not (is_among others.now f)) objects.now) }
{
    if objects.is_empty() {
        return Ok(Vec::new(alloc));
    }
    let others = hashed(alloc, others)?;
    outside(alloc, objects, &others)
}

// Those of the objects that aren't in the set, in their order.
fn gone(alloc: Global, objects: &[Fid], below: &BTreeSet<Fid>) -> Result<Vec<Fid>, AllocError>
    ensures { IfOk result (λ fids. fids.items ≡ filter (λ f. not (has_fid below.now f)) objects.now) }
{
    let mut fids = Vec::new(alloc);
    for fid in objects {
        add_where(&mut fids, *fid, !below.contains(fid))?;
    }
    Ok(fids)
}

// What is held anew, but of none of these objects.
fn forget(held: &mut BTreeMap<Fid, Held>, objects: &[Fid])
    ensures { (f : Fid) → get fid_cmp held.new f ≡ cond (is_among objects.now f) None (get fid_cmp held.old f) }
{
    for fid in objects {
        let _ = held.remove(fid);
    }
}

// What is held anew of those objects that are taken up: the others of the replica are these.
fn without(alloc: Global, own: Renewals, others: &[Fid]) -> Result<Renewals, AllocError>
    ensures { IfOk result (λ left. (views : Replicas) (view : Objects) (objects : List Fid) → AreRenewed views view objects own.held own.touched.items → AreRenewed views view (filter (λ f. not (is_among others.now f)) objects) left.held left.touched.items) }
{
    let mut held = own.held;
    forget(&mut held, others);
    let touched = apart(alloc, &own.touched, others)?;
    Ok(Renewals { held, touched })
}

// Adds the fids behind the others.
fn add_all(fids: &mut Vec<Fid>, more: &[Fid]) -> Result<(), AllocError>
    ensures { OnOk result (fids.new.items ≡ fids.old.items ++ more.now) }
{
    for fid in more {
        fids.push(*fid)?;
    }
    Ok(())
}

// ---- the replica

// What a resolution makes of one of the replicas, from what it takes up, and from what the replica holds anew of what is known.
pub(crate) fn part_of(
    alloc: Global,
    views: &[View],
    view: &View,
    survey: &Survey,
    changed: &[Fid],
    hints: Option<&Hints>,
    own: Renewals,
) -> Result<Part, AllocError>
    requires order { AreInOrder views.now }
    requires sorted { is_sorted fid_cmp view.now.held ≡ true }
    requires changed { ArePlain (replicas_of views.now) changed.now }
    requires others { AreOthersBut (replicas_of views.now) changed.now survey.now.fids.items survey.now.others.items }
    requires own { AreRenewed (replicas_of views.now) (objects_of view.now) changed.now own.held own.touched.items }
    ensures { IfOk result (λ part. (root : Fid) → AreTreesOfOneKind (replicas_of views.now) root → survey.now.fids.items ≡ taken_up (replicas_of views.now) root → IsIn (objects_of view.now) (replicas_of views.now) → IsPart (replicas_of views.now) root (objects_of view.now) part.change part.touched.items) }
{
    let marked = marked(alloc, &survey.others)?;
    let below = below(alloc, view, &marked)?;
    let unmet = unmet(alloc, view.held.objects(), hints, &survey.fids)?;
    let others = apart(alloc, &unmet, &survey.fids)?;
    let gone = gone(alloc, &others, &below)?;
    let own = without(alloc, own, &others)?;
    let renewed = renewed(alloc, views, view, &survey.others, hints, own)?;
    let mut touched = renewed.touched;
    add_all(&mut touched, &gone)?;
    let held = in_order(alloc, renewed.held)?;
    let change = Change {
        held,
        gone: Fids::from_vec(gone),
    };
    Ok(Part { change, touched })
}
