// What a repair makes of each replica.
ghost use Rattle.std.specs.Prelude.{◌≡◌, ◌≤◌, ◌++◌, ◌∷◌, [], ◌&&◌, true, not, cond, map, ℕ, IfOk, OnOk, List, Option, Some, None};
ghost use Rattle.std.specs.List.{filter, AllZip};
ghost use Rattle.std.specs.BTreeMap.{get};
ghost use Rattle.std.specs.FinMap as finmap;
ghost use Rattle.std.specs.FinMap.{is_sorted};
ghost use Rattle.coda_fid.specs.Fid.{fid_cmp, same_fid};
ghost use Rattle.coda_fid.specs.declared.fid.Fid.{Fid};
ghost use Rattle.coda_reslog.specs.declared.change.Held.{Held};
ghost use Rattle.coda_reslog.specs.declared.change.Change.{Change};
ghost use Rattle.coda_record.specs.declared.view.View.{View};
ghost use Rattle.coda_resolve.specs.Counted.{has_fid};
ghost use Rattle.coda_resolve.specs.Placement.{IsIn};
ghost use Rattle.coda_resolve.specs.Reached.{AreReached};
ghost use Rattle.coda_resolve.specs.Resolution.{copies_at};
ghost use Rattle.coda_resolve.specs.Views.{objects_in, objects_of, replicas_of, AreInOrder};
ghost use Rattle.coda_repair.specs.Finding.{HaveRoom};
ghost use Rattle.coda_repair.specs.Making.{AreSame, ArePutFrom, PutsOne, SparesOne, SparesAll, gone_of};
ghost use Rattle.coda_repair.specs.Repaired.{changed_servers, servers_of, AreChangesOf, IsChangeOf};

use crate::reach::Reach;
use crate::spare::loser;
use crate::updates::repaired;
use coda_fid::Fid;
use coda_record::View;
use coda_reslog::{Change, Fids, Held, HeldObjects};
use coda_resolve::{below, held_in};
use std::alloc::{AllocError, Global};
use std::collections::{BTreeMap, BTreeSet};

// ---- what is put

// Adds what is put in place of an object, if the source has it.
fn put_one(
    alloc: Global,
    views: &[View],
    right: &View,
    from: u8,
    held: &mut BTreeMap<Fid, Held>,
    fid: Fid,
) -> Result<(), AllocError>
    requires order { AreInOrder views.now }
    requires sorted { is_sorted fid_cmp right.now.held ≡ true }
    requires from_one { 1 ≤ from }
    requires to_eight { from ≤ 8 }
    requires room { HaveRoom from views.now }
    ensures { OnOk result (PutsOne from views.now right.now fid held.old held.new) }
{
    let Some(was) = held_in(right.held.objects(), fid) else {
        return Ok(());
    };
    let new = repaired(alloc, views, from, fid, was)?;
    held.insert(fid, new)?;
    Ok(())
}

// What is put in place of the objects.
fn put(
    alloc: Global,
    views: &[View],
    right: &View,
    from: u8,
    fids: &[Fid],
) -> Result<BTreeMap<Fid, Held>, AllocError>
    requires order { AreInOrder views.now }
    requires sorted { is_sorted fid_cmp right.now.held ≡ true }
    requires from_one { 1 ≤ from }
    requires to_eight { from ≤ 8 }
    requires room { HaveRoom from views.now }
    ensures { IfOk result (λ held. ArePutFrom from views.now right.now fids.now held) }
{
    let mut held = BTreeMap::new(alloc);
    for fid in fids {
        put_one(alloc, views, right, from, &mut held, *fid)?;
    }
    Ok(held)
}

// ---- what loses

// Adds what comes in place of an object that isn't below a repaired one, if anything does.
fn spare_one(
    held: &mut BTreeMap<Fid, Held>,
    subtree: &BTreeSet<Fid>,
    below: &BTreeSet<Fid>,
    top: Fid,
    fid: Fid,
    own: &Held,
) -> Result<(), AllocError>
    ensures { OnOk result (SparesOne (has_fid subtree.now) (has_fid below.now) top fid own.now held.old held.new) }
{
    if below.contains(&fid) {
        return Ok(());
    }
    if let Some(spare) = loser(subtree, top, own)? {
        held.insert(fid, spare)?;
    }
    Ok(())
}

// Adds what comes in place of the objects of a replica that aren't below repaired ones.
fn spare(
    held: &mut BTreeMap<Fid, Held>,
    view: &View,
    subtree: &BTreeSet<Fid>,
    below: &BTreeSet<Fid>,
    top: Fid,
) -> Result<(), AllocError>
    requires { is_sorted fid_cmp view.now.held ≡ true }
    ensures { OnOk result (SparesAll (has_fid subtree.now) (has_fid below.now) top view.now held.old held.new) }
{
    let objects = view.held.objects();
    for place in 0..objects.len() {
        let object = &objects[place];
        spare_one(held, subtree, below, top, object.0, &object.1)?;
    }
    Ok(())
}

// ---- the change

// The objects of the replica that go: those below repaired ones that aren't repaired themselves.
fn gone(
    alloc: Global,
    view: &View,
    subtree: &BTreeSet<Fid>,
    below: &BTreeSet<Fid>,
) -> Result<Vec<Fid>, AllocError>
    ensures { IfOk result (λ fids. fids.items ≡ gone_of (has_fid subtree.now) (has_fid below.now) view.now) }
{
    let objects = view.held.objects();
    let mut fids = Vec::new(alloc);
    for place in 0..objects.len() {
        let fid = objects[place].0;
        if below.contains(&fid) && !subtree.contains(&fid) {
            fids.push(fid)?;
        }
    }
    Ok(fids)
}

// The objects in the order of their fids.
fn in_order(alloc: Global, held: BTreeMap<Fid, Held>) -> Result<HeldObjects, AllocError>
    ensures sorted { IfOk result (λ objects. is_sorted fid_cmp objects ≡ true) }
    ensures same { IfOk result (λ objects. (f : Fid) → finmap.get (objects_in objects) f ≡ get fid_cmp held f) }
{
    let mut items = Vec::with_capacity(alloc, held.len())?;
    for (fid, object) in held {
        items.push((fid, object))?;
    }
    Ok(HeldObjects::from_vec(items))
}

// The change of one of the replicas.
fn change_of(
    alloc: Global,
    views: &[View],
    right: &View,
    from: u8,
    subtree: &Reach,
    top: Fid,
    view: &View,
) -> Result<Change, AllocError>
    requires order { AreInOrder views.now }
    requires sorted { is_sorted fid_cmp right.now.held ≡ true }
    requires own { is_sorted fid_cmp view.now.held ≡ true }
    requires from_one { 1 ≤ from }
    requires to_eight { from ≤ 8 }
    requires room { HaveRoom from views.now }
    requires same { AreSame subtree.now.set subtree.now.fids.items }
    ensures { IfOk result (IsChangeOf views.now from right.now (has_fid subtree.now.set) top view.now) }
{
    let below = below(alloc, view, &subtree.fids)?;
    let mut held = put(alloc, views, right, from, &subtree.fids)?;
    spare(&mut held, view, &subtree.set, &below, top)?;
    let gone = gone(alloc, view, &subtree.set, &below)?;
    let held = in_order(alloc, held)?;
    Ok(Change {
        held,
        gone: Fids::from_vec(gone),
    })
}

// The changes of the replicas, each with its server.
pub(crate) fn changes_of(
    alloc: Global,
    views: &[View],
    right: &View,
    from: u8,
    subtree: &Reach,
    top: Fid,
) -> Result<Vec<(u8, Change)>, AllocError>
    requires order { AreInOrder views.now }
    requires sorted { is_sorted fid_cmp right.now.held ≡ true }
    requires from_one { 1 ≤ from }
    requires to_eight { from ≤ 8 }
    requires room { HaveRoom from views.now }
    requires same { AreSame subtree.now.set subtree.now.fids.items }
    ensures servers { IfOk result (λ changes. changed_servers changes.items ≡ servers_of views.now) }
    ensures changes { IfOk result (λ all. AreChangesOf views.now from right.now (has_fid subtree.now.set) top all.items) }
{
    let mut changes = Vec::new(alloc);
    for view in views {
        let change = change_of(alloc, views, right, from, subtree, top, view)?;
        changes.push((view.server, change))?;
    }
    Ok(changes)
}
