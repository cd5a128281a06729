ghost use Rattle.std.specs.Prelude.{◌≡◌, ◌||◌, ◌++◌, [], ℕ, IfOk, OnOk, length, List};
ghost use Rattle.std.specs.Prelude as prelude;
ghost use Rattle.std.specs.List.{list_any, filter, filter_map, cons_option};
ghost use Rattle.std.specs.BTreeSet as tree_set;
ghost use Rattle.std.specs.Ordering.{eq_by_cmp};
ghost use Rattle.coda_fid.specs.declared.fid.Fid.{Fid};
ghost use Rattle.coda_fid.specs.Fid.{fid_cmp};
ghost use Rattle.coda_walk.specs.declared.item.Item.{Item};
ghost use Rattle.coda_walk.specs.declared.candidate.Place.{Place};
ghost use Rattle.coda_walk.specs.Going.{is_listed};
ghost use Rattle.coda_walk.specs.Planning.{item_at, fids_of, way_up, drops, is_fetched, is_kept, parents_first, place_of, place_cmp, plan, Taken};
ghost use Rattle.coda_walk.specs.Plannable.{ArePlannable};
ghost use Rattle.coda_walk.specs.Climbing.{IsIndex, AreChosen, is_new, fetched_by, stays_by};

use crate::candidate::Place;
use crate::index::{by_fid, parent};
use crate::room::{going, listed};
use crate::taking::{Chosen, take};
use crate::{Item, Plan};
use coda_fid::Fid;
use std::alloc::{AllocError, Global};
use std::collections::{BTreeMap, BTreeSet};

// ---- who goes

// The item of an object.
fn item(items: &[Item], index: &BTreeMap<Fid, Item>, fid: Fid) -> Option<Item>
    requires { IsIndex index.now items.now }
    ensures { result ≡ item_at items.now fid }
{
    index.get(&fid).copied()
}

// Adds an item, where there is one.
fn add_found(into: &mut Vec<Item>, item: Option<Item>) -> Result<(), AllocError>
    ensures { OnOk result (into.new.items ≡ into.old.items ++ cons_option item []) }
{
    match item {
        Some(item) => {
            into.push(item)?;
            Ok(())
        }
        None => Ok(()),
    }
}

// The items of objects that were used, in the order of their use.
fn used(
    alloc: Global,
    items: &[Item],
    index: &BTreeMap<Fid, Item>,
    recency: &[Fid],
) -> Result<Vec<Item>, AllocError>
    requires { IsIndex index.now items.now }
    ensures { IfOk result (λ v. v.items ≡ filter_map (item_at items.now) recency.now) }
{
    let mut used = Vec::new(alloc);
    for fid in recency {
        add_found(&mut used, item(items, index, *fid))?;
    }
    Ok(used)
}

// Adds the items that are kept and not cached.
fn add_kept(stake: &mut Vec<Item>, items: &[Item], kept: &BTreeSet<Fid>) -> Result<(), AllocError>
    ensures { OnOk result (stake.new.items ≡ stake.old.items ++ filter (is_new (tree_set.contains fid_cmp kept.now)) items.now) }
{
    for item in items {
        if !item.cached && kept.contains(&item.fid) {
            stake.push(*item)?;
        }
    }
    Ok(())
}

// ---- who is fetched

// Whether an item is fetched.
fn is_fetched(chosen: &Chosen, item: &Item) -> bool
    ensures { result ≡ fetched_by (tree_set.contains fid_cmp chosen.now.taken) (tree_set.contains fid_cmp chosen.now.kept) item.now }
{
    chosen.taken.contains(&item.fid) && !(item.served || item.pinned)
        || chosen.kept.contains(&item.fid) && !item.cached
}

// How long the way up from an object is.
fn depth(items: &[Item], index: &BTreeMap<Fid, Item>, fid: Fid) -> usize
    requires { IsIndex index.now items.now }
    ensures { result ≡ length (way_up items.now fid) }
{
    let mut at = Some(fid);
    for step in 0..items.len() {
        match at {
            Some(on) => at = parent(items, index, on),
            None => return step,
        }
    }
    items.len()
}

// Where an item stands.
fn place(items: &[Item], index: &BTreeMap<Fid, Item>, item: &Item) -> Place
    requires { IsIndex index.now items.now }
    ensures { result ≡ place_of items.now item.now }
{
    Place {
        depth: depth(items, index, item.fid),
        fid: item.fid,
    }
}

// Adds one place.
fn add_one(into: &mut BTreeSet<Place>, place: Place) -> Result<(), AllocError>
    ensures { OnOk result ((q : Place) → tree_set.contains place_cmp into.new q ≡ (eq_by_cmp place_cmp place q || tree_set.contains place_cmp into.old q)) }
{
    into.insert(place)?;
    Ok(())
}

// The places of the items that are fetched.
fn places(
    alloc: Global,
    items: &[Item],
    index: &BTreeMap<Fid, Item>,
    chosen: &Chosen,
) -> Result<BTreeSet<Place>, AllocError>
    requires { IsIndex index.now items.now }
    ensures { IfOk result (λ s. (q : Place) → tree_set.contains place_cmp s q ≡ list_any (λ k. eq_by_cmp place_cmp k q) (prelude.map (place_of items.now) (filter (fetched_by (tree_set.contains fid_cmp chosen.now.taken) (tree_set.contains fid_cmp chosen.now.kept)) items.now))) }
{
    let mut places = BTreeSet::new(alloc);
    for item in items {
        if is_fetched(chosen, item) {
            add_one(&mut places, place(items, index, item))?;
        }
    }
    Ok(places)
}

// The objects that stand at places.
fn standing_at(alloc: Global, places: &BTreeSet<Place>) -> Result<Vec<Fid>, AllocError>
    ensures fids { IfOk result (λ v. v.items ≡ prelude.map (λ (p : Place). p.fid) places.now.keys) }
    ensures ordered { tree_set.IsOrdered place_cmp places.now }
{
    let mut fids = Vec::new(alloc);
    for place in places.iter() {
        fids.push(place.fid)?;
    }
    Ok(fids)
}

// ---- who stays

// Whether an item is cached, and is neither fetched nor goes.
fn stays(chosen: &Chosen, gone: &BTreeSet<Fid>, item: &Item) -> bool
    ensures { result ≡ stays_by (tree_set.contains fid_cmp chosen.now.taken) (tree_set.contains fid_cmp chosen.now.kept) (tree_set.contains fid_cmp gone.now) item.now }
{
    item.cached && !is_fetched(chosen, item) && !gone.contains(&item.fid)
}

// The cached objects that are neither fetched nor go.
fn staying(
    alloc: Global,
    items: &[Item],
    chosen: &Chosen,
    gone: &BTreeSet<Fid>,
) -> Result<Vec<Fid>, AllocError>
    ensures { IfOk result (λ v. v.items ≡ fids_of (filter (stays_by (tree_set.contains fid_cmp chosen.now.taken) (tree_set.contains fid_cmp chosen.now.kept) (tree_set.contains fid_cmp gone.now)) items.now)) }
{
    let mut fids = Vec::new(alloc);
    for item in items {
        if stays(chosen, gone, item) {
            fids.push(item.fid)?;
        }
    }
    Ok(fids)
}

// ---- the plan

// Who goes: of the cached objects that are not kept, as few as make the rest fit.
fn drops(
    alloc: Global,
    items: &[Item],
    index: &BTreeMap<Fid, Item>,
    recency: &[Fid],
    kept: &BTreeSet<Fid>,
    size: u32,
) -> Result<Vec<Fid>, AllocError>
    requires { IsIndex index.now items.now }
    ensures { (fids : List Fid) → ((f : Fid) → tree_set.contains fid_cmp kept.now f ≡ is_listed fids f) → IfOk result (λ v. v.items ≡ drops size items.now recency.now fids) }
{
    let mut stake = used(alloc, items, index, recency)?;
    add_kept(&mut stake, items, kept)?;
    going(alloc, size as u64, kept, &stake)
}

// Who is fetched.
fn fetched(
    alloc: Global,
    items: &[Item],
    index: &BTreeMap<Fid, Item>,
    chosen: &Chosen,
) -> Result<Vec<Fid>, AllocError>
    requires { IsIndex index.now items.now }
    ensures { (size : ℕ) (t : Taken) → AreChosen size items.now t chosen.now → IfOk result (λ v. v.items ≡ parents_first items.now (filter (is_fetched t) items.now)) }
{
    let places = places(alloc, items, index, chosen)?;
    standing_at(alloc, &places)
}

// Who stays as it is.
fn kept(
    alloc: Global,
    items: &[Item],
    chosen: &Chosen,
    gone: &[Fid],
) -> Result<Vec<Fid>, AllocError>
    ensures { (size : ℕ) (t : Taken) → AreChosen size items.now t chosen.now → IfOk result (λ v. v.items ≡ fids_of (filter (is_kept t gone.now) items.now)) }
{
    let gone = listed(alloc, gone)?;
    staying(alloc, items, chosen, &gone)
}

/// The plan of a hoard walk over objects, of which the cached ones were used in this order, for a cache of so many blocks
/// (Kistler and Satyanarayanan 1992). Fails for want of memory alone.
///
/// Pinned objects are kept. Candidates, which are the objects with a priority, are taken by priority, the greatest first, and
/// then by fid, the smallest first, each where it and all above it fit beside the pinned ones and the candidates taken
/// before it. Other cached objects go until the rest fits. The clauses speak of objects that a plan can be made for: see
/// `ArePlannable`.
pub fn plan(alloc: Global, items: &[Item], recency: &[Fid], size: u32) -> Result<Plan, AllocError>
    ensures keep { ArePlannable size items.now recency.now → IfOk result (λ p. p.keep.items ≡ (plan size items.now recency.now).keep) }
    ensures fetch { ArePlannable size items.now recency.now → IfOk result (λ p. p.fetch.items ≡ (plan size items.now recency.now).fetch) }
    ensures drop { ArePlannable size items.now recency.now → IfOk result (λ p. p.drop.items ≡ (plan size items.now recency.now).drop) }
{
    let index = by_fid(alloc, items)?;
    let chosen = take(alloc, items, &index, size)?;
    let drop = drops(alloc, items, &index, recency, &chosen.kept, size)?;
    let fetch = fetched(alloc, items, &index, &chosen)?;
    let keep = kept(alloc, items, &chosen, &drop)?;
    Ok(Plan { keep, fetch, drop })
}
