// The least object that a merged directory binds twice, or binds though a missing update took it out or though a replica has it
// elsewhere.
ghost use Rattle.std.specs.Prelude.{◌≡◌, ◌++◌, ◌∷◌, [], true, not, IsTrue, IsSome, option_copied, map, IfOk, OnOk, List, Option, None, nat_le, ◌||◌, ◌&&◌};
ghost use Rattle.std.specs.List.{filter, flat_map, fold, list_any, zip};
ghost use Rattle.std.specs.FinMap as finmap;
ghost use Rattle.std.specs.FinMap.{is_sorted};
ghost use Rattle.coda_fid.specs.Fid.{fid_cmp, same_fid};
ghost use Rattle.coda_fid.specs.declared.fid.Fid.{Fid};
ghost use Rattle.coda_resolve.specs.Copies.{bindings_of};
ghost use Rattle.coda_resolve.specs.Missing.{missing};
ghost use Rattle.coda_resolve.specs.Merged.{merged_bindings};
ghost use Rattle.coda_resolve.specs.Causes.{least, least_with, fids_lost, times, is_elsewhere, is_double};
ghost use Rattle.coda_resolve.specs.Lent.{lent};
ghost use Rattle.coda_resolve.specs.Changes.{is_among};
ghost use Rattle.coda_resolve.specs.Counted.{has_fid, AreFids, AreTwice, AreLeftOf, is_in_one};
ghost use Rattle.coda_resolve.specs.Resolution.{copies_at, has_in};
ghost use Rattle.coda_resolve.specs.Views.{objects_of, replicas_of, AreInOrder};

use crate::view::held_in;
use coda_fid::Fid;
use coda_record::View;
use coda_reslog::{Held, Lost, ResEntry};
use coda_tree::{Entries, NodeKind};
use std::alloc::{AllocError, Global};
use std::cmp::Ordering;
use std::collections::BTreeSet;

// The least fid so far, or this one where it is less.
pub(crate) fn lesser(least: Option<Fid>, fid: Fid) -> Option<Fid>
    ensures { result ≡ least_with fid_cmp least fid }
{
    let Some(other) = least else {
        return Some(fid);
    };
    match other.cmp(&fid) {
        Ordering::Less => Some(other),
        Ordering::Equal => Some(other),
        Ordering::Greater => Some(fid),
    }
}

// The fids that a directory binds, in the order of their names.
pub(crate) fn values(alloc: Global, entries: &Entries) -> Result<Vec<Fid>, AllocError>
    ensures { IfOk result (λ fids. fids.items ≡ finmap.values entries.now) }
{
    let mut fids = Vec::new(alloc);
    for index in 0..entries.len() {
        let Some((_, fid)) = entries.at(index) else {
            unreachable!()
        };
        fids.push(fid)?;
    }
    Ok(fids)
}

// Adds a fid to those met once and, where it was there, to those met twice.
fn add_fid(once: &mut BTreeSet<Fid>, twice: &mut BTreeSet<Fid>, fid: Fid) -> Result<(), AllocError>
    ensures { OnOk result ((fids : List Fid) → AreTwice once.old twice.old fids → AreTwice once.new twice.new (fids ++ fid ∷ [])) }
{
    let added = once.insert(fid)?;
    if !added {
        twice.insert(fid)?;
    }
    Ok(())
}

// The fids that stand more than once in the list.
fn twice(alloc: Global, fids: &[Fid]) -> Result<BTreeSet<Fid>, AllocError>
    ensures { IfOk result (λ twice. (f : Fid) → has_fid twice f ≡ nat_le 2 (times f fids.now)) }
{
    let mut once = BTreeSet::new(alloc);
    let mut twice = BTreeSet::new(alloc);
    for fid in fids {
        add_fid(&mut once, &mut twice, *fid)?;
    }
    Ok(twice)
}

// Adds the object that an update took out.
fn add_lost(fids: &mut BTreeSet<Fid>, lost: &Option<Lost>) -> Result<(), AllocError>
    ensures { OnOk result ((before : List Fid) → AreFids fids.old before → AreFids fids.new (before ++ fids_lost lost.now)) }
{
    if let Some(lost) = lost {
        fids.insert(lost.fid)?;
    }
    Ok(())
}

// The objects that the updates took out.
fn lost(alloc: Global, updates: &[&ResEntry]) -> Result<BTreeSet<Fid>, AllocError>
    ensures { IfOk result (λ fids. AreFids fids (flat_map (λ u. fids_lost u.lost) (lent updates.now))) }
{
    let mut fids = BTreeSet::new(alloc);
    for update in updates {
        add_lost(&mut fids, &update.lost)?;
    }
    Ok(fids)
}

// ---- objects that a replica has elsewhere

// Adds a fid.
fn add_one(set: &mut BTreeSet<Fid>, fid: Fid) -> Result<(), AllocError>
    ensures { OnOk result ((before : List Fid) → AreFids set.old before → AreFids set.new (before ++ fid ∷ [])) }
{
    set.insert(fid)?;
    Ok(())
}

// The set of these fids.
fn set_of(alloc: Global, fids: &[Fid]) -> Result<BTreeSet<Fid>, AllocError>
    ensures { IfOk result (λ set. AreFids set fids.now) }
{
    let mut set = BTreeSet::new(alloc);
    for fid in fids {
        add_one(&mut set, *fid)?;
    }
    Ok(set)
}

// The set of what the entries bind.
fn bound_by(alloc: Global, entries: &Entries) -> Result<BTreeSet<Fid>, AllocError>
    ensures { IfOk result (λ fids. AreFids fids (finmap.values entries.now)) }
{
    let fids = values(alloc, entries)?;
    set_of(alloc, &fids)
}

// Whether the entries bind the fid at a place.
fn is_at(entries: &Entries, place: usize, fid: Fid) -> bool
    ensures { IsTrue result → is_among (finmap.values entries.now) fid ≡ true }
{
    match entries.at(place) {
        Some((_, bound)) => bound == fid,
        None => false,
    }
}

// Where to look for the next fid, if the entries bind this one at the place or behind it. Where it isn't so, nothing is said.
fn next_place(entries: &Entries, place: usize, fid: Fid) -> Option<usize>
    ensures { IsSome result → is_among (finmap.values entries.now) fid ≡ true }
{
    let after = place.saturating_add(1);
    if is_at(entries, place, fid) {
        return Some(after);
    }
    if is_at(entries, after, fid) {
        return Some(after.saturating_add(1));
    }
    None
}

// Adds the fid to those that may not be bound, unless the entries bind it near the place, and answers where to look for the next one.
fn sort_out(
    left: &mut Vec<Fid>,
    entries: &Entries,
    place: usize,
    fid: Fid,
) -> Result<usize, AllocError>
    ensures { OnOk result ((fids : List Fid) → AreLeftOf entries.now fids left.old.items → AreLeftOf entries.now (fids ++ fid ∷ []) left.new.items) }
{
    match next_place(entries, place, fid) {
        Some(next) => Ok(next),
        None => {
            left.push(fid)?;
            Ok(place)
        }
    }
}

// Those of the fids that the entries may not bind. Both lists are gone through side by side: of two directories that bind alike but for some names
// nothing but these names is left.
fn left_of(alloc: Global, entries: &Entries, fids: &[Fid]) -> Result<Vec<Fid>, AllocError>
    ensures { IfOk result (λ left. AreLeftOf entries.now fids.now left.items) }
{
    let mut left = Vec::new(alloc);
    let mut place = 0;
    for fid in fids {
        place = sort_out(&mut left, entries, place, *fid)?;
    }
    Ok(left)
}

// Whether the replica has the object.
fn has(view: &View, fid: Fid) -> bool
    requires { is_sorted fid_cmp view.now.held ≡ true }
    ensures { result ≡ has_in (objects_of view.now) fid }
{
    match held_in(view.held.objects(), fid) {
        Some(_) => true,
        None => false,
    }
}

// Those of the fids that the replica has.
fn those_there(alloc: Global, view: &View, fids: &[Fid]) -> Result<Vec<Fid>, AllocError>
    requires { is_sorted fid_cmp view.now.held ≡ true }
    ensures { IfOk result (λ there. there.items ≡ filter (has_in (objects_of view.now)) fids.now) }
{
    let mut there = Vec::new(alloc);
    for fid in fids {
        if has(view, *fid) {
            there.push(*fid)?;
        }
    }
    Ok(there)
}

// Adds the fid, unless it is in the second set.
fn with_other(
    mut elsewhere: BTreeSet<Fid>,
    own: &BTreeSet<Fid>,
    fid: Fid,
) -> Result<BTreeSet<Fid>, AllocError>
    ensures { IfOk result (λ all. (f : Fid) → has_fid all f ≡ (has_fid elsewhere f || (same_fid f fid && not (has_fid own.now f)))) }
{
    if own.contains(&fid) {
        return Ok(elsewhere);
    }
    elsewhere.insert(fid)?;
    Ok(elsewhere)
}

// Adds those of the fids that aren't in the second set.
fn with_others(
    elsewhere: BTreeSet<Fid>,
    own: &BTreeSet<Fid>,
    fids: &[Fid],
) -> Result<BTreeSet<Fid>, AllocError>
    ensures { IfOk result (λ all. (f : Fid) → has_fid all f ≡ (has_fid elsewhere f || (is_among fids.now f && not (has_fid own.now f)))) }
{
    let mut elsewhere = elsewhere;
    for fid in fids {
        elsewhere = with_other(elsewhere, own, *fid)?;
    }
    Ok(elsewhere)
}

// Adds those of the fids that the entries don't bind.
fn with_unbound(
    alloc: Global,
    elsewhere: BTreeSet<Fid>,
    own: &Entries,
    fids: &[Fid],
) -> Result<BTreeSet<Fid>, AllocError>
    ensures { IfOk result (λ all. (f : Fid) → has_fid all f ≡ (has_fid elsewhere f || (is_among fids.now f && not (is_among (finmap.values own.now) f)))) }
{
    match fids {
        [] => Ok(elsewhere),
        [_, ..] => {
            let bound = bound_by(alloc, own)?;
            let all = with_others(elsewhere, &bound, fids)?;
            Ok(all)
        }
    }
}

// Adds those of the fids that the replica has, where its copy of the directory binds these entries and not them.
fn with_entries(
    alloc: Global,
    elsewhere: BTreeSet<Fid>,
    view: &View,
    own: &Entries,
    fids: &[Fid],
) -> Result<BTreeSet<Fid>, AllocError>
    requires { is_sorted fid_cmp view.now.held ≡ true }
    ensures { IfOk result (λ all. (f : Fid) → has_fid all f ≡ (has_fid elsewhere f || (is_among fids.now f && (has_in (objects_of view.now) f && not (is_among (finmap.values own.now) f))))) }
{
    let left = left_of(alloc, own, fids)?;
    let there = those_there(alloc, view, &left)?;
    let all = with_unbound(alloc, elsewhere, own, &there)?;
    Ok(all)
}

// Adds those of the fids that the replica has elsewhere: its copy of the directory doesn't bind them.
fn with_replica(
    alloc: Global,
    elsewhere: BTreeSet<Fid>,
    view: &View,
    copy: Option<&Held>,
    fids: &[Fid],
) -> Result<BTreeSet<Fid>, AllocError>
    requires { is_sorted fid_cmp view.now.held ≡ true }
    ensures { IfOk result (λ all. (f : Fid) → has_fid all f ≡ (has_fid elsewhere f || (is_among fids.now f && is_elsewhere f (option_copied copy.entry, finmap.get (objects_of view.now) f)))) }
{
    match copy {
        Some(held) => match &held.node.kind {
            NodeKind::Dir(own) => with_entries(alloc, elsewhere, view, own, fids),
            NodeKind::File(_) => {
                with_entries(alloc, elsewhere, view, &Entries::new(alloc), fids)
            }
            NodeKind::Link(_) => {
                with_entries(alloc, elsewhere, view, &Entries::new(alloc), fids)
            }
        },
        None => with_entries(alloc, elsewhere, view, &Entries::new(alloc), fids),
    }
}

// Adds those of the fids that one of the replicas has elsewhere.
fn with_replicas(
    alloc: Global,
    elsewhere: BTreeSet<Fid>,
    views: &[View],
    copies: &[Option<&Held>],
    fids: &[Fid],
) -> Result<BTreeSet<Fid>, AllocError>
    requires { AreInOrder views.now }
    ensures { IfOk result (λ all. (f : Fid) → has_fid all f ≡ (has_fid elsewhere f || (is_among fids.now f && list_any (is_elsewhere f) (zip (map option_copied copies.now) (copies_at (replicas_of views.now) f))))) }
{
    match copies {
        [] => Ok(elsewhere),
        [copy, copies @ ..] => match views {
            [] => Ok(elsewhere),
            [view, views @ ..] => {
                let elsewhere = with_replica(alloc, elsewhere, view, *copy, fids)?;
                with_replicas(alloc, elsewhere, views, copies, fids)
            }
        },
    }
}

// ---- the least

// Whether the fid is in one of the sets.
fn in_one(twice: &BTreeSet<Fid>, lost: &BTreeSet<Fid>, elsewhere: &BTreeSet<Fid>, fid: Fid) -> bool
    ensures { result ≡ is_in_one twice.now lost.now elsewhere.now fid }
{
    twice.contains(&fid) || lost.contains(&fid) || elsewhere.contains(&fid)
}

// The least fid so far, or this one where it is less and in one of the sets.
fn with_fid(
    least: Option<Fid>,
    fid: Fid,
    twice: &BTreeSet<Fid>,
    lost: &BTreeSet<Fid>,
    elsewhere: &BTreeSet<Fid>,
) -> Option<Fid>
    ensures { result ≡ fold (least_with fid_cmp) least (filter (is_in_one twice.now lost.now elsewhere.now) (fid ∷ [])) }
{
    if in_one(twice, lost, elsewhere, fid) {
        lesser(least, fid)
    } else {
        least
    }
}

// The least fid that is in one of the sets.
fn least_in(
    fids: &[Fid],
    twice: &BTreeSet<Fid>,
    lost: &BTreeSet<Fid>,
    elsewhere: &BTreeSet<Fid>,
) -> Option<Fid>
    ensures { result ≡ least fid_cmp (filter (is_in_one twice.now lost.now elsewhere.now) fids.now) }
{
    let mut least = None;
    for fid in fids {
        least = with_fid(least, *fid, twice, lost, elsewhere);
    }
    least
}

// The least object that the entries bind twice, or bind though one of the updates took it out or though a replica has it elsewhere.
// A copy that binds as the entries do costs one comparison of what they bind; of another each fid that it may not bind is looked up at its
// replica, and only if that has one of these, they are looked for in all that the copy binds.
pub(crate) fn least_double(
    alloc: Global,
    views: &[View],
    copies: &[Option<&Held>],
    entries: &Entries,
    updates: &[&ResEntry],
) -> Result<Option<Fid>, AllocError>
    requires order { AreInOrder views.now }
    requires updates { lent updates.now ≡ missing (map option_copied copies.now) }
    requires entries { entries.now ≡ merged_bindings (map option_copied copies.now) }
    ensures { IfOk result (λ found. found ≡ least fid_cmp (filter (is_double (map option_copied copies.now) (copies_at (replicas_of views.now))) (finmap.values (merged_bindings (map option_copied copies.now))))) }
{
    let fids = values(alloc, entries)?;
    let twice = twice(alloc, &fids)?;
    let lost = lost(alloc, updates)?;
    let elsewhere = with_replicas(alloc, BTreeSet::new(alloc), views, copies, &fids)?;
    Ok(least_in(&fids, &twice, &lost, &elsewhere))
}
