ghost use Rattle.std.specs.Prelude.{◌≡◌, ◌+◌, ◌<◌, ◌≤◌, ◌||◌, ℕ, IfOk, OnOk, IfSome, IfNone, length, Some, List};
ghost use Rattle.std.specs.Prelude as prelude;
ghost use Rattle.std.specs.List.{list_any, filter};
ghost use Rattle.std.specs.BTreeSet as tree_set;
ghost use Rattle.std.specs.Ordering.{eq_by_cmp};
ghost use Rattle.coda_fid.specs.declared.fid.Fid.{Fid};
ghost use Rattle.coda_fid.specs.Fid.{fid_cmp};
ghost use Rattle.coda_walk.specs.Going.{is_listed, blocks_of};
ghost use Rattle.coda_walk.specs.Planning.{candidate_cmp, candidate_of, is_candidate, fids_of, taken_with, takes, pinned_of, Taken, way_up};
ghost use Rattle.coda_walk.specs.Plannable.{ArePlannable};
ghost use Rattle.coda_walk.specs.Climbing.{IsIndex, AreChosen, unless, new_on, blocks_on};

use crate::Item;
use crate::candidate::Candidate;
use crate::index::{blocks, parent};
use crate::room::{add, listed};
use coda_fid::Fid;
use std::alloc::{AllocError, Global};
use std::cmp::Reverse;
use std::collections::{BTreeMap, BTreeSet};

// Who is kept and who is taken so far, and the room beside those that are kept.
#[derive(Drop)]
pub(crate) struct Chosen {
    pub kept: BTreeSet<Fid>,
    pub taken: BTreeSet<Fid>,
    pub room: u64,
}

// ---- candidates

// An item as a candidate.
fn candidate(item: &Item) -> Candidate
    ensures { result ≡ candidate_of item.now }
{
    Candidate {
        priority: Reverse(item.priority),
        fid: item.fid,
    }
}

// Adds one candidate.
fn add_one(into: &mut BTreeSet<Candidate>, candidate: Candidate) -> Result<(), AllocError>
    ensures { OnOk result ((q : Candidate) → tree_set.contains candidate_cmp into.new q ≡ (eq_by_cmp candidate_cmp candidate q || tree_set.contains candidate_cmp into.old q)) }
{
    into.insert(candidate)?;
    Ok(())
}

// The candidates in their order.
fn candidates(alloc: Global, items: &[Item]) -> Result<BTreeSet<Candidate>, AllocError>
    ensures { IfOk result (λ s. (q : Candidate) → tree_set.contains candidate_cmp s q ≡ list_any (λ k. eq_by_cmp candidate_cmp k q) (prelude.map candidate_of (filter is_candidate items.now))) }
{
    let mut set = BTreeSet::new(alloc);
    for item in items {
        if item.priority > 0 {
            add_one(&mut set, candidate(item))?;
        }
    }
    Ok(set)
}

// ---- what is above a candidate

// A fid, unless it is in the set.
fn unless(set: &BTreeSet<Fid>, fid: Option<Fid>) -> Option<Fid>
    ensures { result ≡ unless (tree_set.contains fid_cmp set.now) fid }
{
    match fid {
        Some(fid) => { if set.contains(&fid) { None } else { Some(fid) } }
        None => None,
    }
}

// An object and what is above it, up to the first that is kept.
fn new_above(
    alloc: Global,
    items: &[Item],
    index: &BTreeMap<Fid, Item>,
    kept: &BTreeSet<Fid>,
    fid: Fid,
) -> Result<Vec<Fid>, AllocError>
    requires { IsIndex index.now items.now }
    ensures { IfOk result (λ v. v.items ≡ new_on items.now (tree_set.contains fid_cmp kept.now) (length items.now) (unless (tree_set.contains fid_cmp kept.now) (Some fid))) }
{
    let mut way = Vec::new(alloc);
    let mut at = unless(kept, Some(fid));
    for _step in 0..items.len() {
        match at {
            Some(on) => {
                way.push(on)?;
                at = unless(kept, parent(items, index, on));
            }
            None => return Ok(way),
        }
    }
    Ok(way)
}

// The room that is left beside objects, where they fit.
fn room_beside(items: &[Item], index: &BTreeMap<Fid, Item>, fids: &[Fid], room: u64) -> Option<u64>
    requires { IsIndex index.now items.now }
    ensures some { IfSome result (λ left. left + blocks_on items.now fids.now ≡ room) }
    ensures none { IfNone result (room < blocks_on items.now fids.now) }
{
    let mut left = room;
    for fid in fids {
        let blocks = blocks(items, index, *fid) as u64;
        if blocks > left {
            return None;
        }
        left -= blocks;
    }
    Some(left)
}

// ---- taking

// Takes a candidate, where it and all above it fit beside what is kept.
fn take_one(
    alloc: Global,
    items: &[Item],
    index: &BTreeMap<Fid, Item>,
    chosen: &mut Chosen,
    fid: Fid,
) -> Result<(), AllocError>
    requires { IsIndex index.now items.now }
    ensures { (size : ℕ) (recency : List Fid) (t : Taken) → ArePlannable size items.now recency → AreChosen size items.now t chosen.old → OnOk result (AreChosen size items.now (taken_with size items.now t fid) chosen.new) }
{
    let above = new_above(alloc, items, index, &chosen.kept, fid)?;
    match room_beside(items, index, &above, chosen.room) {
        Some(room) => {
            add(&mut chosen.kept, &above)?;
            add(&mut chosen.taken, &[fid])?;
            chosen.room = room;
            Ok(())
        }
        None => Ok(()),
    }
}

// The fids of the pinned items.
fn pinned(alloc: Global, items: &[Item]) -> Result<Vec<Fid>, AllocError>
    ensures { IfOk result (λ v. v.items ≡ (pinned_of items.now).kept) }
{
    let mut fids = Vec::new(alloc);
    for item in items {
        if item.pinned {
            fids.push(item.fid)?;
        }
    }
    Ok(fids)
}

// The room beside the pinned items, where they fit.
fn room_beside_pinned(items: &[Item], size: u32) -> u64
    ensures { blocks_of (filter (λ i. i.pinned) items.now) ≤ size → result + blocks_of (filter (λ i. i.pinned) items.now) ≡ size }
{
    let mut room = size as u64;
    for item in items {
        if item.pinned {
            room = room.saturating_sub(item.blocks as u64);
        }
    }
    room
}

// Who is kept before a candidate is taken.
fn begin(alloc: Global, items: &[Item], size: u32) -> Result<Chosen, AllocError>
    ensures { (recency : List Fid) → ArePlannable size items.now recency → IfOk result (AreChosen size items.now (pinned_of items.now)) }
{
    let pinned = pinned(alloc, items)?;
    let kept = listed(alloc, &pinned)?;
    Ok(Chosen {
        kept,
        taken: BTreeSet::new(alloc),
        room: room_beside_pinned(items, size),
    })
}

// Who is kept and who is taken: the pinned objects, and then the candidates in their order that fit, with all above them.
pub(crate) fn take(
    alloc: Global,
    items: &[Item],
    index: &BTreeMap<Fid, Item>,
    size: u32,
) -> Result<Chosen, AllocError>
    requires { IsIndex index.now items.now }
    ensures { (recency : List Fid) → ArePlannable size items.now recency → IfOk result (AreChosen size items.now (takes size items.now)) }
{
    let mut chosen = begin(alloc, items, size)?;
    let candidates = candidates(alloc, items)?;
    for candidate in candidates.iter() {
        take_one(alloc, items, index, &mut chosen, candidate.fid)?;
    }
    Ok(chosen)
}
