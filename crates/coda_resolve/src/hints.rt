// Where the objects of a view may well be found, and when they were met. No clause speaks of these: who is given a wrong one looks
// further.
use coda_fid::Fid;
use coda_record::View;
use coda_reslog::Held;
use std::alloc::{AllocError, Global};

// Of a view, keys of its objects close together, where to look for the next one, and when each was met.
#[derive(Drop)]
pub(crate) struct Hints {
    keys: Vec<u64>,
    near: usize,
    met: Vec<usize>,
}

// ---- keys in order

// A number that is greater for a greater fid of the same volume.
fn key_of(fid: Fid) -> u64 {
    u64::from(fid.vnode)
        .wrapping_mul(4294967296)
        .wrapping_add(u64::from(fid.uniq))
}

// The keys of the objects, in their order.
fn keys_of(alloc: Global, items: &[(Fid, Held)]) -> Result<Vec<u64>, AllocError> {
    let mut keys = Vec::with_capacity(alloc, items.len())?;
    for object in items {
        keys.push(key_of(object.0))?;
    }
    Ok(keys)
}

// Whether the key is at the place.
fn is_at(keys: &[u64], key: u64, at: usize) -> bool {
    match keys.get(at) {
        Some(here) => *here == key,
        None => false,
    }
}

// Whether the key is at the place or behind it.
fn is_from(keys: &[u64], key: u64, at: usize) -> bool {
    match keys.get(at) {
        Some(here) => *here <= key,
        None => false,
    }
}

// The first place from the one up to the other whose key isn't less.
fn place_between(keys: &[u64], key: u64, from: usize, to: usize) -> usize {
    let (mut low, mut high) = (from, to);
    for _ in 0..64 {
        if low >= high {
            return low;
        }
        let mid = low + (high - low) / 2;
        if is_from(keys, key, mid) && !is_at(keys, key, mid) {
            low = mid + 1;
        } else {
            high = mid;
        }
    }
    low
}

// Where the key may be from a place on: the steps get longer until one passes it.
fn place_after(keys: &[u64], key: u64, near: usize) -> usize {
    let mut step = 1usize;
    for _ in 0..64 {
        let at = near.saturating_add(step);
        if !is_from(keys, key, at) {
            return place_between(keys, key, near, at);
        }
        step = step.saturating_mul(2);
    }
    near
}

// Where the key may be before a place: the steps get longer until one passes it.
fn place_before(keys: &[u64], key: u64, near: usize) -> usize {
    let mut step = 1usize;
    for _ in 0..64 {
        let at = near.saturating_sub(step);
        if at == 0 || is_from(keys, key, at) {
            return place_between(keys, key, at, near);
        }
        step = step.saturating_mul(2);
    }
    near
}

// Where the key may be: at a place, or around it.
fn place_near(keys: &[u64], key: u64, near: usize) -> usize {
    if is_at(keys, key, near) {
        return near;
    }
    if is_from(keys, key, near) {
        place_after(keys, key, near)
    } else {
        place_before(keys, key, near)
    }
}

// ---- hints

// The hints of a view, of whose objects none was met.
fn hints_of(alloc: Global, view: &View) -> Result<Hints, AllocError> {
    let keys = keys_of(alloc, view.held.objects())?;
    let met = vec![in alloc; 0usize; keys.len()]?;
    Ok(Hints { keys, near: 0, met })
}

// The hints of the views.
pub(crate) fn all_hints(alloc: Global, views: &[View]) -> Result<Vec<Hints>, AllocError> {
    let mut all = Vec::new(alloc);
    for view in views {
        let hints = hints_of(alloc, view)?;
        all.push(hints)?;
    }
    Ok(all)
}

// Where the object may well be, which is met then: the next one may well be behind it.
pub(crate) fn meet(hints: &mut Hints, fid: Fid, when: usize) -> usize {
    let key = key_of(fid);
    let place = place_near(&hints.keys, key, hints.near);
    if is_at(&hints.keys, key, place) {
        hints.near = place.saturating_add(1);
        if let Some(met) = hints.met.get_mut(place) {
            *met = when;
        }
    }
    place
}

// Where the object may well be in each view, which is met then; answers where it may be in the first.
pub(crate) fn meet_all(all: &mut [Hints], fid: Fid, when: usize) -> usize {
    let mut first = 0usize;
    for index in 0..all.len() {
        let place = meet(&mut all[index], fid, when);
        if index == 0 {
            first = place;
        }
    }
    first
}

// Where the object may well be.
pub(crate) fn place(hints: Option<&Hints>, fid: Fid) -> usize {
    match hints {
        Some(hints) => place_near(&hints.keys, key_of(fid), hints.near),
        None => 0,
    }
}

// When the object at a place may have been met.
pub(crate) fn met_at(hints: Option<&Hints>, place: usize) -> usize {
    match hints {
        Some(hints) => match hints.met.get(place) {
            Some(when) => *when,
            None => 0,
        },
        None => 0,
    }
}
