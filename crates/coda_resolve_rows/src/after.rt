// What replicas hold once they changed.
use coda_fid::Fid;
use coda_record::{Lasts, View};
use coda_reslog::{Change, Held, HeldObjects};
use std::alloc::Global;
use std::collections::BTreeMap;

// The same, in memory of its own.
fn copy(held: &Held) -> Option<Held> {
    let ring = match &held.ring {
        Some(ring) => Some(ring.copy().ok()?),
        None => None,
    };
    Some(Held {
        node: held.node.copy().ok()?,
        vector: held.vector,
        ring,
    })
}

// The objects of a replica that changed so, in the order of fids.
fn objects<'a>(
    alloc: Global,
    was: &'a [(Fid, Held)],
    change: &'a Change,
) -> Option<BTreeMap<Fid, &'a Held>> {
    let mut objects = BTreeMap::new(alloc);
    for (fid, held) in was {
        objects.insert(*fid, held).ok()?;
    }
    for fid in change.gone.fids() {
        let _ = objects.remove(fid);
    }
    for (fid, held) in change.held.objects() {
        objects.insert(*fid, held).ok()?;
    }
    Some(objects)
}

// What a replica holds once it changed so.
fn changed(alloc: Global, was: &View, change: &Change) -> Option<View> {
    let mut items = Vec::new(alloc);
    for (fid, held) in objects(alloc, was.held.objects(), change)? {
        items.push((fid, copy(held)?)).ok()?;
    }
    Some(View {
        server: was.server,
        volume: was.volume,
        held: HeldObjects::from_vec(items),
        lasts: Lasts::from_vec(Vec::new(alloc)),
    })
}

/// What replicas hold once each changed so, in their order.
pub fn all_changed(alloc: Global, views: &[View], changes: &[(u8, Change)]) -> Option<Vec<View>> {
    let mut after = Vec::new(alloc);
    for at in 0..views.len() {
        let (_, change) = changes.get(at)?;
        after.push(changed(alloc, &views[at], change)?).ok()?;
    }
    Some(after)
}
