ghost use Rattle.std.specs.Prelude.{◌≡◌, ◌||◌, true, IfOk, OnOk};
ghost use Rattle.std.specs.Prelude as prelude;
ghost use Rattle.std.specs.List.{filter};
ghost use Rattle.std.specs.BTreeSet as btree;
ghost use Rattle.std.specs.List.{list_any};
ghost use Rattle.std.specs.Ordering.{eq_by_cmp};
ghost use Rattle.coda_fid.specs.declared.fid.Fid.{Fid};
ghost use Rattle.coda_walk.specs.Going.{is_listed};
ghost use Rattle.coda_walk.specs.Queue.{IsQueueOf, time_of};
ghost use Rattle.coda_cache.specs.declared.by_use.Use.{Use};
ghost use Rattle.coda_cache.specs.Indexed.{standings, use_cmp, use_of};

use crate::contents::Contents;
use coda_fid::Fid;
use coda_walk::Queue;
use std::alloc::{AllocError, Global};
use std::collections::BTreeSet;

// An object, by the time at which it was used.
#[derive(Clone, Copy, Debug, PartialEq, Eq, PartialOrd, Ord)]
pub(crate) struct Use {
    pub used: u64,
    pub fid: Fid,
}

// Adds an object.
fn note(set: &mut BTreeSet<Use>, at: Use) -> Result<(), AllocError>
    ensures { OnOk result ((u : Use) → btree.contains use_cmp set.new u ≡ (btree.contains use_cmp set.old u || eq_by_cmp use_cmp at u)) }
{
    set.insert(at)?;
    Ok(())
}

// These objects, by when each was used.
fn uses_of(alloc: Global, queue: &Queue, fids: &[Fid]) -> Result<BTreeSet<Use>, AllocError>
    ensures { IfOk result (λ s. (u : Use) → btree.contains use_cmp s u ≡ list_any (λ k. eq_by_cmp use_cmp k u) (prelude.map (use_of (time_of queue.now)) fids.now)) }
{
    let mut uses = BTreeSet::new(alloc);
    for fid in fids {
        note(
            &mut uses,
            Use {
                used: queue.used(*fid),
                fid: *fid,
            },
        )?;
    }
    Ok(uses)
}

// The objects of a set, in its order.
fn fids_of(alloc: Global, uses: &BTreeSet<Use>) -> Result<Vec<Fid>, AllocError>
    ensures fids { IfOk result (λ v. v.items ≡ prelude.map (λ (u : Use). u.fid) uses.now.keys) }
    ensures ordered { btree.IsOrdered use_cmp uses.now }
{
    let mut fids = Vec::new(alloc);
    for at in uses.iter() {
        fids.push(at.fid)?;
    }
    Ok(fids)
}

// Cached nodes in the order of their use.
pub(crate) fn in_order(
    contents: &Contents,
    queue: &Queue,
    fids: &[Fid],
) -> Result<Vec<Fid>, AllocError>
    requires queue { IsQueueOf queue.now (standings contents.now) }
    requires cached { (f : Fid) → is_listed fids.now f ≡ true → is_listed contents.now.recency f ≡ true }
    ensures { IfOk result (λ v. v.items ≡ filter (is_listed fids.now) contents.now.recency) }
{
    let uses = uses_of(contents.alloc(), queue, fids)?;
    fids_of(contents.alloc(), &uses)
}
