// An object and all that a replica binds below it, as a set and as a list.
ghost use Rattle.std.specs.Prelude.{◌≡◌, ◌∷◌, [], true, IfOk};
ghost use Rattle.std.specs.FinMap.{is_sorted};
ghost use Rattle.coda_fid.specs.Fid.{fid_cmp};
ghost use Rattle.coda_resolve.specs.Reached.{AreReached};
ghost use Rattle.coda_resolve.specs.Views.{objects_of};
ghost use Rattle.coda_repair.specs.Making.{AreSame};

use coda_fid::Fid;
use coda_record::View;
use coda_resolve::below;
use std::alloc::{AllocError, Global};
use std::collections::BTreeSet;

// Some objects, as a set and as a list.
#[derive(Drop)]
pub(crate) struct Reach {
    pub(crate) set: BTreeSet<Fid>,
    pub(crate) fids: Vec<Fid>,
}

// The objects of a set.
fn listed(alloc: Global, set: &BTreeSet<Fid>) -> Result<Vec<Fid>, AllocError>
    ensures { IfOk result (λ fids. AreSame set.now fids.items) }
{
    let mut fids = Vec::with_capacity(alloc, set.len())?;
    for fid in set {
        fids.push(*fid)?;
    }
    Ok(fids)
}

// The object, and all that the view binds below it.
pub(crate) fn subtree(alloc: Global, view: &View, top: Fid) -> Result<Reach, AllocError>
    requires { is_sorted fid_cmp view.now.held ≡ true }
    ensures reached { IfOk result (λ reach. AreReached (objects_of view.now) (top ∷ []) reach.set) }
    ensures same { IfOk result (λ reach. AreSame reach.set reach.fids.items) }
{
    let set = below(alloc, view, &[top])?;
    let fids = listed(alloc, &set)?;
    Ok(Reach { set, fids })
}
