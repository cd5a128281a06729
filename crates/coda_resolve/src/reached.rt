// What a replica binds below some objects.
ghost use Rattle.std.specs.Prelude.{◌≡◌, ◌++◌, ◌∷◌, true, reverse, option_copied, IfOk, List};
ghost use Rattle.std.specs.FinMap as finmap;
ghost use Rattle.std.specs.FinMap.{is_sorted};
ghost use Rattle.coda_fid.specs.Fid.{fid_cmp};
ghost use Rattle.coda_fid.specs.declared.fid.Fid.{Fid};
ghost use Rattle.coda_resolve.specs.Copies.{bindings_of};
ghost use Rattle.coda_resolve.specs.Views.{objects_of};
ghost use Rattle.coda_resolve.specs.Reached.{IsSearch, AreReached};

use crate::doubles::values;
use crate::view::held_in;
use crate::walking::push_all;
use coda_fid::Fid;
use coda_record::View;
use coda_reslog::Held;
use coda_tree::NodeKind;
use std::alloc::{AllocError, Global};
use std::collections::BTreeSet;

// Puts what a copy binds on the stack, the first name on top.
fn push_bound(alloc: Global, stack: Vec<Fid>, copy: Option<&Held>) -> Result<Vec<Fid>, AllocError>
    ensures { IfOk result (λ all. reverse all.items ≡ finmap.values (bindings_of (option_copied copy.entry)) ++ reverse stack.items) }
{
    let Some(held) = copy else {
        return Ok(stack);
    };
    match &held.node.kind {
        NodeKind::Dir(entries) => {
            let fids = values(alloc, entries)?;
            push_all(stack, &fids)
        }
        NodeKind::File(_) => Ok(stack),
        NodeKind::Link(_) => Ok(stack),
    }
}

// Goes on with a search: the object is seen, and what the view binds in it waits, unless it was seen before.
fn visit(
    alloc: Global,
    view: &View,
    seen: &mut BTreeSet<Fid>,
    stack: Vec<Fid>,
    fid: Fid,
) -> Result<Vec<Fid>, AllocError>
    requires { is_sorted fid_cmp view.now.held ≡ true }
    ensures { IfOk result (λ all. (starts : List Fid) → IsSearch (objects_of view.now) starts seen.old (fid ∷ reverse stack.items) → IsSearch (objects_of view.now) starts seen.new (reverse all.items)) }
{
    if !seen.insert(fid)? {
        return Ok(stack);
    }
    let stack = push_bound(alloc, stack, held_in(view.held.objects(), fid))?;
    Ok(stack)
}

/// These objects, and all that the view binds below them.
///
/// The view has its objects in increasing order of fids. Each object is looked at once, and the search keeps a stack of
/// its own.
///
/// # Errors
///
/// There is no memory.
pub fn below(alloc: Global, view: &View, starts: &[Fid]) -> Result<BTreeSet<Fid>, AllocError>
    requires { is_sorted fid_cmp view.now.held ≡ true }
    ensures { IfOk result (λ set. AreReached (objects_of view.now) starts.now set) }
{
    let mut seen = BTreeSet::new(alloc);
    let mut stack = push_all(Vec::new(alloc), starts)?;
    for _ in 0..u64::MAX {
        let Some(fid) = stack.pop() else {
            return Ok(seen);
        };
        stack = visit(alloc, view, &mut seen, stack, fid)?;
    }
    Err(AllocError)
}
