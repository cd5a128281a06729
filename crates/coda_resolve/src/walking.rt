ghost use Rattle.std.specs.Prelude.{◌≡◌, ◌++◌, ◌∷◌, [], List, reverse, Some, IfOk, OnOk};
ghost use Rattle.coda_fid.specs.declared.fid.Fid.{Fid};
ghost use Rattle.coda_resolve.specs.Outcome.{next_up, taken_up};
ghost use Rattle.coda_resolve.specs.Placement.{AreTreesOfOneKind};
ghost use Rattle.coda_resolve.specs.Views.{replicas_of, AreInOrder};
ghost use Rattle.coda_resolve.specs.Resolution.{Replicas, fate_at};
ghost use Rattle.coda_resolve.specs.Reading.{AreKnown};
ghost use Rattle.coda_resolve.specs.Survey.{IsOutlook, AreOthersBut};
ghost use Rattle.coda_resolve.specs.Taken.{fids_of, AreFates};

use crate::doubles::values;
use crate::fate::{Fate, fate_near, look_ahead};
use crate::hints::{Hints, all_hints};
use crate::reading::Known;
use coda_fid::Fid;
use coda_record::View;
use coda_tree::NodeKind;
use std::alloc::{AllocError, Global};

/// An object that a resolution takes up, with what becomes of it.
#[derive(Debug, Drop)]
pub struct Taken {
    /// The object.
    pub fid: Fid,
    /// What becomes of it at all replicas.
    pub fate: Fate,
}

// Puts the fids on the stack, the first of them on top.
pub(crate) fn push_all(mut stack: Vec<Fid>, fids: &[Fid]) -> Result<Vec<Fid>, AllocError>
    ensures { IfOk result (λ all. reverse all.items ≡ fids.now ++ reverse stack.items) }
{
    for step in 0..fids.len() {
        let at = fids.len() - 1 - step;
        stack.push(fids[at])?;
    }
    Ok(stack)
}

// Puts what is taken up next on the stack, the first name on top.
fn push_next(alloc: Global, stack: Vec<Fid>, fate: &Fate) -> Result<Vec<Fid>, AllocError>
    ensures { IfOk result (λ all. reverse all.items ≡ next_up fate.now ++ reverse stack.items) }
{
    match fate {
        Fate::Same(held) => match &held.node.kind {
            NodeKind::Dir(entries) => {
                let fids = values(alloc, entries)?;
                push_all(stack, &fids)
            }
            NodeKind::File(_) => Ok(stack),
            NodeKind::Link(_) => Ok(stack),
        },
        Fate::Marked(_) => Ok(stack),
        Fate::Gone => Ok(stack),
    }
}

/// What a resolution takes up, in path order, with what becomes of each object.
///
/// That it is all of that, each object once, holds of replicas that are trees of one kind; of others the walk may want memory without
/// end. A tree may be as deep as it has objects: the walk has a stack of its own.
///
/// # Errors
///
/// There is no memory.
pub fn walk(alloc: Global, views: &[View], root: Fid) -> Result<Vec<Taken>, AllocError>
    requires { AreInOrder views.now }
    ensures fids { IfOk result (λ taken. AreTreesOfOneKind (replicas_of views.now) root → fids_of taken.items ≡ taken_up (replicas_of views.now) root) }
    ensures fates { IfOk result (λ taken. AreFates (replicas_of views.now) taken.items) }
{
    let mut hints = all_hints(alloc, views)?;
    let mut taken = Vec::new(alloc);
    let mut stack = vec![in alloc; root]?;
    for _ in 0..u64::MAX {
        let Some(fid) = stack.pop() else {
            return Ok(taken);
        };
        let fate = fate_near(alloc, views, fid, &mut hints, taken.len())?;
        stack = push_next(alloc, stack, &fate)?;
        taken.push(Taken { fid, fate })?;
    }
    Err(AllocError)
}

// What a resolution takes up, in path order; those of the objects that may change and aren't known, with what becomes of each; and for
// each view where its objects may well be, and at which place of the path order each was met.
#[derive(Drop)]
pub(crate) struct Survey {
    pub(crate) fids: Vec<Fid>,
    pub(crate) others: Vec<Taken>,
    pub(crate) hints: Vec<Hints>,
}

// Adds the object, with what becomes of it, unless it stays as all replicas hold it.
fn add_other(others: &mut Vec<Taken>, fid: Fid, fate: Fate, stays: bool) -> Result<(), AllocError>
    ensures { OnOk result ((views : Replicas) (changed fids : List Fid) → IsOutlook views changed fid (Some fate) stays → AreOthersBut views changed fids others.old.items → AreOthersBut views changed (fids ++ fid ∷ []) others.new.items) }
{
    if stays {
        return Ok(());
    }
    others.push(Taken { fid, fate })?;
    Ok(())
}

// Goes on with a survey: what is taken up next waits, and the object is among the others unless it is known or stays as all replicas
// hold it.
fn go_on(
    alloc: Global,
    others: &mut Vec<Taken>,
    stack: Vec<Fid>,
    fid: Fid,
    fate: Option<Fate>,
    stays: bool,
) -> Result<Vec<Fid>, AllocError>
    ensures next { IfOk result (λ all. (views : Replicas) (changed : List Fid) → IsOutlook views changed fid fate stays → reverse all.items ≡ next_up (fate_at views fid) ++ reverse stack.items) }
    ensures others { IfOk result (λ all. (views : Replicas) (changed fids : List Fid) → IsOutlook views changed fid fate stays → AreOthersBut views changed fids others.old.items → AreOthersBut views changed (fids ++ fid ∷ []) others.new.items) }
{
    let Some(fate) = fate else {
        return Ok(stack);
    };
    let stack = push_next(alloc, stack, &fate)?;
    add_other(others, fid, fate, stays)?;
    Ok(stack)
}

// What a resolution takes up, and what of it may change, but for what is known.
pub(crate) fn take_up(
    alloc: Global,
    views: &[View],
    root: Fid,
    known: &Known,
    hints: Vec<Hints>,
) -> Result<Survey, AllocError>
    requires order { AreInOrder views.now }
    requires known { AreKnown (replicas_of views.now) known.now.changed.items known.now.sights.items }
    ensures fids { IfOk result (λ survey. AreTreesOfOneKind (replicas_of views.now) root → survey.fids.items ≡ taken_up (replicas_of views.now) root) }
    ensures others { IfOk result (λ survey. AreOthersBut (replicas_of views.now) known.now.changed.items survey.fids.items survey.others.items) }
{
    let mut hints = hints;
    let mut fids = Vec::with_capacity(alloc, known.sights.len())?;
    let mut others = Vec::new(alloc);
    let mut stack = vec![in alloc; root]?;
    for _ in 0..u64::MAX {
        let Some(fid) = stack.pop() else {
            return Ok(Survey {
                fids,
                others,
                hints,
            });
        };
        let outlook = look_ahead(alloc, views, fid, known, &mut hints, fids.len())?;
        let stays = outlook.stays;
        stack = go_on(alloc, &mut others, stack, fid, outlook.fate, stays)?;
        fids.push(fid)?;
    }
    Err(AllocError)
}
