ghost use Rattle.std.specs.Prelude.{◌≡◌, ◌++◌, not, option_copied, map, option_to_list, IfOk};
ghost use Rattle.std.specs.List.{list_any};
ghost use Rattle.coda_resolve.specs.Copies.{is_marked};
ghost use Rattle.coda_resolve.specs.Outcome.{mark_by, marks_of};
ghost use Rattle.coda_resolve.specs.Placement.{AreTreesOfOneKind};
ghost use Rattle.coda_resolve.specs.Resolution.{copies_at};
ghost use Rattle.coda_resolve.specs.Survey.{marks_among};
ghost use Rattle.coda_resolve.specs.Views.{replicas_of, AreInOrder};

use crate::copies::is_marked;
use crate::fate::Fate;
use crate::view::copies_at;
use crate::walking::{Taken, walk};
use crate::why::{Mark, Why};
use coda_fid::Fid;
use coda_record::View;
use coda_reslog::Held;
use std::alloc::{AllocError, Global};

// Whether some copy is not marked.
fn some_unmarked(copies: &[Option<&Held>]) -> bool
    ensures { result ≡ list_any (λ copy. not (is_marked copy)) (map option_copied copies.now) }
{
    match copies {
        [] => false,
        [first, rest @ ..] => !is_marked(*first) || some_unmarked(rest),
    }
}

// The mark of the object for the cause, where it is new.
fn mark_for(alloc: Global, views: &[View], fid: Fid, why: &Why) -> Result<Option<Mark>, AllocError>
    requires { AreInOrder views.now }
    ensures { IfOk result (λ mark. mark ≡ mark_by (copies_at (replicas_of views.now) fid) fid (Fate.Marked why.now)) }
{
    let copies = copies_at(alloc, views, fid)?;
    if some_unmarked(&copies) {
        let why = why.copy()?;
        Ok(Some(Mark { fid, why }))
    } else {
        Ok(None)
    }
}

// The mark of an object that is taken up, where it is new.
fn mark_of(alloc: Global, views: &[View], taken: &Taken) -> Result<Option<Mark>, AllocError>
    requires { AreInOrder views.now }
    ensures { IfOk result (λ mark. mark ≡ mark_by (copies_at (replicas_of views.now) taken.now.fid) taken.now.fid taken.now.fate) }
{
    match &taken.fate {
        Fate::Marked(why) => mark_for(alloc, views, taken.fid, why),
        Fate::Same(_) => Ok(None),
        Fate::Gone => Ok(None),
    }
}

// The marks, with one more where there is one.
fn with_mark(mut marks: Vec<Mark>, mark: Option<Mark>) -> Result<Vec<Mark>, AllocError>
    ensures { IfOk result (λ all. all.items ≡ marks.items ++ option_to_list mark) }
{
    match mark {
        Some(mark) => {
            marks.push(mark)?;
            Ok(marks)
        }
        None => Ok(marks),
    }
}

// The new marks of these objects, in their order.
pub(crate) fn marks_among(
    alloc: Global,
    views: &[View],
    objects: &[Taken],
) -> Result<Vec<Mark>, AllocError>
    requires { AreInOrder views.now }
    ensures { IfOk result (λ marks. marks.items ≡ marks_among (replicas_of views.now) objects.now) }
{
    let mut marks = Vec::new(alloc);
    for taken in objects {
        let mark = mark_of(alloc, views, taken)?;
        marks = with_mark(marks, mark)?;
    }
    Ok(marks)
}

/// The marks that a resolution makes anew, in path order.
///
/// That they are all of them holds of replicas that are trees of one kind.
///
/// # Errors
///
/// There is no memory.
pub fn new_marks(alloc: Global, views: &[View], root: Fid) -> Result<Vec<Mark>, AllocError>
    requires { AreInOrder views.now }
    ensures { IfOk result (λ marks. AreTreesOfOneKind (replicas_of views.now) root → marks.items ≡ marks_of (replicas_of views.now) root) }
{
    let objects = walk(alloc, views, root)?;
    let marks = marks_among(alloc, views, &objects)?;
    Ok(marks)
}
