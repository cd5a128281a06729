ghost use Rattle.std.specs.Prelude.{◌≡◌, ◌++◌, ◌↔◌, true, IsTrue, length, option_copied, map, IfOk, IfErr};
ghost use Rattle.std.specs.FinMap as finmap;
ghost use Rattle.std.specs.FinMap.{is_sorted};
ghost use Rattle.coda_fid.specs.Fid.{fid_cmp};
ghost use Rattle.coda_resolve.specs.Resolution.{copies_at};
ghost use Rattle.coda_resolve.specs.Views.{IsIndexOf, IsGapFor, IsBetween, objects_in, objects_of, replicas_of, AreInOrder};

use crate::hints::{Hints, meet};
use coda_fid::Fid;
use coda_record::View;
use coda_reslog::Held;
use std::alloc::{AllocError, Global};
use std::cmp::Ordering;

// Where the object is from the one place up to the other, or where it would go.
fn search(items: &[(Fid, Held)], fid: Fid, mut low: usize, mut high: usize) -> Result<usize, usize>
    requires order { is_sorted fid_cmp items.now ≡ true }
    requires between { IsBetween items.now fid low high }
    ensures found { IfOk result (λ i. IsIndexOf items.now fid i) }
    ensures absent { IfErr result (λ i. IsGapFor items.now fid i) }
{
    while low < high {
        let mid = low + (high - low) / 2;
        match items[mid].0.cmp(&fid) {
            Ordering::Less => low = mid + 1,
            Ordering::Equal => return Ok(mid),
            Ordering::Greater => high = mid,
        }
    }
    Err(low)
}

// Where the object is from a place on, or where it would go: the steps get longer until one passes it.
fn search_after(items: &[(Fid, Held)], fid: Fid, from: usize) -> Result<usize, usize>
    requires order { is_sorted fid_cmp items.now ≡ true }
    requires between { IsBetween items.now fid from (length items.now) }
    ensures found { IfOk result (λ i. IsIndexOf items.now fid i) }
    ensures absent { IfErr result (λ i. IsGapFor items.now fid i) }
{
    let mut low = from;
    let mut step = 1usize;
    while step < items.len() - low {
        let at = low + step;
        match items[at].0.cmp(&fid) {
            Ordering::Less => low = at + 1,
            Ordering::Equal => return Ok(at),
            Ordering::Greater => return search(items, fid, low, at),
        }
        step = step.saturating_mul(2);
    }
    search(items, fid, low, items.len())
}

// Where the object is before a place, or where it would go: the steps get longer until one passes it.
fn search_before(items: &[(Fid, Held)], fid: Fid, to: usize) -> Result<usize, usize>
    requires order { is_sorted fid_cmp items.now ≡ true }
    requires between { IsBetween items.now fid 0 to }
    ensures found { IfOk result (λ i. IsIndexOf items.now fid i) }
    ensures absent { IfErr result (λ i. IsGapFor items.now fid i) }
{
    let mut high = to;
    let mut step = 1usize;
    while step < high {
        let at = high - 1 - step;
        match items[at].0.cmp(&fid) {
            Ordering::Less => return search(items, fid, at + 1, high),
            Ordering::Equal => return Ok(at),
            Ordering::Greater => high = at,
        }
        step = step.saturating_mul(2);
    }
    search(items, fid, 0, high)
}

// Where the object is, or where it would go. It is looked for first at a place where it may well be, and then around it.
fn search_near(items: &[(Fid, Held)], fid: Fid, near: usize) -> Result<usize, usize>
    requires { is_sorted fid_cmp items.now ≡ true }
    ensures found { IfOk result (λ i. IsIndexOf items.now fid i) }
    ensures absent { IfErr result (λ i. IsGapFor items.now fid i) }
{
    if near >= items.len() {
        return search_before(items, fid, items.len());
    }
    match items[near].0.cmp(&fid) {
        Ordering::Less => search_after(items, fid, near + 1),
        Ordering::Equal => Ok(near),
        Ordering::Greater => search_before(items, fid, near),
    }
}

// What is held of the object, which may well be at a place.
pub(crate) fn held_near(items: &[(Fid, Held)], fid: Fid, near: usize) -> Option<&Held>
    requires { is_sorted fid_cmp items.now ≡ true }
    ensures { option_copied result ≡ finmap.get (objects_in items.now) fid }
{
    match search_near(items, fid, near) {
        Ok(at) => Some(&items[at].1),
        Err(_) => None,
    }
}

/// What is held of the object, which is looked up by halves.
///
/// The objects are in increasing order of fids.
pub fn held_in(items: &[(Fid, Held)], fid: Fid) -> Option<&Held>
    requires { is_sorted fid_cmp items.now ≡ true }
    ensures { option_copied result ≡ finmap.get (objects_in items.now) fid }
{
    match search(items, fid, 0, items.len()) {
        Ok(at) => Some(&items[at].1),
        Err(_) => None,
    }
}

// Whether the objects are in increasing order of fids.
fn is_in_order(items: &[(Fid, Held)]) -> bool
    ensures { result ≡ is_sorted fid_cmp items.now }
{
    for at in 1..items.len() {
        match items[at - 1].0.cmp(&items[at].0) {
            Ordering::Less => {}
            Ordering::Equal => return false,
            Ordering::Greater => return false,
        }
    }
    true
}

/// Whether each view has its objects in increasing order of fids.
pub fn are_in_order(views: &[View]) -> bool
    ensures { IsTrue result ↔ AreInOrder views.now }
{
    match views {
        [] => true,
        [first, rest @ ..] => is_in_order(first.held.objects()) && are_in_order(rest),
    }
}

// What is held of the object, which is met, and looked for first where it may well be, if hints are given.
fn held_from<'a>(
    items: &'a [(Fid, Held)],
    fid: Fid,
    hints: Option<&mut Hints>,
    when: usize,
) -> Option<&'a Held>
    requires { is_sorted fid_cmp items.now ≡ true }
    ensures { option_copied result ≡ finmap.get (objects_in items.now) fid }
{
    match hints {
        Some(hints) => {
            let near = meet(hints, fid, when);
            held_near(items, fid, near)
        }
        None => held_in(items, fid),
    }
}

// The copies so far, with those of the views.
fn with_views<'a>(
    mut copies: Vec<Option<&'a Held>>,
    views: &'a [View],
    fid: Fid,
    hints: &mut [Hints],
    when: usize,
) -> Result<Vec<Option<&'a Held>>, AllocError>
    requires { AreInOrder views.now }
    ensures { IfOk result (λ all. map option_copied all.items ≡ map option_copied copies.entry.items ++ copies_at (replicas_of views.now) fid) }
{
    match views {
        [] => Ok(copies),
        [first, rest @ ..] => {
            let own = hints.get_mut(copies.len());
            copies.push(held_from(first.held.objects(), fid, own, when))?;
            with_views(copies, rest, fid, hints, when)
        }
    }
}

// What each replica holds of the object, which is met then, and looked for first where the hints of each view say.
pub(crate) fn copies_near<'a>(
    alloc: Global,
    views: &'a [View],
    fid: Fid,
    hints: &mut [Hints],
    when: usize,
) -> Result<Vec<Option<&'a Held>>, AllocError>
    requires { AreInOrder views.now }
    ensures { IfOk result (λ copies. map option_copied copies.items ≡ copies_at (replicas_of views.now) fid) }
{
    with_views(Vec::new(alloc), views, fid, hints, when)
}

// What each replica holds of the object.
pub(crate) fn copies_at<'a>(
    alloc: Global,
    views: &'a [View],
    fid: Fid,
) -> Result<Vec<Option<&'a Held>>, AllocError>
    requires { AreInOrder views.now }
    ensures { IfOk result (λ copies. map option_copied copies.items ≡ copies_at (replicas_of views.now) fid) }
{
    copies_near(alloc, views, fid, &mut [], 0)
}
