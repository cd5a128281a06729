// What becomes of the files and links that all replicas hold, found in one reading of the replicas in the order of fids.
ghost use Rattle.std.specs.Prelude.{◌≡◌, ◌<◌, ◌++◌, ◌∷◌, [], length, option_copied, map, reverse, IsTrue, true, IfOk, OnOk, List};
ghost use Rattle.coda_fid.specs.declared.fid.Fid.{Fid};
ghost use Rattle.coda_resolve.specs.Reading.{is_known, AreAllRenewed, IsRenewedAt, IsNextRead, AreKnown};
ghost use Rattle.coda_resolve.specs.Resolution.{copies_at, fate_at};
ghost use Rattle.coda_resolve.specs.Survey.{is_plain, AreThere};
ghost use Rattle.coda_resolve.specs.Views.{replicas_of, AreInOrder};

use crate::fate::{Fate, fate_of};
use crate::hints::Hints;
use crate::leaves::{are_alike, is_dir};
use crate::part::{Renewals, add_renewal};
use crate::renewal::renewal_of;
use crate::view::copies_near;
use coda_fid::Fid;
use coda_record::View;
use coda_reslog::Held;
use std::alloc::{AllocError, Global};
use std::collections::BTreeMap;

// An object of the first replica, and whether it is known what becomes of it.
#[derive(Clone, Copy, Debug)]
pub(crate) struct Sight {
    pub(crate) fid: Fid,
    pub(crate) known: bool,
}

// The objects of the first replica, in order, and those of which it is known what becomes of them, and which may change.
#[derive(Drop)]
pub(crate) struct Known {
    pub(crate) sights: Vec<Sight>,
    pub(crate) changed: Vec<Fid>,
}

// What is known, and what each replica holds anew of what may change: the last replica stands first.
#[derive(Drop)]
pub(crate) struct Reading {
    pub(crate) known: Known,
    pub(crate) renewals: Vec<Renewals>,
}

// Nothing that is held anew, for each view.
fn no_renewals(alloc: Global, views: &[View]) -> Result<Vec<Renewals>, AllocError>
    ensures { IfOk result (λ all. AreAllRenewed (replicas_of views.now) views.now [] all.items) }
{
    let mut all = Vec::with_capacity(alloc, views.len())?;
    for _view in views {
        let none = Renewals {
            held: BTreeMap::new(alloc),
            touched: Vec::new(alloc),
        };
        all.push(none)?;
    }
    Ok(all)
}

// Whether each copy is there, and is a file or link.
fn are_there(copies: &[Option<&Held>]) -> bool
    ensures { IsTrue result → AreThere (map option_copied copies.now) }
{
    match copies {
        [] => true,
        [first, rest @ ..] => match *first {
            Some(held) => !is_dir(&held.node.kind) && are_there(rest),
            None => false,
        },
    }
}

// Whether all replicas then hold a file or link.
fn is_plain(fate: &Fate) -> bool
    ensures { result ≡ is_plain fate.now }
{
    match fate {
        Fate::Same(held) => !is_dir(&held.node.kind),
        Fate::Marked(_) => false,
        Fate::Gone => false,
    }
}

// Adds what the view at an index, which has this copy, holds anew of an object.
fn renew_at(
    alloc: Global,
    views: &[View],
    fid: Fid,
    fate: &Fate,
    copy: Option<&Held>,
    renewals: &mut Vec<Renewals>,
    at: usize,
) -> Result<(), AllocError>
    requires order { AreInOrder views.now }
    requires at { at < length renewals.old.items }
    ensures { OnOk result (fate.now ≡ fate_at (replicas_of views.now) fid → IsRenewedAt (replicas_of views.now) fid (option_copied copy.entry) renewals.old.items renewals.new.items at) }
{
    let renewal = renewal_of(alloc, views, fid, fate, copy)?;
    let own = &mut renewals[at];
    add_renewal(&mut own.held, &mut own.touched, fid, renewal)
}

// Adds what each view holds anew of an object.
fn renew_all(
    alloc: Global,
    views: &[View],
    fid: Fid,
    fate: &Fate,
    copies: &[Option<&Held>],
    renewals: &mut Vec<Renewals>,
) -> Result<(), AllocError>
    requires order { AreInOrder views.now }
    requires copies { map option_copied copies.now ≡ copies_at (replicas_of views.now) fid }
    requires fate { fate.now ≡ fate_at (replicas_of views.now) fid }
    requires long { length renewals.old.items ≡ length views.now }
    ensures { OnOk result ((objects : List Fid) → AreAllRenewed (replicas_of views.now) views.now objects renewals.old.items → AreAllRenewed (replicas_of views.now) views.now (objects ++ fid ∷ []) renewals.new.items) }
{
    for at in 0..copies.len() {
        renew_at(alloc, views, fid, fate, copies[at], renewals, at)?;
    }
    Ok(())
}

// Reads an object, which is looked for first where the hints of each view say: whether it is a file or link that all replicas hold, of
// which it is known then what becomes of it. It is among those that may change then, unless all hold it alike.
fn read_object(
    alloc: Global,
    views: &[View],
    fid: Fid,
    hints: &mut [Hints],
    changed: &mut Vec<Fid>,
    renewals: &mut Vec<Renewals>,
) -> Result<bool, AllocError>
    requires order { AreInOrder views.now }
    requires long { length renewals.old.items ≡ length views.now }
    ensures { IfOk result (λ known. IsNextRead views.now fid known changed.old.items changed.new.items renewals.old.items renewals.new.items) }
{
    let copies = copies_near(alloc, views, fid, hints, 0)?;
    if are_alike(&copies) {
        return Ok(true);
    }
    if !are_there(&copies) {
        return Ok(false);
    }
    let fate = fate_of(alloc, views, &copies)?;
    if !is_plain(&fate) {
        return Ok(false);
    }
    renew_all(alloc, views, fid, &fate, &copies, renewals)?;
    changed.push(fid)?;
    Ok(true)
}

// The objects of the first view.
fn first_objects(views: &[View]) -> &[(Fid, Held)] {
    match views {
        [] => &[],
        [first, ..] => first.held.objects(),
    }
}

// Reads the objects of the first view, one after the other.
pub(crate) fn read(
    alloc: Global,
    views: &[View],
    hints: &mut [Hints],
) -> Result<Reading, AllocError>
    requires { AreInOrder views.now }
    ensures known { IfOk result (λ reading. AreKnown (replicas_of views.now) reading.known.changed.items reading.known.sights.items) }
    ensures renewals { IfOk result (λ reading. AreAllRenewed (replicas_of views.now) views.now reading.known.changed.items (reverse reading.renewals.items)) }
{
    let mut renewals = no_renewals(alloc, views)?;
    let objects = first_objects(views);
    let mut changed = Vec::new(alloc);
    let mut sights = Vec::with_capacity(alloc, objects.len())?;
    for object in objects {
        let fid = object.0;
        let known = read_object(alloc, views, fid, hints, &mut changed, &mut renewals)?;
        sights.push(Sight { fid, known })?;
    }
    renewals.reverse();
    let known = Known { sights, changed };
    Ok(Reading { known, renewals })
}

// Whether the object stands at a place of these, and is known. Where it isn't so, nothing is said.
pub(crate) fn is_known_at(sights: &[Sight], place: usize, fid: Fid) -> bool
    ensures { IsTrue result → is_known sights.now fid ≡ true }
{
    match sights.get(place) {
        Some(sight) => sight.known && sight.fid == fid,
        None => false,
    }
}
