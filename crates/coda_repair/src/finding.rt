// Which object the names lead to, alike at all replicas.
ghost use Rattle.std.specs.Prelude.{◌≡◌, ◌≢◌, ◌↔◌, ◌≤◌, ◌<◌, ◌^◌, true, false, IsTrue, Some, option_copied};
ghost use Rattle.std.specs.FinMap as finmap;
ghost use Rattle.std.specs.FinMap.{is_sorted};
ghost use Rattle.std.specs.List.{AllByRecursion};
ghost use Rattle.coda_fid.specs.Fid.{fid_cmp};
ghost use Rattle.coda_fid.specs.declared.fid.Fid.{Fid};
ghost use Rattle.coda_vv.specs.Vector.{count};
ghost use Rattle.coda_reslog.specs.declared.change.Held.{Held};
ghost use Rattle.coda_resolve.specs.Copies.{is_marked};
ghost use Rattle.coda_resolve.specs.Resolution.{has_in};
ghost use Rattle.coda_resolve.specs.Views.{objects_of, AreInOrder};
ghost use Rattle.coda_lineage.specs.Repairs.{LeadsAlike};
ghost use Rattle.coda_repair.specs.Finding.{IsSortedView, view_of, walked, HasRoom, HaveRoom, IsClear, IsWay, IsFound};

use crate::lookup::child_in;
use coda_fid::{Fid, Name};
use coda_record::View;
use coda_reslog::Held;
use coda_resolve::held_in;
use coda_vv::Vv;

/// So many updates of a server are too many for one more.
const MANY: u64 = 0x8000_0000_0000_0000;

// The view of the server.
pub(crate) fn view_of(views: &[View], from: u8) -> Option<&View>
    requires { AreInOrder views.now }
    ensures view { option_copied result ≡ view_of views.now from }
    ensures sorted { IsSortedView (option_copied result) }
{
    match views {
        [] => None,
        [first, rest @ ..] => {
            if first.server == from {
                return Some(first);
            }
            view_of(rest, from)
        }
    }
}

// Whether the replica has the object marked.
pub(crate) fn is_marked(view: &View, fid: Fid) -> bool
    requires { is_sorted fid_cmp view.now.held ≡ true }
    ensures { result ≡ is_marked (finmap.get (objects_of view.now) fid) }
{
    match held_in(view.held.objects(), fid) {
        Some(held) => held.node.marked,
        None => false,
    }
}

// Whether the replica has the object.
fn has(view: &View, fid: Fid) -> bool
    requires { is_sorted fid_cmp view.now.held ≡ true }
    ensures { result ≡ has_in (objects_of view.now) fid }
{
    held_in(view.held.objects(), fid).is_some()
}

// Where the names lead from an object, if each is bound.
fn walked(view: &View, dir: Fid, names: &[Name]) -> Option<Fid>
    requires { is_sorted fid_cmp view.now.held ≡ true }
    ensures { result ≡ walked (objects_of view.now) (Some dir) names.now }
{
    match names {
        [] => Some(dir),
        [name, rest @ ..] => match child_in(view, dir, name) {
            Some(next) => walked(view, next, rest),
            None => None,
        },
    }
}

// Whether the names lead to the object at both replicas, through the same directories.
fn lead_alike(right: &View, view: &View, dir: Fid, names: &[Name], top: Fid) -> bool
    requires right { is_sorted fid_cmp right.now.held ≡ true }
    requires view { is_sorted fid_cmp view.now.held ≡ true }
    ensures { IsTrue result ↔ LeadsAlike (objects_of right.now) (objects_of view.now) dir names.now top }
{
    match names {
        [] => top == dir,
        [name, rest @ ..] => {
            let Some(next) = child_in(right, dir, name) else {
                return false;
            };
            let Some(other) = child_in(view, dir, name) else {
                return false;
            };
            next == other && lead_alike(right, view, next, rest, top)
        }
    }
}

// Whether the replica has none of the directories marked that the names lead through.
fn is_clear(view: &View, dir: Fid, names: &[Name]) -> bool
    requires { is_sorted fid_cmp view.now.held ≡ true }
    ensures { IsTrue result ↔ IsClear (objects_of view.now) dir names.now }
{
    match names {
        [] => true,
        [name, rest @ ..] => {
            if is_marked(view, dir) {
                return false;
            }
            match child_in(view, dir, name) {
                Some(next) => is_clear(view, next, rest),
                None => true,
            }
        }
    }
}

// Whether the names lead to the object at the view's replica as at the source, and through no marked directory, if the
// replica is another than the source.
fn is_way(right: &View, from: u8, root: Fid, names: &[Name], top: Fid, view: &View) -> bool
    requires right { is_sorted fid_cmp right.now.held ≡ true }
    requires view { is_sorted fid_cmp view.now.held ≡ true }
    ensures { IsTrue result ↔ IsWay (objects_of right.now) from root names.now top view.now }
{
    if !lead_alike(right, view, root, names, top) {
        return false;
    }
    view.server == from || is_clear(view, root, names)
}

// Whether it is so at each replica.
fn are_ways(right: &View, from: u8, root: Fid, names: &[Name], top: Fid, views: &[View]) -> bool
    requires right { is_sorted fid_cmp right.now.held ≡ true }
    requires order { AreInOrder views.now }
    ensures { IsTrue result ↔ AllByRecursion (IsWay (objects_of right.now) from root names.now top) views.now }
{
    match views {
        [] => true,
        [first, rest @ ..] => {
            is_way(right, from, root, names, top, first)
                && are_ways(right, from, root, names, top, rest)
        }
    }
}

// Whether the names lead to the object, which the source has, and so they do at each replica.
fn is_found(views: &[View], right: &View, from: u8, root: Fid, names: &[Name], top: Fid) -> bool
    requires order { AreInOrder views.now }
    requires sorted { is_sorted fid_cmp right.now.held ≡ true }
    requires source { view_of views.now from ≡ Some right.now }
    ensures { IsTrue result ↔ IsFound views.now from root names.now top }
{
    has(right, top) && are_ways(right, from, root, names, top, views)
}

// The object that the names lead to, which the source has, if they lead to it alike at all replicas.
pub(crate) fn found(
    views: &[View],
    right: &View,
    from: u8,
    root: Fid,
    names: &[Name],
) -> Option<Fid>
    requires order { AreInOrder views.now }
    requires sorted { is_sorted fid_cmp right.now.held ≡ true }
    requires source { view_of views.now from ≡ Some right.now }
    ensures { (top : Fid) → (result ≡ Some top) ↔ IsFound views.now from root names.now top }
{
    let Some(top) = walked(right, root, names) else {
        return None;
    };
    if is_found(views, right, from, root, names, top) {
        Some(top)
    } else {
        None
    }
}

// How many updates of the server are in the version.
fn count(vector: &Vv, server: u8) -> u64
    requires { 1 ≤ server }
    ensures { result ≡ count vector.now.0 server }
{
    match vector.0.get(usize::from(server) - 1) {
        Some(count) => *count,
        None => 0,
    }
}

// Whether fewer than 2^63 updates of the server are in what is held of each of the objects.
fn has_room(from: u8, objects: &[(Fid, Held)]) -> bool
    requires { 1 ≤ from }
    ensures { IsTrue result ↔ AllByRecursion (λ (o : Fid × Held). count o.1.vector.0 from < 2 ^ 63) objects.now }
{
    for (_, held) in objects {
        if count(&held.vector, from) >= MANY {
            return false;
        }
    }
    true
}

/// Whether fewer than 2^63 updates of the server, one from 1 on, are in what each replica holds of each object: then
/// one more has room.
pub fn have_room(from: u8, views: &[View]) -> bool
    requires { 1 ≤ from }
    ensures { IsTrue result ↔ HaveRoom from views.now }
{
    match views {
        [] => true,
        [first, rest @ ..] => has_room(from, first.held.objects()) && have_room(from, rest),
    }
}
