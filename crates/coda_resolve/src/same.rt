// Whether two replicas hold the same.
ghost use Rattle.std.specs.Prelude.{◌<◌, ℕ, List, Option, length, slice_get};
ghost use Rattle.std.specs.FinMap as finmap;
ghost use Rattle.coda_fid.specs.declared.fid.Fid.{Fid};
ghost use Rattle.coda_vv.specs.declared.vector.Vv.{Vv};
ghost use Rattle.coda_reslog.specs.declared.entry.ResEntry.{ResEntry};
ghost use Rattle.coda_resolve.specs.Renewals.{Tells};

use coda_fid::{Fid, Name};
use coda_lanes::same_bytes;
use coda_reslog::{Held, Lost, ResEntry, Ring};
use coda_tree::{Entries, Node, NodeKind};
use coda_vv::Vv;
use std::cmp::Ordering;

// ---- nodes

// Whether two names are the same.
fn same_name(one: &Name, other: &Name) -> bool
    ensures { Tells result one.now other.now }
{
    match one.compare(other) {
        Ordering::Equal => true,
        Ordering::Less => false,
        Ordering::Greater => false,
    }
}

// Whether two bindings are the same.
fn same_binding(one: &Name, fid: Fid, other: &Name, other_fid: Fid) -> bool
    ensures { Tells {X = List ℕ × Fid} result (one.now, fid) (other.now, other_fid) }
{
    fid == other_fid && same_name(one, other)
}

// Whether two directories bind the same at an index.
fn same_at(one: &Entries, other: &Entries, index: usize) -> bool
    requires one { index < finmap.len one.now }
    requires other { index < finmap.len other.now }
    ensures { Tells result (slice_get (finmap.entries one.now) index) (slice_get (finmap.entries other.now) index) }
{
    let Some((name, fid)) = one.at(index) else {
        unreachable!()
    };
    let Some((other_name, other_fid)) = other.at(index) else {
        unreachable!()
    };
    same_binding(name, fid, other_name, other_fid)
}

// Whether two directories bind the same.
fn same_entries(one: &Entries, other: &Entries) -> bool
    ensures { Tells result one.now other.now }
{
    if one.len() != other.len() {
        return false;
    }
    for index in 0..one.len() {
        if !same_at(one, other, index) {
            return false;
        }
    }
    true
}

// Whether two objects are of one kind and hold the same.
fn same_kind(one: &NodeKind, other: &NodeKind) -> bool
    ensures { Tells result one.now other.now }
{
    match one {
        NodeKind::File(content) => match other {
            NodeKind::File(other) => same_bytes(content.bytes(), other.bytes()),
            NodeKind::Link(_) => false,
            NodeKind::Dir(_) => false,
        },
        NodeKind::Link(target) => match other {
            NodeKind::File(_) => false,
            NodeKind::Link(other) => same_bytes(target.bytes(), other.bytes()),
            NodeKind::Dir(_) => false,
        },
        NodeKind::Dir(entries) => match other {
            NodeKind::File(_) => false,
            NodeKind::Link(_) => false,
            NodeKind::Dir(other) => same_entries(entries, other),
        },
    }
}

// Whether two nodes are the same.
pub(crate) fn same_node(one: &Node, other: &Node) -> bool
    ensures { Tells result one.now other.now }
{
    one.mode == other.mode
        && one.owner == other.owner
        && one.mtime == other.mtime
        && one.sid == other.sid
        && one.marked == other.marked
        && same_kind(&one.kind, &other.kind)
}

// ---- updates and logs

// Whether two names are the same, where there are any.
fn same_name_in(one: &Option<Name>, other: &Option<Name>) -> bool
    ensures { Tells result one.now other.now }
{
    match one {
        Some(one) => match other {
            Some(other) => same_name(one, other),
            None => false,
        },
        None => other.is_none(),
    }
}

// Whether the same updates are in two versions.
fn same_vector(one: &Vv, other: &Vv) -> bool
    ensures { Tells result one.now other.now }
{
    one.0 == other.0
}

// Whether two updates took the same out, where they took anything.
fn same_lost(one: &Option<Lost>, other: &Option<Lost>) -> bool
    ensures { Tells result one.now other.now }
{
    match one {
        Some(one) => match other {
            Some(other) => one.fid == other.fid && same_vector(&one.vector, &other.vector),
            None => false,
        },
        None => other.is_none(),
    }
}

// Whether two updates are the same.
fn same_update(one: &ResEntry, other: &ResEntry) -> bool
    ensures { Tells result one.now other.now }
{
    one.origin == other.origin
        && one.seq == other.seq
        && one.sid == other.sid
        && one.kind == other.kind
        && one.fid == other.fid
        && same_name_in(&one.name, &other.name)
        && same_name_in(&one.other, &other.other)
        && same_lost(&one.lost, &other.lost)
}

// Whether two logs have the same update at an index.
fn same_update_at(one: &Ring, other: &Ring, index: usize) -> bool
    requires one { index < length one.now }
    requires other { index < length other.now }
    ensures { Tells result (slice_get one.now index) (slice_get other.now index) }
{
    let Some(one) = one.get(index) else {
        unreachable!()
    };
    let Some(other) = other.get(index) else {
        unreachable!()
    };
    same_update(one, other)
}

// Whether two logs are the same.
fn same_ring(one: &Ring, other: &Ring) -> bool
    ensures { Tells result one.now other.now }
{
    if one.len() != other.len() {
        return false;
    }
    for index in 0..one.len() {
        if !same_update_at(one, other, index) {
            return false;
        }
    }
    true
}

// Whether two logs are the same, where there are any.
fn same_log(one: &Option<Ring>, other: &Option<Ring>) -> bool
    ensures { Tells result one.now other.now }
{
    match one {
        Some(one) => match other {
            Some(other) => same_ring(one, other),
            None => false,
        },
        None => other.is_none(),
    }
}

// Whether the same updates are in two copies of an object, and the same stand in their logs.
pub(crate) fn same_updates(one: &Held, other: &Held) -> bool
    ensures { Tells {X = Vv × Option (List ResEntry)} result (one.now.vector, one.now.ring) (other.now.vector, other.now.ring) }
{
    same_vector(&one.vector, &other.vector) && same_log(&one.ring, &other.ring)
}
