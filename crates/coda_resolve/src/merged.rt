// Attributes, updates and log of a merged directory.
ghost use Rattle.std.specs.Prelude.{◌≡◌, ◌||◌, ◌≢◌, not, Option, option_copied, map, IfOk, OnOk, List, []};
ghost use Rattle.std.specs.List.{list_any, list_all, fold};
ghost use Rattle.coda_vv.specs.Vector.{joined};
ghost use Rattle.coda_reslog.specs.declared.entry.ResEntry.{ResEntry};
ghost use Rattle.coda_reslog.specs.declared.change.Held.{Held};
ghost use Rattle.coda_reslog.specs.Rings.{last_entries};
ghost use Rattle.coda_resolve.specs.Copies.{vector_of, log_of};
ghost use Rattle.coda_resolve.specs.Missing.{has_update, missing};
ghost use Rattle.coda_resolve.specs.Merged.{is_attr, leading, first_of_copies, attributes_of, updates_of, followed_by, log_of_copies};
ghost use Rattle.coda_resolve.specs.Causes.{is_cross_kind};
ghost use Rattle.coda_resolve.specs.Lent.{lent};
ghost use Rattle.coda_resolve.specs.Stamps.{AreStamps};

use crate::copies::{has_update, vector_of};
use crate::stamps::{Stamp, add_log, has_stamp};
use coda_reslog::{Held, ResEntry, ResKind, Ring};
use coda_vv::Vv;
use std::alloc::{AllocError, Global};
use std::collections::BTreeSet;

// Whether an update moved an object between directories.
fn is_cross(update: &ResEntry) -> bool
    ensures { result ≡ is_cross_kind update.now.kind }
{
    match update.kind {
        ResKind::Cross => true,
        ResKind::Add | ResKind::Drop | ResKind::Rename | ResKind::Attr => false,
    }
}

// Whether one of the updates moved an object between directories.
pub(crate) fn some_cross(updates: &[&ResEntry]) -> bool
    ensures { result ≡ list_any (λ u. is_cross_kind u.kind) (lent updates.now) }
{
    for update in updates {
        if is_cross(update) {
            return true;
        }
    }
    false
}

// Whether an update changed the attributes.
fn is_attr(update: &ResEntry) -> bool
    ensures { result ≡ is_attr update.now }
{
    match update.kind {
        ResKind::Attr => true,
        ResKind::Add | ResKind::Drop | ResKind::Rename | ResKind::Cross => false,
    }
}

// Whether the copy has each of the updates that changed the attributes.
fn has_attributes(copy: Option<&Held>, updates: &[&ResEntry]) -> bool
    ensures { result ≡ list_all (λ u. not (is_attr u) || has_update u (option_copied copy.entry)) (lent updates.now) }
{
    for update in updates {
        if is_attr(update) && !has_update(copy, update) {
            return false;
        }
    }
    true
}

// The copy, if it is there and has each of the missing changes of attributes.
fn leading<'a>(copy: Option<&'a Held>, updates: &[&ResEntry]) -> Option<&'a Held>
    ensures { (all : List (Option Held)) → lent updates.now ≡ missing all → option_copied result ≡ leading all (option_copied copy.entry) }
{
    let held = copy?;
    if has_attributes(Some(held), updates) {
        Some(held)
    } else {
        None
    }
}

// The lowest of these copies that is there and has each of the missing changes of attributes.
fn attributes_in<'a>(updates: &[&ResEntry], copies: &[Option<&'a Held>]) -> Option<&'a Held>
    ensures { (all : List (Option Held)) → lent updates.now ≡ missing all → option_copied result ≡ first_of_copies (leading all) (map option_copied copies.now) }
{
    match copies {
        [] => None,
        [first, rest @ ..] => match leading(*first, updates) {
            Some(held) => Some(held),
            None => attributes_in(updates, rest),
        },
    }
}

// The lowest copy that is there and whose missing changes of attributes contain every other's.
pub(crate) fn attributes<'a>(updates: &[&ResEntry], copies: &[Option<&'a Held>]) -> Option<&'a Held>
    requires { lent updates.now ≡ missing (map option_copied copies.now) }
    ensures { option_copied result ≡ attributes_of (map option_copied copies.now) }
{
    attributes_in(updates, copies)
}

// The updates of the vector and of the copies.
fn joined(vector: Vv, copies: &[Option<&Held>]) -> Vv
    ensures { result.0 ≡ fold joined vector.0 (map vector_of (map option_copied copies.now)) }
{
    match copies {
        [] => vector,
        [first, rest @ ..] => joined(vector.merge(&vector_of(*first)), rest),
    }
}

// The updates of all copies.
pub(crate) fn updates(copies: &[Option<&Held>]) -> Vv
    ensures { result.0 ≡ updates_of (map option_copied copies.now) }
{
    match copies {
        [] => Vv([0; 8]),
        [first, rest @ ..] => joined(vector_of(*first), rest),
    }
}
