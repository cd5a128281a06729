// What a copy of a directory binds, and on which names it lacks a missing update.
ghost use Rattle.std.specs.Prelude.{ℕ, ◌≡◌, ◌&&◌, ◌||◌, not, true, cond, option_copied, map, IfOk, OnOk, List, Option, Some, None, option_map};
ghost use Rattle.std.specs.List.{find, list_any, list_all};
ghost use Rattle.std.specs.Ordering.{eq_by_cmp};
ghost use Rattle.std.specs.FinMap as finmap;
ghost use Rattle.coda_fid.specs.Name.{name_cmp};
ghost use Rattle.coda_reslog.specs.declared.entry.ResEntry.{ResEntry};
ghost use Rattle.coda_reslog.specs.declared.change.Held.{Held};
ghost use Rattle.coda_resolve.specs.Copies.{bindings_of};
ghost use Rattle.coda_resolve.specs.Missing.{has_update, leads, missing};
ghost use Rattle.coda_resolve.specs.Merged.{is_on, is_name_of, same_binding, shared, binding};
ghost use Rattle.coda_resolve.specs.Lent.{lent};
ghost use Rattle.coda_resolve.specs.Claims.{has_name, lacks_on, AreLacking, AreClaims, AreClaimsOf, copies_of};

use crate::copies::has_update;
use coda_fid::{Fid, Name};
use coda_reslog::{Held, ResEntry};
use coda_tree::{Entries, NodeKind};
use std::alloc::{AllocError, Global};

// A copy of a directory, with the names on which it lacks a missing update, each bound to the object of such an update.
#[derive(Drop)]
pub(crate) struct Claim<'a> {
    pub(crate) copy: Option<&'a Held>,
    pub(crate) lacking: Entries,
}

// Adds a name, unless it is there.
fn add_name(names: &mut Entries, name: &Name, fid: Fid) -> Result<(), AllocError>
    ensures { OnOk result ((n : List ℕ) → has_name names.new n ≡ (has_name names.old n || eq_by_cmp name_cmp n name.now)) }
{
    if names.find(name).is_some() {
        return Ok(());
    }
    let copy = name.copy()?;
    names.insert(copy, fid)
}

// Adds the name, where there is one, unless it is there.
fn add_some_name(names: &mut Entries, name: &Option<Name>, fid: Fid) -> Result<(), AllocError>
    ensures { OnOk result ((n : List ℕ) → has_name names.new n ≡ (has_name names.old n || is_name_of n name.now)) }
{
    match name {
        Some(name) => add_name(names, name, fid),
        None => Ok(()),
    }
}

// Adds the names that the update names.
fn add_names(names: &mut Entries, update: &ResEntry) -> Result<(), AllocError>
    ensures { OnOk result ((n : List ℕ) → has_name names.new n ≡ (has_name names.old n || is_on n update.now)) }
{
    add_some_name(names, &update.name, update.fid)?;
    add_some_name(names, &update.other, update.fid)
}

// Adds the names that the update names, where it isn't in the copy.
fn add_lacking(
    names: &mut Entries,
    copy: Option<&Held>,
    update: &ResEntry,
) -> Result<(), AllocError>
    ensures { OnOk result ((n : List ℕ) → has_name names.new n ≡ (has_name names.old n || (is_on n update.now && not (has_update update.now (option_copied copy.entry))))) }
{
    if has_update(copy, update) {
        Ok(())
    } else {
        add_names(names, update)
    }
}

// The names on which the copy lacks one of the updates.
fn lacking(alloc: Global, copy: Option<&Held>, updates: &[&ResEntry]) -> Result<Entries, AllocError>
    ensures { IfOk result (λ names. AreLacking (lent updates.now) (option_copied copy.entry) names) }
{
    let mut names = Entries::new(alloc);
    for update in updates {
        add_lacking(&mut names, copy, update)?;
    }
    Ok(names)
}

// What the copy binds at the name.
pub(crate) fn bound(copy: Option<&Held>, name: &Name) -> Option<Fid>
    ensures { result ≡ finmap.get (bindings_of (option_copied copy.entry)) name.now }
{
    let Some(held) = copy else {
        return None;
    };
    match &held.node.kind {
        NodeKind::Dir(entries) => entries.find(name),
        NodeKind::File(_) => None,
        NodeKind::Link(_) => None,
    }
}

// Whether both are the same fid, or none is there.
fn same_binding(one: Option<Fid>, other: Option<Fid>) -> bool
    ensures { result ≡ same_binding one other }
{
    match one {
        None => match other {
            None => true,
            Some(_) => false,
        },
        Some(fid) => match other {
            None => false,
            Some(same) => fid == same,
        },
    }
}

// Whether each copy binds this at the name.
fn all_bind(to: Option<Fid>, copies: &[Option<&Held>], name: &Name) -> bool
    ensures { result ≡ list_all (λ other. same_binding to (finmap.get (bindings_of other) name.now)) (map option_copied copies.now) }
{
    match copies {
        [] => true,
        [first, rest @ ..] => same_binding(to, bound(*first, name)) && all_bind(to, rest, name),
    }
}

// The binding, where it is alike.
fn where_alike(alike: bool, to: Option<Fid>) -> Option<Option<Fid>>
    ensures { result ≡ cond alike (Some to) None }
{
    if alike { Some(to) } else { None }
}

// What all copies bind alike at the name, where they do.
fn shared(copies: &[Option<&Held>], name: &Name) -> Option<Option<Fid>>
    ensures { result ≡ shared name.now (map option_copied copies.now) }
{
    match copies {
        [] => None,
        [first, rest @ ..] => {
            let to = bound(*first, name);
            where_alike(all_bind(to, rest, name), to)
        }
    }
}

// The claim of a copy.
fn claim_of<'a>(
    alloc: Global,
    copy: Option<&'a Held>,
    updates: &[&ResEntry],
) -> Result<Claim<'a>, AllocError>
    ensures same { IfOk result (λ claim. option_copied claim.copy ≡ option_copied copy.entry) }
    ensures lacking { IfOk result (λ claim. AreLacking (lent updates.now) (option_copied copy.entry) claim.lacking) }
{
    let lacking = lacking(alloc, copy, updates)?;
    Ok(Claim { copy, lacking })
}

// What the lowest copy binds at the name that has all missing updates on it, where there is one.
fn led<'a>(claims: &[Claim<'a>], name: &Name) -> Option<Option<Fid>>
    ensures { (all : List (Option Held)) → AreClaims (missing all) claims.now → result ≡ option_map (λ copy. finmap.get (bindings_of copy) name.now) (find (leads (is_on name.now) all) (copies_of claims.now)) }
{
    match claims {
        [] => None,
        [first, rest @ ..] => {
            if first.lacking.find(name).is_some() {
                led(rest, name)
            } else {
                Some(bound(first.copy, name))
            }
        }
    }
}

// What the merged directory binds at the name, where the copies can be merged there.
pub(crate) fn binding(
    claims: &[Claim],
    copies: &[Option<&Held>],
    name: &Name,
) -> Option<Option<Fid>>
    requires { AreClaimsOf (map option_copied copies.now) claims.now }
    ensures { result ≡ binding (map option_copied copies.now) name.now }
{
    match led(claims, name) {
        Some(to) => Some(to),
        None => shared(copies, name),
    }
}

// The claims of the copies.
pub(crate) fn claims<'a>(
    alloc: Global,
    copies: &[Option<&'a Held>],
    updates: &[&ResEntry],
) -> Result<Vec<Claim<'a>>, AllocError>
    requires { lent updates.now ≡ missing (map option_copied copies.now) }
    ensures { IfOk result (λ claims. AreClaimsOf (map option_copied copies.now) claims.items) }
{
    let mut claims = Vec::new(alloc);
    for copy in copies {
        let claim = claim_of(alloc, *copy, updates)?;
        claims.push(claim)?;
    }
    Ok(claims)
}
