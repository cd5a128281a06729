ghost use Rattle.std.specs.Prelude.{◌≡◌, ◌++◌, ◌∷◌, [], List, option_to_list, IfOk, OnOk};
ghost use Rattle.std.specs.List.{flat_map};
ghost use Rattle.coda_record.specs.declared.last.Last.{Last};
ghost use Rattle.coda_record.specs.declared.view.View.{View};
ghost use Rattle.coda_resolve.specs.Lasts.{is_later, joined_lasts, AreLatest};

use coda_record::{Last, Lasts, View};
use std::alloc::{AllocError, Global};
use std::collections::BTreeMap;

// Whether the decision has a greater number than the one that is known.
fn is_later(known: Option<Last>, last: Last) -> bool
    ensures { result ≡ is_later known last }
{
    match known {
        Some(known) => last.number > known.number,
        None => true,
    }
}

// Adds a decision, where none as late is known of its client.
fn add_last(table: &mut BTreeMap<u8, Last>, last: Last) -> Result<(), AllocError>
    ensures { OnOk result ((lasts : List Last) → AreLatest table.old lasts → AreLatest table.new (lasts ++ last ∷ [])) }
{
    let known = table.get(&last.client).copied();
    if !is_later(known, last) {
        return Ok(());
    }
    table.insert(last.client, last)?;
    Ok(())
}

// Adds decisions.
fn add_lasts(table: &mut BTreeMap<u8, Last>, more: &[Last]) -> Result<(), AllocError>
    ensures { OnOk result ((lasts : List Last) → AreLatest table.old lasts → AreLatest table.new (lasts ++ more.now)) }
{
    for last in more {
        add_last(table, *last)?;
    }
    Ok(())
}

// The last decision of each client, of those that the replicas know.
fn latest(alloc: Global, views: &[View]) -> Result<BTreeMap<u8, Last>, AllocError>
    ensures { IfOk result (λ table. AreLatest table (flat_map (λ (view : View). view.lasts) views.now)) }
{
    let mut table = BTreeMap::new(alloc);
    for view in views {
        add_lasts(&mut table, view.lasts.lasts())?;
    }
    Ok(table)
}

// Puts the decision behind the others, where there is one.
fn push_some(items: &mut Vec<Last>, last: Option<Last>) -> Result<(), AllocError>
    ensures { OnOk result (items.new.items ≡ items.old.items ++ option_to_list last) }
{
    if let Some(last) = last {
        items.push(last)?;
    }
    Ok(())
}

// The last decision of each client that has any, in order of clients: that of the greatest number that a replica knows.
pub(crate) fn joined(alloc: Global, views: &[View]) -> Result<Lasts, AllocError>
    ensures { IfOk result (λ lasts. lasts ≡ joined_lasts (flat_map (λ (view : View). view.lasts) views.now)) }
{
    let table = latest(alloc, views)?;
    let mut items = Vec::new(alloc);
    for client in 0..256u16 {
        push_some(&mut items, table.get(&(client as u8)).copied())?;
    }
    Ok(Lasts::from_vec(items))
}
