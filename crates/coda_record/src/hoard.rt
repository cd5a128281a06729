//! Hoard databases and their changes, read from the front of what is left and written behind what is there.
ghost use Rattle.std.specs.Prelude.{◌≡◌, ◌++◌, OnOk};
ghost use Rattle.std.specs.List.{flat_map};
ghost use Rattle.coda_record.specs.Form.{gives, four};
ghost use Rattle.coda_record.specs.Parts.{items, each, list_of};
ghost use Rattle.coda_record.specs.Hoard.{path as a_path, expansion as an_expansion, hoard_entry as a_hoard_entry, hoard_change as a_hoard_change, priority as a_priority};
ghost use Rattle.coda_record.specs.Spelling.{HasSpelling};
ghost use Rattle.coda_record.specs.Reading.{read};
ghost use Rattle.coda_record.specs.Outcome.{Gives};

use crate::snapshot::HoardEntries;
use coda_fid::{NameFault, Path};
use coda_hdb::{Expand, HdbEntry, HoardChange, text_of};
use coda_values::parts::u32_between;
use coda_values::writing::{put_u8, put_u16, put_u32};
use coda_values::{Cursor, Fault};
use std::alloc::{AllocError, Global};

/// The greatest number of a volume.
const GREATEST_VOLUME: u32 = 4_294_967_295;

/// The most bytes that the text of a path has.
const LONGEST_PATH: u32 = 1_024;

/// The greatest priority of a hoard entry.
const MOST_WANTED: u16 = 1_000;

#[tactic(auto, unfolding(crate::specs::Hoard::path))]
fn path(alloc: Global, cursor: &mut Cursor) -> Result<Path, Fault>
    ensures { Gives (λ p. (p, cursor.new)) result (read (a_path four).form cursor.old) }
{
    let left = cursor.left();
    let length = u32_between(cursor, 1, LONGEST_PATH)?;
    let text = cursor.take(length as usize)?;
    match Path::read(alloc, text) {
        Ok(path) => Ok(path),
        Err(NameFault::BadName) => Err(Fault::Broken { left }),
        Err(NameFault::Memory) => Err(Fault::Memory),
    }
}

#[tactic(auto, unfolding(crate::specs::Hoard::expansion))]
fn expansion(cursor: &mut Cursor) -> Result<Expand, Fault>
    ensures { Gives (λ e. (e, cursor.new)) result (read an_expansion.form cursor.old) }
{
    let tag = cursor.tag()?;
    match tag.byte {
        0 => Ok(Expand::Alone),
        1 => Ok(Expand::Children),
        2 => Ok(Expand::Descendants),
        _ => Err(tag.unknown()),
    }
}

// A number of two bytes, from 1 to the greatest priority.
fn priority(cursor: &mut Cursor) -> Result<u16, Fault>
    ensures { Gives (λ n. (n, cursor.new)) result (read a_priority.form cursor.old) }
{
    let left = cursor.left();
    let number = cursor.u16()?;
    if number < 1 || MOST_WANTED < number {
        return Err(Fault::Broken { left });
    }
    Ok(number)
}

/// An entry of a hoard database.
#[tactic(auto, unfolding(crate::specs::Hoard::hoard_entry))]
pub fn hoard_entry(alloc: Global, cursor: &mut Cursor) -> Result<HdbEntry, Fault>
    ensures { Gives (λ e. (e, cursor.new)) result (read (a_hoard_entry four).form cursor.old) }
{
    let volume = u32_between(cursor, 1, GREATEST_VOLUME)?;
    let path = path(alloc, cursor)?;
    let priority = priority(cursor)?;
    let expand = expansion(cursor)?;
    Ok(HdbEntry {
        volume,
        path,
        priority,
        expand,
    })
}

// So many entries of a hoard database.
fn hoard_entries_of(alloc: Global, cursor: &mut Cursor, count: u32) -> Result<Vec<HdbEntry>, Fault>
    ensures { Gives (λ es. (es.items, cursor.new)) result (read (items (each (a_hoard_entry four)) (λ e. tt) tt count (λ es. gives es)) cursor.old) }
{
    let mut entries = Vec::new(alloc);
    for _ in 0..count {
        let entry = hoard_entry(alloc, cursor)?;
        entries.push(entry)?;
    }
    Ok(entries)
}

/// Entries of a hoard database, in its order.
pub fn hoard_entries(alloc: Global, cursor: &mut Cursor) -> Result<HoardEntries, Fault>
    ensures { Gives (λ es. (es, cursor.new)) result (read (list_of (a_hoard_entry four)).form cursor.old) }
{
    let count = cursor.u32()?;
    let entries = hoard_entries_of(alloc, cursor, count)?;
    Ok(HoardEntries::from_vec(entries))
}

/// A change of a hoard database.
#[tactic(auto, unfolding(crate::specs::Hoard::hoard_change))]
pub fn hoard_change(alloc: Global, cursor: &mut Cursor) -> Result<HoardChange, Fault>
    ensures { Gives (λ c. (c, cursor.new)) result (read (a_hoard_change four).form cursor.old) }
{
    let tag = cursor.tag()?;
    match tag.byte {
        1 => {
            let entry = hoard_entry(alloc, cursor)?;
            Ok(HoardChange::Add(entry))
        }
        2 => {
            let volume = u32_between(cursor, 1, GREATEST_VOLUME)?;
            let path = path(alloc, cursor)?;
            Ok(HoardChange::Remove(volume, path))
        }
        3 => Ok(HoardChange::Clear),
        _ => Err(tag.unknown()),
    }
}

// A path.
#[tactic(auto, unfolding(crate::specs::Hoard::path))]
fn put_path(out: &mut Vec<u8>, path: &Path) -> Result<(), AllocError>
    ensures { OnOk result (out.new.items ≡ out.old.items ++ ((a_path four).piece path.now).bytes) }
{
    let text = text_of(*out.allocator(), path.names())?;
    put_u32(out, text.len() as u32)?;
    Ok(out.extend_from_slice(&text)?)
}

#[tactic(auto, unfolding(crate::specs::Hoard::expansion))]
fn put_expansion(out: &mut Vec<u8>, expand: Expand) -> Result<(), AllocError>
    ensures { OnOk result (out.new.items ≡ out.old.items ++ (an_expansion.piece expand).bytes) }
{
    match expand {
        Expand::Alone => put_u8(out, 0),
        Expand::Children => put_u8(out, 1),
        Expand::Descendants => put_u8(out, 2),
    }
}

/// An entry of a hoard database.
#[tactic(auto, unfolding(crate::specs::Hoard::hoard_entry))]
pub fn put_hoard_entry(out: &mut Vec<u8>, entry: &HdbEntry) -> Result<(), AllocError>
    ensures { OnOk result (out.new.items ≡ out.old.items ++ ((a_hoard_entry four).piece entry.now).bytes) }
{
    put_u32(out, entry.volume)?;
    put_path(out, &entry.path)?;
    put_u16(out, entry.priority)?;
    put_expansion(out, entry.expand)
}

// Entries of a hoard database, one after the other.
fn put_all_hoard_entries(out: &mut Vec<u8>, entries: &[HdbEntry]) -> Result<(), AllocError>
    ensures { OnOk result (out.new.items ≡ out.old.items ++ flat_map (λ e. ((a_hoard_entry four).piece e).bytes) entries.now) }
{
    for entry in entries {
        put_hoard_entry(out, entry)?;
    }
    Ok(())
}

/// Entries of a hoard database, in its order.
pub fn put_hoard_entries(out: &mut Vec<u8>, entries: &[HdbEntry]) -> Result<(), AllocError>
    requires { HasSpelling (list_of (a_hoard_entry four)) entries.now }
    ensures { OnOk result (out.new.items ≡ out.old.items ++ ((list_of (a_hoard_entry four)).piece entries.now).bytes) }
{
    put_u32(out, entries.len() as u32)?;
    put_all_hoard_entries(out, entries)
}

/// A change of a hoard database.
#[tactic(auto, unfolding(crate::specs::Hoard::hoard_change))]
pub fn put_hoard_change(out: &mut Vec<u8>, change: &HoardChange) -> Result<(), AllocError>
    ensures { OnOk result (out.new.items ≡ out.old.items ++ ((a_hoard_change four).piece change.now).bytes) }
{
    match change {
        HoardChange::Add(entry) => {
            put_u8(out, 1)?;
            put_hoard_entry(out, entry)
        }
        HoardChange::Remove(volume, path) => {
            put_u8(out, 2)?;
            put_u32(out, *volume)?;
            put_path(out, path)
        }
        HoardChange::Clear => put_u8(out, 3),
    }
}
