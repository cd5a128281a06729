//! Version vectors and resolution logs, read from the front of what is left and written behind what is there.
ghost use Rattle.std.specs.Prelude.{◌≡◌, ◌≤◌, ◌++◌, ◌∷◌, [], OnOk};
ghost use Rattle.std.specs.List.{flat_map};
ghost use Rattle.coda_values.specs.Form.{gives, together};
ghost use Rattle.coda_values.specs.Parts.{items, each, optional};
ghost use Rattle.coda_values.specs.Table.{count as a_count, ordinal as an_ordinal, server as a_server, fid as a_fid, name as a_name, sid as a_sid};
ghost use Rattle.coda_values.specs.Held.{vector as a_vector, lost as a_lost_object, update_kind as an_update_kind, update as an_update, updates as some_updates};
ghost use Rattle.coda_values.specs.Reading.{read};
ghost use Rattle.coda_values.specs.Outcome.{Gives};

use crate::cursor::Cursor;
use crate::fault::Fault;
use crate::parts::{name, u8_between, u32_between, u64_between};
use crate::reading::{GREATEST, fid, sid};
use crate::writing::{put_fid, put_name, put_sid, put_u8, put_u32, put_u64};
use coda_fid::{Name, Sid};
use coda_reslog::{Lost, ResEntry, ResKind, Ring};
use coda_vv::Vv;
use std::alloc::{AllocError, Global};

/// How many updates a resolution log keeps.
const UPDATES: u32 = 256;

/// A vector: how many updates of each server, that of server 1 first.
#[tactic(auto, unfolding(crate::specs::Held::vector))]
pub fn vector(cursor: &mut Cursor) -> Result<Vv, Fault>
    ensures { Gives (λ v. (v, cursor.new)) result (read a_vector.form cursor.old) }
{
    let first = u64_between(cursor, 0, GREATEST)?;
    let second = u64_between(cursor, 0, GREATEST)?;
    let third = u64_between(cursor, 0, GREATEST)?;
    let fourth = u64_between(cursor, 0, GREATEST)?;
    let fifth = u64_between(cursor, 0, GREATEST)?;
    let sixth = u64_between(cursor, 0, GREATEST)?;
    let seventh = u64_between(cursor, 0, GREATEST)?;
    let eighth = u64_between(cursor, 0, GREATEST)?;
    Ok(Vv([first, second, third, fourth, fifth, sixth, seventh, eighth]))
}

#[tactic(auto, unfolding(crate::specs::Held::lost))]
fn lost(cursor: &mut Cursor) -> Result<Lost, Fault>
    ensures { Gives (λ l. (l, cursor.new)) result (read a_lost_object.form cursor.old) }
{
    let fid = fid(cursor)?;
    let vector = vector(cursor)?;
    Ok(Lost { fid, vector })
}

fn optional_lost(cursor: &mut Cursor) -> Result<Option<Lost>, Fault>
    ensures { Gives (λ l. (l, cursor.new)) result (read (optional a_lost_object).form cursor.old) }
{
    let tag = cursor.tag()?;
    match tag.byte {
        0 => Ok(None),
        1 => {
            let lost = lost(cursor)?;
            Ok(Some(lost))
        }
        _ => Err(tag.unknown()),
    }
}

fn optional_name(alloc: Global, cursor: &mut Cursor) -> Result<Option<Name>, Fault>
    ensures { Gives (λ n. (n, cursor.new)) result (read (optional a_name).form cursor.old) }
{
    let tag = cursor.tag()?;
    match tag.byte {
        0 => Ok(None),
        1 => {
            let name = name(alloc, cursor)?;
            Ok(Some(name))
        }
        _ => Err(tag.unknown()),
    }
}

#[tactic(auto, unfolding(crate::specs::Held::update_kind))]
fn update_kind(cursor: &mut Cursor) -> Result<ResKind, Fault>
    ensures { Gives (λ k. (k, cursor.new)) result (read an_update_kind.form cursor.old) }
{
    let tag = cursor.tag()?;
    match tag.byte {
        1 => Ok(ResKind::Add),
        2 => Ok(ResKind::Drop),
        3 => Ok(ResKind::Rename),
        4 => Ok(ResKind::Cross),
        5 => Ok(ResKind::Attr),
        _ => Err(tag.unknown()),
    }
}

/// An update of a directory.
#[tactic(auto, unfolding(crate::specs::Held::update))]
pub fn update(alloc: Global, cursor: &mut Cursor) -> Result<ResEntry, Fault>
    ensures { Gives (λ u. (u, cursor.new)) result (read an_update.form cursor.old) }
{
    let origin = u8_between(cursor, 1, 8)?;
    let seq = u64_between(cursor, 1, GREATEST)?;
    let sid = sid(cursor)?;
    let kind = update_kind(cursor)?;
    let name = optional_name(alloc, cursor)?;
    let other = optional_name(alloc, cursor)?;
    let fid = fid(cursor)?;
    let lost = optional_lost(cursor)?;
    Ok(ResEntry {
        origin,
        seq,
        sid,
        kind,
        name,
        other,
        fid,
        lost,
    })
}

// So many updates, for which a log has room.
fn updates_of(alloc: Global, cursor: &mut Cursor, count: u32) -> Result<Ring, Fault>
    requires { count ≤ 256 }
    ensures { Gives (λ us. (us, cursor.new)) result (read (items (each an_update) (λ u. tt) tt count (λ us. gives us)) cursor.old) }
{
    let mut log = Ring::new(alloc)?;
    for _ in 0..count {
        let update = update(alloc, cursor)?;
        log.push(update);
    }
    Ok(log)
}

/// A resolution log.
#[tactic(auto, unfolding(crate::specs::Held::updates))]
pub fn updates(alloc: Global, cursor: &mut Cursor) -> Result<Ring, Fault>
    ensures { Gives (λ us. (us, cursor.new)) result (read some_updates.form cursor.old) }
{
    let count = u32_between(cursor, 0, UPDATES)?;
    updates_of(alloc, cursor, count)
}

// Counts, one after the other.
fn put_counts(out: &mut Vec<u8>, counts: &[u64]) -> Result<(), AllocError>
    ensures { OnOk result (out.new.items ≡ out.old.items ++ flat_map (λ c. (a_count.piece c).bytes) counts.now) }
{
    for count in counts {
        put_u64(out, *count)?;
    }
    Ok(())
}

/// A vector.
#[tactic(auto, unfolding(crate::specs::Held::vector))]
pub fn put_vector(out: &mut Vec<u8>, vector: &Vv) -> Result<(), AllocError>
    ensures { OnOk result (out.new.items ≡ out.old.items ++ (a_vector.piece vector.now).bytes) }
{
    put_counts(out, &vector.0)
}

#[tactic(auto, unfolding(crate::specs::Held::lost))]
fn put_lost(out: &mut Vec<u8>, lost: &Option<Lost>) -> Result<(), AllocError>
    ensures { OnOk result (out.new.items ≡ out.old.items ++ ((optional a_lost_object).piece lost.now).bytes) }
{
    match lost {
        None => put_u8(out, 0),
        Some(lost) => {
            put_u8(out, 1)?;
            put_fid(out, lost.fid)?;
            put_vector(out, &lost.vector)
        }
    }
}

fn put_optional_name(out: &mut Vec<u8>, name: &Option<Name>) -> Result<(), AllocError>
    ensures { OnOk result (out.new.items ≡ out.old.items ++ ((optional a_name).piece name.now).bytes) }
{
    match name {
        None => put_u8(out, 0),
        Some(name) => {
            put_u8(out, 1)?;
            put_name(out, name)
        }
    }
}

#[tactic(auto, unfolding(crate::specs::Held::update_kind))]
fn put_update_kind(out: &mut Vec<u8>, kind: ResKind) -> Result<(), AllocError>
    ensures { OnOk result (out.new.items ≡ out.old.items ++ (an_update_kind.piece kind).bytes) }
{
    match kind {
        ResKind::Add => put_u8(out, 1),
        ResKind::Drop => put_u8(out, 2),
        ResKind::Rename => put_u8(out, 3),
        ResKind::Cross => put_u8(out, 4),
        ResKind::Attr => put_u8(out, 5),
    }
}

// Which update it is, and what it did.
fn put_update_head(
    out: &mut Vec<u8>,
    origin: u8,
    seq: u64,
    sid: Sid,
    kind: ResKind,
) -> Result<(), AllocError>
    ensures { OnOk result (out.new.items ≡ out.old.items ++ (together (a_server.piece origin ∷ an_ordinal.piece seq ∷ a_sid.piece sid ∷ an_update_kind.piece kind ∷ [])).bytes) }
{
    put_u8(out, origin)?;
    put_u64(out, seq)?;
    put_sid(out, sid)?;
    put_update_kind(out, kind)
}

// What it changed.
fn put_changed(out: &mut Vec<u8>, update: &ResEntry) -> Result<(), AllocError>
    ensures { OnOk result (out.new.items ≡ out.old.items ++ (together ((optional a_name).piece update.now.name ∷ (optional a_name).piece update.now.other ∷ a_fid.piece update.now.fid ∷ (optional a_lost_object).piece update.now.lost ∷ [])).bytes) }
{
    put_optional_name(out, &update.name)?;
    put_optional_name(out, &update.other)?;
    put_fid(out, update.fid)?;
    put_lost(out, &update.lost)
}

/// An update of a directory.
pub fn put_update(out: &mut Vec<u8>, update: &ResEntry) -> Result<(), AllocError>
    ensures { OnOk result (out.new.items ≡ out.old.items ++ (an_update.piece update.now).bytes) }
{
    put_update_head(out, update.origin, update.seq, update.sid, update.kind)?;
    put_changed(out, update)
}

// The updates of a log, one after the other.
fn put_all_updates(out: &mut Vec<u8>, log: &Ring) -> Result<(), AllocError>
    ensures { OnOk result (out.new.items ≡ out.old.items ++ flat_map (λ u. (an_update.piece u).bytes) log.now) }
{
    for index in 0..log.len() {
        match log.get(index) {
            Some(update) => put_update(out, update)?,
            None => unreachable!(),
        }
    }
    Ok(())
}

/// A resolution log.
#[tactic(auto, unfolding(crate::specs::Held::updates))]
pub fn put_updates(out: &mut Vec<u8>, log: &Ring) -> Result<(), AllocError>
    ensures { OnOk result (out.new.items ≡ out.old.items ++ (some_updates.piece log.now).bytes) }
{
    put_u32(out, log.len() as u32)?;
    put_all_updates(out, log)
}
