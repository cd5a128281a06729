//! Entries of journals, read and written.
ghost use Rattle.std.specs.Prelude.{◌≡◌, ◌++◌, OnOk, IfOk, Ok, All, List};
ghost use Rattle.std.specs.List.{flat_map};
ghost use Rattle.coda_record.specs.Form.{gives, four};
ghost use Rattle.coda_record.specs.Parts.{items, optional, each};
ghost use Rattle.coda_record.specs.Spelling.{HasSpelling, Spells, alone, whole};
ghost use Rattle.coda_record.specs.Table.{fid as a_fid, record_above as a_record_above};
ghost use Rattle.coda_record.specs.Entries.{client_entry as a_client_entry, client_payload, replica_entry as a_replica_entry, decide_form};
ghost use Rattle.coda_record.specs.Reading.{read};
ghost use Rattle.coda_record.specs.Outcome.{Gives, Reads};
ghost use Rattle.coda_record.specs.declared.entry.ReplicaEntry.{ReplicaEntry as a_type_of_replica_entries};
ghost use Rattle.coda_record.specs.declared.entry.ClientEntry.{ClientEntry as a_type_of_client_entries};

use crate::decisions::{lasts, put_lasts};
use crate::entry::{ClientEntry, ReplicaEntry};
use crate::fault::RecordFault;
use crate::hoard::{hoard_change, put_hoard_change};
use crate::snapshots::{client_snapshot, put_client_snapshot};
use coda_fid::Bytes;
use coda_values::held::{change, objects, put_change, put_objects};
use coda_values::nodes::{node, put_node};
use coda_values::parts::{u8_between, u32_between, u64_between};
use coda_values::reading::{GREATEST, fid, optional_fid, record_above, records, verdict};
use coda_values::writing::{
    put_fid, put_optional_fid, put_record, put_records, put_u8, put_u32, put_u64, put_verdict,
};
use coda_values::{Cursor, Fault};
use std::alloc::{AllocError, Global};

/// The greatest number of a volume.
const GREATEST_VOLUME: u32 = 4_294_967_295;

// An entry of a client.
#[tactic(auto, unfolding(crate::specs::Entries::client_entry))]
fn client_entry(alloc: Global, cursor: &mut Cursor) -> Result<ClientEntry, Fault>
    ensures { Gives (λ e. (e, cursor.new)) result (read (a_client_entry four).form cursor.old) }
{
    let tag = cursor.tag()?;
    match tag.byte {
        1 => {
            let volume = u32_between(cursor, 1, GREATEST_VOLUME)?;
            let rec = record_above(alloc, cursor, 0)?;
            Ok(ClientEntry::Op { volume, rec })
        }
        2 => {
            let volume = u32_between(cursor, 1, GREATEST_VOLUME)?;
            let number = u64_between(cursor, 1, GREATEST)?;
            let home = u8_between(cursor, 1, 8)?;
            let last = u64_between(cursor, 1, GREATEST)?;
            Ok(ClientEntry::Freeze {
                volume,
                number,
                home,
                last,
            })
        }
        3 => {
            let volume = u32_between(cursor, 1, GREATEST_VOLUME)?;
            let number = u64_between(cursor, 1, GREATEST)?;
            let verdict = verdict(cursor)?;
            Ok(ClientEntry::Settled {
                volume,
                number,
                verdict,
            })
        }
        4 => {
            let volume = u32_between(cursor, 1, GREATEST_VOLUME)?;
            Ok(ClientEntry::Giveup { volume })
        }
        5 => {
            let fid = fid(cursor)?;
            let parent = optional_fid(cursor)?;
            let node = node(alloc, cursor)?;
            Ok(ClientEntry::Fetched { fid, parent, node })
        }
        6 => {
            let fid = fid(cursor)?;
            Ok(ClientEntry::Dropped { fid })
        }
        7 => {
            let change = hoard_change(alloc, cursor)?;
            Ok(ClientEntry::Hoard(change))
        }
        8 => {
            let snapshot = client_snapshot(alloc, cursor)?;
            Ok(ClientEntry::Snapshot(snapshot))
        }
        _ => Err(tag.unknown()),
    }
}

// So many entries of a client.
fn client_entries(alloc: Global, cursor: &mut Cursor, count: u32) -> Result<Vec<ClientEntry>, Fault>
    ensures { Gives (λ es. (es.items, cursor.new)) result (read (items (each (a_client_entry four)) (λ e. tt) tt count (λ es. gives es)) cursor.old) }
{
    let mut entries = Vec::new(alloc);
    for _ in 0..count {
        let entry = client_entry(alloc, cursor)?;
        entries.push(entry)?;
    }
    Ok(entries)
}

// The entries of a payload, with nothing behind them.
#[tactic(auto, unfolding(crate::specs::Entries::client_payload))]
fn client_payload_alone(alloc: Global, bytes: &[u8]) -> Result<Vec<ClientEntry>, Fault>
    ensures { Gives (λ es. es.items) result (alone (client_payload four) bytes.now) }
{
    let mut cursor = Cursor::of(bytes);
    let count = cursor.u32()?;
    let entries = client_entries(alloc, &mut cursor, count)?;
    let left = cursor.left();
    if left != 0 {
        return Err(Fault::Broken { left });
    }
    Ok(entries)
}

// What the bytes say.
#[tactic(auto, unfolding(coda_values::specs::Spelling::whole))]
fn client_payload_said(alloc: Global, bytes: &[u8]) -> Result<Vec<ClientEntry>, RecordFault>
    ensures { Reads (λ es. es.items) result (whole (client_payload four) bytes.now) }
{
    match client_payload_alone(alloc, bytes) {
        Ok(entries) => Ok(entries),
        Err(Fault::Broken { left }) => {
            Err(RecordFault::BadRecord(bytes.len().saturating_sub(left)))
        }
        Err(Fault::Memory) => Err(RecordFault::Memory),
    }
}

/// The entries of a client that the bytes spell, all of them.
///
/// # Errors
///
/// `BadRecord` exactly where they spell none, with the first place that breaks their format.
pub fn read_client(alloc: Global, bytes: &[u8]) -> Result<Vec<ClientEntry>, RecordFault>
    // What is read is spelled so.
    ensures found { IfOk result (λ es. Spells (client_payload four) bytes.now es.items) }
    // What is spelled so is read, unless memory runs out.
    ensures only { (es : List a_type_of_client_entries) → Spells (client_payload four) bytes.now es → Reads (λ v. v.items) result (Ok es) }
    // Which fault it is.
    ensures exact { Reads (λ es. es.items) result (whole (client_payload four) bytes.now) }
{
    client_payload_said(alloc, bytes)
}

// A chunk that was decided.
#[tactic(auto, unfolding(crate::specs::Entries::decide_form))]
fn decision(alloc: Global, cursor: &mut Cursor) -> Result<ReplicaEntry, Fault>
    ensures { Gives (λ e. (e, cursor.new)) result (read (decide_form four) cursor.old) }
{
    let client = u8_between(cursor, 1, 255)?;
    let number = u64_between(cursor, 1, GREATEST)?;
    let recs = records(alloc, cursor)?;
    let verdict = verdict(cursor)?;
    Ok(ReplicaEntry::Decide {
        client,
        number,
        recs,
        verdict,
    })
}

// An entry of a replica.
#[tactic(auto, unfolding(crate::specs::Entries::replica_entry))]
fn replica_entry(alloc: Global, cursor: &mut Cursor) -> Result<ReplicaEntry, Fault>
    ensures { Gives (λ e. (e, cursor.new)) result (read (a_replica_entry four).form cursor.old) }
{
    let tag = cursor.tag()?;
    match tag.byte {
        1 => decision(alloc, cursor),
        2 => {
            let change = change(alloc, cursor)?;
            let lasts = lasts(alloc, cursor)?;
            Ok(ReplicaEntry::Resolve { change, lasts })
        }
        3 => {
            let change = change(alloc, cursor)?;
            let lasts = lasts(alloc, cursor)?;
            Ok(ReplicaEntry::Repair { change, lasts })
        }
        4 => {
            let count = u64_between(cursor, 0, GREATEST)?;
            let held = objects(alloc, cursor)?;
            let lasts = lasts(alloc, cursor)?;
            Ok(ReplicaEntry::Snapshot { count, held, lasts })
        }
        _ => Err(tag.unknown()),
    }
}

// An entry of a replica, with nothing behind it.
fn replica_entry_alone(alloc: Global, bytes: &[u8]) -> Result<ReplicaEntry, Fault>
    ensures { Gives (λ e. e) result (alone (a_replica_entry four) bytes.now) }
{
    let mut cursor = Cursor::of(bytes);
    let entry = replica_entry(alloc, &mut cursor)?;
    let left = cursor.left();
    if left != 0 {
        return Err(Fault::Broken { left });
    }
    Ok(entry)
}

// What the bytes say.
#[tactic(auto, unfolding(coda_values::specs::Spelling::whole))]
fn replica_entry_said(alloc: Global, bytes: &[u8]) -> Result<ReplicaEntry, RecordFault>
    ensures { Reads (λ e. e) result (whole (a_replica_entry four) bytes.now) }
{
    match replica_entry_alone(alloc, bytes) {
        Ok(entry) => Ok(entry),
        Err(Fault::Broken { left }) => {
            Err(RecordFault::BadRecord(bytes.len().saturating_sub(left)))
        }
        Err(Fault::Memory) => Err(RecordFault::Memory),
    }
}

/// The entry of a replica that the bytes spell, all of them.
///
/// # Errors
///
/// `BadRecord` exactly where they spell none, with the first place that breaks its format.
pub fn read_replica(alloc: Global, bytes: &[u8]) -> Result<ReplicaEntry, RecordFault>
    // What is read is spelled so.
    ensures found { IfOk result (λ e. Spells (a_replica_entry four) bytes.now e) }
    // What is spelled so is read, unless memory runs out.
    ensures only { (e : a_type_of_replica_entries) → Spells (a_replica_entry four) bytes.now e → Reads (λ x. x) result (Ok e) }
    // Which fault it is.
    ensures exact { Reads (λ e. e) result (whole (a_replica_entry four) bytes.now) }
{
    replica_entry_said(alloc, bytes)
}

// An entry of a client, behind what is there.
#[tactic(auto, unfolding(crate::specs::Entries::client_entry))]
fn put_client_entry(out: &mut Vec<u8>, entry: &ClientEntry) -> Result<(), AllocError>
    requires { HasSpelling (a_client_entry four) entry.now }
    ensures { OnOk result (out.new.items ≡ out.old.items ++ ((a_client_entry four).piece entry.now).bytes) }
{
    match entry {
        ClientEntry::Op { volume, rec } => {
            put_u8(out, 1)?;
            put_u32(out, *volume)?;
            put_record(out, rec)
        }
        ClientEntry::Freeze {
            volume,
            number,
            home,
            last,
        } => {
            put_u8(out, 2)?;
            put_u32(out, *volume)?;
            put_u64(out, *number)?;
            put_u8(out, *home)?;
            put_u64(out, *last)
        }
        ClientEntry::Settled {
            volume,
            number,
            verdict,
        } => {
            put_u8(out, 3)?;
            put_u32(out, *volume)?;
            put_u64(out, *number)?;
            put_verdict(out, verdict)
        }
        ClientEntry::Giveup { volume } => {
            put_u8(out, 4)?;
            put_u32(out, *volume)
        }
        ClientEntry::Fetched { fid, parent, node } => {
            put_u8(out, 5)?;
            put_fid(out, *fid)?;
            put_optional_fid(out, *parent)?;
            put_node(out, node)
        }
        ClientEntry::Dropped { fid } => {
            put_u8(out, 6)?;
            put_fid(out, *fid)
        }
        ClientEntry::Hoard(change) => {
            put_u8(out, 7)?;
            put_hoard_change(out, change)
        }
        ClientEntry::Snapshot(snapshot) => {
            put_u8(out, 8)?;
            put_client_snapshot(out, snapshot)
        }
    }
}

// Entries of a client, one after the other.
fn put_client_entries(out: &mut Vec<u8>, entries: &[ClientEntry]) -> Result<(), AllocError>
    requires { All (λ e. HasSpelling (a_client_entry four) e) entries.now }
    ensures { OnOk result (out.new.items ≡ out.old.items ++ flat_map (λ e. ((a_client_entry four).piece e).bytes) entries.now) }
{
    for entry in entries {
        put_client_entry(out, entry)?;
    }
    Ok(())
}

/// The spelling of entries of a client. Fails for want of memory alone.
pub fn write_client(alloc: Global, entries: &[ClientEntry]) -> Result<Bytes, AllocError>
    requires { HasSpelling (client_payload four) entries.now }
    ensures { IfOk result (λ b. Spells (client_payload four) b entries.now) }
{
    let mut out = Vec::new(alloc);
    put_u32(&mut out, entries.len() as u32)?;
    put_client_entries(&mut out, entries)?;
    Ok(Bytes::from_vec(out))
}

// An entry of a replica, behind what is there.
#[tactic(auto, unfolding(crate::specs::Entries::replica_entry))]
fn put_replica_entry(out: &mut Vec<u8>, entry: &ReplicaEntry) -> Result<(), AllocError>
    requires { HasSpelling (a_replica_entry four) entry.now }
    ensures { OnOk result (out.new.items ≡ out.old.items ++ ((a_replica_entry four).piece entry.now).bytes) }
{
    match entry {
        ReplicaEntry::Decide {
            client,
            number,
            recs,
            verdict,
        } => {
            put_u8(out, 1)?;
            put_u8(out, *client)?;
            put_u64(out, *number)?;
            put_records(out, recs.records())?;
            put_verdict(out, verdict)
        }
        ReplicaEntry::Resolve { change, lasts } => {
            put_u8(out, 2)?;
            put_change(out, change)?;
            put_lasts(out, lasts.lasts())
        }
        ReplicaEntry::Repair { change, lasts } => {
            put_u8(out, 3)?;
            put_change(out, change)?;
            put_lasts(out, lasts.lasts())
        }
        ReplicaEntry::Snapshot { count, held, lasts } => {
            put_u8(out, 4)?;
            put_u64(out, *count)?;
            put_objects(out, held.objects())?;
            put_lasts(out, lasts.lasts())
        }
    }
}

/// The spelling of an entry of a replica. Fails for want of memory alone.
pub fn write_replica(alloc: Global, entry: &ReplicaEntry) -> Result<Bytes, AllocError>
    requires { HasSpelling (a_replica_entry four) entry.now }
    ensures { IfOk result (λ b. Spells (a_replica_entry four) b entry.now) }
{
    let mut out = Vec::new(alloc);
    put_replica_entry(&mut out, entry)?;
    Ok(Bytes::from_vec(out))
}
