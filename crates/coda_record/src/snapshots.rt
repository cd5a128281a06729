//! Snapshots of clients, read from the front of what is left and written behind what is there.
ghost use Rattle.std.specs.Prelude.{◌≡◌, ◌++◌, OnOk, All, None, Some};
ghost use Rattle.std.specs.List.{flat_map};
ghost use Rattle.coda_record.specs.Form.{gives, four};
ghost use Rattle.coda_record.specs.Parts.{items, each, list_of, optional};
ghost use Rattle.coda_record.specs.Table.{records as some_records};
ghost use Rattle.coda_record.specs.Entries.{node as a_node, segment as a_segment, frozen as a_frozen_chunk, volume_log_above as a_volume_log_above, volume_logs as some_volume_logs, cached_after as a_cached_after, cached_nodes as some_cached_nodes, client_snapshot as a_client_snapshot};
ghost use Rattle.coda_record.specs.Spelling.{HasSpelling};
ghost use Rattle.coda_record.specs.Reading.{read};
ghost use Rattle.coda_record.specs.Outcome.{Gives};

use crate::hoard::{hoard_entries, put_hoard_entries};
use crate::snapshot::{
    CachedNodes, ClientSnapshot, LogSegment, LogSegments, VolumeLog, VolumeLogs,
};
use coda_fid::Fid;
use coda_tree::Node;
use coda_values::held::fid_after;
use coda_values::nodes::{node, put_node};
use coda_values::parts::{u8_between, u64_between};
use coda_values::reading::{GREATEST, optional_fid, records};
use coda_values::writing::{put_fid, put_optional_fid, put_records, put_u8, put_u32, put_u64};
use coda_values::{Cursor, Fault};
use std::alloc::{AllocError, Global};

// A segment of a log.
#[tactic(auto, unfolding(crate::specs::Entries::segment))]
fn segment(alloc: Global, cursor: &mut Cursor) -> Result<LogSegment, Fault>
    ensures { Gives (λ s. (s, cursor.new)) result (read (a_segment four).form cursor.old) }
{
    let first = u64_between(cursor, 1, GREATEST)?;
    let last = u64_between(cursor, 1, GREATEST)?;
    let newest = cursor.u64()?;
    let recs = records(alloc, cursor)?;
    Ok(LogSegment {
        first,
        last,
        newest,
        recs,
    })
}

// So many segments.
fn segments_of(alloc: Global, cursor: &mut Cursor, count: u32) -> Result<Vec<LogSegment>, Fault>
    ensures { Gives (λ ss. (ss.items, cursor.new)) result (read (items (each (a_segment four)) (λ s. tt) tt count (λ ss. gives ss)) cursor.old) }
{
    let mut segments = Vec::new(alloc);
    for _ in 0..count {
        let segment = segment(alloc, cursor)?;
        segments.push(segment)?;
    }
    Ok(segments)
}

// The segments of a log.
fn segments(alloc: Global, cursor: &mut Cursor) -> Result<LogSegments, Fault>
    ensures { Gives (λ ss. (ss, cursor.new)) result (read (list_of (a_segment four)).form cursor.old) }
{
    let count = cursor.u32()?;
    let segments = segments_of(alloc, cursor, count)?;
    Ok(LogSegments::from_vec(segments))
}

// The home of a frozen chunk and how many segments it has.
#[tactic(auto, unfolding(crate::specs::Entries::frozen))]
fn frozen(cursor: &mut Cursor) -> Result<(u8, u32), Fault>
    ensures { Gives (λ f. (f, cursor.new)) result (read a_frozen_chunk.form cursor.old) }
{
    let home = u8_between(cursor, 1, 8)?;
    let segments = cursor.u32()?;
    Ok((home, segments))
}

fn optional_frozen(cursor: &mut Cursor) -> Result<Option<(u8, u32)>, Fault>
    ensures { Gives (λ f. (f, cursor.new)) result (read (optional a_frozen_chunk).form cursor.old) }
{
    let tag = cursor.tag()?;
    match tag.byte {
        0 => Ok(None),
        1 => {
            let frozen = frozen(cursor)?;
            Ok(Some(frozen))
        }
        _ => Err(tag.unknown()),
    }
}

// The log of a volume that is greater than another.
#[tactic(auto, unfolding(crate::specs::Entries::volume_log_above))]
fn volume_log_above(alloc: Global, cursor: &mut Cursor, before: u32) -> Result<VolumeLog, Fault>
    ensures { Gives (λ l. (l, cursor.new)) result (read (a_volume_log_above four before).form cursor.old) }
{
    let left = cursor.left();
    let volume = cursor.u32()?;
    if volume <= before {
        return Err(Fault::Broken { left });
    }
    let operations = u64_between(cursor, 0, GREATEST)?;
    let chunks = u64_between(cursor, 0, GREATEST)?;
    let creations = cursor.u32()?;
    let frozen = optional_frozen(cursor)?;
    let segments = segments(alloc, cursor)?;
    Ok(VolumeLog {
        volume,
        operations,
        chunks,
        creations,
        frozen,
        segments,
    })
}

// So many logs, in increasing order of volumes.
fn volume_logs_of(alloc: Global, cursor: &mut Cursor, count: u32) -> Result<Vec<VolumeLog>, Fault>
    ensures { Gives (λ ls. (ls.items, cursor.new)) result (read (items (a_volume_log_above four) (λ l. l.volume) 0 count (λ ls. gives ls)) cursor.old) }
{
    let mut logs = Vec::new(alloc);
    let mut before = 0;
    for _ in 0..count {
        let log = volume_log_above(alloc, cursor, before)?;
        before = log.volume;
        logs.push(log)?;
    }
    Ok(logs)
}

// Logs, in increasing order of volumes.
#[tactic(auto, unfolding(crate::specs::Entries::volume_logs))]
fn volume_logs(alloc: Global, cursor: &mut Cursor) -> Result<VolumeLogs, Fault>
    ensures { Gives (λ ls. (ls, cursor.new)) result (read (some_volume_logs four).form cursor.old) }
{
    let count = cursor.u32()?;
    let logs = volume_logs_of(alloc, cursor, count)?;
    Ok(VolumeLogs::from_vec(logs))
}

// A cached object whose fid is greater than another, with its parent.
#[tactic(auto, unfolding(crate::specs::Entries::cached_after))]
fn cached_after(
    alloc: Global,
    cursor: &mut Cursor,
    before: Option<Fid>,
) -> Result<(Fid, Option<Fid>, Node), Fault>
    ensures { Gives (λ o. (o, cursor.new)) result (read (a_cached_after four before).form cursor.old) }
{
    let fid = fid_after(cursor, before)?;
    let parent = optional_fid(cursor)?;
    let node = node(alloc, cursor)?;
    Ok((fid, parent, node))
}

// So many cached objects, in increasing order of fids.
fn cached_nodes_of(
    alloc: Global,
    cursor: &mut Cursor,
    count: u32,
) -> Result<Vec<(Fid, Option<Fid>, Node)>, Fault>
    ensures { Gives (λ os. (os.items, cursor.new)) result (read (items (a_cached_after four) (λ o. Some o.0) None count (λ os. gives os)) cursor.old) }
{
    let mut objects = Vec::new(alloc);
    let mut before = None;
    for _ in 0..count {
        let object = cached_after(alloc, cursor, before)?;
        before = Some(object.0);
        objects.push(object)?;
    }
    Ok(objects)
}

// Cached objects, in increasing order of fids.
#[tactic(auto, unfolding(crate::specs::Entries::cached_nodes))]
fn cached_nodes(alloc: Global, cursor: &mut Cursor) -> Result<CachedNodes, Fault>
    ensures { Gives (λ os. (os, cursor.new)) result (read (some_cached_nodes four).form cursor.old) }
{
    let count = cursor.u32()?;
    let objects = cached_nodes_of(alloc, cursor, count)?;
    Ok(CachedNodes::from_vec(objects))
}

/// A snapshot of a client.
#[tactic(auto, unfolding(crate::specs::Entries::client_snapshot))]
pub fn client_snapshot(alloc: Global, cursor: &mut Cursor) -> Result<ClientSnapshot, Fault>
    ensures { Gives (λ s. (s, cursor.new)) result (read (a_client_snapshot four).form cursor.old) }
{
    let count = u64_between(cursor, 0, GREATEST)?;
    let volumes = volume_logs(alloc, cursor)?;
    let nodes = cached_nodes(alloc, cursor)?;
    let hoard = hoard_entries(alloc, cursor)?;
    Ok(ClientSnapshot {
        count,
        volumes,
        nodes,
        hoard,
    })
}

// A segment of a log.
#[tactic(auto, unfolding(crate::specs::Entries::segment))]
fn put_segment(out: &mut Vec<u8>, segment: &LogSegment) -> Result<(), AllocError>
    requires { HasSpelling (a_segment four) segment.now }
    ensures { OnOk result (out.new.items ≡ out.old.items ++ ((a_segment four).piece segment.now).bytes) }
{
    put_u64(out, segment.first)?;
    put_u64(out, segment.last)?;
    put_u64(out, segment.newest)?;
    put_records(out, segment.recs.records())
}

// Segments, one after the other.
fn put_all_segments(out: &mut Vec<u8>, segments: &[LogSegment]) -> Result<(), AllocError>
    requires { All (λ s. HasSpelling (a_segment four) s) segments.now }
    ensures { OnOk result (out.new.items ≡ out.old.items ++ flat_map (λ s. ((a_segment four).piece s).bytes) segments.now) }
{
    for segment in segments {
        put_segment(out, segment)?;
    }
    Ok(())
}

// The segments of a log.
fn put_segments(out: &mut Vec<u8>, segments: &[LogSegment]) -> Result<(), AllocError>
    requires { HasSpelling (list_of (a_segment four)) segments.now }
    ensures { OnOk result (out.new.items ≡ out.old.items ++ ((list_of (a_segment four)).piece segments.now).bytes) }
{
    put_u32(out, segments.len() as u32)?;
    put_all_segments(out, segments)
}

#[tactic(auto, unfolding(crate::specs::Entries::frozen))]
fn put_frozen(out: &mut Vec<u8>, frozen: Option<(u8, u32)>) -> Result<(), AllocError>
    ensures { OnOk result (out.new.items ≡ out.old.items ++ ((optional a_frozen_chunk).piece frozen).bytes) }
{
    match frozen {
        None => put_u8(out, 0),
        Some((home, segments)) => {
            put_u8(out, 1)?;
            put_u8(out, home)?;
            put_u32(out, segments)
        }
    }
}

// The log of a volume.
#[tactic(auto, unfolding(crate::specs::Entries::volume_log_above))]
fn put_volume_log(out: &mut Vec<u8>, log: &VolumeLog) -> Result<(), AllocError>
    requires { HasSpelling (list_of (a_segment four)) log.now.segments }
    ensures { OnOk result (out.new.items ≡ out.old.items ++ ((a_volume_log_above four 0).piece log.now).bytes) }
{
    put_u32(out, log.volume)?;
    put_u64(out, log.operations)?;
    put_u64(out, log.chunks)?;
    put_u32(out, log.creations)?;
    put_frozen(out, log.frozen)?;
    put_segments(out, log.segments.list())
}

// Logs, one after the other.
fn put_all_volume_logs(out: &mut Vec<u8>, logs: &[VolumeLog]) -> Result<(), AllocError>
    requires { All (λ l. HasSpelling (list_of (a_segment four)) l.segments) logs.now }
    ensures { OnOk result (out.new.items ≡ out.old.items ++ flat_map (λ l. ((a_volume_log_above four 0).piece l).bytes) logs.now) }
{
    for log in logs {
        put_volume_log(out, log)?;
    }
    Ok(())
}

// Logs, in increasing order of volumes.
#[tactic(auto, unfolding(crate::specs::Entries::volume_logs))]
fn put_volume_logs(out: &mut Vec<u8>, logs: &[VolumeLog]) -> Result<(), AllocError>
    requires { HasSpelling (some_volume_logs four) logs.now }
    ensures { OnOk result (out.new.items ≡ out.old.items ++ ((some_volume_logs four).piece logs.now).bytes) }
{
    put_u32(out, logs.len() as u32)?;
    put_all_volume_logs(out, logs)
}

// A cached object, with its parent.
#[tactic(auto, unfolding(crate::specs::Entries::cached_after))]
fn put_cached(out: &mut Vec<u8>, object: &(Fid, Option<Fid>, Node)) -> Result<(), AllocError>
    requires { HasSpelling (a_node four) object.now.2 }
    ensures { OnOk result (out.new.items ≡ out.old.items ++ ((a_cached_after four None).piece object.now).bytes) }
{
    put_fid(out, object.0)?;
    put_optional_fid(out, object.1)?;
    put_node(out, &object.2)
}

// Cached objects, one after the other.
fn put_all_cached(out: &mut Vec<u8>, objects: &[(Fid, Option<Fid>, Node)]) -> Result<(), AllocError>
    requires { All (λ o. HasSpelling (a_node four) o.2) objects.now }
    ensures { OnOk result (out.new.items ≡ out.old.items ++ flat_map (λ o. ((a_cached_after four None).piece o).bytes) objects.now) }
{
    for object in objects {
        put_cached(out, object)?;
    }
    Ok(())
}

// Cached objects, in increasing order of fids.
#[tactic(auto, unfolding(crate::specs::Entries::cached_nodes))]
fn put_cached_nodes(
    out: &mut Vec<u8>,
    objects: &[(Fid, Option<Fid>, Node)],
) -> Result<(), AllocError>
    requires { HasSpelling (some_cached_nodes four) objects.now }
    ensures { OnOk result (out.new.items ≡ out.old.items ++ ((some_cached_nodes four).piece objects.now).bytes) }
{
    put_u32(out, objects.len() as u32)?;
    put_all_cached(out, objects)
}

/// A snapshot of a client.
#[tactic(auto, unfolding(crate::specs::Entries::client_snapshot))]
pub fn put_client_snapshot(out: &mut Vec<u8>, snapshot: &ClientSnapshot) -> Result<(), AllocError>
    requires { HasSpelling (a_client_snapshot four) snapshot.now }
    ensures { OnOk result (out.new.items ≡ out.old.items ++ ((a_client_snapshot four).piece snapshot.now).bytes) }
{
    put_u64(out, snapshot.count)?;
    put_volume_logs(out, snapshot.volumes.list())?;
    put_cached_nodes(out, snapshot.nodes.list())?;
    put_hoard_entries(out, snapshot.hoard.list())
}
