// The calls of a disk in memory that wrote, and how bytes are put.
ghost use Rattle.std.specs.Prelude.{◌≡◌, ◌⊎◌, ℕ, ◌+◌, ◌-◌, ◌<◌, ◌≤◌, [], ◌∷◌, ◌++◌, List, length, vec_len, take, IfOk, MatchBool};
ghost use Rattle.coda_disk.specs.Told.{put};
ghost use Rattle.coda_disk.specs.Memory.{Ends};

use std::alloc::{AllocError, Global};
use std::snapshot::Snapshot;

/// A call of a disk in memory that changed what a crash may leave.
#[derive(Drop)]
pub enum Call {
    /// These bytes were written at this offset.
    Write(u64, Vec<u8>),
    /// The write of these bytes at this offset was refused.
    Stopped(u64, Vec<u8>),
    /// The disk was cut to this size.
    Resize(u64),
}

/// What was before the last sync of a disk in memory. It keeps no byte of it: contracts alone see the snapshots.
#[derive(Drop)]
pub enum Past {
    /// The disk was made.
    Made,
    /// What was before the sync before, the bytes that that one left, and the calls between the two.
    Synced(Snapshot<Past>, Snapshot<Vec<u8>>, Snapshot<Vec<Call>>),
}

// Puts bytes at an offset, over what is there and past the end. Was there memory for it?
pub(crate) fn put_bytes(old: &mut Vec<u8>, at: usize, bytes: &[u8]) -> bool
    requires { at ≤ vec_len old.old }
    ensures { MatchBool result (old.new.items ≡ put old.old.items at bytes.now) (old.new.items ≡ old.old.items) }
{
    let inside = bytes.len().min(old.len() - at);
    if old.extend_from_slice(&bytes[inside..]).is_err() {
        return false;
    }
    old[at..at + inside].copy_from_slice(&bytes[..inside]);
    true
}

// Where a write begins, and what it writes: past the end it begins there, with zeros in the gap.
pub(crate) fn placed(
    alloc: Global,
    end: usize,
    at: u64,
    bytes: &[u8],
) -> Result<(usize, Vec<u8>), AllocError>
    ensures inside { at ≤ end → IfOk result (λ r. (r.0 ≡ at) × (r.1.items ≡ bytes.now)) }
    ensures past { end < at → IfOk result (λ r. (r.0 ≡ end) × ((gap : List ℕ) × (length gap ≡ at - end) × (r.1.items ≡ gap ++ bytes.now))) }
{
    if at <= end as u64 {
        return Ok((at as usize, bytes.to_vec(alloc)?));
    }
    let mut written = vec![in alloc; 0u8; (at - end as u64) as usize]?;
    written.extend_from_slice(bytes)?;
    Ok((end, written))
}

// Keeps a call. Was there memory for it?
pub(crate) fn keep(calls: &mut Vec<Call>, call: Call) -> bool
    ensures { MatchBool result (calls.new.items ≡ calls.old.items ++ call ∷ []) (calls.new.items ≡ calls.old.items) }
{
    calls.push(call).is_ok()
}

// Keeps a write that was refused, where there is memory for it.
pub(crate) fn stop(calls: &mut Vec<Call>, at: usize, bytes: Vec<u8>)
    ensures { (calls.new.items ≡ calls.old.items) ⊎ (calls.new.items ≡ calls.old.items ++ Call.Stopped at bytes ∷ []) }
{
    let _kept = keep(calls, Call::Stopped(at as u64, bytes));
}

// Writes, and keeps the call. Was there memory for both? If not, nothing changed.
pub(crate) fn write(calls: &mut Vec<Call>, seen: &mut Vec<u8>, at: usize, bytes: Vec<u8>) -> bool
    requires { at ≤ vec_len seen.old }
    ensures { MatchBool result
        ((calls.new.items ≡ calls.old.items ++ Call.Write at bytes ∷ []) × (seen.new.items ≡ put seen.old.items at bytes.items))
        ((calls.new.items ≡ calls.old.items) × (seen.new.items ≡ seen.old.items)) }
{
    if calls.reserve(1).is_err() || !put_bytes(seen, at, &bytes) {
        return false;
    }
    calls.push(Call::Write(at as u64, bytes)).is_ok()
}

// Ends the span between two syncs: what was read is synced now. Was there memory for it? If not, nothing changed.
pub(crate) fn end_span(
    past: &mut Past,
    synced: &mut Vec<u8>,
    calls: &mut Vec<Call>,
    seen: &Vec<u8>,
) -> bool
    ensures { MatchBool result
        (Ends past.old synced.old.items calls.old.items past.new × (synced.new.items ≡ seen.now.items) × (calls.new.items ≡ []))
        ((past.new ≡ past.old) × (synced.new.items ≡ synced.old.items) × (calls.new.items ≡ calls.old.items)) }
{
    let Ok(bytes) = seen.clone() else {
        return false;
    };
    let ended = Past::Synced(
        Snapshot::of(past),
        Snapshot::of(synced),
        Snapshot::of(calls),
    );
    *past = ended;
    *synced = bytes;
    calls.clear();
    true
}
