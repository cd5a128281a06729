// Choosing the segments of a chunk.
ghost use Rattle.std.specs.Prelude.{◌≡◌, ◌≤◌, length};
ghost use Rattle.std.specs.List.{find};
ghost use Rattle.coda_cml.specs.Chunks.{is_filled, age, is_old, old_front, first_filled, chunk_length, too_young};

use crate::{FreezeFault, Segment};

// Whether a segment may go.
fn is_old(segment: &Segment, now: u64, window: u64) -> bool
    ensures { result ≡ is_old now window segment.now }
{
    segment.count == 0 || window <= age(segment, now)
}

// How long ago the newest operation of a segment was performed.
fn age(segment: &Segment, now: u64) -> u64
    ensures { result ≡ age now segment.now }
{
    now.saturating_sub(segment.newest)
}

// How many segments of the front are old enough and have so many records at most together.
fn old_front(segments: &[Segment], now: u64, window: u64, cap: usize) -> usize
    ensures count { result ≡ old_front now window cap segments.now }
    ensures within { result ≤ length segments.now }
{
    let mut room = cap;
    let mut taken = 0;
    for segment in segments {
        if !is_old(segment, now, window) || segment.count > room {
            return taken;
        }
        room -= segment.count;
        taken += 1;
    }
    taken
}

// How many segments there are up to the first with a record.
fn first_filled(segments: &[Segment]) -> usize
    ensures count { result ≡ first_filled segments.now }
    ensures within { result ≤ length segments.now }
{
    let mut taken = 0;
    for segment in segments {
        taken += 1;
        if segment.count != 0 {
            return taken;
        }
    }
    taken
}

/// How many segments a chunk has.
pub fn chunk_length(segments: &[Segment], now: u64, window: u64, cap: usize) -> usize
    ensures count { result ≡ chunk_length now window cap segments.now }
    ensures within { result ≤ length segments.now }
{
    old_front(segments, now, window, cap).max(first_filled(segments))
}

fn filled(segments: &[Segment]) -> Option<Segment>
    ensures { result ≡ find is_filled segments.now }
{
    for segment in segments {
        if segment.count != 0 {
            return Some(*segment);
        }
    }
    None
}

/// Why no chunk of the segments may go.
pub fn too_young(segments: &[Segment], now: u64, window: u64) -> Option<FreezeFault>
    ensures { result ≡ too_young now window (find is_filled segments.now) }
{
    match filled(segments) {
        Some(first) if age(&first, now) < window => {
            Some(FreezeFault::Young(age(&first, now), window))
        }
        Some(_) => None,
        None => Some(FreezeFault::Nothing),
    }
}
