// How far the next chunk of a log goes. The log chooses it so when it freezes; here it is told before, and found again.
ghost use Rattle.std.specs.Prelude.{◌≡◌, ◌≤◌, length, take};
ghost use Rattle.coda_cml.specs.Chunks.{age, is_old, old_front, first_filled, chunk_length};
ghost use Rattle.coda_cml.specs.Segments.{end_of};
ghost use Rattle.coda_venus.specs.History.{last_to_go};
ghost use Rattle.coda_venus.specs.State.{ended_by};
ghost use Rattle.coda_venus.specs.Times.{newest_in, time_of};

use coda_cml::Segment;

/// The most records that go together, unless one segment alone has more.
pub const MOST_TOGETHER: usize = 64;

// How long ago the newest operation of a segment was performed.
fn age(segment: &Segment, now: u64) -> u64
    ensures { result ≡ age now segment.now }
{
    now.saturating_sub(segment.newest)
}

// Whether a segment may go.
fn is_old(segment: &Segment, now: u64, window: u64) -> bool
    ensures { result ≡ is_old now window segment.now }
{
    segment.count == 0 || window <= age(segment, now)
}

// How many segments of the front are old enough and have so many records at most together.
fn old_front(segments: &[Segment], now: u64, window: u64, cap: usize) -> usize
    ensures count { result ≡ old_front now window cap segments.now }
    ensures within { result ≤ length segments.now }
{
    let mut room = cap;
    let mut taken = 0;
    for segment in segments {
        if !is_old(segment, now, window) || segment.count > room {
            return taken;
        }
        room -= segment.count;
        taken += 1;
    }
    taken
}

// How many segments there are up to the first with a record.
fn first_filled(segments: &[Segment]) -> usize
    ensures count { result ≡ first_filled segments.now }
    ensures within { result ≤ length segments.now }
{
    let mut taken = 0;
    for segment in segments {
        taken += 1;
        if segment.count != 0 {
            return taken;
        }
    }
    taken
}

// The number of the last operation of the segments; 0 where there are none.
fn end_of(segments: &[Segment]) -> u64
    ensures { result ≡ end_of segments.now }
{
    match segments.last() {
        Some(segment) => segment.last,
        None => 0,
    }
}

/// The last operation that goes at a time by a window, both in seconds.
pub fn last_to_go(segments: &[Segment], now: u64, window: u64) -> u64
    ensures { result ≡ last_to_go now window segments.now }
{
    let old = old_front(segments, now, window, MOST_TOGETHER);
    let length = old.max(first_filled(segments));
    end_of(&segments[..length])
}

// How many segments in front end by a number.
fn ended_by(segments: &[Segment], number: u64) -> usize
    ensures count { result ≡ ended_by number segments.now }
    ensures within { result ≤ length segments.now }
{
    let mut taken = 0;
    for segment in segments {
        if segment.last > number {
            return taken;
        }
        taken += 1;
    }
    taken
}

// The time of the newest operation of the segments with records; 0 where there is none.
fn newest_in(segments: &[Segment]) -> u64
    ensures { result ≡ newest_in segments.now }
{
    let mut newest = 0;
    for segment in segments {
        if segment.count != 0 {
            newest = segment.newest.max(newest);
        }
    }
    newest
}

/// A time and a window by which what ends by an operation goes, and nothing behind it that is newer.
pub fn time_of(segments: &[Segment], last: u64) -> (u64, u64)
    ensures { result ≡ time_of last segments.now }
{
    let newest = newest_in(&segments[..ended_by(segments, last)]);
    if newest < newest_in(segments) {
        (newest + 1, 1)
    } else {
        (0, 0)
    }
}
