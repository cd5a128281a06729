// Joining segments, and counting their records.
ghost use Rattle.std.specs.Prelude.{◌≡◌, ℕ, ◌||◌, [], ◌≤◌, ◌<◌, ◌+◌, ◌^◌, Some, drop, length};
ghost use Rattle.std.specs.Vec.{vec_len, vec_capacity};
ghost use Rattle.coda_cml.specs.Segments.{joined};
ghost use Rattle.coda_cml.specs.Longest.{total};
ghost use Rattle.coda_cml.specs.Partition.{AreInTurn};
ghost use Rattle.coda_cml.specs.LastSegment.{ended_before, reaching, all_joined, regrouped_last};
ghost use Rattle.coda_cml.specs.Regrouping.{is_inside, is_within, ends_from, AreJoinsBelow, DoJoinsRise, DoNumbersRise, widened, rejoined, leading, recounted};

use crate::Segment;
use coda_cancel::{Join, LentRecords};

// Whether an operation above the number dropped a record up to it.
fn is_inside(joins: &[Join], number: u64) -> bool
    requires { DoJoinsRise joins.now }
    ensures { result ≡ is_inside joins.now number }
{
    let mut low = 0;
    let mut high = joins.len();
    while low < high {
        let middle = low + (high - low) / 2;
        if joins[middle].number <= number {
            low = middle + 1;
        } else {
            high = middle;
        }
    }
    match joins.get(low) {
        Some(join) => join.least <= number,
        None => false,
    }
}

// Whether the last operation dropped records only from this number on.
fn ends_from(joins: &[Join], least: u64) -> bool
    ensures { result ≡ ends_from least joins.now }
{
    match joins.last() {
        Some(last) => last.least >= least,
        None => false,
    }
}

// Puts an operation behind those before it, without those that dropped records only where it did too.
fn put_join(joins: &mut Vec<Join>, join: Join)
    requires room { vec_len joins.old < vec_capacity joins.old }
    requires rise { DoJoinsRise joins.old.items }
    requires below { AreJoinsBelow join.number joins.old.items }
    ensures inside { (number : ℕ) → is_inside joins.new.items number ≡ (is_inside joins.old.items number || is_within number join) }
    ensures rise { DoJoinsRise joins.new.items }
    ensures reached { (number : ℕ) → join.number < number → AreJoinsBelow number joins.new.items }
    ensures len { vec_len joins.new ≤ vec_len joins.old + 1 }
    ensures capacity { vec_capacity joins.new ≡ vec_capacity joins.old }
{
    while ends_from(joins, join.least) {
        joins.truncate(joins.len() - 1);
    }
    joins.push_reserved(join);
}

/// Leaves out the operations that dropped records only where a later one did too, so that both numbers of those that are
/// left rise.
pub fn keep_widest(joins: &[Join], widest: &mut Vec<Join>)
    requires none { widest.old.items ≡ [] }
    requires room { length joins.now ≤ vec_capacity widest.old }
    requires rise { DoNumbersRise joins.now }
    ensures inside { (number : ℕ) → is_inside widest.new.items number ≡ is_inside joins.now number }
    ensures rise { DoJoinsRise widest.new.items }
{
    for join in joins {
        put_join(widest, *join);
    }
}

// A segment with the next one, as to its ends and times.
fn widened(segment: Segment, next: Segment) -> Segment
    ensures { result ≡ widened segment next }
{
    Segment {
        first: segment.first,
        last: next.last,
        count: segment.count,
        newest: segment.newest.max(next.newest),
    }
}

fn joined(earlier: Segment, later: Segment) -> Segment
    requires { earlier.count + later.count < 2 ^ 64 }
    ensures { result ≡ joined earlier later }
{
    Segment {
        first: earlier.first,
        last: later.last,
        count: earlier.count + later.count,
        newest: earlier.newest.max(later.newest),
    }
}

// Takes out the last segments, as far as they reach a number, and answers them as one with another behind them.
fn join_back(segments: &mut Vec<Segment>, least: u64, last: Segment) -> Segment
    requires in_turn { AreInTurn segments.old.items }
    requires few { total segments.old.items + last.count < 2 ^ 64 }
    ensures segments { segments.new.items ≡ ended_before (Some least) segments.old.items }
    ensures joined { result ≡ all_joined (reaching (Some least) segments.old.items) last }
    ensures count { total segments.new.items + result.count ≡ total segments.old.items + last.count }
    ensures len { vec_len segments.new ≤ vec_len segments.old }
    ensures capacity { vec_capacity segments.new ≡ vec_capacity segments.old }
{
    let mut kept = segments.len();
    let mut all = last;
    while kept > 0 && segments[kept - 1].last >= least {
        kept -= 1;
        all = joined(segments[kept], all);
    }
    segments.truncate(kept);
    all
}

/// Puts the segment of a new operation behind the others, as one with those that reach the least number of a record that it
/// dropped; so many records were there, and so many are left.
///
/// Costs the segments that are joined.
pub fn regroup_last(
    segments: &mut Vec<Segment>,
    single: Segment,
    least: Option<u64>,
    before: usize,
    after: usize,
)
    requires room { vec_len segments.old < vec_capacity segments.old }
    requires in_turn { AreInTurn segments.old.items }
    requires none { single.count ≡ 0 }
    requires counted { total segments.old.items ≡ before }
    requires left { total (ended_before least segments.old.items) ≤ after }
    ensures { segments.new.items ≡ regrouped_last segments.old.items single least after }
{
    let mut last = match least {
        Some(least) => join_back(segments, least, single),
        None => single,
    };
    last.count = after - (before - last.count);
    segments.push_reserved(last);
}

/// Makes one of neighbouring segments between which some operation dropped records.
///
/// Costs the segments, by the logarithm of how many joins there are.
pub fn rejoin(segments: &mut Vec<Segment>, joins: &[Join])
    requires { DoJoinsRise joins.now }
    ensures { segments.new.items ≡ rejoined (is_inside joins.now) segments.old.items }
{
    if segments.is_empty() {
        return;
    }
    let mut kept = 0;
    for next in 1..segments.len() {
        let segment = segments[next];
        if is_inside(joins, segments[kept].last) {
            segments[kept] = widened(segments[kept], segment);
        } else {
            kept += 1;
            segments[kept] = segment;
        }
    }
    segments.truncate(kept + 1);
}

/// Leaves out the records in front of the first with a greater number, and answers how many these are.
pub fn take_upto(records: &mut LentRecords<'_>, number: u64) -> usize
    ensures count { result ≡ leading number records.old }
    ensures rest { records.new ≡ drop (leading number records.old) records.old }
    ensures within { result ≤ length records.old }
{
    let _all = records.len();
    let mut count = 0;
    while let Some(record) = records.first() {
        if record.number > number {
            return count;
        }
        records.take_first();
        count += 1;
    }
    count
}

/// Counts the records of each segment.
pub fn recount(segments: &mut [Segment], records: &mut LentRecords<'_>)
    ensures { segments.new ≡ recounted records.old segments.old }
{
    for segment in segments.iter_mut() {
        segment.count = take_upto(records, segment.last);
    }
}
