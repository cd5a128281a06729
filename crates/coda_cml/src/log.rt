ghost use Rattle.std.specs.Prelude.{◌≡◌, ◌≤◌, ◌+◌, [], ◌++◌, length, List};
ghost use Rattle.std.specs.Vec.{vec_len, vec_capacity};
ghost use Rattle.coda_fid.specs.declared.op.Record.{Record};
ghost use Rattle.coda_cancel.specs.Weights.{fits, total_weight};
ghost use Rattle.coda_cml.specs.Regrouping.{is_inside, DoJoinsRise, rejoined, recounted};
ghost use Rattle.coda_cml.specs.Room.{room_fits};
ghost use Rattle.coda_cml.specs.Segments.{end_of};

use crate::choosing::{chunk_length, too_young};
use crate::chunk::Chunk;
use crate::regrouping::{keep_widest, recount, regroup_last, rejoin, take_upto};
use crate::{FreezeFault, Frozen, LogFault, Segment, SettleFault};
use coda_cancel::{Join, LentRecords, Tail};
use coda_certify::Verdict;
use coda_fid::{Fid, Record};
use std::alloc::{AllocError, Global};
use std::marker::Model;
use std::mem;

/// The most records that a log holds.
const MOST_RECORDS: usize = 4_096;

/// The most that the records of a log weigh.
const MOST_WEIGHT: u64 = 16_777_216;

/// The log of a client on one volume: the operations that no server has yet, as far as later ones leave
/// them.
///
/// Its front may be frozen as a chunk, which is on its way to a server; new operations go to the tail
/// (Mummert, Ebling and Satyanarayanan 1995). Contracts see both parts with their segments.
#[derive(Debug, Drop)]
pub struct Log {
    frozen: Option<Frozen>,
    chunk: Chunk,
    chunk_segments: Vec<Segment>,
    tail: Tail,
    segments: Vec<Segment>,
    last: u64,
    chunks: u64,
}

impl Model for Log {
    ghost use Rattle.coda_cml.specs.State.{LogState};
    ghost use Rattle.coda_cml.specs.Inside.{state_of, IsKept};

    ghost Value = { LogState };

    ghost view = { state_of };

    ghost invariant = { IsKept };
}

impl Log {
    ghost use Rattle.std.specs.Prelude.{◌≡◌, ◌≢◌, ◌↔◌, ◌<◌, ◌≤◌, ◌+◌, ◌-◌, ◌^◌, ◌||◌, ℕ, List, [], ◌∷◌, ◌++◌, true, false, None, Some, IsSome, IsOk, IfOk, OnOk, OnErr};
    ghost use Rattle.coda_fid.specs.declared.op.Record.{Record};
    ghost use Rattle.coda_cancel.specs.Cancel.{add, fold};
    ghost use Rattle.coda_cancel.specs.Dropping.{mentioning};
    ghost use Rattle.coda_cancel.specs.Weights.{fits};
    ghost use Rattle.coda_cml.specs.Steady.{IsSteady, any_record};
    ghost use Rattle.coda_cml.specs.State.{empty_log, IsLogOf};
    ghost use Rattle.coda_cml.specs.Chunks.{chunk_length, freeze_refusal};
    ghost use Rattle.std.specs.Prelude.{length as list_length, option_map};
    ghost use Rattle.coda_cml.specs.Segments.{segments_of, end_of, last_in, records_upto, records_above};
    ghost use Rattle.coda_cml.specs.Fronts.{chunk_end};
    ghost use Rattle.coda_cml.specs.Longest.{IsChunk};
    ghost use Rattle.coda_cml.specs.Partition.{ArePartedBy};
    ghost use Rattle.coda_cml.specs.declared.fault.FreezeFault.{FreezeFault};
    ghost use Rattle.coda_cml.specs.Steps.{appended_to, frozen_at, frozen_to, applied_to, thawed, settled, pending_after, settle_refusal, given_up};
    ghost use Rattle.coda_cml.specs.declared.fault.SettleFault.{SettleFault};

    /// A log without operations.
    pub fn new(alloc: Global) -> Log
        ensures log { result ≡ empty_log }
        ensures run { IsLogOf result [] [] }
    {
        Log {
            frozen: None,
            chunk: Chunk::new(alloc),
            chunk_segments: Vec::new(alloc),
            tail: Tail::new(alloc),
            segments: Vec::new(alloc),
            last: 0,
            chunks: 0,
        }
    }

    /// The number of the last operation; 0 where there was none.
    pub fn last(&self) -> u64
        ensures { result ≡ self.now.last }
    {
        self.last
    }

    /// The number of the last chunk; 0 where there was none.
    pub fn chunks(&self) -> u64
        ensures { result ≡ self.now.chunks }
    {
        self.chunks
    }

    /// The chunk that is on its way.
    pub fn frozen(&self) -> Option<Frozen>
        ensures { result ≡ self.now.frozen }
    {
        self.frozen
    }

    /// The records of the chunk; none where none is frozen.
    pub fn chunk(&self) -> &[Record]
        ensures records { result.now ≡ self.now.chunk }
        ensures thawed { self.now.frozen ≡ None → result.now ≡ [] }
    {
        self.chunk.records()
    }

    /// The records of the chunk, and those of the tail, between which there may be gaps.
    pub fn records(&self) -> (&[Record], LentRecords<'_>)
        ensures chunk { result.0.now ≡ self.now.chunk }
        ensures tail { result.1 ≡ self.now.records }
    {
        (self.chunk.records(), self.tail.records())
    }

    /// Whether a record of the chunk or of the tail mentions an object. Costs the records of the chunk, and one search among
    /// what those of the tail mention; and where there is no index of that yet, those of the tail, of which there are 64
    /// at most then.
    #[tactic(auto, using(crate::proofs::Mentioning::any_mentioning))]
    pub fn mentions(&self, fid: Fid) -> bool
        ensures { result ≡ (any_record (mentioning fid) self.now.chunk || any_record (mentioning fid) self.now.records) }
    {
        LentRecords::of(self.chunk.records()).mentions(fid) || self.tail.mentions(fid)
    }

    /// The segments of the chunk, and those of the tail. Those of each part have its records in turn, as many as they count,
    /// whose numbers lie in them. There are none of a chunk where none is frozen.
    pub fn segments(&self) -> (&[Segment], &[Segment])
        ensures chunk { result.0.now ≡ self.now.chunk_segments }
        ensures tail { result.1.now ≡ self.now.segments }
        ensures chunk_parts { ArePartedBy result.0.now self.now.chunk }
        ensures tail_parts { ArePartedBy result.1.now self.now.records }
        ensures thawed { self.now.frozen ≡ None → result.0.now ≡ [] }
    {
        (&self.chunk_segments, &self.segments)
    }

    /// The number of the last operation of the chunk that is on its way.
    pub fn last_sent(&self) -> Option<u64>
        ensures last { result ≡ option_map (λ chunk. end_of self.now.chunk_segments) self.now.frozen }
        ensures run { (front back : List Record) → IsLogOf self.now front back → result ≡ last_in front }
    {
        match self.frozen {
            Some(_) => Some(end_of(&self.chunk_segments)),
            None => None,
        }
    }

    /// Whether the log keeps within its limits with one more operation: whether its records are 4,096 at most then, and weigh
    /// 16 MiB at most.
    pub fn has_room(&self, rec: &Record) -> bool
        ensures room { result ≡ fits 4096 16777216 (self.now.chunk ++ add self.now.records rec.now) }
        ensures run { (front back : List Record) → IsLogOf self.now front back → result ≡ fits 4096 16777216 (fold front ++ fold (back ++ rec.now ∷ [])) }
    {
        match room_beside(self.chunk.len(), self.chunk.weight()) {
            Some((count, weight)) => self.tail.fits_after(rec, count, weight),
            None => false,
        }
    }

    /// Puts an operation into the tail, by cancellation. Its number is above all earlier ones.
    ///
    /// # Errors
    ///
    /// `LogFull` exactly where the records of the log would be more than 4,096 with it, or would weigh more
    /// than 16 MiB. An error leaves the log as it was.
    pub fn append(&mut self, rec: Record) -> Result<(), LogFault>
        requires later { self.old.last < rec.number }
        ensures full { (result ≡ Err LogFault.LogFull) ↔ (fits 4096 16777216 (self.old.chunk ++ add self.old.records rec) ≡ false) }
        ensures log { OnOk result (self.new ≡ appended_to self.old rec) }
        ensures run { (front back : List Record) → IsLogOf self.old front back → OnOk result (IsLogOf self.new front (back ++ rec ∷ [])) }
        ensures err { OnErr result (self.new ≡ self.old) }
    {
        if !self.has_room(&rec) {
            return Err(LogFault::LogFull);
        }
        match self.push(rec) {
            Ok(()) => Ok(()),
            Err(_) => Err(LogFault::Memory),
        }
    }

    /// Puts an operation into the tail, by cancellation, where [`has_room`](Log::has_room) was answered so of it. Its number is
    /// above all earlier ones. Fails for want of memory alone, and then leaves the log as it was.
    pub fn push(&mut self, rec: Record) -> Result<(), AllocError>
        requires later { self.old.last < rec.number }
        requires room { fits 4096 16777216 (self.old.chunk ++ add self.old.records rec) ≡ true }
        ensures log { OnOk result (self.new ≡ appended_to self.old rec) }
        ensures run { (front back : List Record) → IsLogOf self.old front back → OnOk result (IsLogOf self.new front (back ++ rec ∷ [])) }
        ensures err { OnErr result (self.new ≡ self.old) }
    {
        if self.segments.reserve(1).is_err() {
            return Err(AllocError);
        }
        let single = Segment {
            first: rec.number,
            last: rec.number,
            count: 0,
            newest: rec.time,
        };
        let before = self.tail.len();
        let Ok(least) = self.tail.add(rec) else {
            return Err(AllocError);
        };
        self.last = single.last;
        let after = self.tail.len();
        regroup_last(&mut self.segments, single, least, before, after);
        Ok(())
    }

    // Freezes the first segments, so many, as this chunk. Fails for want of memory alone.
    fn cut(&mut self, length: usize, chunk: Frozen) -> Result<(), AllocError>
        requires thawed { self.old.frozen ≡ None }
        requires some { 0 < length }
        requires within { length ≤ list_length self.old.segments }
        ensures log { OnOk result (self.new ≡ frozen_at self.old length chunk) }
        ensures err { OnErr result (self.new ≡ self.old) }
    {
        let later = Vec::from_slice(*self.segments.allocator(), &self.segments[length..])?;
        let end = end_of(&self.segments[..length]);
        let count = take_upto(&mut self.tail.records(), end);
        let before = self.tail.weight();
        let front = self.tail.take_front(count)?;
        self.segments.truncate(length);
        self.chunk_segments = mem::replace(&mut self.segments, later);
        self.chunk = Chunk::of(front, before - self.tail.weight());
        self.frozen = Some(chunk);
        self.chunks = chunk.number;
        Ok(())
    }

    /// Freezes the front of the tail as a chunk for a server, and answers the chunk's number.
    ///
    /// A chunk is the longest run of segments from the front whose operations are all at least `window`
    /// seconds old at the time `now` and that have at most `cap` records together, but it goes at least
    /// up to the first segment with a record. A segment of which no record is left counts as old.
    /// Chunks are numbered in turn; there were fewer than 2^64 - 1.
    ///
    /// # Errors
    ///
    /// In this order: `Frozen` where a chunk is frozen already, with its number and server; `Nothing`
    /// where no segment has a record; `Young` where the first that has one isn't old enough, with its age
    /// and the window. An error leaves the log as it was.
    pub fn freeze(
        &mut self,
        home: u8,
        now: u64,
        window: u64,
        cap: usize,
    ) -> Result<u64, FreezeFault>
        requires { self.old.chunks < 2 ^ 64 - 1 }
        ensures causes { (why : FreezeFault) → why ≢ FreezeFault.Memory → ((result ≡ Err why) ↔ (freeze_refusal self.old.frozen now window self.old.segments ≡ Some why)) }
        ensures number { IfOk result (λ number. number ≡ self.old.chunks + 1) }
        ensures log { OnOk result (self.new ≡ frozen_to self.old home (chunk_length now window cap self.old.segments)) }
        ensures longest { OnOk result (IsChunk now window cap self.old.segments (list_length self.new.chunk_segments)) }
        ensures run { (run : List Record) → IsLogOf self.old [] run → IsSteady run → OnOk result (IsLogOf self.new (records_upto (chunk_end now window cap run) run) (records_above (chunk_end now window cap run) run)) }
        ensures err { OnErr result (self.new ≡ self.old) }
    {
        if let Some(why) = self.refusal(now, window) {
            return Err(why);
        }
        let length = chunk_length(&self.segments, now, window, cap);
        let number = self.chunks + 1;
        match self.cut(length, Frozen { number, home }) {
            Ok(()) => Ok(number),
            Err(_) => Err(FreezeFault::Memory),
        }
    }

    /// Why `freeze` would freeze nothing at this time with this window, if it would not: in this order `Frozen`, `Nothing`
    /// or `Young`, as there.
    pub fn refusal(&self, now: u64, window: u64) -> Option<FreezeFault>
        ensures cause { result ≡ freeze_refusal self.now.frozen now window self.now.segments }
        ensures run { (front back : List Record) → IsLogOf self.now front back → result ≡ freeze_refusal self.now.frozen now window (segments_of back) }
        ensures nothing { (result ≡ Some FreezeFault.Nothing) ↔ ((self.now.frozen ≡ None) × (self.now.records ≡ [])) }
    {
        match self.frozen {
            Some(chunk) => Some(FreezeFault::Frozen(chunk.number, chunk.home)),
            None => too_young(&self.segments, now, window),
        }
    }

    /// Puts the frozen chunk back in front of the tail: the records of the tail are added to it in turn,
    /// and segments are joined as that drops records. The number of the chunk is used up.
    ///
    /// Costs the records of the log and the operations that join segments, by the logarithm of how many there are.
    ///
    /// # Errors
    ///
    /// Fails for want of memory alone, and then the chunk stays frozen.
    pub fn thaw(&mut self) -> Result<(), AllocError>
        requires { IsSome self.old.frozen }
        ensures log { OnOk result (self.new ≡ thawed self.old) }
        ensures run { (front back : List Record) → IsLogOf self.old front back → IsSteady (front ++ back) → OnOk result (IsLogOf self.new [] (front ++ back)) }
        ensures err { OnErr result (self.new ≡ self.old) }
    {
        self.chunk_segments.reserve(self.segments.len())?;
        let mut widest = Vec::with_capacity(*self.segments.allocator(), self.tail.len())?;
        let joins = self.chunk.thaw(&mut self.tail)?;
        keep_widest(&joins, &mut widest);
        regroup_all(
            &mut self.chunk_segments,
            &mut self.segments,
            &widest,
            self.tail.records(),
        );
        mem::swap(&mut self.chunk_segments, &mut self.segments);
        self.frozen = None;
        Ok(())
    }

    // Drops the chunk.
    fn apply(&mut self)
        ensures log { self.new ≡ applied_to self.old }
        ensures run { (front back : List Record) → IsLogOf self.old front back → IsLogOf self.new [] back }
    {
        let alloc = *self.segments.allocator();
        self.frozen = None;
        self.chunk = Chunk::new(alloc);
        self.chunk_segments.clear();
    }

    // Takes the verdict on the chunk.
    fn take(&mut self, verdict: &Verdict) -> Result<(), AllocError>
        requires { IsSome self.old.frozen }
        ensures applied { verdict.now ≡ Verdict.Applied → IsOk result }
        ensures log { OnOk result (self.new ≡ settled verdict.now self.old) }
        ensures run { (front back : List Record) → IsLogOf self.old front back → IsSteady (front ++ back) → OnOk result (IsLogOf self.new [] (pending_after verdict.now front back)) }
        ensures err { OnErr result (self.new ≡ self.old) }
    {
        match verdict {
            Verdict::Applied => {
                self.apply();
                Ok(())
            }
            Verdict::Conflict(_, _) => self.thaw(),
        }
    }

    /// Takes the verdict on the chunk of a number. Applied, the chunk is done with, which takes no memory;
    /// a conflict thaws it.
    ///
    /// # Errors
    ///
    /// `NotFrozen` exactly where no chunk is frozen, with the number given; `WrongNumber` exactly where one
    /// of another number is, with both. `Memory` comes of a conflict alone. An error leaves the log as it
    /// was.
    pub fn settle(&mut self, number: u64, verdict: &Verdict) -> Result<(), SettleFault>
        ensures causes { (why : SettleFault) → why ≢ SettleFault.Memory → ((result ≡ Err why) ↔ (settle_refusal self.old.frozen number ≡ Some why)) }
        ensures applied { verdict.now ≡ Verdict.Applied → result ≢ Err SettleFault.Memory }
        ensures log { OnOk result (self.new ≡ settled verdict.now self.old) }
        ensures run { (front back : List Record) → IsLogOf self.old front back → IsSteady (front ++ back) → OnOk result (IsLogOf self.new [] (pending_after verdict.now front back)) }
        ensures err { OnErr result (self.new ≡ self.old) }
    {
        match self.frozen {
            None => Err(SettleFault::NotFrozen(number)),
            Some(chunk) if chunk.number != number => {
                Err(SettleFault::WrongNumber(chunk.number, number))
            }
            Some(_) => match self.take(verdict) {
                Ok(()) => Ok(()),
                Err(_) => Err(SettleFault::Memory),
            },
        }
    }

    /// Hands out the records of a log of which no chunk is frozen, and empties it. Numbers of operations
    /// and chunks go on. Takes no memory.
    ///
    /// # Errors
    ///
    /// `Frozen` exactly where a chunk is frozen, with its number and server; else `Nothing` exactly where
    /// there is no record. An error leaves the log as it was.
    pub fn giveup(&mut self) -> Result<Vec<Record>, FreezeFault>
        ensures frozen { (number home : ℕ) → ((result ≡ Err (FreezeFault.Frozen number home)) ↔ (self.old.frozen ≡ Some (record { number = number; home = home }))) }
        ensures nothing { (result ≡ Err FreezeFault.Nothing) ↔ ((self.old.frozen ≡ None) × (self.old.records ≡ [])) }
        ensures done { self.old.frozen ≡ None → self.old.records ≢ [] → IsOk result }
        ensures records { IfOk result (λ recs. recs.items ≡ self.old.records) }
        ensures log { OnOk result (self.new ≡ given_up self.old) }
        ensures run { (run : List Record) → IsLogOf self.old [] run → OnOk result (IsLogOf self.new [] []) }
        ensures err { OnErr result (self.new ≡ self.old) }
    {
        if let Some(chunk) = self.frozen {
            return Err(FreezeFault::Frozen(chunk.number, chunk.home));
        }
        if self.tail.len() == 0 {
            return Err(FreezeFault::Nothing);
        }
        let alloc = *self.segments.allocator();
        let tail = mem::replace(&mut self.tail, Tail::new(alloc));
        self.segments.clear();
        Ok(tail.into_records())
    }

    /// The same log, in memory of its own.
    pub fn copy(&self) -> Result<Log, AllocError>
        ensures { IfOk result (λ log. log ≡ self.now) }
    {
        let chunk = self.chunk.copy(*self.segments.allocator())?;
        let chunk_segments = self.chunk_segments.clone()?;
        let tail = self.tail.copy()?;
        let segments = self.segments.clone()?;
        Ok(Log {
            frozen: self.frozen,
            chunk,
            chunk_segments,
            tail,
            segments,
            last: self.last,
            chunks: self.chunks,
        })
    }
}

// The number of the last operation of the segments; 0 where there are none.
fn end_of(segments: &[Segment]) -> u64
    ensures { result ≡ end_of segments.now }
{
    match segments.last() {
        Some(segment) => segment.last,
        None => 0,
    }
}

// What room so many records leave that weigh so much, where there is enough for them.
fn room_beside(count: usize, weight: u64) -> Option<(usize, u64)>
    ensures { (recs rest : List Record) → length recs ≡ count → total_weight recs ≡ weight → fits 4096 16777216 (recs ++ rest) ≡ room_fits result rest }
{
    if count > MOST_RECORDS || weight > MOST_WEIGHT {
        return None;
    }
    Some((MOST_RECORDS - count, MOST_WEIGHT - weight))
}

// Puts the segments of a tail behind those of a chunk, joins those between which operations dropped
// records, and counts the records of all.
fn regroup_all(
    segments: &mut Vec<Segment>,
    later: &mut Vec<Segment>,
    joins: &[Join],
    mut records: LentRecords<'_>,
)
    requires room { vec_len segments.old + vec_len later.old ≤ vec_capacity segments.old }
    requires rise { DoJoinsRise joins.now }
    ensures segments { segments.new.items ≡ recounted records.entry (rejoined (is_inside joins.now) (segments.old.items ++ later.old.items)) }
    ensures later { later.new.items ≡ [] }
{
    for segment in later.iter() {
        segments.push_reserved(*segment);
    }
    later.clear();
    rejoin(segments, joins);
    recount(segments, &mut records);
}
