// What a client has of a volume.
use crate::ask::created_by;
use crate::fronts::{MOST_TOGETHER, last_to_go, time_of};
use crate::refused::{Refused, refused_as};
use coda_certify::Verdict;
use coda_cml::{Log, SettleFault};
use coda_fid::{Op, Record};
use std::alloc::{AllocError, Global};

/// What a client has of a volume that it worked on: its log, and how many objects it created there.
#[derive(Debug, Drop)]
pub struct VolumeLog {
    /// The operations that no server has applied yet, as far as later ones leave them.
    pub log: Log,
    /// How many objects the client created.
    pub creations: u32,
}

/// The most operations that a client accepts on a volume.
const MOST_OPERATIONS: u64 = 4_294_967_295;

/// The most chunks that a client freezes of a volume.
const MOST_CHUNKS: u64 = 4_294_967_295;

impl VolumeLog {
    ghost use Rattle.std.specs.Prelude.{◌≡◌, ◌≢◌, ◌↔◌, ◌⊎◌, ◌<◌, ◌≤◌, ◌+◌, ◌++◌, true, false, OnOk, OnErr, IfOk, IfErr, IfSome, IsOk, Ok, Err, Some, None, [], option_map};
    ghost use Rattle.coda_cancel.specs.Cancel.{add};
    ghost use Rattle.coda_cancel.specs.Weights.{fits};
    ghost use Rattle.coda_venus.specs.State.{ClientVolume, new_volume, volume_after};
    ghost use Rattle.coda_venus.specs.Code.{IsVolumeLog, MayPush, volume_in, IsNextOf};
    ghost use Rattle.coda_venus.specs.Code.{has_room, is_full};
    ghost use Rattle.coda_plain.specs.Deeds.{Operated, Froze, Settled as SettledDeed, Gaveup};
    ghost use Rattle.coda_cml.specs.Partition.{ArePartedBy};
    ghost use Rattle.coda_cml.specs.Steps.{settle_refusal};
    ghost use Rattle.coda_venus.specs.History.{last_to_go, MayFreeze};
    ghost use Rattle.coda_venus.specs.Keeping.{unsettled_as, next_chunk, record_of, unless_full, IsOwn};

    /// The log of a volume on which nothing was done.
    pub fn new(alloc: Global) -> VolumeLog
        ensures { IsVolumeLog new_volume result }
    {
        VolumeLog {
            log: Log::new(alloc),
            creations: 0,
        }
    }

    /// Whether the log would keep within its limits with one operation more.
    pub fn has_room(&self, rec: &Record) -> bool
        ensures room { result ≡ fits 4096 16777216 (self.now.log.chunk ++ add self.now.log.records rec.now) }
        ensures run { (v : ClientVolume) → IsVolumeLog v self.now → result ≡ has_room v rec.now }
    {
        self.log.has_room(rec)
    }

    /// Whether the client accepted as many operations as it may.
    pub fn is_full(&self) -> bool
        ensures full { (v : ClientVolume) → IsVolumeLog v self.now → result ≡ is_full v }
        ensures few { result ≡ false → self.now.log.last < 4294967295 }
    {
        self.log.last() >= MOST_OPERATIONS
    }

    /// The record that an operation becomes at a time, the next on the volume. Whether there is room for it isn't asked.
    pub fn record_of(&self, time: u64, op: Op) -> Record
        ensures record { self.now.log.last ≤ 4294967295 → result ≡ record_of (volume_in (Some self.now)) time op }
        ensures parts { (1 ≤ result.number) × (result.time ≡ time) × (result.op ≡ op) }
    {
        Record {
            number: self.log.last().saturating_add(1),
            time,
            op,
        }
    }

    /// The record that an operation becomes at a time, the next on the volume.
    ///
    /// # Errors
    ///
    /// `LogFull` where the log has no room for it; then `JournalFull` where 2^32 - 1 operations were performed.
    pub fn next_record(&self, time: u64, op: Op) -> Result<Record, Refused>
        ensures next { self.now.log.last ≤ 4294967295 → result ≡ unless_full (volume_in (Some self.now)) (record_of (volume_in (Some self.now)) time op) }
        ensures may { IfOk result (λ rec. IsNextOf self.now.log time op rec) }
        ensures own { IfErr result IsOwn }
    {
        let rec = self.record_of(time, op);
        if !self.has_room(&rec) {
            return Err(Refused::LogFull);
        }
        if self.is_full() {
            return Err(Refused::JournalFull);
        }
        Ok(rec)
    }

    /// Whether an operation is the next of the log, which has room for it.
    pub fn is_next(&self, rec: &Record) -> bool
        ensures yes { result ≡ true → IsNextOf self.now.log rec.now.time rec.now.op rec.now }
        ensures no { IsNextOf self.now.log rec.now.time rec.now.op rec.now → result ≡ true }
    {
        if self.is_full() {
            return false;
        }
        rec.number == self.log.last() + 1 && self.has_room(rec)
    }

    /// Puts the next operation behind the log, for which it has room, and counts what that creates. Fails for want of memory alone.
    pub fn push(&mut self, rec: Record) -> Result<(), AllocError>
        requires { MayPush self.old rec }
        ensures pushed { (v : ClientVolume) → IsVolumeLog v self.old → OnOk result (IsVolumeLog (volume_after v (Operated rec)) self.new) }
        ensures err { OnErr result (self.new ≡ self.old) }
    {
        let created = created_by(&rec.op);
        self.log.push(rec)?;
        if created > 0 {
            self.creations += created;
        }
        Ok(())
    }

    /// The next chunk at a time by a window, both in seconds: its number, and the last operation in it. At most 64 records go, unless
    /// one segment alone has more.
    ///
    /// # Errors
    ///
    /// The log's refusals, in this order: `Frozen`, `Nothing`, `Young`. Then `JournalFull` where 2^32 - 1 chunks were frozen.
    pub fn next_chunk(&self, now: u64, window: u64) -> Result<(u64, u64), Refused>
        ensures next { result ≡ next_chunk self.now.log now window }
        ensures in_turn { OnOk result (ArePartedBy self.now.log.segments self.now.log.records) }
        ensures few { OnOk result (self.now.log.chunks < 4294967295) }
        ensures own { IfErr result IsOwn }
    {
        if let Some(why) = self.log.refusal(now, window) {
            return Err(refused_as(why));
        }
        let chunks = self.log.chunks();
        if chunks >= MOST_CHUNKS {
            return Err(Refused::JournalFull);
        }
        let (_, segments) = self.log.segments();
        Ok((chunks + 1, last_to_go(segments, now, window)))
    }

    /// Freezes the next chunk at a time by a window, for a server.
    ///
    /// # Errors
    ///
    /// As `next_chunk`, and `Memory`. An error leaves all as it was.
    pub fn freeze(&mut self, home: u8, now: u64, window: u64) -> Result<(), Refused>
        ensures frozen { (v : ClientVolume) → IsVolumeLog v self.old → OnOk result (IsVolumeLog (volume_after v (Froze (v.log.chunks + 1) home (last_to_go now window v.log.segments))) self.new) }
        ensures only { OnOk result (IsOk (next_chunk self.old.log now window)) }
        ensures refused { IfErr result (λ why. (why ≡ Refused.Memory) ⊎ (next_chunk self.old.log now window ≡ Err why)) }
        ensures own { IfErr result IsOwn }
        ensures err { OnErr result (self.new ≡ self.old) }
    {
        self.next_chunk(now, window)?;
        match self.log.freeze(home, now, window, MOST_TOGETHER) {
            Ok(_) => Ok(()),
            Err(why) => Err(refused_as(why)),
        }
    }

    /// A time and a window by which the next chunk is this one, where there are any.
    pub fn time_of(&self, number: u64, last: u64) -> Option<(u64, u64)>
        ensures found { IfSome result (λ t. next_chunk self.now.log t.0 t.1 ≡ Ok (number, last)) }
        ensures none { result ≡ None → ¬ MayFreeze self.now.log number last }
    {
        let (_, segments) = self.log.segments();
        let (now, window) = time_of(segments, last);
        let found = self.next_chunk(now, window);
        if found == Ok((number, last)) {
            Some((now, window))
        } else {
            None
        }
    }

    /// Why the verdict on the chunk of a number isn't taken: `NotFrozen` or `WrongNumber`.
    pub fn unsettled(&self, number: u64) -> Option<Refused>
        ensures cause { result ≡ option_map unsettled_as (settle_refusal self.now.log.frozen number) }
        ensures own { IfSome result IsOwn }
    {
        match self.log.frozen() {
            None => Some(Refused::NotFrozen(number)),
            Some(chunk) => {
                if chunk.number == number {
                    None
                } else {
                    Some(Refused::WrongNumber(chunk.number, number))
                }
            }
        }
    }

    /// Takes the verdict on the chunk of a number.
    ///
    /// # Errors
    ///
    /// The log's refusals: `NotFrozen`, `WrongNumber`. An error leaves all as it was.
    pub fn settle(&mut self, number: u64, verdict: &Verdict) -> Result<(), SettleFault>
        ensures causes { (why : SettleFault) → why ≢ SettleFault.Memory → ((result ≡ Err why) ↔ (settle_refusal self.old.log.frozen number ≡ Some why)) }
        ensures only { OnOk result (settle_refusal self.old.log.frozen number ≡ None) }
        ensures settled { (v : ClientVolume) → IsVolumeLog v self.old → OnOk result (IsVolumeLog (volume_after v (SettledDeed number verdict.now)) self.new) }
        ensures err { OnErr result (self.new ≡ self.old) }
    {
        match self.log.settle(number, verdict) {
            Ok(()) => Ok(()),
            Err(why) => Err(why),
        }
    }

    /// Hands out the records, where none is frozen, and empties the log. Takes no memory.
    ///
    /// # Errors
    ///
    /// The log's refusals: `Frozen`, `Nothing`. An error leaves all as it was.
    pub fn giveup(&mut self) -> Result<Vec<Record>, Refused>
        ensures may { OnOk result ((self.old.log.frozen ≡ None) × (self.old.log.records ≢ [])) }
        ensures must { self.old.log.frozen ≡ None → self.old.log.records ≢ [] → IsOk result }
        ensures given_up { (v : ClientVolume) → IsVolumeLog v self.old → OnOk result (IsVolumeLog (volume_after v Gaveup) self.new) }
        ensures records { IfOk result (λ recs. recs.items ≡ self.old.log.records) }
        ensures err { OnErr result (self.new ≡ self.old) }
    {
        match self.log.giveup() {
            Ok(recs) => Ok(recs),
            Err(why) => Err(refused_as(why)),
        }
    }
}
