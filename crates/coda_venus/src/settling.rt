// Chunks of a client's logs.
ghost use Rattle.std.specs.Prelude.{◌≡◌, ◌⊎◌, ◌+◌, OnOk, OnErr, IfErr, IfSome, IsOk, option_map, Some, None};
ghost use Rattle.std.specs.Prelude.{Err};
ghost use Rattle.coda_cml.specs.Steps.{settle_refusal};
ghost use Rattle.coda_record.specs.declared.entry.ClientEntry.TheVariants.{Freeze as FreezeEntry, Settled as SettledEntry};
ghost use Rattle.coda_venus.specs.History.{last_to_go};
ghost use Rattle.coda_venus.specs.Keeping.{unsettled_as, next_chunk, IsOwn};
ghost use Rattle.coda_venus.specs.State.{ClientState, client_after};

use crate::client::Client;
use crate::refused::{Refused, unsettled_as};
use coda_certify::Verdict;

impl Client {
    ghost use Rattle.coda_venus.specs.Code.{IsClient};

    /// The next chunk of a volume at a time by a window, both in seconds: its number, and the last operation in it.
    ///
    /// # Errors
    ///
    /// The log's refusals, in this order: `Frozen`, `Nothing`, `Young`. Then `JournalFull` where 2^32 - 1 chunks were frozen.
    pub fn next_chunk(&self, volume: u32, now: u64, window: u64) -> Result<(u64, u64), Refused>
        ensures next { (c : ClientState) → IsClient c self.now → result ≡ next_chunk (c.volumes volume).log now window }
        ensures own { IfErr result IsOwn }
    {
        match self.logs.get(&volume) {
            Some(log) => log.next_chunk(now, window),
            None => Err(Refused::Nothing),
        }
    }

    /// Freezes the next chunk of a volume at a time by a window, for a server.
    ///
    /// # Errors
    ///
    /// As `next_chunk`, and `Memory`; then all is as it was.
    pub fn freeze(&mut self, volume: u32, home: u8, now: u64, window: u64) -> Result<(), Refused>
        ensures frozen { (c : ClientState) → IsClient c self.old → OnOk result (IsClient (client_after c (FreezeEntry volume ((c.volumes volume).log.chunks + 1) home (last_to_go now window (c.volumes volume).log.segments))) self.new) }
        ensures only { (c : ClientState) → IsClient c self.old → OnOk result (IsOk (next_chunk (c.volumes volume).log now window)) }
        ensures refused { (c : ClientState) → IsClient c self.old → IfErr result (λ why. (why ≡ Refused.Memory) ⊎ (next_chunk (c.volumes volume).log now window ≡ Err why)) }
        ensures err { (c : ClientState) → IsClient c self.old → OnErr result (IsClient c self.new) }
        ensures nodes { self.new.cache.nodes ≡ self.old.cache.nodes }
        ensures number { self.new.number ≡ self.old.number }
        ensures own { IfErr result IsOwn }
    {
        match self.logs.get_mut(&volume) {
            Some(log) => match log.freeze(home, now, window) {
                Ok(()) => Ok(()),
                Err(why) => Err(why),
            },
            None => Err(Refused::Nothing),
        }
    }

    /// Why the verdict on the chunk of a number isn't taken: `NotFrozen` or `WrongNumber`.
    pub fn unsettled(&self, volume: u32, number: u64) -> Option<Refused>
        ensures cause { (c : ClientState) → IsClient c self.now → result ≡ option_map unsettled_as (settle_refusal (c.volumes volume).log.frozen number) }
        ensures own { IfSome result IsOwn }
    {
        match self.logs.get(&volume) {
            Some(log) => log.unsettled(number),
            None => Some(Refused::NotFrozen(number)),
        }
    }

    /// Takes the verdict on the chunk of a number.
    ///
    /// # Errors
    ///
    /// `NotFrozen` exactly where none is frozen, `WrongNumber` exactly where another one is, and `Memory`; then all is as it was.
    pub fn settle(&mut self, volume: u32, number: u64, verdict: &Verdict) -> Result<(), Refused>
        ensures settled { (c : ClientState) → IsClient c self.old → OnOk result (IsClient (client_after c (SettledEntry volume number verdict.now)) self.new) }
        ensures only { (c : ClientState) → IsClient c self.old → OnOk result (settle_refusal (c.volumes volume).log.frozen number ≡ None) }
        ensures refused { (c : ClientState) → IsClient c self.old → IfErr result (λ why. (why ≡ Refused.Memory) ⊎ (option_map unsettled_as (settle_refusal (c.volumes volume).log.frozen number) ≡ Some why)) }
        ensures err { (c : ClientState) → IsClient c self.old → OnErr result (IsClient c self.new) }
        ensures nodes { self.new.cache.nodes ≡ self.old.cache.nodes }
        ensures number { self.new.number ≡ self.old.number }
        ensures own { IfErr result IsOwn }
    {
        match self.logs.get_mut(&volume) {
            Some(log) => match log.settle(number, verdict) {
                Ok(()) => Ok(()),
                Err(why) => Err(unsettled_as(why)),
            },
            None => Err(Refused::NotFrozen(number)),
        }
    }
}
