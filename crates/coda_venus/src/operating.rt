// Operations that were accepted, carried out on what a client holds, and logged.
ghost use Rattle.std.specs.Prelude.{◌≡◌, ◌<◌, ◌≤◌, None, IsSome, IfOk, IfErr, OnOk, OnErr};
ghost use Rattle.std.specs.BTreeMap as tree;
ghost use Rattle.std.specs.Ordering.{nat_cmp};
ghost use Rattle.coda_cache.specs.Steps.{mutated};
ghost use Rattle.coda_record.specs.declared.entry.ClientEntry.TheVariants.{Op as OpEntry};
ghost use Rattle.coda_plain.specs.Deeds.{Operated};
ghost use Rattle.coda_spelling.specs.Spelled.{IsSpelled, AreSpelled};
ghost use Rattle.coda_venus.specs.Ask.{asked, IsAskSpelled};
ghost use Rattle.coda_venus.specs.Code.{MayPerform, IsNextOf, volume_in};
ghost use Rattle.coda_venus.specs.Held.{held_after_operation};
ghost use Rattle.coda_venus.specs.Keeping.{record_of, unless_full, operation, IsOwn};
ghost use Rattle.coda_venus.specs.Looking.{OrMemory};
ghost use Rattle.coda_venus.specs.Operating.{MayBegin};
ghost use Rattle.coda_venus.specs.State.{ClientState, after_deed, client_after};

use crate::ask::{Ask, too_big};
use crate::client::Client;
use crate::refused::Refused;
use crate::volume_log::VolumeLog;
use coda_fid::{Op, Record};
use std::alloc::AllocError;

impl Client {
    ghost use Rattle.coda_venus.specs.Code.{IsClient, held_of};

    // Makes the log of a volume, where there is none. Fails for want of memory alone.
    fn make_log(&mut self, volume: u32) -> Result<(), AllocError>
        ensures there { OnOk result (IsSome (tree.get nat_cmp self.new.logs volume)) }
        ensures same { volume_in (tree.get nat_cmp self.new.logs volume) ≡ volume_in (tree.get nat_cmp self.old.logs volume) }
        ensures kept { (self.new.number ≡ self.old.number) × (self.new.cache ≡ self.old.cache) }
        ensures client { (c : ClientState) → IsClient c self.old → IsClient c self.new }
    {
        if self.logs.contains_key(&volume) {
            return Ok(());
        }
        self.logs.insert(volume, VolumeLog::new(self.alloc))?;
        Ok(())
    }

    // Puts the next operation behind the log of a volume, which is there. Fails for want of memory alone, and then changes nothing.
    fn push(&mut self, volume: u32, rec: Record) -> Result<(), AllocError>
        requires there { IsSome (tree.get nat_cmp self.old.logs volume) }
        requires perform { MayPerform (volume_in (tree.get nat_cmp self.old.logs volume)) rec }
        ensures pushed { (c : ClientState) → IsClient c self.old → OnOk result (IsClient (after_deed c volume (Operated rec)) self.new) }
        ensures err { (c : ClientState) → IsClient c self.old → OnErr result (IsClient c self.new) }
        ensures kept { (self.new.number ≡ self.old.number) × (self.new.cache ≡ self.old.cache) }
    {
        match self.logs.get_mut(&volume) {
            Some(log) => log.push(rec),
            None => Ok(()),
        }
    }

    /// Carries out an operation that was accepted, and puts it behind the log of its volume. Fails for want of memory alone; then all is as it
    /// was.
    pub fn enter_operation(&mut self, volume: u32, rec: Record) -> Result<(), AllocError>
        requires begin { MayBegin self.old.cache.nodes rec.op }
        requires perform { MayPerform (volume_in (tree.get nat_cmp self.old.logs volume)) rec }
        ensures entered { (c : ClientState) → IsClient c self.old → OnOk result (IsClient (client_after c (OpEntry volume rec)) self.new) }
        ensures err { (c : ClientState) → IsClient c self.old → OnErr result (IsClient c self.new) }
        ensures cache { OnOk result (self.new.cache ≡ mutated self.old.cache self.old.number rec) }
        ensures cache_err { OnErr result (self.new.cache ≡ self.old.cache) }
        ensures nodes { OnOk result (self.new.cache.nodes ≡ (held_after_operation (held_of self.old) self.old.number rec).nodes) }
        ensures nodes_err { OnErr result (self.new.cache.nodes ≡ self.old.cache.nodes) }
        ensures number { self.new.number ≡ self.old.number }
    {
        self.make_log(volume)?;
        self.cache.agree();
        let begun = self.cache.begin(self.number, &rec)?;
        match self.push(volume, rec) {
            Ok(()) => {
                self.cache.finish(begun);
                Ok(())
            }
            Err(e) => {
                self.cache.undo(begun);
                Err(e)
            }
        }
    }

    // The record that an operation becomes at a time, the next on a volume.
    fn next_record(&self, volume: u32, time: u64, op: Op) -> Result<Record, Refused>
        ensures next { (c : ClientState) → IsClient c self.now → (c.volumes volume).log.last ≤ 4294967295 → result ≡ unless_full (c.volumes volume) (record_of (c.volumes volume) time op) }
        ensures may { IfOk result (IsNextOf (volume_in (tree.get nat_cmp self.now.logs volume)).log time op) }
        ensures own { IfErr result IsOwn }
    {
        match self.logs.get(&volume) {
            Some(log) => log.next_record(time, op),
            None => VolumeLog::new(self.alloc).next_record(time, op),
        }
    }

    /// What an ask becomes at a time, in seconds: an operation that is accepted, the next on its volume.
    ///
    /// # Errors
    ///
    /// The first of these that applies: `TooBig`; what acceptance refuses; `LogFull`; `JournalFull` where 2^32 - 1 operations were performed.
    /// Or `Memory`.
    pub fn next_operation(&self, time: u64, volume: u32, ask: &Ask) -> Result<Record, Refused>
        ensures operation { (c : ClientState) → IsClient c self.now → (c.volumes volume).log.last ≤ 4294967295 → OrMemory result (operation c time volume (asked ask.now)) }
        ensures begin { IfOk result (λ rec. MayBegin self.now.cache.nodes rec.op) }
        ensures perform { IfOk result (MayPerform (volume_in (tree.get nat_cmp self.now.logs volume))) }
        ensures spelled { self.now.number < 256 → AreSpelled self.now.cache.nodes → IsAskSpelled (asked ask.now) → IfOk result IsSpelled }
        ensures own { IfErr result IsOwn }
    {
        if let Some(size) = too_big(ask) {
            return Err(Refused::TooBig(size));
        }
        match self.accept(true, volume, ask) {
            Ok(op) => self.next_record(volume, time, op),
            Err(refusal) => Err(refusal),
        }
    }
}
