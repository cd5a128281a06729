// How the entries of a journal become a client's state again, one by one.
ghost use Rattle.std.specs.Prelude.{◌≡◌, true, OnOk, OnErr, IfSome, Ok, Err, None};
ghost use Rattle.std.specs.BTreeMap as tree;
ghost use Rattle.std.specs.Ordering.{nat_cmp};
ghost use Rattle.coda_record.specs.declared.entry.ClientEntry.TheVariants.{Op as OpEntry, Freeze as FreezeEntry, Settled as SettledEntry, Giveup as GiveupEntry};
ghost use Rattle.coda_venus.specs.Code.{IsNextOf, volume_in};
ghost use Rattle.coda_venus.specs.declared.recovery.Unfit.TheVariants.{Memory as NoMemory};
ghost use Rattle.coda_venus.specs.History.{MayEnter, MayFreeze};
ghost use Rattle.coda_venus.specs.Keeping.{next_chunk};
ghost use Rattle.coda_venus.specs.State.{ClientState, client_after};

use crate::client::Client;
use crate::volume_log::VolumeLog;
use coda_certify::Verdict;
use coda_fid::Record;
use std::alloc::AllocError;
use thiserror::Error;

/// Why an entry isn't taken up.
#[derive(Clone, Copy, Debug, PartialEq, Eq, Error)]
pub enum Unfit {
    /// It can't follow.
    #[error("the entry can't follow those before it")]
    Misfit,
    /// There was no memory.
    #[error("out of memory for a client")]
    Memory,
}

impl From<AllocError> for Unfit {
    ghost from_gives = { λ _ e. e ≡ NoMemory };

    fn from(_e: AllocError) -> Unfit {
        Unfit::Memory
    }
}

impl Client {
    ghost use Rattle.coda_venus.specs.Code.{IsClient};

    // Whether an operation is the next of a volume's log, which has room for it.
    fn is_next(&self, volume: u32, rec: &Record) -> bool
        ensures yes { result ≡ true → IsNextOf (volume_in (tree.get nat_cmp self.now.logs volume)).log rec.now.time rec.now.op rec.now }
        ensures no { IsNextOf (volume_in (tree.get nat_cmp self.now.logs volume)).log rec.now.time rec.now.op rec.now → result ≡ true }
    {
        match self.logs.get(&volume) {
            Some(log) => log.is_next(rec),
            None => VolumeLog::new(self.alloc).is_next(rec),
        }
    }

    /// Takes up an operation that the journal has.
    ///
    /// # Errors
    ///
    /// `Misfit` exactly where it can't follow, and `Memory`; then all is as it was.
    pub fn enter_operated(&mut self, volume: u32, rec: Record) -> Result<(), Unfit>
        ensures ok { (c : ClientState) → IsClient c self.old → OnOk result (MayEnter c (OpEntry volume rec)) }
        ensures leaves { (c : ClientState) → IsClient c self.old → OnOk result (IsClient (client_after c (OpEntry volume rec)) self.new) }
        ensures misfit { (c : ClientState) → IsClient c self.old → result ≡ Err Unfit.Misfit → ¬ MayEnter c (OpEntry volume rec) }
        ensures err { (c : ClientState) → IsClient c self.old → OnErr result (IsClient c self.new) }
    {
        if !self.is_next(volume, &rec) {
            return Err(Unfit::Misfit);
        }
        if !self.accepts(volume, &rec.op)? {
            return Err(Unfit::Misfit);
        }
        self.enter_operation(volume, rec)?;
        Ok(())
    }

    // A time and a window by which the next chunk of a volume is this one, where there are any.
    fn time_of(&self, volume: u32, number: u64, last: u64) -> Option<(u64, u64)>
        ensures found { (c : ClientState) → IsClient c self.now → IfSome result (λ t. next_chunk (c.volumes volume).log t.0 t.1 ≡ Ok (number, last)) }
        ensures none { (c : ClientState) → IsClient c self.now → result ≡ None → ¬ MayFreeze (c.volumes volume).log number last }
    {
        match self.logs.get(&volume) {
            Some(log) => log.time_of(number, last),
            None => None,
        }
    }

    /// Takes up a freeze that the journal has.
    ///
    /// # Errors
    ///
    /// `Misfit` exactly where it can't follow, and `Memory`; then all is as it was.
    pub fn enter_freeze(
        &mut self,
        volume: u32,
        number: u64,
        home: u8,
        last: u64,
    ) -> Result<(), Unfit>
        ensures ok { (c : ClientState) → IsClient c self.old → OnOk result (MayEnter c (FreezeEntry volume number home last)) }
        ensures leaves { (c : ClientState) → IsClient c self.old → OnOk result (IsClient (client_after c (FreezeEntry volume number home last)) self.new) }
        ensures misfit { (c : ClientState) → IsClient c self.old → result ≡ Err Unfit.Misfit → ¬ MayEnter c (FreezeEntry volume number home last) }
        ensures err { (c : ClientState) → IsClient c self.old → OnErr result (IsClient c self.new) }
    {
        let Some((now, window)) = self.time_of(volume, number, last) else {
            return Err(Unfit::Misfit);
        };
        match self.freeze(volume, home, now, window) {
            Ok(()) => Ok(()),
            Err(_) => Err(Unfit::Memory),
        }
    }

    /// Takes up a settlement that the journal has.
    ///
    /// # Errors
    ///
    /// `Misfit` exactly where it can't follow, and `Memory`; then all is as it was.
    pub fn enter_settled(
        &mut self,
        volume: u32,
        number: u64,
        verdict: &Verdict,
    ) -> Result<(), Unfit>
        ensures ok { (c : ClientState) → IsClient c self.old → OnOk result (MayEnter c (SettledEntry volume number verdict.now)) }
        ensures leaves { (c : ClientState) → IsClient c self.old → OnOk result (IsClient (client_after c (SettledEntry volume number verdict.now)) self.new) }
        ensures misfit { (c : ClientState) → IsClient c self.old → result ≡ Err Unfit.Misfit → ¬ MayEnter c (SettledEntry volume number verdict.now) }
        ensures err { (c : ClientState) → IsClient c self.old → OnErr result (IsClient c self.new) }
    {
        if self.unsettled(volume, number).is_some() {
            return Err(Unfit::Misfit);
        }
        match self.settle(volume, number, verdict) {
            Ok(()) => Ok(()),
            Err(_) => Err(Unfit::Memory),
        }
    }

    /// Takes up that a log was given up, as the journal has it.
    ///
    /// # Errors
    ///
    /// `Misfit` exactly where it can't follow; then all is as it was.
    pub fn enter_giveup(&mut self, volume: u32) -> Result<(), Unfit>
        ensures ok { (c : ClientState) → IsClient c self.old → OnOk result (MayEnter c (GiveupEntry volume)) }
        ensures leaves { (c : ClientState) → IsClient c self.old → OnOk result (IsClient (client_after c (GiveupEntry volume)) self.new) }
        ensures misfit { (c : ClientState) → IsClient c self.old → result ≡ Err Unfit.Misfit → ¬ MayEnter c (GiveupEntry volume) }
        ensures err { (c : ClientState) → IsClient c self.old → OnErr result (IsClient c self.new) }
    {
        match self.logs.get_mut(&volume) {
            Some(log) => match log.giveup() {
                Ok(_) => Ok(()),
                Err(_) => Err(Unfit::Misfit),
            },
            None => Err(Unfit::Misfit),
        }
    }
}
