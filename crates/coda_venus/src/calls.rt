// What a client on a disk is asked, and what it keeps.
ghost use Rattle.std.specs.Prelude.{◌≡◌, ◌≢◌, ℕ, ◌+◌, ◌≤◌, List, [], ◌∷◌, true, false, vec_len, IfOk, IfErr, IsErrOf, MatchOption, option_map, Ok, Err, Some, None};
ghost use Rattle.std.specs.BTreeMap as tree;
ghost use Rattle.std.specs.Ordering.{nat_cmp};
ghost use Rattle.std.specs.Result.{result_ok};
ghost use Rattle.std.specs.Int.{w32};
ghost use Rattle.coda_fid.specs.declared.fid.Fid.{Fid as AFid};
ghost use Rattle.coda_io.specs.Faults.{counted, Rose};
ghost use Rattle.coda_cml.specs.Steps.{settle_refusal};
ghost use Rattle.coda_disk.specs.Told.{Kept};
ghost use Rattle.coda_journal.specs.Entries.{framed};
ghost use Rattle.coda_journal.specs.declared.header.Header.{Header as AskedHeader};
ghost use Rattle.coda_record.specs.Spelling.{HasSpelling};
ghost use Rattle.coda_record.specs.Form.{four};
ghost use Rattle.coda_record.specs.Table.{volume as a_volume, server as a_server, verdict as a_verdict, records as some_records};
ghost use Rattle.coda_record.specs.declared.entry.ClientEntry.TheVariants.{Op as OpEntry, Freeze as FreezeEntry, Settled as SettledEntry};
ghost use Rattle.coda_spelling.specs.Spelled.{IsSpelled, AreSpelled};
ghost use Rattle.coda_venus.specs.Ask.{asked, IsAskSpelled};
ghost use Rattle.coda_venus.specs.Code.{MayPerform, volume_in};
ghost use Rattle.coda_venus.specs.Operating.{MayBegin};
ghost use Rattle.coda_venus.specs.Appending.{Writes};
ghost use Rattle.coda_venus.specs.History.{Payload, state_of, MayOperate};
ghost use Rattle.coda_venus.specs.Keeping.{next_chunk, operation, operate_due, done_of, freeze_due, settle_due, KeepingOne, DoesKeep, DoesKeepIn, Falls};
ghost use Rattle.coda_venus.specs.State.{ClientState, new_volume};

use crate::ask::{Ask, object_of};
use crate::done::Done;
use crate::entries::{freeze_frame, has_room, operation_frame, settled_frame};
use crate::refused::Refused;
use crate::seen::Seen;
use crate::venus::Venus;
use coda_certify::Verdict;
use coda_cml::{Frozen, Log};
use coda_disk::Disk;
use coda_fid::{Path, Record};
use coda_journal::{Frame, Journal};

impl<D: Disk> Venus<D> {
    ghost use Rattle.coda_venus.specs.Keeping.{seen_at, readable, listable};
    ghost use Rattle.coda_venus.specs.Looking.{OrMemory};
    ghost use Rattle.coda_venus.specs.Code.{IsClient};
    ghost use Rattle.coda_venus.specs.Standing.{IsUp};

    /// Whether a call of the disk failed since it was recovered.
    pub fn is_down(&self) -> bool
        ensures { result ≡ self.now.down }
    {
        self.down
    }

    /// Gives the disk.
    pub fn down(self) -> D
        ensures { result ≡ self.journal.disk }
    {
        self.journal.into_disk()
    }

    /// Lets so many further calls of the disk through, while the client isn't down. It changes nothing else.
    pub fn arm(&mut self, passes: u64)
        requires { self.old.down ≡ false }
        ensures up { (header : AskedHeader) (history : List Payload) → IsUp D.told header self.old history → IsUp D.told header self.new history }
        ensures kept { (D.told self.old.journal.disk).honest → Kept (D.told self.old.journal.disk) (D.told self.new.journal.disk) }
        ensures same { (self.new.client ≡ self.old.client) × (self.new.down ≡ false) }
        ensures faults { D.faults self.new.journal.disk ≡ D.faults self.old.journal.disk }
        ensures arms { D.arms self.new.journal.disk ≡ counted (D.arms self.old.journal.disk) }
        ensures passes { D.passes self.new.journal.disk ≡ Some passes }
    {
        self.journal.arm(passes);
    }

    /// The file or link at a path, over what is cached.
    ///
    /// # Errors
    ///
    /// `Down` exactly where the client is down. Else the first of these that applies on the way: `Need` of an object that isn't
    /// cached, `NotDir`, `NotFound`; `IsDir` of a directory; and `Memory`. Nothing changes.
    pub fn read(&mut self, volume: u32, path: &Path) -> Result<Seen, Refused>
        ensures down { self.old.down ≡ true → result ≡ Err Refused.Down }
        ensures seen { self.old.down ≡ false → OrMemory result (seen_at readable self.old.client.cache.nodes volume path.now) }
        ensures same { self.new ≡ self.old }
    {
        if self.down {
            return Err(Refused::Down);
        }
        self.client.read(true, volume, path)
    }

    /// The directory at a path, over what is cached.
    ///
    /// # Errors
    ///
    /// As `read`, but `NotDir` of an object that is no directory.
    pub fn list(&mut self, volume: u32, path: &Path) -> Result<Seen, Refused>
        ensures down { self.old.down ≡ true → result ≡ Err Refused.Down }
        ensures seen { self.old.down ≡ false → OrMemory result (seen_at listable self.old.client.cache.nodes volume path.now) }
        ensures same { self.new ≡ self.old }
    {
        if self.down {
            return Err(Refused::Down);
        }
        self.client.list(true, volume, path)
    }

    // Adds a payload to the journal, which has room for it. After a fault the client is down.
    pub(crate) fn write(&mut self, frame: &Frame) -> Result<(), Refused>
        requires up { self.old.down ≡ false }
        requires room { self.old.journal.used + vec_len frame.now.bytes ≤ self.old.journal.area }
        ensures writes { (header : AskedHeader) (payloads : List (List ℕ)) (payload : List ℕ) → frame.now.bytes.items ≡ framed w32 payload
            → Writes D.told header self.old.journal payloads payload self.new result }
        ensures fault { IfErr result (λ why. why ≡ Refused.DiskFault) }
        ensures same { self.new.client ≡ self.old.client }
        ensures falls { Falls self.old.down self.new.down result }
        ensures later { D.faults self.old.journal.disk ≤ D.faults self.new.journal.disk }
        ensures cause { IsErrOf result Refused.DiskFault → Rose (D.faults self.old.journal.disk) (D.faults self.new.journal.disk) }
        ensures arms { D.arms self.new.journal.disk ≡ D.arms self.old.journal.disk }
    {
        match self.journal.append(frame) {
            Ok(()) => Ok(()),
            // It has room, so a call of the disk was refused.
            Err(_) => {
                self.down = true;
                Err(Refused::DiskFault)
            }
        }
    }

    // Keeps an operation that was accepted. The payload is made, and its room tested, before what is held and the log change.
    fn keep_operation(&mut self, volume: u32, rec: Record) -> Result<(), Refused>
        requires up { self.old.down ≡ false }
        requires volume { HasSpelling a_volume volume }
        requires spelled { IsSpelled rec }
        requires begin { MayBegin self.old.client.cache.nodes rec.op }
        requires perform { MayPerform (volume_in (tree.get nat_cmp self.old.client.logs volume)) rec }
        ensures keeps { (header : AskedHeader) (history : List Payload) → IsUp D.told header self.old history → MayOperate (state_of header history) volume rec
            → KeepingOne D.told header self.old history (OpEntry volume rec ∷ []) self.new result }
        ensures never { result ≢ Err Refused.Down }
        ensures cached { (fid : AFid) → result ≢ Err (Refused.Need fid) }
        ensures falls { Falls self.old.down self.new.down result }
        ensures later { D.faults self.old.journal.disk ≤ D.faults self.new.journal.disk }
        ensures cause { IsErrOf result Refused.DiskFault → Rose (D.faults self.old.journal.disk) (D.faults self.new.journal.disk) }
        ensures arms { D.arms self.new.journal.disk ≡ D.arms self.old.journal.disk }
    {
        let frame = operation_frame(self.client.alloc, volume, &rec)?;
        if !has_room(&self.journal, &frame) {
            return Err(Refused::JournalFull);
        }
        self.client.enter_operation(volume, rec)?;
        self.write(&frame)
    }

    /// Performs an operation in a volume, at a time in seconds: what it is asked is accepted over what is cached, carried out there, put
    /// behind the log of the volume, and on the disk before it is answered.
    ///
    /// Whatever it answers, a crash at any moment since its start leaves the history that was there, or that history with this
    /// operation.
    ///
    /// # Errors
    ///
    /// `Down` exactly where the client is down. Else the first of these that applies, which change nothing: `TooBig`; what
    /// acceptance refuses, `Need` of an object that isn't cached among it; `LogFull`; `JournalFull` where 2^32 - 1 operations were
    /// performed, or where the journal has no room for the operation. Or `Memory`, which may come before any of them and changes
    /// nothing; or `DiskFault`, after which the client is down.
    pub fn operate(&mut self, now: u64, volume: u32, ask: &Ask) -> Result<Done, Refused>
        requires volume { HasSpelling a_volume volume }
        requires ask { IsAskSpelled (asked ask.now) }
        ensures keeps { (header : AskedHeader) (history : List Payload) → IsUp D.told header self.old history
            → DoesKeepIn D.told header self.old history (operate_due (state_of header history) now volume (asked ask.now)) self.new result }
        ensures done { (header : AskedHeader) (history : List Payload) → IsUp D.told header self.old history
            → IfOk result (λ done. option_map done_of (result_ok (operation (state_of header history) now volume (asked ask.now))) ≡ Some done) }
        ensures needs { (fid : AFid) → result ≡ Err (Refused.Need fid) → self.new ≡ self.old }
        ensures down { self.old.down ≡ true → (result ≡ Err Refused.Down) × (self.new ≡ self.old) }
        ensures only_down { result ≡ Err Refused.Down → self.old.down ≡ true }
        ensures falls { Falls self.old.down self.new.down result }
        ensures later { D.faults self.old.journal.disk ≤ D.faults self.new.journal.disk }
        ensures cause { IsErrOf result Refused.DiskFault → Rose (D.faults self.old.journal.disk) (D.faults self.new.journal.disk) }
        ensures arms { D.arms self.new.journal.disk ≡ D.arms self.old.journal.disk }
    {
        if self.down {
            return Err(Refused::Down);
        }
        let rec = self.client.next_operation(now, volume, ask)?;
        let done = Done {
            number: rec.number,
            fid: object_of(&rec.op),
        };
        self.keep_operation(volume, rec)?;
        Ok(done)
    }

    // Keeps the freeze of the next chunk. The payload is made, and its room tested, before the log is cut, since that can't be undone.
    fn keep_freeze(
        &mut self,
        volume: u32,
        home: u8,
        next: (u64, u64),
        now: u64,
        window: u64,
    ) -> Result<(), Refused>
        requires up { self.old.down ≡ false }
        requires volume { HasSpelling a_volume volume }
        requires home { HasSpelling a_server home }
        ensures keeps { (header : AskedHeader) (history : List Payload) → IsUp D.told header self.old history → next_chunk ((state_of header history).volumes volume).log now window ≡ Ok next
            → KeepingOne D.told header self.old history (FreezeEntry volume next.0 home next.1 ∷ []) self.new result }
        ensures never { result ≢ Err Refused.Down }
        ensures falls { Falls self.old.down self.new.down result }
        ensures later { D.faults self.old.journal.disk ≤ D.faults self.new.journal.disk }
        ensures cause { IsErrOf result Refused.DiskFault → Rose (D.faults self.old.journal.disk) (D.faults self.new.journal.disk) }
        ensures arms { D.arms self.new.journal.disk ≡ D.arms self.old.journal.disk }
    {
        let frame = freeze_frame(self.client.alloc, volume, next.0, home, next.1)?;
        if !has_room(&self.journal, &frame) {
            return Err(Refused::JournalFull);
        }
        self.client.freeze(volume, home, now, window)?;
        self.write(&frame)
    }

    /// Freezes what may go of a volume's log at a time by a window, both in seconds, as the next chunk, for a server, and answers its
    /// number. At most 64 records go, unless one segment alone has more. The freeze is on the disk before it is answered; then
    /// `chunk` lends the records.
    ///
    /// Whatever it answers, a crash at any moment since its start leaves the history that was there, or that history with this
    /// freeze.
    ///
    /// # Errors
    ///
    /// `Down` exactly where the client is down. Else the first of these that applies, which change nothing: the log's refusals
    /// `Frozen`, `Nothing`, `Young`; `JournalFull` where 2^32 - 1 chunks were frozen, or where the journal has no room for the
    /// freeze; and `Memory`. Or `DiskFault`, after which the client is down.
    pub fn freeze(&mut self, volume: u32, home: u8, now: u64, window: u64) -> Result<u64, Refused>
        requires volume { HasSpelling a_volume volume }
        requires home { HasSpelling a_server home }
        ensures keeps { (header : AskedHeader) (history : List Payload) → IsUp D.told header self.old history
            → DoesKeep D.told header self.old history (freeze_due (state_of header history) volume home now window) self.new result }
        ensures number { (c : ClientState) → IsClient c self.old.client → IfOk result (λ number. number ≡ (c.volumes volume).log.chunks + 1) }
        ensures down { self.old.down ≡ true → (result ≡ Err Refused.Down) × (self.new ≡ self.old) }
        ensures only_down { result ≡ Err Refused.Down → self.old.down ≡ true }
        ensures falls { Falls self.old.down self.new.down result }
        ensures later { D.faults self.old.journal.disk ≤ D.faults self.new.journal.disk }
        ensures cause { IsErrOf result Refused.DiskFault → Rose (D.faults self.old.journal.disk) (D.faults self.new.journal.disk) }
        ensures arms { D.arms self.new.journal.disk ≡ D.arms self.old.journal.disk }
    {
        if self.down {
            return Err(Refused::Down);
        }
        let next = self.client.next_chunk(volume, now, window)?;
        self.keep_freeze(volume, home, next, now, window)?;
        Ok(next.0)
    }

    // Keeps the verdict on the chunk that is frozen. The payload is made, and its room tested, before the log takes the verdict,
    // since that can't be undone.
    fn keep_settled(&mut self, volume: u32, number: u64, verdict: &Verdict) -> Result<(), Refused>
        requires up { self.old.down ≡ false }
        requires volume { HasSpelling a_volume volume }
        requires verdict { HasSpelling a_verdict verdict.now }
        ensures keeps { (header : AskedHeader) (history : List Payload) → IsUp D.told header self.old history → settle_refusal ((state_of header history).volumes volume).log.frozen number ≡ None
            → KeepingOne D.told header self.old history (SettledEntry volume number verdict.now ∷ []) self.new result }
        ensures never { result ≢ Err Refused.Down }
        ensures falls { Falls self.old.down self.new.down result }
        ensures later { D.faults self.old.journal.disk ≤ D.faults self.new.journal.disk }
        ensures cause { IsErrOf result Refused.DiskFault → Rose (D.faults self.old.journal.disk) (D.faults self.new.journal.disk) }
        ensures arms { D.arms self.new.journal.disk ≡ D.arms self.old.journal.disk }
    {
        let frame = settled_frame(self.client.alloc, volume, number, verdict)?;
        if !has_room(&self.journal, &frame) {
            return Err(Refused::JournalFull);
        }
        self.client.settle(volume, number, verdict)?;
        self.write(&frame)
    }

    /// Takes the verdict on the chunk of a number: applied, it is done with, and a conflict puts it back in front of the log. The
    /// settlement is on the disk before it is answered.
    ///
    /// Whatever it answers, a crash at any moment since its start leaves the history that was there, or that history with this
    /// settlement.
    ///
    /// # Errors
    ///
    /// `Down` exactly where the client is down. Else the first of these that applies, which change nothing: `NotFrozen` where no
    /// chunk is frozen, `WrongNumber` where another one is; `JournalFull` where the journal has no room for the settlement; and
    /// `Memory`. Or `DiskFault`, after which the client is down.
    pub fn settle(&mut self, volume: u32, number: u64, verdict: &Verdict) -> Result<(), Refused>
        requires volume { HasSpelling a_volume volume }
        requires verdict { HasSpelling a_verdict verdict.now }
        ensures keeps { (header : AskedHeader) (history : List Payload) → IsUp D.told header self.old history
            → DoesKeep D.told header self.old history (settle_due (state_of header history) volume number verdict.now) self.new result }
        ensures down { self.old.down ≡ true → (result ≡ Err Refused.Down) × (self.new ≡ self.old) }
        ensures only_down { result ≡ Err Refused.Down → self.old.down ≡ true }
        ensures falls { Falls self.old.down self.new.down result }
        ensures later { D.faults self.old.journal.disk ≤ D.faults self.new.journal.disk }
        ensures cause { IsErrOf result Refused.DiskFault → Rose (D.faults self.old.journal.disk) (D.faults self.new.journal.disk) }
        ensures arms { D.arms self.new.journal.disk ≡ D.arms self.old.journal.disk }
    {
        if self.down {
            return Err(Refused::Down);
        }
        if let Some(why) = self.client.unsettled(volume, number) {
            return Err(why);
        }
        self.keep_settled(volume, number, verdict)
    }

    /// The records of the chunk of a volume that is on its way, while the client isn't down; none where none is frozen.
    pub fn chunk(&self, volume: u32) -> &[Record]
        requires { self.now.down ≡ false }
        ensures records { (c : ClientState) → IsClient c self.now.client → result.now ≡ (c.volumes volume).log.chunk }
        ensures sendable { HasSpelling (some_records four) result.now }
    {
        match self.client.logs.get(&volume) {
            Some(log) => log.log.chunk(),
            None => &[],
        }
    }

    /// The chunk of a volume that is on its way, while the client isn't down: its number and its server; none where none is frozen.
    pub fn frozen(&self, volume: u32) -> Option<Frozen>
        requires { self.now.down ≡ false }
        ensures { (c : ClientState) → IsClient c self.now.client → result ≡ (c.volumes volume).log.frozen }
    {
        match self.client.logs.get(&volume) {
            Some(log) => log.log.frozen(),
            None => None,
        }
    }

    /// The log of a volume, while the client isn't down; none where it did nothing there.
    pub fn log(&self, volume: u32) -> Option<&Log>
        requires { self.now.down ≡ false }
        ensures { (c : ClientState) → IsClient c self.now.client → MatchOption result (c.volumes volume ≡ new_volume) (λ log. log.now ≡ (c.volumes volume).log) }
    {
        match self.client.logs.get(&volume) {
            Some(log) => Some(&log.log),
            None => None,
        }
    }
}
