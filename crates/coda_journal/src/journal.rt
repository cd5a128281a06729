// The journal on a disk.
ghost use Rattle.std.specs.Prelude.{◌≡◌, ◌≢◌, ℕ, ◌+◌, ◌-◌, ◌^◌, ◌<◌, ◌≤◌, ◌↔◌, List, [], ◌∷◌, ◌++◌, length, vec_len, Err, IsErrOf, Result, Some};
ghost use Rattle.std.specs.Int.{w32};
ghost use Rattle.coda_io.specs.Faults.{counted, Rose};
ghost use Rattle.coda_journal.specs.Entries.{framed};
ghost use Rattle.coda_journal.specs.declared.header.Header.{Header as AskedHeader};
ghost use Rattle.coda_journal.specs.declared.journal.JournalFault.TheVariants.{DiskFault as FaultOfDisk};

use crate::Frame;
use crate::synced::write_synced;
use coda_disk::{Disk, DiskFault};
use thiserror::Error;

/// Why an entry isn't added. Sizes are in bytes.
#[derive(Clone, Copy, Debug, PartialEq, Eq, Error)]
pub enum JournalFault {
    /// The area has no room for an entry of `need` bytes and a closed gate behind it: `used` of its bytes are in use.
    #[error("the journal is full: {used} of {area} bytes used, {need} needed")]
    JournalFull { used: u64, need: u64, area: u64 },
    /// A call of the disk was refused.
    #[error("disk fault")]
    DiskFault,
}

impl From<DiskFault> for JournalFault {
    ghost from_gives = { λ _ e. e ≡ FaultOfDisk };

    fn from(_: DiskFault) -> JournalFault {
        JournalFault::DiskFault
    }
}

/// A list of entries on a disk. `start` is where its area begins, `used` is how many bytes of the area the entries take up, which
/// is the place of the closed gate, and `area` is how many bytes it has.
#[derive(Drop)]
pub struct Journal<D> {
    pub disk: D,
    pub start: u64,
    pub used: u64,
    pub area: u64,

    ghost begins: { start ≤ 64 + area },
    ghost fits: { area ≤ 2 ^ 26 },
    ghost room: { used < area },
}

impl<D: Disk> Journal<D> {
    ghost use Rattle.coda_journal.specs.Journal.{Appends, IsJournal};
    ghost use Rattle.coda_disk.specs.Told.{Kept};

    /// Adds an entry. It writes all of it but its gate behind the closed gate, syncs, writes the gate, and syncs. It takes no
    /// memory.
    ///
    /// Whatever it answers, a crash at any moment since its start leaves the list that was there, or that list with this entry.
    ///
    /// # Errors
    ///
    /// `JournalFull` exactly where the area has no room for it: nothing changed. `DiskFault` where a call of the disk was
    /// refused: the journal is to be mounted again.
    pub fn append(&mut self, frame: &Frame) -> Result<(), JournalFault>
        ensures full { (self.old.area < self.old.used + vec_len frame.now.bytes)
            ↔ (result ≡ Err (JournalFault.JournalFull self.old.used (vec_len frame.now.bytes - 1) self.old.area)) }
        ensures only_full { (u n a : ℕ) → result ≡ Err (JournalFault.JournalFull u n a) → self.new ≡ self.old }
        ensures no_room { (u n a : ℕ) → result ≡ Err (JournalFault.JournalFull u n a) → self.old.area < self.old.used + vec_len frame.now.bytes }
        ensures appends { (header : AskedHeader) (payloads : List (List ℕ)) (payload : List ℕ) → frame.now.bytes.items ≡ framed w32 payload
            → Appends D.told header self.old payloads payload self.new result }
        ensures later { D.faults self.old.disk ≤ D.faults self.new.disk }
        ensures cause { IsErrOf result JournalFault.DiskFault → Rose (D.faults self.old.disk) (D.faults self.new.disk) }
        ensures arms { D.arms self.new.disk ≡ D.arms self.old.disk }
    {
        let behind = frame.behind();
        let need = behind.len() as u64;
        if need >= self.area - self.used {
            return Err(JournalFault::JournalFull {
                used: self.used,
                need,
                area: self.area,
            });
        }
        let gate = self.start + self.used;
        write_synced(&mut self.disk, gate + 1, behind)?;
        write_synced(&mut self.disk, gate, &[1])?;
        self.used += need;
        Ok(())
    }

    /// How many bytes of the area are used: the place of the closed gate.
    pub fn used(&self) -> u64
        ensures { result ≡ self.now.used }
    {
        self.used
    }

    /// Gives the disk.
    pub fn into_disk(self) -> D
        ensures { result ≡ self.disk }
    {
        self.disk
    }

    /// Lets so many further calls of the disk through. The list stays as it is.
    pub fn arm(&mut self, count: u64)
        ensures list { (header : AskedHeader) (payloads : List (List ℕ)) → IsJournal D.told header self.old payloads → IsJournal D.told header self.new payloads }
        ensures kept { (D.told self.old.disk).honest → Kept (D.told self.old.disk) (D.told self.new.disk) }
        ensures same { (self.new.start ≡ self.old.start) × (self.new.used ≡ self.old.used) × (self.new.area ≡ self.old.area) }
        ensures faults { D.faults self.new.disk ≡ D.faults self.old.disk }
        ensures arms { D.arms self.new.disk ≡ counted (D.arms self.old.disk) }
        ensures passes { D.passes self.new.disk ≡ Some count }
    {
        self.disk.arm(count);
    }
}
