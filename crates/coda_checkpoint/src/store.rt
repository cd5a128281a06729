// The journal of which a snapshot may take the place.
ghost use Rattle.std.specs.Prelude.{◌≡◌, ◌≢◌, ℕ, ◌+◌, ◌-◌, ◌<◌, ◌≤◌, ◌↔◌, List, vec_len, Err, IfOk, IfErr, IsErrOf, Some};
ghost use Rattle.std.specs.Int.{w32};
ghost use Rattle.coda_io.specs.Faults.{counted, Rose};
ghost use Rattle.coda_disk.specs.Told.{Kept};
ghost use Rattle.coda_journal.specs.Entries.{framed};
ghost use Rattle.coda_journal.specs.Header.{IsHeader, area_bytes};
ghost use Rattle.coda_journal.specs.Journal.{Appends};
ghost use Rattle.coda_journal.specs.Mount.{Mounted, NotMounted};
ghost use Rattle.coda_journal.specs.Open.{IsOurs};
ghost use Rattle.coda_journal.specs.declared.header.Header.{Header as AskedHeader};
ghost use Rattle.coda_checkpoint.specs.Truncating.{IsStore, Truncates};

use crate::area::other_area;
use coda_disk::Disk;
use coda_fid::Bytes;
use coda_journal::{Frame, Header, Journal, JournalFault, MountFault, Unmounted, write_synced};
use std::alloc::Global;

/// A list of entries on a disk that has two areas. The selector in the header names one of them: there the list stands.
#[derive(Drop)]
pub struct Store<D> {
    /// The list, in the area that the selector names.
    pub journal: Journal<D>,
}

impl<D: Disk> Store<D> {
    /// Reads the list on a disk, as `Journal::mount` does: a disk that isn't made is made anew with this header, and
    /// holds the empty list.
    ///
    /// Whatever it answers, a crash at any moment since its start leaves what one might have left before, or, of a disk
    /// that isn't made, one that reads as the empty list.
    ///
    /// # Errors
    ///
    /// The disk is given back. `Foreign` exactly where it reads as no list under this header; `DiskFault` where a call
    /// of it was refused; `Memory` where there was none.
    pub fn mount(
        alloc: Global,
        disk: D,
        header: &Header,
    ) -> Result<(Store<D>, Vec<Bytes>), Unmounted<D>>
        requires { IsHeader header.now }
        ensures ok { (D.told disk).honest
            → IfOk result (λ r. Mounted header.now (D.told disk) (D.told r.0.journal.disk)
            r.0.journal.start r.0.journal.used r.1.items) }
        ensures err { (D.told disk).honest
            → IfErr result (λ u. NotMounted header.now (D.told disk) (D.told u.disk) u.why) }
        // What the disk's law says of it, for a caller that has the disk's type from a bay.
        ensures seen { (D.told disk).honest → (D.told disk).may_leave (D.told disk).seen }
        ensures never_foreign { (D.told disk).honest → IsOurs header.now (D.told disk)
            → IfErr result (λ u. (at : ℕ) → u.why ≢ MountFault.Foreign at) }
        ensures ours { (D.told disk).honest → IsOurs header.now (D.told disk)
            → IfErr result (λ u. IsOurs header.now (D.told u.disk)) }
        ensures area { IfOk result (λ r. r.0.journal.area ≡ area_bytes header.now) }
        ensures later { IfOk result (λ r. D.faults disk ≤ D.faults r.0.journal.disk) }
        ensures later_err { IfErr result (λ u. D.faults disk ≤ D.faults u.disk) }
        ensures cause { IfErr result
            (λ u. u.why ≡ MountFault.DiskFault → Rose (D.faults disk) (D.faults u.disk)) }
        ensures arms { IfOk result (λ r. D.arms r.0.journal.disk ≡ D.arms disk) }
        ensures arms_err { IfErr result (λ u. D.arms u.disk ≡ D.arms disk) }
    {
        match Journal::mount(alloc, disk, header) {
            Ok((journal, payloads)) => Ok((Store { journal }, payloads)),
            Err(unmounted) => Err(unmounted),
        }
    }

    /// Adds an entry, as `Journal::append` does.
    ///
    /// Whatever it answers, a crash at any moment since its start leaves the list that was there, or that list with
    /// this entry.
    ///
    /// # Errors
    ///
    /// `JournalFull` exactly where the area has no room for it: nothing changed. `DiskFault` where a call of the disk
    /// was refused: the store is to be mounted again.
    pub fn append(&mut self, frame: &Frame) -> Result<(), JournalFault>
        ensures full { (self.old.journal.area < self.old.journal.used + vec_len frame.now.bytes)
            ↔ (result ≡ Err (JournalFault.JournalFull
            self.old.journal.used (vec_len frame.now.bytes - 1) self.old.journal.area)) }
        ensures only_full { (u n a : ℕ) → result ≡ Err (JournalFault.JournalFull u n a) → self.new ≡ self.old }
        ensures no_room { (u n a : ℕ) → result ≡ Err (JournalFault.JournalFull u n a)
            → self.old.journal.area < self.old.journal.used + vec_len frame.now.bytes }
        ensures appends { (header : AskedHeader) (payloads : List (List ℕ)) (payload : List ℕ)
            → frame.now.bytes.items ≡ framed w32 payload
            → Appends D.told header self.old.journal payloads payload self.new.journal result }
        ensures later { D.faults self.old.journal.disk ≤ D.faults self.new.journal.disk }
        ensures cause { IsErrOf result JournalFault.DiskFault
            → Rose (D.faults self.old.journal.disk) (D.faults self.new.journal.disk) }
        ensures arms { D.arms self.new.journal.disk ≡ D.arms self.old.journal.disk }
    {
        self.journal.append(frame)
    }

    /// Makes a snapshot the only entry. It writes the whole entry and a closed gate to the area that the selector
    /// doesn't name, syncs, writes the selector, and syncs. It takes no memory.
    ///
    /// Whatever it answers, a crash at any moment since its start leaves the list that was there, or the snapshot
    /// alone; after a success the snapshot alone.
    ///
    /// # Errors
    ///
    /// `JournalFull` exactly where an area has no room for the snapshot and a closed gate: nothing changed, and no call
    /// of the disk was made; `used` is that of the list that stays. `DiskFault` where a call of the disk was refused:
    /// the store is to be mounted again.
    pub fn truncate(&mut self, snapshot: &Frame) -> Result<(), JournalFault>
        ensures full { (self.old.journal.area < vec_len snapshot.now.bytes)
            ↔ (result ≡ Err (JournalFault.JournalFull
            self.old.journal.used (vec_len snapshot.now.bytes - 1) self.old.journal.area)) }
        ensures only_full { (u n a : ℕ) → result ≡ Err (JournalFault.JournalFull u n a) → self.new ≡ self.old }
        ensures no_room { (u n a : ℕ) → result ≡ Err (JournalFault.JournalFull u n a)
            → self.old.journal.area < vec_len snapshot.now.bytes }
        ensures truncates { (header : AskedHeader) (payloads : List (List ℕ)) (payload : List ℕ)
            → snapshot.now.bytes.items ≡ framed w32 payload
            → Truncates D.told header self.old payloads payload self.new result }
        ensures later { D.faults self.old.journal.disk ≤ D.faults self.new.journal.disk }
        ensures cause { IsErrOf result JournalFault.DiskFault
            → Rose (D.faults self.old.journal.disk) (D.faults self.new.journal.disk) }
        ensures arms { D.arms self.new.journal.disk ≡ D.arms self.old.journal.disk }
    {
        let journal = &mut self.journal;
        let entry = snapshot.bytes.as_slice();
        let size = entry.len() as u64;
        if size > journal.area {
            return Err(JournalFault::JournalFull {
                used: journal.used,
                need: size - 1,
                area: journal.area,
            });
        }
        let other = other_area(journal.start, journal.area);
        write_synced(&mut journal.disk, other.start, entry)?;
        write_synced(&mut journal.disk, 1, &[other.selector])?;
        journal.start = other.start;
        journal.used = size - 1;
        Ok(())
    }

    /// How many bytes of the area are used: the place of the closed gate.
    pub fn used(&self) -> u64
        ensures { result ≡ self.now.journal.used }
    {
        self.journal.used()
    }

    /// Gives the disk.
    pub fn into_disk(self) -> D
        ensures { result ≡ self.journal.disk }
    {
        self.journal.into_disk()
    }

    /// Lets so many further calls of the disk through. The list stays as it is.
    pub fn arm(&mut self, count: u64)
        ensures list { (header : AskedHeader) (payloads : List (List ℕ)) → IsStore D.told header self.old payloads
            → IsStore D.told header self.new payloads }
        ensures kept { (D.told self.old.journal.disk).honest
            → Kept (D.told self.old.journal.disk) (D.told self.new.journal.disk) }
        ensures same { (self.new.journal.start ≡ self.old.journal.start)
            × (self.new.journal.used ≡ self.old.journal.used) × (self.new.journal.area ≡ self.old.journal.area) }
        ensures faults { D.faults self.new.journal.disk ≡ D.faults self.old.journal.disk }
        ensures arms { D.arms self.new.journal.disk ≡ counted (D.arms self.old.journal.disk) }
        ensures passes { D.passes self.new.journal.disk ≡ Some count }
    {
        self.journal.arm(count);
    }
}
