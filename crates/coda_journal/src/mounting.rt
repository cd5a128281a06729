// The mounting of a journal.
ghost use Rattle.std.specs.Prelude.{◌≡◌, ◌≢◌, ◌⊎◌, ℕ, ◌+◌, ◌-◌, ◌*◌, ◌^◌, ◌<◌, ◌≤◌, min, List, [], ◌∷◌, ◌++◌, length, take, drop, Err, IfOk, IfErr, OnOk, IsErrOf};
ghost use Rattle.std.specs.Int.{w32};
ghost use Rattle.coda_io.specs.Faults.{Rose};
ghost use Rattle.coda_disk.specs.Told.{Kept, Only};
ghost use Rattle.coda_journal.specs.Header.{IsHeader, marks, area_bytes};
ghost use Rattle.coda_journal.specs.Entries.{blocks, Holds, IsBroken};
ghost use Rattle.coda_journal.specs.Heading.{IsHeading};
ghost use Rattle.coda_journal.specs.declared.header.Header.{Header as AskedHeader};
ghost use Rattle.coda_journal.specs.declared.heading.Heading.TheVariants.{Area as AreaAt};
ghost use Rattle.coda_journal.specs.Mount.{MountAnswers};
ghost use Rattle.coda_journal.specs.Quiet.{Quiet};
ghost use Rattle.coda_journal.specs.declared.mounting.MountFault.TheVariants.{DiskFault as FaultOfDisk, Memory as FaultOfMemory};

use crate::anew::make;
use crate::heading::{Heading, read_heading};
use crate::pieces::{Found, read_bytes, read_entries};
use crate::{Header, Journal};
use coda_disk::{Disk, DiskFault};
use coda_fid::Bytes;
use std::alloc::{AllocError, Global};
use thiserror::Error;

/// Why a disk isn't mounted.
#[derive(Clone, Copy, Debug, PartialEq, Eq, Error)]
pub enum MountFault {
    /// The disk holds something else: the first byte that shows it, as an offset.
    #[error("the disk holds something else: byte {0} shows it")]
    Foreign(u64),
    /// A call of the disk was refused.
    #[error("disk fault")]
    DiskFault,
    /// There was no memory. Nothing was written.
    #[error("out of memory")]
    Memory,
}

impl From<DiskFault> for MountFault {
    ghost from_gives = { λ _ e. e ≡ FaultOfDisk };

    fn from(_: DiskFault) -> MountFault {
        MountFault::DiskFault
    }
}

impl From<AllocError> for MountFault {
    ghost from_gives = { λ _ e. e ≡ FaultOfMemory };

    fn from(_: AllocError) -> MountFault {
        MountFault::Memory
    }
}

/// A disk that isn't mounted, and why.
#[derive(Drop)]
pub struct Unmounted<D> {
    pub disk: D,
    pub why: MountFault,
}

// Bytes 1 to 64 of a disk that is made: the selector, bytes 2 to 63, and a closed gate.
fn behind_gate(alloc: Global, asked: &[u8]) -> Result<Vec<u8>, AllocError>
    ensures { IfOk result (λ v. v.items ≡ 0 ∷ asked.now ++ 0 ∷ []) }
{
    let mut bytes = Vec::new(alloc);
    bytes.push(0)?;
    bytes.extend_from_slice(asked)?;
    bytes.push(0)?;
    Ok(bytes)
}

// What the first 64 bytes say.
fn look<D: Disk>(
    alloc: Global,
    disk: &mut D,
    asked: &[u8],
    area: u64,
) -> Result<Heading, MountFault>
    requires size { length asked.now ≡ 62 }
    requires area { area ≤ 2 ^ 26 }
    ensures quiet { (D.told disk.old).honest → Quiet (D.told disk.old) (D.told disk.new) }
    ensures synced { (D.told disk.old).honest → OnOk result (Only (D.told disk.new).seen (D.told disk.new).may_leave) }
    ensures says { (header : AskedHeader) → asked.now ≡ marks header → area ≡ area_bytes header → (D.told disk.old).honest
        → IfOk result (IsHeading header (D.told disk.old).seen) }
    ensures start { IfOk result (λ h. (start : ℕ) → h ≡ AreaAt start → start ≤ 64 + area) }
    ensures not_foreign { (place : ℕ) → result ≢ Err (MountFault.Foreign place) }
    ensures later { D.faults disk.old ≤ D.faults disk.new }
    ensures cause { IsErrOf result MountFault.DiskFault → Rose (D.faults disk.old) (D.faults disk.new) }
    ensures arms { D.arms disk.new ≡ D.arms disk.old }
{
    disk.sync()?;
    let first = read_bytes(alloc, disk, 0, 64)?;
    Ok(read_heading(&first, asked, area))
}

// The mounting of a disk that the caller holds.
fn mount_disk<D: Disk>(alloc: Global, disk: &mut D, header: &Header) -> Result<Found, MountFault>
    requires { IsHeader header.now }
    ensures answers { (D.told disk.old).honest → MountAnswers header.now (D.told disk.old) (D.told disk.new) result }
    ensures inside { IfOk result (λ f. (f.start ≤ 64 + area_bytes header.now) × (f.used < area_bytes header.now)) }
    ensures later { D.faults disk.old ≤ D.faults disk.new }
    ensures cause { IsErrOf result MountFault.DiskFault → Rose (D.faults disk.old) (D.faults disk.new) }
    ensures arms { D.arms disk.new ≡ D.arms disk.old }
{
    let asked = header.marks(alloc)?;
    let behind = behind_gate(alloc, &asked)?;
    let area = header.area_bytes();
    let heading = look(alloc, disk, &asked, area)?;
    match heading {
        Heading::Unmade => {
            make(disk, &behind)?;
            Ok(Found {
                start: 64,
                used: 0,
                payloads: Vec::new(alloc),
            })
        }
        Heading::Other(at) => Err(MountFault::Foreign(at)),
        Heading::Area(start) => read_entries(alloc, disk, start, area),
    }
}

impl<D: Disk> Journal<D> {
    ghost use Rattle.coda_journal.specs.Mount.{Mounted, NotMounted};
    ghost use Rattle.coda_journal.specs.Open.{IsOurs};

    /// Reads the list on a disk. A disk that has fewer than 64 bytes, or whose first byte isn't 1, is made anew with this header,
    /// and holds the empty list. It syncs first. Of a disk that is made it reads the header and its area up to the closed gate,
    /// once and in pieces, and writes nothing.
    ///
    /// Whatever it answers, a crash at any moment since its start leaves what one might have left before, or, of a disk that isn't
    /// made, one that reads as the empty list.
    ///
    /// # Errors
    ///
    /// The disk is given back. `Foreign` exactly where it reads as no list under this header; `DiskFault` where a call of it was
    /// refused; `Memory` where there was none.
    pub fn mount(
        alloc: Global,
        disk: D,
        header: &Header,
    ) -> Result<(Journal<D>, Vec<Bytes>), Unmounted<D>>
        requires { IsHeader header.now }
        ensures ok { (D.told disk).honest → IfOk result (λ r. Mounted header.now (D.told disk) (D.told r.0.disk) r.0.start r.0.used r.1.items) }
        ensures err { (D.told disk).honest → IfErr result (λ u. NotMounted header.now (D.told disk) (D.told u.disk) u.why) }
        // What the disk's law says of it, for a caller that has the disk's type from a bay.
        ensures seen { (D.told disk).honest → (D.told disk).may_leave (D.told disk).seen }
        ensures never_foreign { (D.told disk).honest → IsOurs header.now (D.told disk) → IfErr result (λ u. (at : ℕ) → u.why ≢ MountFault.Foreign at) }
        ensures ours { (D.told disk).honest → IsOurs header.now (D.told disk) → IfErr result (λ u. IsOurs header.now (D.told u.disk)) }
        ensures area { IfOk result (λ r. r.0.area ≡ area_bytes header.now) }
        ensures later { IfOk result (λ r. D.faults disk ≤ D.faults r.0.disk) }
        ensures later_err { IfErr result (λ u. D.faults disk ≤ D.faults u.disk) }
        ensures cause { IfErr result (λ u. u.why ≡ MountFault.DiskFault → Rose (D.faults disk) (D.faults u.disk)) }
        ensures arms { IfOk result (λ r. D.arms r.0.disk ≡ D.arms disk) }
        ensures arms_err { IfErr result (λ u. D.arms u.disk ≡ D.arms disk) }
    {
        let mut disk = disk;
        let area = header.area_bytes();
        match mount_disk(alloc, &mut disk, header) {
            Ok(found) => Ok((
                Journal {
                    disk,
                    start: found.start,
                    used: found.used,
                    area,
                },
                found.payloads,
            )),
            Err(why) => Err(Unmounted { disk, why }),
        }
    }
}
