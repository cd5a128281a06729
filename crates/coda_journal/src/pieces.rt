// The reading of an area, piece by piece.
ghost use Rattle.std.specs.Prelude.{◌≡◌, ◌≢◌, ℕ, ◌+◌, ◌-◌, ◌^◌, ◌<◌, ◌≤◌, List, length, vec_len, take, drop, Err, true, IfOk, OnOk, IsErrOf, IsTrue};
ghost use Rattle.std.specs.Int.{w32};
ghost use Rattle.coda_io.specs.Faults.{Rose};
ghost use Rattle.coda_journal.specs.Entries.{blocks, Holds, IsBroken};
ghost use Rattle.coda_journal.specs.Quiet.{Quiet};
ghost use Rattle.coda_journal.specs.Reading.{IsFirst};

use crate::MountFault;
use crate::entries::{Entries, read_on};
use coda_disk::Disk;
use coda_fid::Bytes;
use std::alloc::{AllocError, Global};

/// What was found on a disk: where the area begins, how many bytes of it are used, and the payloads.
#[derive(Drop)]
pub struct Found {
    pub start: u64,
    pub used: u64,
    pub payloads: Vec<Bytes>,
}

// How many bytes of an area are read at a time.
const PIECE: u64 = 0x1_0000;

// Bytes that a read fills.
fn zeros(alloc: Global, count: usize) -> Result<Vec<u8>, AllocError>
    ensures { IfOk result (λ v. length v.items ≡ count) }
{
    vec![in alloc; 0; count]
}

// Reads so many bytes, or as many as there are.
pub(crate) fn read_bytes<D: Disk>(
    alloc: Global,
    disk: &mut D,
    at: u64,
    count: u64,
) -> Result<Vec<u8>, MountFault>
    ensures quiet { (D.told disk.old).honest → Quiet (D.told disk.old) (D.told disk.new) }
    ensures bytes { (D.told disk.old).honest → IfOk result (λ v. v.items ≡ take count (drop at (D.told disk.old).seen)) }
    ensures bound { IfOk result (λ v. length v.items ≤ count) }
    ensures not_foreign { (place : ℕ) → result ≢ Err (MountFault.Foreign place) }
    ensures later { D.faults disk.old ≤ D.faults disk.new }
    ensures cause { IsErrOf result MountFault.DiskFault → Rose (D.faults disk.old) (D.faults disk.new) }
    ensures arms { D.arms disk.new ≡ D.arms disk.old }
{
    let mut bytes = zeros(alloc, count as usize)?;
    let found = disk.read(at, &mut bytes)?;
    bytes.truncate(found);
    Ok(bytes)
}

// Reads the next piece of an area, behind the bytes of it that were read so far. Is there more?
fn read_piece<D: Disk>(
    alloc: Global,
    disk: &mut D,
    start: u64,
    area: u64,
    bytes: &mut Vec<u8>,
) -> Result<bool, MountFault>
    requires area { area ≤ 2 ^ 26 }
    requires start { start ≤ 64 + area }
    requires inside { vec_len bytes.old ≤ area }
    ensures behind { OnOk result (take (vec_len bytes.old) bytes.new.items ≡ bytes.old.items) }
    ensures inside { OnOk result (vec_len bytes.new ≤ area) }
    ensures more { IfOk result (λ more. IsTrue more → vec_len bytes.old < vec_len bytes.new) }
    ensures first { (D.told disk.old).honest → bytes.old.items ≡ take (vec_len bytes.old) (take area (drop start (D.told disk.old).seen))
        → IfOk result (IsFirst (take area (drop start (D.told disk.old).seen)) bytes.new.items) }
    ensures quiet { (D.told disk.old).honest → Quiet (D.told disk.old) (D.told disk.new) }
    ensures not_foreign { (place : ℕ) → result ≢ Err (MountFault.Foreign place) }
    ensures later { D.faults disk.old ≤ D.faults disk.new }
    ensures cause { IsErrOf result MountFault.DiskFault → Rose (D.faults disk.old) (D.faults disk.new) }
    ensures arms { D.arms disk.new ≡ D.arms disk.old }
{
    let done = bytes.len() as u64;
    let count = PIECE.min(area - done);
    let piece = read_bytes(alloc, disk, start + done, count)?;
    bytes.extend_from_slice(&piece)?;
    Ok(piece.len() as u64 == count && done + count < area)
}

// Reads the entries of an area up to its closed gate, and not much further.
pub(crate) fn read_entries<D: Disk>(
    alloc: Global,
    disk: &mut D,
    start: u64,
    area: u64,
) -> Result<Found, MountFault>
    requires area { area ≤ 2 ^ 26 }
    requires start { start ≤ 64 + area }
    ensures quiet { (D.told disk.old).honest → Quiet (D.told disk.old) (D.told disk.new) }
    ensures entries { (D.told disk.old).honest → IfOk result (λ f. Holds w32 (take area (drop start (D.told disk.old).seen)) f.payloads.items) }
    ensures used { IfOk result (λ f. f.used ≡ length (blocks w32 f.payloads.items)) }
    ensures inside { IfOk result (λ f. (f.start ≡ start) × (f.used < area)) }
    ensures foreign { (at : ℕ) → (D.told disk.old).honest → result ≡ Err (MountFault.Foreign at)
        → (place : ℕ) × (at ≡ start + place) × IsBroken w32 (take area (drop start (D.told disk.old).seen)) place }
    ensures later { D.faults disk.old ≤ D.faults disk.new }
    ensures cause { IsErrOf result MountFault.DiskFault → Rose (D.faults disk.old) (D.faults disk.new) }
    ensures arms { D.arms disk.new ≡ D.arms disk.old }
{
    let mut bytes = Vec::new(alloc);
    let mut entries = Entries {
        payloads: Vec::new(alloc),
        used: 0,
    };
    let mut more = true;
    while more {
        more = read_piece(alloc, disk, start, area, &mut bytes)?;
        if read_on(alloc, &bytes, &mut entries)? {
            return Ok(Found {
                start,
                used: entries.used as u64,
                payloads: entries.payloads,
            });
        }
    }
    Err(MountFault::Foreign(start + entries.used as u64))
}
