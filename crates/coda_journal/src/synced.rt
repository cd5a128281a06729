// A write or a cut, and the sync behind it.
ghost use Rattle.std.specs.Prelude.{◌≡◌, ℕ, ◌≤◌};
ghost use Rattle.coda_io.specs.Faults.{HasCause};
ghost use Rattle.coda_journal.specs.Synced.{WroteSynced, CutSynced};

use coda_disk::{Disk, DiskFault};

/// Writes bytes at an offset, and syncs.
///
/// # Errors
///
/// `DiskFault` where a call of the disk was refused.
pub fn write_synced<D: Disk>(disk: &mut D, at: u64, bytes: &[u8]) -> Result<(), DiskFault>
    ensures wrote { (D.told disk.old).honest → WroteSynced at bytes.now (D.told disk.old) (D.told disk.new) result }
    ensures cause { HasCause (D.faults disk.old) (D.faults disk.new) result }
    ensures arms { D.arms disk.new ≡ D.arms disk.old }
{
    disk.write_at(at, bytes)?;
    disk.sync()?;
    Ok(())
}

// Cuts the disk to a size, and syncs.
pub(crate) fn cut_synced<D: Disk>(disk: &mut D, size: u64) -> Result<(), DiskFault>
    ensures wrote { (D.told disk.old).honest → CutSynced size (D.told disk.old) (D.told disk.new) result }
    ensures cause { HasCause (D.faults disk.old) (D.faults disk.new) result }
    ensures arms { D.arms disk.new ≡ D.arms disk.old }
{
    disk.cut(size)?;
    disk.sync()?;
    Ok(())
}
