// The making of a disk anew.
ghost use Rattle.std.specs.Prelude.{◌≡◌, ℕ, ◌≤◌, List, [], ◌∷◌, ◌++◌, length};
ghost use Rattle.coda_io.specs.Faults.{HasCause};
ghost use Rattle.coda_disk.specs.Told.{Only};
ghost use Rattle.coda_journal.specs.Header.{IsHeader, marks};
ghost use Rattle.coda_journal.specs.Image.{IsUnmade};
ghost use Rattle.coda_journal.specs.declared.header.Header.{Header as AskedHeader};
ghost use Rattle.coda_journal.specs.Made.{Makes};

use crate::synced::{cut_synced, write_synced};
use coda_disk::{Disk, DiskFault};

// Makes a disk anew: cuts it, closes its gate, writes bytes 1 to 64, which are the rest of the header and a closed gate, and opens
// its gate. Each call is synced before the next one.
pub(crate) fn make<D: Disk>(disk: &mut D, behind: &[u8]) -> Result<(), DiskFault>
    ensures made { (header : AskedHeader) → behind.now ≡ 0 ∷ marks header ++ 0 ∷ [] → IsHeader header
        → (D.told disk.old).honest → Only (D.told disk.old).seen (D.told disk.old).may_leave → IsUnmade (D.told disk.old).seen
        → Makes header (D.told disk.old) (D.told disk.new) result }
    ensures cause { HasCause (D.faults disk.old) (D.faults disk.new) result }
    ensures arms { D.arms disk.new ≡ D.arms disk.old }
{
    cut_synced(disk, 0)?;
    write_synced(disk, 0, &[0])?;
    write_synced(disk, 1, behind)?;
    write_synced(disk, 0, &[1])?;
    Ok(())
}
