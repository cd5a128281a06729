// Laws of images, and of disks that stores alone wrote to. They are proved, and do nothing.
ghost use Rattle.std.specs.Prelude.{ℕ, List};
ghost use Rattle.coda_journal.specs.Open.{IsOurs};
ghost use Rattle.coda_journal.specs.declared.header.Header.{Header as AskedHeader};
ghost use Rattle.coda_checkpoint.specs.Laws.{TruncationsAreWhole};
ghost use Rattle.coda_checkpoint.specs.Truncating.{IsStore, IsInDoubt};

use crate::Store;
use coda_disk::Disk;

/// A law of images: what is found on a disk whose truncation was cut short is the list that was there, or the snapshot
/// alone. It isn't foreign.
pub fn truncations_are_whole()
    ensures { TruncationsAreWhole }
{}

/// A law of disks: each image that a crash may leave of a store at rest stands for a list under its header, and so does
/// each that one may leave after a truncation that failed. So `mount` with this header is never `Foreign`.
pub fn stores_stay_ours<D: Disk>(store: &Store<D>)
    ensures at_rest { (header : AskedHeader) (payloads : List (List ℕ)) → IsStore D.told header store.now payloads
        → IsOurs header (D.told store.now.journal.disk) }
    ensures failed { (header : AskedHeader) (payloads : List (List ℕ)) (snapshot : List ℕ)
        → IsInDoubt (D.told store.now.journal.disk) header payloads snapshot
        → IsOurs header (D.told store.now.journal.disk) }
{}
