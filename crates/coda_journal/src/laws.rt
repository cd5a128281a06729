// Laws of images, and of disks that journals alone wrote to. They are proved, and do nothing.
ghost use Rattle.std.specs.Prelude.{ℕ, List, Some};
ghost use Rattle.coda_disk.specs.Bays.{Crashed};
ghost use Rattle.coda_journal.specs.Journal.{IsJournal};
ghost use Rattle.coda_journal.specs.Laws.{EachImageIsFoundOnce, ReadingsAreNotForeign, NewDisksAreEmpty, HeadersSayTheirFields, HeadersAreToldApart};
ghost use Rattle.coda_journal.specs.Open.{Stands, IsOurs};
ghost use Rattle.coda_journal.specs.declared.header.Header.{Header as AskedHeader};

use crate::Journal;
use coda_disk::Disk;

/// A law of images: each one is not made, foreign at one place, or a disk of the asked header with one list; and no two of them.
pub fn each_image_is_found_once()
    ensures { EachImageIsFoundOnce }
{}

/// A law of images: what stands for a list is not foreign, and stands for no other list.
pub fn readings_are_not_foreign()
    ensures { ReadingsAreNotForeign }
{}

/// A law of images: a header with an open gate, and a closed gate behind it, read as no entries.
pub fn new_disks_are_empty()
    ensures { NewDisksAreEmpty }
{}

/// A law of disks: each image that a crash may leave of a journal at rest stands for a list under its header, and so does each
/// that one may leave after an append that failed, and after a crash of a disk of which that was so. So `mount` with this header
/// is never `Foreign`.
pub fn journals_stay_ours<D: Disk>(journal: &Journal<D>, crashed: &D)
    ensures at_rest { (header : AskedHeader) (payloads : List (List ℕ)) → IsJournal D.told header journal.now payloads
        → IsOurs header (D.told journal.now.disk) }
    ensures failed { (header : AskedHeader) (payloads : List (List ℕ)) (entry : List ℕ) → Stands (D.told journal.now.disk) header payloads (Some entry)
        → IsOurs header (D.told journal.now.disk) }
    ensures crash { (header : AskedHeader) (image : List ℕ) → IsOurs header (D.told journal.now.disk)
        → Crashed image (D.told journal.now.disk) (D.told crashed.now) → IsOurs header (D.told crashed.now) }
{}

/// A law of headers: each field of a header stands at its place in the first 64 bytes of a disk, whatever the gate and the selector
/// are, and what is no field is zero.
pub fn headers_say_their_fields()
    ensures { HeadersSayTheirFields }
{}

/// A law of headers: no two have the same bytes.
pub fn headers_are_told_apart()
    ensures { HeadersAreToldApart }
{}
