ghost use Rattle.std.specs.Prelude.{ℕ, List, Some};
ghost use Rattle.coda_disk.specs.Bays.{Crashed};
ghost use Rattle.coda_journal.specs.declared.header.Header.{Header as AskedHeader};
ghost use Rattle.coda_record.specs.declared.entry.ReplicaEntry.{ReplicaEntry as AnEntry};
ghost use Rattle.coda_replica.specs.Laws.{AnswersTellTheLast, ChunksAreDecidedOnce, RepeatsAreAnsweredAlike};
ghost use Rattle.coda_replica.specs.Standing.{IsUp, StandsFor, IsReplicaDisk};

use crate::replica::Replica;
use coda_disk::Disk;

/// A law of replicas: whatever chunks come, in whatever order and however often, each is decided at most once, and a
/// client's chunks in order.
pub fn chunks_are_decided_once()
    ensures { ChunksAreDecidedOnce }
{}

/// A law of replicas: a chunk that was decided and comes again is answered as it was, and changes nothing, until the next
/// chunk of its client is decided.
pub fn repeats_are_answered_alike()
    ensures { RepeatsAreAnsweredAlike }
{}

/// A law of answers: a client is told the verdict on its next chunk or on the last one, and of all others the last one's
/// number, and whether they come too early or too late.
pub fn answers_tell_the_last()
    ensures { AnswersTellTheLast }
{}

/// A law of disks: each image that a crash may leave of the disk of a replica that is up reads as a history under its header, and
/// so does each that one may leave after a call of the disk failed, and after a crash of a disk of which that was so. So
/// `recover` with this header is never `Foreign`.
pub fn replicas_stay_ours<D: Disk>(replica: &Replica<D>, crashed: &D)
    ensures up { (header : AskedHeader) (history : List AnEntry) → IsUp D.told header replica.now history → IsReplicaDisk header (D.told replica.now.journal.disk) }
    ensures failed { (header : AskedHeader) (history : List AnEntry) (entry : AnEntry) → StandsFor (D.told replica.now.journal.disk) header history (Some entry)
        → IsReplicaDisk header (D.told replica.now.journal.disk) }
    ensures crash { (header : AskedHeader) (image : List ℕ) → IsReplicaDisk header (D.told replica.now.journal.disk)
        → Crashed image (D.told replica.now.journal.disk) (D.told crashed.now) → IsReplicaDisk header (D.told crashed.now) }
{}
