// A replica rules on a client's chunk.
ghost use Rattle.std.specs.Prelude.{◌≡◌, ◌≤◌, ℕ, List, true, IsErrOf, Err};
ghost use Rattle.coda_io.specs.Faults.{Rose};
ghost use Rattle.coda_fid.specs.declared.op.Record.{Record as ARecord};
ghost use Rattle.coda_journal.specs.declared.header.Header.{Header as AskedHeader};
ghost use Rattle.coda_record.specs.Form.{four};
ghost use Rattle.coda_record.specs.Spelling.{HasSpelling};
ghost use Rattle.coda_record.specs.Table.{client as a_client, records as some_records};
ghost use Rattle.coda_plain.specs.Decisions.{ReplicaEntry, sent_of};
ghost use Rattle.coda_replica.specs.Deciding.{Falls};
ghost use Rattle.coda_replica.specs.Standing.{IsUp};
ghost use Rattle.coda_cell.specs.Sending.{ruling};
ghost use Rattle.coda_cell.specs.State.{new_replica, replica_after_all};
ghost use Rattle.coda_matching.specs.Replicas.{journal_at, IsReplicaHistory, RulingEnds};

use coda_disk::Disk;
use coda_fid::Record;
use coda_record::Answer;
use coda_replica::{Replica, ReplicaFault};

/// What a replica answers to a client's chunk, by the records that were sent: the next one is decided as its
/// operations are, and of any other the replica tells what it keeps.
///
/// # Errors
///
/// Those of `Replica::decide`.
pub fn rule<D: Disk>(
    replica: &mut Replica<D>,
    client: u8,
    number: u64,
    recs: &[Record],
) -> Result<Answer, ReplicaFault>
    requires client { HasSpelling a_client client }
    requires records { HasSpelling (some_records four) recs.now }
    ensures ends { (header : AskedHeader) (history : List ReplicaEntry) (span : List ARecord)
        → IsUp D.told header replica.old (journal_at header.number history) → IsReplicaHistory header history
        → recs.now ≡ sent_of span
        → let r = replica_after_all (new_replica header.server header.number) history in
        RulingEnds D.told header history (ruling client number span r) replica.new result }
    ensures down { replica.old.down ≡ true → (result ≡ Err ReplicaFault.Down) × (replica.new ≡ replica.old) }
    ensures only_down { result ≡ Err ReplicaFault.Down → replica.old.down ≡ true }
    ensures falls { Falls replica.old.down replica.new.down result }
    ensures later { D.faults replica.old.journal.disk ≤ D.faults replica.new.journal.disk }
    ensures cause { IsErrOf result ReplicaFault.DiskFault
        → Rose (D.faults replica.old.journal.disk) (D.faults replica.new.journal.disk) }
    ensures arms { D.arms replica.new.journal.disk ≡ D.arms replica.old.journal.disk }
{
    replica.decide(client, number, recs)
}
