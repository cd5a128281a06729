// Entries of a replica's journal.
ghost use Rattle.std.specs.Prelude.{◌≡◌, ℕ, ◌+◌, ◌<◌, ◌≤◌, List, true, false, IfOk, vec_len};
ghost use Rattle.std.specs.Int.{w32};
ghost use Rattle.coda_io.specs.Faults.{HasCause};
ghost use Rattle.coda_journal.specs.Entries.{framed};
ghost use Rattle.coda_journal.specs.declared.header.Header.{Header as AskedHeader};
ghost use Rattle.coda_record.specs.Form.{four};
ghost use Rattle.coda_record.specs.Spelling.{HasSpelling};
ghost use Rattle.coda_record.specs.Table.{records as some_records};
ghost use Rattle.coda_record.specs.declared.entry.ReplicaEntry.TheVariants.{Decide as DecideEntry};
ghost use Rattle.coda_replica.specs.History.{payload_of};
ghost use Rattle.coda_replica.specs.Deciding.{Appends};

use coda_certify::Verdict;
use coda_disk::{Disk, DiskFault};
use coda_fid::Record;
use coda_journal::{Frame, Journal, write_synced};
use coda_record::lengths::length_of_records;
use coda_record::writing::{put_records, put_u8, put_u64, put_verdict};
use std::alloc::{AllocError, Global};

// The entry of a decision, as it is written.
#[tactic(auto, unfolding(coda_record::specs::Entries::replica_entry))]
pub(crate) fn decision_frame(
    alloc: Global,
    client: u8,
    number: u64,
    recs: &[Record],
    verdict: &Verdict,
) -> Result<Frame, AllocError>
    requires { HasSpelling (some_records four) recs.now }
    ensures { IfOk result (λ f. f.bytes.items ≡ framed w32 (payload_of (DecideEntry client number recs.now verdict.now))) }
{
    let mut payload = Vec::with_capacity(alloc, 38 + length_of_records(recs))?;
    put_u8(&mut payload, 1)?;
    put_u8(&mut payload, client)?;
    put_u64(&mut payload, number)?;
    put_records(&mut payload, recs)?;
    put_verdict(&mut payload, verdict)?;
    Frame::new(alloc, &payload)
}

// Whether a journal has room for an entry.
pub(crate) fn has_room<D>(journal: &Journal<D>, frame: &Frame) -> bool
    ensures fits { result ≡ true → journal.now.used + vec_len frame.now.bytes ≤ journal.now.area }
    ensures full { result ≡ false → journal.now.area < journal.now.used + vec_len frame.now.bytes }
{
    frame.bytes.len() as u64 <= journal.area - journal.used
}

// Adds an entry to a journal that has room for it: writes all of it but its gate behind the closed gate, syncs, writes the
// gate, and syncs. It takes no memory. It is what `Journal::append` does where there is room, whose clauses leave open
// whether it may answer `JournalFull` there too.
pub(crate) fn append<D: Disk>(journal: &mut Journal<D>, frame: &Frame) -> Result<(), DiskFault>
    requires { journal.old.used + vec_len frame.now.bytes ≤ journal.old.area }
    ensures appends { (header : AskedHeader) (payloads : List (List ℕ)) (payload : List ℕ) → frame.now.bytes.items ≡ framed w32 payload
        → Appends D.told header journal.old payloads payload journal.new result }
    ensures cause { HasCause (D.faults journal.old.disk) (D.faults journal.new.disk) result }
    ensures arms { D.arms journal.new.disk ≡ D.arms journal.old.disk }
{
    let behind = frame.behind();
    let gate = journal.start + journal.used;
    write_synced(&mut journal.disk, gate + 1, behind)?;
    write_synced(&mut journal.disk, gate, &[1])?;
    journal.used += behind.len() as u64;
    Ok(())
}
