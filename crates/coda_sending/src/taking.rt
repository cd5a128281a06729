// A client takes the answer to a chunk.
ghost use Rattle.std.specs.Prelude.{◌≡◌, ◌≢◌, ◌≤◌, ℕ, List, true, false, IsErrOf, IfSome, Err};
ghost use Rattle.coda_io.specs.Faults.{Rose};
ghost use Rattle.coda_journal.specs.declared.header.Header.{Header as AskedHeader};
ghost use Rattle.coda_record.specs.Spelling.{HasSpelling};
ghost use Rattle.coda_record.specs.Table.{volume as a_volume, verdict as a_verdict};
ghost use Rattle.coda_plain.specs.Cell.{ClientEntry};
ghost use Rattle.coda_venus.specs.Code.{IsClient};
ghost use Rattle.coda_venus.specs.Keeping.{Falls};
ghost use Rattle.coda_venus.specs.Standing.{IsUp};
ghost use Rattle.coda_venus.specs.State.{ClientState};
ghost use Rattle.coda_cell.specs.Made.{client_of};
ghost use Rattle.coda_cell.specs.Sending.{taking};
ghost use Rattle.coda_matching.specs.Clients.{journal_by, IsClientHistory};
ghost use Rattle.coda_sending.specs.Ending.{verdict_in, found_frozen, TakingEnds};

use coda_certify::Verdict;
use coda_cml::Frozen;
use coda_disk::Disk;
use coda_record::Answer;
use coda_venus::{Refused, Venus};

// The verdict that an answer has, if it has one.
fn verdict_in(answer: &Answer) -> Option<Verdict>
    ensures { result ≡ verdict_in answer.now }
{
    match answer {
        Answer::Applied => Some(Verdict::Applied),
        Answer::Conflict(refused, why) => Some(Verdict::Conflict(*refused, *why)),
        Answer::Behind(_) => None,
        Answer::Old(_) => None,
    }
}

// Whether the chunk that is frozen has this number; else it is refused.
fn found_frozen(frozen: Option<Frozen>, number: u64) -> Result<(), Refused>
    ensures { result ≡ found_frozen frozen number }
{
    match frozen {
        None => Err(Refused::NotFrozen(number)),
        Some(chunk) => {
            if chunk.number == number {
                Ok(())
            } else {
                Err(Refused::WrongNumber(chunk.number, number))
            }
        }
    }
}

/// Takes the answer to the chunk of a volume, which must be the one that is frozen, whatever the answer says: a
/// verdict settles it, and any other answer leaves it frozen.
///
/// # Errors
///
/// Those of `Venus::settle`.
pub fn take<D: Disk>(
    venus: &mut Venus<D>,
    volume: u32,
    number: u64,
    answer: &Answer,
) -> Result<(), Refused>
    requires volume { HasSpelling a_volume volume }
    requires verdict { IfSome (verdict_in answer.now) (HasSpelling a_verdict) }
    ensures ends { (header : AskedHeader) (history : List ClientEntry)
        → IsUp D.told header venus.old (journal_by history) → IsClientHistory header history
        → let c = client_of header.number history header.cache in
        TakingEnds D.told header history volume (taking number answer.now (c.volumes volume)) venus.new result }
    ensures down { venus.old.down ≡ true → (result ≡ Err Refused.Down) × (venus.new ≡ venus.old) }
    ensures only_down { result ≡ Err Refused.Down → venus.old.down ≡ true }
    ensures falls { Falls venus.old.down venus.new.down result }
    ensures later { D.faults venus.old.journal.disk ≤ D.faults venus.new.journal.disk }
    ensures cause { IsErrOf result Refused.DiskFault
        → Rose (D.faults venus.old.journal.disk) (D.faults venus.new.journal.disk) }
    ensures arms { D.arms venus.new.journal.disk ≡ D.arms venus.old.journal.disk }
{
    if venus.is_down() {
        return Err(Refused::Down);
    }
    match verdict_in(answer) {
        Some(verdict) => venus.settle(volume, number, &verdict),
        None => found_frozen(venus.frozen(volume), number),
    }
}
