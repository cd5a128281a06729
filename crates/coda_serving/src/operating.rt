// An operation, by the history that a client has in a cell.
ghost use Rattle.std.specs.Prelude.{◌≡◌, ◌≤◌, List, true, IsErrOf, Err};
ghost use Rattle.coda_io.specs.Faults.{Rose};
ghost use Rattle.coda_journal.specs.declared.header.Header.{Header as AskedHeader};
ghost use Rattle.coda_plain.specs.Cell.{ClientEntry};
ghost use Rattle.coda_record.specs.Spelling.{HasSpelling};
ghost use Rattle.coda_record.specs.Table.{volume as a_volume};
ghost use Rattle.coda_venus.specs.Ask.{asked, IsAskSpelled};
ghost use Rattle.coda_venus.specs.Keeping.{Falls};
ghost use Rattle.coda_venus.specs.Standing.{IsUp};
ghost use Rattle.coda_serving.specs.Fetching.{nodes_offered};
ghost use Rattle.coda_cell.specs.Asking.{operate as operate_answer};
ghost use Rattle.coda_cell.specs.Made.{client_of};
ghost use Rattle.coda_matching.specs.Clients.{journal_by, IsClientHistory, Ends};
ghost use Rattle.coda_serving.specs.Serving.{AreSpelledOffers, IsDone};

use crate::asking;
use coda_disk::Disk;
use coda_tree::Volume;
use coda_venus::{Ask, Done, Refused, Venus};

/// Performs an operation in a volume at a time in seconds, over what the client caches and what its server offers. What
/// it adds to the client's history, and what it answers, is what a client of a cell with this history adds and answers
/// that the same is offered.
///
/// # Errors
///
/// Those of a client: the reason for which the client of a cell refuses the operation, with `Need` of an
/// object where that one misses it. Then all that was fetched is kept. `JournalFull` for want of room in the journal
/// too, and `DiskFault`, at one of the entries that were to be added: those before it are kept. `Memory`: some of them
/// in front are kept. `Down` exactly where the client is down.
pub fn operate<D: Disk>(
    venus: &mut Venus<D>,
    offers: Option<&Volume>,
    now: u64,
    volume: u32,
    ask: &Ask,
) -> Result<Done, Refused>
    requires volume { HasSpelling a_volume volume }
    requires ask { IsAskSpelled (asked ask.now) }
    ensures ends { (header : AskedHeader) (history : List ClientEntry)
        → IsUp D.told header venus.old (journal_by history) → IsClientHistory header history
        → AreSpelledOffers (nodes_offered offers.entry)
        → let c = client_of header.number history header.cache in
        let answer = operate_answer (nodes_offered offers.entry) c now volume (asked ask.now) in
        Ends D.told header history answer.entries answer.said IsDone venus.new result }
    ensures down { venus.old.down ≡ true → (result ≡ Err Refused.Down) × (venus.new ≡ venus.old) }
    ensures only_down { result ≡ Err Refused.Down → venus.old.down ≡ true }
    ensures falls { Falls venus.old.down venus.new.down result }
    ensures later { D.faults venus.old.journal.disk ≤ D.faults venus.new.journal.disk }
    ensures cause { IsErrOf result Refused.DiskFault
        → Rose (D.faults venus.old.journal.disk) (D.faults venus.new.journal.disk) }
    ensures arms { D.arms venus.new.journal.disk ≡ D.arms venus.old.journal.disk }
{
    asking::operate(venus, offers, now, volume, ask)
}
