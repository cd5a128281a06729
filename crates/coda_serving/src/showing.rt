// What is shown, by the history that a client has in a cell.
ghost use Rattle.std.specs.Prelude.{◌≡◌, ◌≤◌, List, true, IsErrOf, Err};
ghost use Rattle.coda_io.specs.Faults.{Rose};
ghost use Rattle.coda_journal.specs.declared.header.Header.{Header as AskedHeader};
ghost use Rattle.coda_plain.specs.Cell.{ClientEntry};
ghost use Rattle.coda_venus.specs.Keeping.{Falls};
ghost use Rattle.coda_venus.specs.Standing.{IsUp};
ghost use Rattle.coda_serving.specs.Fetching.{nodes_offered};
ghost use Rattle.coda_cell.specs.Made.{client_of};
ghost use Rattle.coda_matching.specs.Clients.{journal_by, IsClientHistory, Ends};
ghost use Rattle.coda_serving.specs.Serving.{show_answer, AreSpelledOffers, IsShown};

use crate::asking::{self, Showing};
use coda_disk::Disk;
use coda_fid::Path;
use coda_tree::Volume;
use coda_venus::{Refused, Seen, Venus};
use std::alloc::Global;

/// What is at a path, and whether that object was fetched for it, over what the client caches and what its server
/// offers. What it adds to the client's history, and what it answers, is what a client of a cell with this history adds
/// and answers that the same is offered, where it reads the object or lists it.
///
/// # Errors
///
/// Those of a client: the reason for which the client of a cell refuses to show the object, with `Need` of
/// an object where that one misses it. Then all that was fetched is kept. `JournalFull` for want of room in the
/// journal, and `DiskFault`, at one of the fetches: those before it are kept. `Memory`: some of them in front are kept.
/// `Down` exactly where the client is down.
pub fn show<D: Disk>(
    alloc: Global,
    venus: &mut Venus<D>,
    offers: Option<&Volume>,
    what: Showing,
    volume: u32,
    path: &Path,
) -> Result<(Seen, bool), Refused>
    ensures ends { (header : AskedHeader) (history : List ClientEntry)
        → IsUp D.told header venus.old (journal_by history) → IsClientHistory header history
        → AreSpelledOffers (nodes_offered offers.entry)
        → let c = client_of header.number history header.cache in
        let answer = show_answer what (nodes_offered offers.entry) c volume path.now in
        Ends D.told header history answer.entries answer.said IsShown venus.new result }
    ensures down { venus.old.down ≡ true → (result ≡ Err Refused.Down) × (venus.new ≡ venus.old) }
    ensures only_down { result ≡ Err Refused.Down → venus.old.down ≡ true }
    ensures falls { Falls venus.old.down venus.new.down result }
    ensures later { D.faults venus.old.journal.disk ≤ D.faults venus.new.journal.disk }
    ensures cause { IsErrOf result Refused.DiskFault
        → Rose (D.faults venus.old.journal.disk) (D.faults venus.new.journal.disk) }
    ensures arms { D.arms venus.new.journal.disk ≡ D.arms venus.old.journal.disk }
{
    asking::show(alloc, venus, offers, what, volume, path)
}
