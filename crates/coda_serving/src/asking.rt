// What a client answers to a line, over what it caches and what its server offers.
ghost use Rattle.std.specs.Prelude.{◌≡◌, ◌≢◌, ◌≤◌, ℕ, List, true, false, IfSome, IsErrOf, Err, None};
ghost use Rattle.coda_fid.specs.declared.fid.Fid.{Fid as AFid};
ghost use Rattle.coda_io.specs.Faults.{Rose};
ghost use Rattle.coda_journal.specs.declared.header.Header.{Header as AskedHeader};
ghost use Rattle.coda_record.specs.Spelling.{HasSpelling};
ghost use Rattle.coda_record.specs.Table.{volume as a_volume};
ghost use Rattle.coda_venus.specs.Ask.{asked, IsAskSpelled};
ghost use Rattle.coda_venus.specs.History.{Payload};
ghost use Rattle.coda_venus.specs.Keeping.{Falls, seen_at};
ghost use Rattle.coda_venus.specs.Looking.{OrMemory};
ghost use Rattle.coda_venus.specs.Standing.{IsUp};
ghost use Rattle.coda_serving.specs.Fetching.{is_among, nodes_offered};
ghost use Rattle.coda_serving.specs.Answering.{operating, shown_as, showing, shown_among, Answered};

use crate::fetching::fetch;
use coda_disk::Disk;
use coda_fid::{Fid, Path};
use coda_tree::Volume;
use coda_venus::{Ask, Done, Refused, Seen, Venus};
use std::alloc::Global;

/// What is to be shown of an object.
#[derive(Clone, Copy, Debug, PartialEq, Eq)]
pub enum Showing {
    /// The content of a file, or the target of a link.
    Content,
    /// What a directory binds.
    Names,
}

// The object that a call needs, where it is refused for that.
fn needed<T>(said: &Result<T, Refused>) -> Option<Fid>
    ensures some { IfSome result (λ fid. said.now ≡ Err (Refused.Need fid)) }
    ensures none { result ≡ None → (fid : AFid) → said.now ≢ Err (Refused.Need fid) }
{
    match said {
        Err(Refused::Need(fid)) => Some(*fid),
        _ => None,
    }
}

// Performs an operation in a volume at a time in seconds. What acceptance needs and the client doesn't cache is fetched from the
/// volume that is offered, one object after the other, and each is kept before the next one is fetched.
///
/// # Errors
///
/// Those of `Venus::operate`; `Need` of an object that can't be fetched: it isn't offered. What was fetched until then stays.
pub(crate) fn operate<D: Disk>(
    venus: &mut Venus<D>,
    offers: Option<&Volume>,
    now: u64,
    volume: u32,
    ask: &Ask,
) -> Result<Done, Refused>
    requires volume { HasSpelling a_volume volume }
    requires ask { IsAskSpelled (asked ask.now) }
    ensures answered { (header : AskedHeader) (history : List Payload) → IsUp D.told header venus.old history
        → Answered D.told header (nodes_offered offers.entry) (operating now volume (asked ask.now)) history venus.new result }
    ensures down { venus.old.down ≡ true → (result ≡ Err Refused.Down) × (venus.new ≡ venus.old) }
    ensures only_down { result ≡ Err Refused.Down → venus.old.down ≡ true }
    ensures falls { Falls venus.old.down venus.new.down result }
    ensures later { D.faults venus.old.journal.disk ≤ D.faults venus.new.journal.disk }
    ensures cause { IsErrOf result Refused.DiskFault → Rose (D.faults venus.old.journal.disk) (D.faults venus.new.journal.disk) }
    ensures arms { D.arms venus.new.journal.disk ≡ D.arms venus.old.journal.disk }
{
    loop {
        let said = venus.operate(now, volume, ask);
        match needed(&said) {
            Some(fid) => fetch(venus, offers, fid)?,
            None => return said,
        }
    }
}

// What is at a path, as it is to be shown, over what is cached.
fn seen_as<D: Disk>(
    venus: &mut Venus<D>,
    what: Showing,
    volume: u32,
    path: &Path,
) -> Result<Seen, Refused>
    ensures down { venus.old.down ≡ true → result ≡ Err Refused.Down }
    ensures seen { venus.old.down ≡ false → OrMemory result (seen_at (shown_as what) venus.old.client.cache.nodes volume path.now) }
    ensures only_down { result ≡ Err Refused.Down → venus.old.down ≡ true }
    ensures never { result ≢ Err Refused.DiskFault }
    ensures same { venus.new ≡ venus.old }
{
    match what {
        Showing::Content => venus.read(volume, path),
        Showing::Names => venus.list(volume, path),
    }
}

// Whether an object is one of these.
fn is_among(fids: &[Fid], fid: Fid) -> bool
    ensures { result ≡ is_among fids.now fid }
{
    fids.iter().any(|f| *f == fid)
}

// What is said of an object that is shown, with whether it is one of these.
fn shown(said: Result<Seen, Refused>, fids: &[Fid]) -> Result<(Seen, bool), Refused>
    ensures { result ≡ shown_among fids.now said }
{
    match said {
        Ok(seen) => {
            let fetched = is_among(fids, seen.fid);
            Ok((seen, fetched))
        }
        Err(why) => Err(why),
    }
}

/// What is at a path, and whether that object was fetched for it. What leads there and isn't cached is fetched as for an operation.
///
/// # Errors
///
/// Those of `Venus::read` and `Venus::list`; `Need` of an object that can't be fetched: it isn't offered. What was fetched until then
/// stays.
pub(crate) fn show<D: Disk>(
    alloc: Global,
    venus: &mut Venus<D>,
    offers: Option<&Volume>,
    what: Showing,
    volume: u32,
    path: &Path,
) -> Result<(Seen, bool), Refused>
    ensures answered { (header : AskedHeader) (history : List Payload) → IsUp D.told header venus.old history
        → Answered D.told header (nodes_offered offers.entry) (showing what volume path.now) history venus.new result }
    ensures down { venus.old.down ≡ true → (result ≡ Err Refused.Down) × (venus.new ≡ venus.old) }
    ensures only_down { result ≡ Err Refused.Down → venus.old.down ≡ true }
    ensures falls { Falls venus.old.down venus.new.down result }
    ensures later { D.faults venus.old.journal.disk ≤ D.faults venus.new.journal.disk }
    ensures cause { IsErrOf result Refused.DiskFault → Rose (D.faults venus.old.journal.disk) (D.faults venus.new.journal.disk) }
    ensures arms { D.arms venus.new.journal.disk ≡ D.arms venus.old.journal.disk }
{
    let mut fids = Vec::new(alloc);
    loop {
        let said = seen_as(venus, what, volume, path);
        match needed(&said) {
            Some(fid) => {
                if fids.push(fid).is_err() {
                    return Err(Refused::Memory);
                }
                fetch(venus, offers, fid)?;
            }
            None => return shown(said, &fids),
        }
    }
}
