// What a client needs for a call is fetched, where it is offered.
ghost use Rattle.std.specs.Prelude.{◌≡◌, ◌≤◌, ◌<◌, ℕ, List, true, IfOk, IfErr, OnOk, IsErrOf, Err};
ghost use Rattle.std.specs.FinMap as map;
ghost use Rattle.coda_io.specs.Faults.{Rose};
ghost use Rattle.coda_journal.specs.declared.header.Header.{Header as AskedHeader};
ghost use Rattle.coda_record.specs.Entries.{node as a_node};
ghost use Rattle.coda_record.specs.Form.{four};
ghost use Rattle.coda_record.specs.Spelling.{HasSpelling};
ghost use Rattle.coda_venus.specs.History.{Payload};
ghost use Rattle.coda_venus.specs.Keeping.{Falls};
ghost use Rattle.coda_venus.specs.Standing.{IsUp};
ghost use Rattle.coda_serving.specs.Fetching.{nodes_offered, absent, IsFetchable, FetchEnds};
ghost use Rattle.coda_serving.specs.Unfetched.{IsUnfetched};

use crate::spelling::can_be_spelled;
use coda_disk::Disk;
use coda_fid::Fid;
use coda_tree::{Node, Volume};
use coda_venus::{Refused, Venus};

// A copy of the node of an object that a client misses, where it is offered and a journal can keep it.
fn node_for<D: Disk>(venus: &Venus<D>, offers: Option<&Volume>, fid: Fid) -> Result<Node, Refused>
    ensures can { IfOk result (IsFetchable (nodes_offered offers.entry) venus.now.client.cache.nodes fid) }
    ensures not { IfErr result (IsUnfetched (nodes_offered offers.entry) venus.now.client.cache.nodes fid) }
{
    let Some(volume) = offers else {
        return Err(Refused::Need(fid));
    };
    let Some(node) = volume.get(fid) else {
        return Err(Refused::Need(fid));
    };
    if !can_be_spelled(node) || !venus.misses(fid) {
        return Err(Refused::Need(fid));
    }
    Ok(node.copy()?)
}

/// Fetches an object that a client needs, and keeps it.
pub fn fetch<D: Disk>(
    venus: &mut Venus<D>,
    offers: Option<&Volume>,
    fid: Fid,
) -> Result<(), Refused>
    ensures ends { (header : AskedHeader) (history : List Payload) → IsUp D.told header venus.old history → FetchEnds D.told header (nodes_offered offers.entry) history fid venus.new result }
    ensures fewer { OnOk result (absent (nodes_offered offers.entry) venus.new.client.cache.nodes < absent (nodes_offered offers.entry) venus.old.client.cache.nodes) }
    ensures only_down { result ≡ Err Refused.Down → venus.old.down ≡ true }
    ensures falls { Falls venus.old.down venus.new.down result }
    ensures later { D.faults venus.old.journal.disk ≤ D.faults venus.new.journal.disk }
    ensures cause { IsErrOf result Refused.DiskFault → Rose (D.faults venus.old.journal.disk) (D.faults venus.new.journal.disk) }
    ensures arms { D.arms venus.new.journal.disk ≡ D.arms venus.old.journal.disk }
{
    let node = node_for(venus, offers, fid)?;
    venus.installed(fid, node)
}
