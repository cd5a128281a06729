// A client freezes a chunk for a server.
ghost use Rattle.std.specs.Prelude.{◌≡◌, ◌≤◌, ℕ, List, true, false, IsErrOf, Err};
ghost use Rattle.coda_io.specs.Faults.{Rose};
ghost use Rattle.coda_journal.specs.declared.header.Header.{Header as AskedHeader};
ghost use Rattle.coda_cancel.specs.Weights.{total_weight};
ghost use Rattle.coda_record.specs.Form.{four};
ghost use Rattle.coda_record.specs.Spelling.{HasSpelling};
ghost use Rattle.coda_record.specs.Table.{volume as a_volume, server as a_server, records as some_records};
ghost use Rattle.coda_plain.specs.Cell.{ClientEntry};
ghost use Rattle.coda_plain.specs.Decisions.{sent_of};
ghost use Rattle.coda_venus.specs.History.{Payload};
ghost use Rattle.coda_venus.specs.Keeping.{Falls};
ghost use Rattle.coda_venus.specs.Standing.{IsUp};
ghost use Rattle.coda_cell.specs.Made.{client_of};
ghost use Rattle.coda_cell.specs.Sending.{freezing};
ghost use Rattle.coda_matching.specs.Clients.{journal_by, IsClientHistory};
ghost use Rattle.coda_sending.specs.Ending.{number_for, FreezingEnds};

use coda_cml::Frozen;
use coda_disk::Disk;
use coda_fid::Record;
use coda_venus::{Refused, Venus};

// The number of the chunk that is frozen, for its own server.
fn number_for(chunk: Frozen, server: u8) -> Result<u64, Refused>
    ensures { result ≡ number_for chunk server }
{
    if chunk.home == server {
        Ok(chunk.number)
    } else {
        Err(Refused::Frozen(chunk.number, chunk.home))
    }
}

/// The number of the chunk of a volume that goes to a server: the one that is frozen for it, whatever the window says,
/// or else what may go at a time by a window, both in seconds, which is frozen now.
///
/// # Errors
///
/// `Frozen` where a chunk is frozen for another server, which changes nothing, and else those of `Venus::freeze`.
pub fn freeze_for<D: Disk>(
    venus: &mut Venus<D>,
    now: u64,
    window: u64,
    volume: u32,
    server: u8,
) -> Result<u64, Refused>
    requires volume { HasSpelling a_volume volume }
    requires server { HasSpelling a_server server }
    ensures ends { (header : AskedHeader) (history : List ClientEntry)
        → IsUp D.told header venus.old (journal_by history) → IsClientHistory header history
        → let c = client_of header.number history header.cache in
        FreezingEnds D.told header history volume (freezing now window server (c.volumes volume)) venus.new result }
    ensures down { venus.old.down ≡ true → (result ≡ Err Refused.Down) × (venus.new ≡ venus.old) }
    ensures only_down { result ≡ Err Refused.Down → venus.old.down ≡ true }
    ensures falls { Falls venus.old.down venus.new.down result }
    ensures later { D.faults venus.old.journal.disk ≤ D.faults venus.new.journal.disk }
    ensures cause { IsErrOf result Refused.DiskFault
        → Rose (D.faults venus.old.journal.disk) (D.faults venus.new.journal.disk) }
    ensures arms { D.arms venus.new.journal.disk ≡ D.arms venus.old.journal.disk }
{
    if venus.is_down() {
        return Err(Refused::Down);
    }
    match venus.frozen(volume) {
        Some(chunk) => number_for(chunk, server),
        None => venus.freeze(volume, server, now, window),
    }
}

/// The records of the chunk of a volume that is on its way, while the client isn't down: what cancellation leaves of
/// its operations, 16 MiB at most; none where none is frozen.
pub fn chunk_for<D: Disk>(venus: &Venus<D>, volume: u32) -> &[Record]
    requires { venus.now.down ≡ false }
    ensures records { (header : AskedHeader) (history : List ClientEntry)
        → IsUp D.told header venus.now (journal_by history) → IsClientHistory header history
        → result.now ≡ sent_of ((client_of header.number history header.cache).volumes volume).front }
    ensures sendable { HasSpelling (some_records four) result.now }
    ensures light { (header : AskedHeader) (payloads : List Payload) → IsUp D.told header venus.now payloads
        → total_weight result.now ≤ 16777216 }
{
    venus.chunk(volume)
}
