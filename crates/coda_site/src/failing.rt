// Lines that crash actors, recover them, or let their disks fail.
ghost use Rattle.std.specs.Prelude.{◌≡◌, ◌≢◌, ◌≤◌, false, IfOk, OnErr, Err};
ghost use Rattle.coda_io.specs.Faults.{Rose};
ghost use Rattle.coda_script.specs.declared.line.Line.TheVariants as line;
ghost use Rattle.coda_shelves.specs.Cells.{Cell};
ghost use Rattle.coda_shelves.specs.Lines.{Happens};
ghost use Rattle.coda_site.specs.Makings.{SaysRecovered};
ghost use Rattle.coda_site.specs.Shelves.{Shows};
ghost use Rattle.coda_site.specs.Sites.{IsReady, IsClosable};
ghost use Rattle.coda_site.specs.Steps.{Becomes};
ghost use Rattle.coda_site.specs.Totals.{IsCounted, IsFault, is_ok, totals};

use crate::fault::CellFault;
use crate::replies::{no_such_actor, refuse, refuse_number};
use crate::site::Site;
use coda_actors::Mounting;
use coda_crew::{arm, crash, is_made, is_up, recover};
use coda_disk::Bay;
use coda_script::{Refusal, Reply};
use std::alloc::Global;

// The reply to a recovery, by how its mounting ended.
fn recovered(alloc: Global, mounting: Mounting) -> Result<Reply, CellFault>
    ensures says { IfOk result (λ said. SaysRecovered mounting said) }
    ensures only { result ≢ Err CellFault.Bay }
    ensures cause { IsFault result → mounting ≡ Mounting.DiskFault }
{
    match mounting {
        Mounting::Entries(entries) => Ok(Reply::Recovered { entries }),
        Mounting::DiskFault => Ok(refuse(alloc, Refusal::DiskFault)),
        Mounting::Foreign(at) => Ok(refuse_number(alloc, Refusal::Foreign, at)?),
        Mounting::Memory => Err(CellFault::Memory),
    }
}

/// Crashes a client: it is down, and its disk has one of the images that a crash may leave, by a choice.
pub fn crash_client<B: Bay>(
    bay: &mut B,
    site: &mut Site<B::D>,
    client: u8,
    choice: u64,
) -> Result<Reply, CellFault>
    requires ready { IsReady B.D.told (B.out bay.old) site.old }
    ensures ready { result ≢ Err CellFault.Bay → IsReady B.D.told (B.out bay.new) site.new }
    ensures closable { IsClosable (B.out bay.new) site.new }
    ensures does { (cell : Cell) → Shows B.D.told (B.out bay.old) (B.has bay.old) cell site.old
        → IfOk result (λ reply. Becomes B.D.told (B.out bay.new) (B.has bay.new) (Happens cell (line.CrashClient client choice)) reply (B.answered bay.old) (B.answered bay.new) site.new) }
    ensures net { site.new.net ≡ site.old.net }
    ensures answered_err { OnErr result (B.answered bay.new ≡ B.answered bay.old) }
    ensures later { B.faults bay.old ≤ B.faults bay.new }
    ensures bay_cause { result ≡ Err CellFault.Bay → Rose (B.faults bay.old) (B.faults bay.new) }
    ensures follows { B.follows bay.old bay.new }
    ensures counts { IsCounted (IsFault result) false (totals B.D.told B.D.faults B.D.arms (B.disk_faults bay.old) (B.disk_arms bay.old) site.old) (totals B.D.told B.D.faults B.D.arms (B.disk_faults bay.new) (B.disk_arms bay.new) site.new) }
{
    if !site.has_client(client) {
        return Ok(no_such_actor(site.alloc, u32::from(client))?);
    }
    crash(bay, &mut site.clients, u32::from(client), choice)?;
    Ok(Reply::Crashed)
}

/// Crashes a server's replica of a volume likewise.
pub fn crash_replica<B: Bay>(
    bay: &mut B,
    site: &mut Site<B::D>,
    server: u8,
    volume: u32,
    choice: u64,
) -> Result<Reply, CellFault>
    requires ready { IsReady B.D.told (B.out bay.old) site.old }
    ensures ready { result ≢ Err CellFault.Bay → IsReady B.D.told (B.out bay.new) site.new }
    ensures closable { IsClosable (B.out bay.new) site.new }
    ensures does { (cell : Cell) → Shows B.D.told (B.out bay.old) (B.has bay.old) cell site.old
        → IfOk result (λ reply. Becomes B.D.told (B.out bay.new) (B.has bay.new) (Happens cell (line.CrashReplica server volume choice)) reply (B.answered bay.old) (B.answered bay.new) site.new) }
    ensures net { site.new.net ≡ site.old.net }
    ensures answered_err { OnErr result (B.answered bay.new ≡ B.answered bay.old) }
    ensures later { B.faults bay.old ≤ B.faults bay.new }
    ensures bay_cause { result ≡ Err CellFault.Bay → Rose (B.faults bay.old) (B.faults bay.new) }
    ensures follows { B.follows bay.old bay.new }
    ensures counts { IsCounted (IsFault result) false (totals B.D.told B.D.faults B.D.arms (B.disk_faults bay.old) (B.disk_arms bay.old) site.old) (totals B.D.told B.D.faults B.D.arms (B.disk_faults bay.new) (B.disk_arms bay.new) site.new) }
{
    match site.place(volume) {
        Some(place) if place.server == server => {
            if !is_made(&site.replicas, place.disk) {
                return Ok(no_such_actor(site.alloc, u32::from(server))?);
            }
            crash(bay, &mut site.replicas, place.disk, choice)?;
            Ok(Reply::Crashed)
        }
        _ => Ok(no_such_actor(site.alloc, u32::from(server))?),
    }
}

/// Recovers a client from its disk.
pub fn recover_client<B: Bay>(
    _bay: &B,
    site: &mut Site<B::D>,
    client: u8,
) -> Result<Reply, CellFault>
    requires ready { IsReady B.D.told (B.out _bay.now) site.old }
    ensures ready { IsReady B.D.told (B.out _bay.now) site.new }
    ensures does { (cell : Cell) → Shows B.D.told (B.out _bay.now) (B.has _bay.now) cell site.old
        → IfOk result (λ reply. Becomes B.D.told (B.out _bay.now) (B.has _bay.now) (Happens cell (line.RecoverClient client)) reply (B.answered _bay.now) (B.answered _bay.now) site.new) }
    ensures net { site.new.net ≡ site.old.net }
    ensures only { result ≢ Err CellFault.Bay }
    ensures counts { IsCounted (IsFault result) false (totals B.D.told B.D.faults B.D.arms (B.disk_faults _bay.now) (B.disk_arms _bay.now) site.old) (totals B.D.told B.D.faults B.D.arms (B.disk_faults _bay.now) (B.disk_arms _bay.now) site.new) }
{
    if !site.has_client(client) {
        return Ok(no_such_actor(site.alloc, u32::from(client))?);
    }
    let mounting = recover(site.alloc, _bay, &mut site.clients, u32::from(client));
    recovered(site.alloc, mounting)
}

/// Recovers a server's replica of a volume from its disk.
pub fn recover_replica<B: Bay>(
    _bay: &B,
    site: &mut Site<B::D>,
    server: u8,
    volume: u32,
) -> Result<Reply, CellFault>
    requires ready { IsReady B.D.told (B.out _bay.now) site.old }
    ensures ready { IsReady B.D.told (B.out _bay.now) site.new }
    ensures does { (cell : Cell) → Shows B.D.told (B.out _bay.now) (B.has _bay.now) cell site.old
        → IfOk result (λ reply. Becomes B.D.told (B.out _bay.now) (B.has _bay.now) (Happens cell (line.RecoverReplica server volume)) reply (B.answered _bay.now) (B.answered _bay.now) site.new) }
    ensures net { site.new.net ≡ site.old.net }
    ensures only { result ≢ Err CellFault.Bay }
    ensures counts { IsCounted (IsFault result) false (totals B.D.told B.D.faults B.D.arms (B.disk_faults _bay.now) (B.disk_arms _bay.now) site.old) (totals B.D.told B.D.faults B.D.arms (B.disk_faults _bay.now) (B.disk_arms _bay.now) site.new) }
{
    match site.place(volume) {
        Some(place) if place.server == server => {
            if !is_made(&site.replicas, place.disk) {
                return Ok(no_such_actor(site.alloc, u32::from(server))?);
            }
            let mounting = recover(site.alloc, _bay, &mut site.replicas, place.disk);
            recovered(site.alloc, mounting)
        }
        _ => Ok(no_such_actor(site.alloc, u32::from(server))?),
    }
}

/// Lets so many further calls of a client's disk through; the next one and all after it fail until a crash.
pub fn arm_client<B: Bay>(
    _bay: &B,
    site: &mut Site<B::D>,
    client: u8,
    passes: u64,
) -> Result<Reply, CellFault>
    requires ready { IsReady B.D.told (B.out _bay.now) site.old }
    ensures ready { IsReady B.D.told (B.out _bay.now) site.new }
    ensures does { (cell : Cell) → Shows B.D.told (B.out _bay.now) (B.has _bay.now) cell site.old
        → IfOk result (λ reply. Becomes B.D.told (B.out _bay.now) (B.has _bay.now) (Happens cell (line.ArmClient client passes)) reply (B.answered _bay.now) (B.answered _bay.now) site.new) }
    ensures net { site.new.net ≡ site.old.net }
    ensures only { result ≢ Err CellFault.Bay }
    ensures counts { IsCounted (IsFault result) (is_ok result) (totals B.D.told B.D.faults B.D.arms (B.disk_faults _bay.now) (B.disk_arms _bay.now) site.old) (totals B.D.told B.D.faults B.D.arms (B.disk_faults _bay.now) (B.disk_arms _bay.now) site.new) }
{
    if !site.has_client(client) {
        return Ok(no_such_actor(site.alloc, u32::from(client))?);
    }
    if !is_up(&site.clients, u32::from(client)) {
        return Ok(refuse(site.alloc, Refusal::Down));
    }
    arm(_bay, &mut site.clients, u32::from(client), passes);
    Ok(Reply::Accepted)
}

/// The same of the disk of a server's replica of a volume.
pub fn arm_replica<B: Bay>(
    _bay: &B,
    site: &mut Site<B::D>,
    server: u8,
    volume: u32,
    passes: u64,
) -> Result<Reply, CellFault>
    requires ready { IsReady B.D.told (B.out _bay.now) site.old }
    ensures ready { IsReady B.D.told (B.out _bay.now) site.new }
    ensures does { (cell : Cell) → Shows B.D.told (B.out _bay.now) (B.has _bay.now) cell site.old
        → IfOk result (λ reply. Becomes B.D.told (B.out _bay.now) (B.has _bay.now) (Happens cell (line.ArmReplica server volume passes)) reply (B.answered _bay.now) (B.answered _bay.now) site.new) }
    ensures net { site.new.net ≡ site.old.net }
    ensures only { result ≢ Err CellFault.Bay }
    ensures counts { IsCounted (IsFault result) (is_ok result) (totals B.D.told B.D.faults B.D.arms (B.disk_faults _bay.now) (B.disk_arms _bay.now) site.old) (totals B.D.told B.D.faults B.D.arms (B.disk_faults _bay.now) (B.disk_arms _bay.now) site.new) }
{
    match site.place(volume) {
        Some(place) if place.server == server => {
            if !is_up(&site.replicas, place.disk) {
                return Ok(refuse(site.alloc, Refusal::Down));
            }
            arm(_bay, &mut site.replicas, place.disk, passes);
            Ok(Reply::Accepted)
        }
        _ => Ok(no_such_actor(site.alloc, u32::from(server))?),
    }
}
