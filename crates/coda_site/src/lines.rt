// What a line of a script does in a cell.
ghost use Rattle.std.specs.Prelude.{◌≡◌, ◌≢◌, ◌≤◌, ℕ, true, false, IfOk, IfErr, OnErr, Ok, Err};
ghost use Rattle.coda_io.specs.Faults.{Rose};
ghost use Rattle.coda_site.specs.Makings.{is_disk_line, asks_bay};
ghost use Rattle.coda_script.specs.declared.line.Line.TheVariants as line;
ghost use Rattle.coda_cell.specs.Steps.{is_built_task};
ghost use Rattle.coda_shelves.specs.Cells.{Cell};
ghost use Rattle.coda_shelves.specs.Lines.{is_built, Happens};
ghost use Rattle.coda_site.specs.Shelves.{Shows};
ghost use Rattle.coda_site.specs.Sites.{IsReady, IsClosable};
ghost use Rattle.coda_site.specs.Steps.{Becomes};
ghost use Rattle.coda_site.specs.Totals.{IsCounted, IsFault, has_armed, totals};

use crate::failing::{
    arm_client, arm_replica, crash_client, crash_replica, recover_client, recover_replica,
};
use crate::fault::CellFault;
use crate::links::set_strength;
use crate::replies::{no_such_actor, refuse};
use crate::site::Site;
use coda_crew::is_up;
use coda_disk::Bay;
use coda_script::{Line, Refusal, Reply, Strength, Task};

// Whether a task has a meaning so far.
fn is_built_task(task: &Task) -> bool
    ensures { result ≡ is_built_task task.now }
{
    match task {
        Task::Hardlink { .. } => false,
        Task::Refresh { .. } => false,
        Task::Giveup { .. } => false,
        _ => true,
    }
}

/// Whether a line has a meaning so far.
pub fn is_built(line: &Line) -> bool
    ensures { result ≡ is_built line.now }
{
    match line {
        Line::Volume { servers, .. } => servers.servers().len() == 1,
        Line::Task(task) => is_built_task(task),
        Line::Client { .. } => true,
        Line::Link { .. } => true,
        Line::Tick { .. } => true,
        Line::ShowVolume { .. } => true,
        Line::ShowLog { .. } => true,
        Line::ShowState { .. } => true,
        Line::Send { .. } => true,
        Line::Deliver { .. } => true,
        Line::Lose { .. } => true,
        Line::CrashClient { .. } => true,
        Line::CrashReplica { .. } => true,
        Line::RecoverClient { .. } => true,
        Line::RecoverReplica { .. } => true,
        Line::ArmClient { .. } => true,
        Line::ArmReplica { .. } => true,
        _ => false,
    }
}

/// Whether a line may ask the bay for a disk, or for a crash. A run is over where the bay refuses.
pub fn asks_bay(line: &Line) -> bool
    ensures { result ≡ asks_bay line.now }
{
    matches!(
        line,
        Line::Volume { .. }
            | Line::Client { .. }
            | Line::CrashClient { .. }
            | Line::CrashReplica { .. }
    )
}

/// Sets a link, where the client and the server are there, and the client is up.
pub fn set_link<B: Bay>(
    _bay: &B,
    site: &mut Site<B::D>,
    client: u8,
    server: u8,
    strength: Strength,
) -> Result<Reply, CellFault>
    requires ready { IsReady B.D.told (B.out _bay.now) site.old }
    ensures ready { IsReady B.D.told (B.out _bay.now) site.new }
    ensures does { (cell : Cell)
        → Shows B.D.told (B.out _bay.now) (B.has _bay.now) cell site.old
        → IfOk result (λ reply. Becomes B.D.told (B.out _bay.now) (B.has _bay.now)
        (Happens cell (line.Link client server strength))
        reply (B.answered _bay.now) (B.answered _bay.now) site.new) }
    ensures posted { site.new.net.posted ≡ site.old.net.posted }
    ensures memory { IfErr result (λ why. why ≡ CellFault.Memory) }
    ensures counts { IsCounted (IsFault result) false (totals B.D.told B.D.faults B.D.arms (B.disk_faults _bay.now) (B.disk_arms _bay.now) site.old) (totals B.D.told B.D.faults B.D.arms (B.disk_faults _bay.now) (B.disk_arms _bay.now) site.new) }
{
    if let Some(number) = site.missing_end(client, server) {
        return Ok(no_such_actor(site.alloc, number)?);
    }
    if !is_up(&site.clients, u32::from(client)) {
        return Ok(refuse(site.alloc, Refusal::Down));
    }
    match set_strength(&mut site.net, client, server, strength) {
        Ok(()) => Ok(Reply::Accepted),
        Err(_) => Err(CellFault::Memory),
    }
}

/// Lets time pass.
pub fn tick<B: Bay>(_bay: &B, site: &mut Site<B::D>, seconds: u32) -> Reply
    requires ready { IsReady B.D.told (B.out _bay.now) site.old }
    ensures ready { IsReady B.D.told (B.out _bay.now) site.new }
    ensures net { site.new.net ≡ site.old.net }
    ensures does { (cell : Cell)
        → Shows B.D.told (B.out _bay.now) (B.has _bay.now) cell site.old
        → Becomes B.D.told (B.out _bay.now) (B.has _bay.now) (Happens cell (line.Tick seconds))
        result (B.answered _bay.now) (B.answered _bay.now) site.new }
    ensures counts { IsCounted (IsFault (Ok result)) false (totals B.D.told B.D.faults B.D.arms (B.disk_faults _bay.now) (B.disk_arms _bay.now) site.old) (totals B.D.told B.D.faults B.D.arms (B.disk_faults _bay.now) (B.disk_arms _bay.now) site.new) }
{
    site.clock = site.clock.saturating_add(u64::from(seconds));
    Reply::Accepted
}

/// Names a volume to be shown, where its server has it and is up.
pub fn show_volume<B: Bay>(
    _bay: &B,
    site: &Site<B::D>,
    server: u8,
    volume: u32,
) -> Result<Reply, CellFault>
    requires ready { IsReady B.D.told (B.out _bay.now) site.now }
    ensures does { (cell : Cell)
        → Shows B.D.told (B.out _bay.now) (B.has _bay.now) cell site.now
        → IfOk result (λ reply. Becomes B.D.told (B.out _bay.now) (B.has _bay.now)
        (Happens cell (line.ShowVolume server volume))
        reply (B.answered _bay.now) (B.answered _bay.now) site.now) }
    ensures memory { IfErr result (λ why. why ≡ CellFault.Memory) }
    ensures fine { ¬ IsFault result }
{
    match site.place(volume) {
        Some(place) if place.server == server => {
            if !is_up(&site.replicas, place.disk) {
                return Ok(refuse(site.alloc, Refusal::Down));
            }
            Ok(Reply::ShowVolume { server, volume })
        }
        _ => Ok(no_such_actor(site.alloc, u32::from(server))?),
    }
}

/// Names a log to be shown, where the client and the volume are there, and the client is up.
pub fn show_log<B: Bay>(
    _bay: &B,
    site: &Site<B::D>,
    client: u8,
    volume: u32,
) -> Result<Reply, CellFault>
    requires ready { IsReady B.D.told (B.out _bay.now) site.now }
    ensures does { (cell : Cell)
        → Shows B.D.told (B.out _bay.now) (B.has _bay.now) cell site.now
        → IfOk result (λ reply. Becomes B.D.told (B.out _bay.now) (B.has _bay.now)
        (Happens cell (line.ShowLog client volume))
        reply (B.answered _bay.now) (B.answered _bay.now) site.now) }
    ensures memory { IfErr result (λ why. why ≡ CellFault.Memory) }
    ensures fine { ¬ IsFault result }
{
    if let Some(number) = site.missing(client, volume) {
        return Ok(no_such_actor(site.alloc, number)?);
    }
    if !is_up(&site.clients, u32::from(client)) {
        return Ok(refuse(site.alloc, Refusal::Down));
    }
    Ok(Reply::ShowLog { client, volume })
}

/// Carries out a line that crashes an actor, recovers it or lets its disk fail.
///
/// # Errors
///
/// `Memory`, and `Bay` where the bay refused a crash.
pub fn fail<B: Bay>(bay: &mut B, site: &mut Site<B::D>, line: &Line) -> Result<Reply, CellFault>
    requires disk { is_disk_line line.now ≡ true }
    requires ready { IsReady B.D.told (B.out bay.old) site.old }
    ensures ready { result ≢ Err CellFault.Bay → IsReady B.D.told (B.out bay.new) site.new }
    ensures closable { IsClosable (B.out bay.new) site.new }
    ensures does { (cell : Cell) → Shows B.D.told (B.out bay.old) (B.has bay.old) cell site.old
        → IfOk result (λ reply. Becomes B.D.told (B.out bay.new) (B.has bay.new) (Happens cell line.now) reply (B.answered bay.old) (B.answered bay.new) site.new) }
    ensures net { site.new.net ≡ site.old.net }
    ensures answered_err { OnErr result (B.answered bay.new ≡ B.answered bay.old) }
    ensures later { B.faults bay.old ≤ B.faults bay.new }
    ensures bay_cause { result ≡ Err CellFault.Bay → Rose (B.faults bay.old) (B.faults bay.new) }
    ensures asked { result ≡ Err CellFault.Bay → asks_bay line.now ≡ true }
    ensures follows { B.follows bay.old bay.new }
    ensures counts { IsCounted (IsFault result) (has_armed line.now result) (totals B.D.told B.D.faults B.D.arms (B.disk_faults bay.old) (B.disk_arms bay.old) site.old) (totals B.D.told B.D.faults B.D.arms (B.disk_faults bay.new) (B.disk_arms bay.new) site.new) }
{
    match line {
        Line::CrashClient { client, choice } => crash_client(bay, site, *client, *choice),
        Line::CrashReplica {
            server,
            volume,
            choice,
        } => crash_replica(bay, site, *server, *volume, *choice),
        Line::RecoverClient { client } => recover_client(bay, site, *client),
        Line::RecoverReplica { server, volume } => recover_replica(bay, site, *server, *volume),
        Line::ArmClient { client, passes } => arm_client(bay, site, *client, *passes),
        Line::ArmReplica {
            server,
            volume,
            passes,
        } => arm_replica(bay, site, *server, *volume, *passes),
        _ => unreachable!(),
    }
}
