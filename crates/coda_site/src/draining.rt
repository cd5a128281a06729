// A client sends what is pending of a volume to a replica, which decides it, and takes its answer.
ghost use Rattle.std.specs.Prelude.{◌≡◌, ◌≢◌, ◌∷◌, ◌&&◌, not, [], true, false, IfOk, IfErr, Some};
ghost use Rattle.coda_record.specs.Spelling.{HasSpelling};
ghost use Rattle.coda_record.specs.Table.{client as a_client, server as a_server, volume as a_volume};
ghost use Rattle.coda_script.specs.Ranges.{InRange};
ghost use Rattle.coda_script.specs.declared.line.Line.TheVariants as line;
ghost use Rattle.coda_script.specs.declared.line.Task.TheVariants as task;
ghost use Rattle.coda_actors.specs.Clients.{client_form};
ghost use Rattle.coda_actors.specs.Replicas.{replica_form};
ghost use Rattle.coda_actors.specs.Slots.{is_up};
ghost use Rattle.coda_crew.specs.Crews.{slot_at};
ghost use Rattle.coda_cell.specs.Cells.{linked_in};
ghost use Rattle.coda_shelves.specs.Cells.{Cell};
ghost use Rattle.coda_shelves.specs.Lines.{Happens, is_cut};
ghost use Rattle.coda_site.specs.Drains.{Acted};
ghost use Rattle.coda_site.specs.Shelves.{Shows};
ghost use Rattle.coda_site.specs.Sites.{IsReady, place_in};
ghost use Rattle.coda_site.specs.Steps.{Becomes};
ghost use Rattle.coda_site.specs.Totals.{IsCounted, IsFault, totals};
ghost use Rattle.coda_site.specs.declared.site.Place.{Place as APlace};

use crate::chunks::{Until, chunk_at, freeze_at, rule_at, take_at};
use crate::fault::CellFault;
use crate::links::strength;
use crate::replies::{no_such_actor, refuse, refused, reply_answer, unruled};
use crate::site::Site;
use coda_crew::is_up;
use coda_disk::Bay;
use coda_net::Net;
use coda_script::{Refusal, Reply, Strength};
use coda_sending::can_be_posted;

/// Whether the link between a client and a server carries something.
pub fn is_linked(net: &Net, client: u8, server: u8) -> bool
    ensures { result ≡ not (is_cut (linked_in net.now client server)) }
{
    match strength(net, client, server) {
        Strength::Strong => true,
        Strength::Weak => true,
        Strength::Down => false,
    }
}

// Whether a client and a replica are up.
fn are_up<B: Bay>(site: &Site<B::D>, client: u8, disk: u32) -> bool
    ensures { result ≡ (is_up (client_form B.D.told) (slot_at site.now.clients client) && is_up (replica_form B.D.told) (slot_at site.now.replicas disk)) }
{
    is_up(&site.clients, u32::from(client)) && is_up(&site.replicas, disk)
}

// The same of a client and a replica that are up, over a link that is up.
fn drain_up<B: Bay>(
    _bay: &B,
    site: &mut Site<B::D>,
    client: u8,
    volume: u32,
    server: u8,
    disk: u32,
    window: u64,
) -> Result<Reply, CellFault>
    requires ready { IsReady B.D.told (B.out _bay.now) site.old }
    requires client_up { is_up (client_form B.D.told) (slot_at site.old.clients client) ≡ true }
    requires replica_up { is_up (replica_form B.D.told) (slot_at site.old.replicas disk) ≡ true }
    requires client { HasSpelling a_client client }
    requires volume { HasSpelling a_volume volume }
    requires server { HasSpelling a_server server }
    ensures ready { IsReady B.D.told (B.out _bay.now) site.new }
    ensures does { (cell : Cell) (place : APlace) → Shows B.D.told (B.out _bay.now) (B.has _bay.now) cell site.old
        → place_in site.old volume ≡ Some place → place.disk ≡ disk → place.server ≡ server → not (is_cut (linked_in site.old.net client server)) ≡ true
        → IfOk result (λ reply. Acted B.D.told (B.out _bay.now) (B.has _bay.now) cell (line.Task (task.Drain client volume server (Some window))) reply site.new) }
    ensures net { site.new.net ≡ site.old.net }
    ensures memory { IfErr result (λ why. why ≡ CellFault.Memory) }
    ensures counts { IsCounted (IsFault result) false (totals B.D.told B.D.faults B.D.arms (B.disk_faults _bay.now) (B.disk_arms _bay.now) site.old) (totals B.D.told B.D.faults B.D.arms (B.disk_faults _bay.now) (B.disk_arms _bay.now) site.new) }
{
    let until = Until {
        now: site.clock,
        window,
    };
    let chunk = match freeze_at(until, client, volume, server, &mut site.clients) {
        Ok(chunk) => chunk,
        Err(why) => return refused(site.alloc, why),
    };
    let recs = chunk_at(&site.clients, client, volume);
    let answer = match rule_at(&mut site.replicas, disk, client, chunk, recs) {
        Ok(answer) => answer,
        Err(why) => return unruled(site.alloc, why),
    };
    // What a replica answers can be posted, and kept.
    if !can_be_posted(&answer) {
        return Err(CellFault::Memory);
    }
    match take_at(&mut site.clients, client, volume, chunk, &answer) {
        Ok(()) => Ok(Reply::Drained {
            chunk,
            answer: reply_answer(answer),
        }),
        Err(why) => refused(site.alloc, why),
    }
}

/// Sends what is pending of a client's volume to the server that holds it, unless one of the three isn't there, the client or the replica
/// is down, or the link.
///
/// # Errors
///
/// `Memory` alone.
pub fn drain<B: Bay>(
    _bay: &B,
    site: &mut Site<B::D>,
    client: u8,
    volume: u32,
    server: u8,
    window: u64,
) -> Result<Reply, CellFault>
    requires ready { IsReady B.D.told (B.out _bay.now) site.old }
    requires range { InRange (line.Task (task.Drain client volume server (Some window))) }
    ensures ready { IsReady B.D.told (B.out _bay.now) site.new }
    ensures does { (cell : Cell) → Shows B.D.told (B.out _bay.now) (B.has _bay.now) cell site.old
        → IfOk result (λ reply. Becomes B.D.told (B.out _bay.now) (B.has _bay.now) (Happens cell (line.Task (task.Drain client volume server (Some window))))
        reply (B.answered _bay.now) (B.answered _bay.now) site.new) }
    ensures net { site.new.net ≡ site.old.net }
    ensures memory { IfErr result (λ why. why ≡ CellFault.Memory) }
    ensures counts { IsCounted (IsFault result) false (totals B.D.told B.D.faults B.D.arms (B.disk_faults _bay.now) (B.disk_arms _bay.now) site.old) (totals B.D.told B.D.faults B.D.arms (B.disk_faults _bay.now) (B.disk_arms _bay.now) site.new) }
{
    if let Some(number) = site.missing_holder(client, volume, server) {
        return Ok(no_such_actor(site.alloc, number)?);
    }
    let Some(place) = site.place(volume) else {
        unreachable!()
    };
    if !are_up::<B>(site, client, place.disk) {
        return Ok(refuse(site.alloc, Refusal::Down));
    }
    if !is_linked(&site.net, client, server) {
        return Ok(refuse(site.alloc, Refusal::LinkDown));
    }
    drain_up(_bay, site, client, volume, server, place.disk, window)
}
