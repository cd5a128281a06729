// The logs of clients, and their states on volumes.
ghost use Rattle.std.specs.Prelude.{◌≡◌, ℕ, true, false, [], Some, cond, MatchOption, IfOk, IfErr};
ghost use Rattle.coda_actors.specs.Replicas.{replica_form};
ghost use Rattle.coda_actors.specs.Slots.{is_up};
ghost use Rattle.coda_crew.specs.Crews.{slot_at};
ghost use Rattle.coda_state.specs.States.{settled_state};
ghost use Rattle.coda_script.specs.declared.line.Line.TheVariants as line;
ghost use Rattle.coda_script.specs.declared.line.Strength.TheVariants as strengths;
ghost use Rattle.coda_cell.specs.Cells.{linked_in};
ghost use Rattle.coda_cell.specs.State.{ClientState as CellClient, log_of, new_volume};
ghost use Rattle.coda_cell.specs.States.{link_with, shown_state, is_empty};
ghost use Rattle.coda_shelves.specs.Cells.{Cell, state_of};
ghost use Rattle.coda_shelves.specs.Lines.{Happens, client_down};
ghost use Rattle.coda_site.specs.Shelves.{Shows};
ghost use Rattle.coda_site.specs.Sites.{IsReady};
ghost use Rattle.coda_site.specs.Steps.{Becomes};
ghost use Rattle.coda_site.specs.Totals.{IsFault};

use crate::fault::CellFault;
use crate::links::{link_of, strength};
use crate::replies::{no_such_actor, refuse};
use crate::site::{Place, Site};
use coda_actors::Slot;
use coda_cml::Log;
use coda_crew::{get, is_up};
use coda_disk::{Bay, Disk};
use coda_net::Net;
use coda_replica::Replica;
use coda_script::{ClientState, Refusal, Reply, Strength};
use coda_state::{State, next};
use std::collections::BTreeMap;

/// A client's log of a volume; `None` where the client isn't there or is down, or never had a log of the volume.
pub fn log<'a, B: Bay>(_bay: &B, site: &'a Site<B::D>, client: u8, volume: u32) -> Option<&'a Log>
    ensures down { (cell : Cell) → Shows B.D.told (B.out _bay.now) (B.has _bay.now) cell site.now
        → client_down cell client ≡ true → result ≡ None }
    ensures shown { (cell : Cell) → Shows B.D.told (B.out _bay.now) (B.has _bay.now) cell site.now
        → client_down cell client ≡ false → (c : CellClient) → (state_of cell).clients client ≡ Some c
        → MatchOption result (log_of (c.volumes volume) ≡ log_of new_volume) (λ log. log.now ≡ log_of (c.volumes volume)) }
{
    match get(&site.clients, u32::from(client)) {
        Some(venus) => venus.log(volume),
        None => None,
    }
}

// Whether a log has no record.
fn is_empty(log: &Log) -> bool
    ensures { result ≡ is_empty log.now }
{
    let (chunk, records) = log.records();
    chunk.len() == 0 && records.len() == 0
}

// Whether a client has no record that is still to be sent, of a volume.
fn has_sent<B: Bay>(bay: &B, site: &Site<B::D>, client: u8, volume: u32) -> bool
    ensures { (cell : Cell) → Shows B.D.told (B.out bay.now) (B.has bay.now) cell site.now
        → client_down cell client ≡ false → (c : CellClient) → (state_of cell).clients client ≡ Some c
        → result ≡ is_empty (log_of (c.volumes volume)) }
{
    match log(bay, site, client, volume) {
        Some(log) => is_empty(log),
        None => true,
    }
}

// How well a client reaches the replica of a place: not at all where that is down.
fn reach<D: Disk + Drop>(
    net: &Net,
    replicas: &BTreeMap<u32, Slot<Replica<D>, D>>,
    client: u8,
    place: Place,
) -> Strength
    ensures { result ≡ cond (is_up (replica_form D.told) (slot_at replicas.now place.disk)) (linked_in net.now client place.server) strengths.Down }
{
    if is_up(replicas, place.disk) {
        strength(net, client, place.server)
    } else {
        Strength::Down
    }
}

// The state that a link and a log settle in: two looks at them are enough.
fn settled(strength: Strength, log_is_empty: bool) -> ClientState
    ensures { result ≡ shown_state (settled_state (link_with strength) log_is_empty) }
{
    let link = link_of(strength);
    match next(
        next(State::Emulating, link, log_is_empty),
        link,
        log_is_empty,
    ) {
        State::Hoarding => ClientState::Hoarding,
        State::Emulating => ClientState::Emulating,
        State::WriteDisconnected => ClientState::WriteDisconnected,
    }
}

/// Shows the state of a client on a volume, where both are there, and the client is up.
pub fn show_state<B: Bay>(
    _bay: &B,
    site: &Site<B::D>,
    client: u8,
    volume: u32,
) -> Result<Reply, CellFault>
    requires ready { IsReady B.D.told (B.out _bay.now) site.now }
    ensures does { (cell : Cell)
        → Shows B.D.told (B.out _bay.now) (B.has _bay.now) cell site.now
        → IfOk result (λ reply. Becomes B.D.told (B.out _bay.now) (B.has _bay.now)
        (Happens cell (line.ShowState client volume))
        reply (B.answered _bay.now) (B.answered _bay.now) site.now) }
    ensures memory { IfErr result (λ why. why ≡ CellFault.Memory) }
    ensures fine { ¬ IsFault result }
{
    if let Some(number) = site.missing(client, volume) {
        return Ok(no_such_actor(site.alloc, number)?);
    }
    let Some(place) = site.place(volume) else {
        unreachable!()
    };
    if !is_up(&site.clients, u32::from(client)) {
        return Ok(refuse(site.alloc, Refusal::Down));
    }
    let strength = reach(&site.net, &site.replicas, client, place);
    let state = settled(strength, has_sent(_bay, site, client, volume));
    Ok(Reply::State(state))
}
