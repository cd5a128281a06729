// A cell: a site, and the bay that has its disks.
ghost use Rattle.std.specs.Prelude.{◌≡◌, ◌≢◌, ◌≤◌, ◌<◌, ◌+◌, ◌^◌, ℕ, true, false, List, [], ◌∷◌, length, Some, None, MatchOption, IfOk, OnErr, Err};
ghost use Rattle.coda_io.specs.Faults.{Rose};
ghost use Rattle.coda_script.specs.Ranges.{InRange};
ghost use Rattle.coda_cell.specs.Steps.{alone};
ghost use Rattle.coda_cell.specs.Cells.{volume_at};
ghost use Rattle.coda_cell.specs.State.{ClientState, log_of, new_volume};
ghost use Rattle.coda_shelves.specs.Cells.{Cell as PlainCell, begun_on, shelves_of, state_of};
ghost use Rattle.coda_shelves.specs.Kept.{AreKept};
ghost use Rattle.coda_shelves.specs.Lines.{is_built, Happens, client_down, replica_down};
ghost use Rattle.coda_shelves.specs.Shelves.{Shelves};
ghost use Rattle.coda_site.specs.Shelves.{Shows, Leads, AreOnDisks};
ghost use Rattle.coda_site.specs.Makings.{asks_bay};
ghost use Rattle.coda_site.specs.Sites.{IsReady, IsClosable};
ghost use Rattle.coda_site.specs.Totals.{IsCounted, IsFault, has_armed, total, totals};
ghost use Rattle.coda_disk.specs.Bays.{plus};

use crate::fault::CellFault;
use crate::lines::{fail, set_link, show_log, show_volume, tick};
use crate::making::{AREA, make_client, make_volume};
use crate::messages::{deliver, lose, send};
use crate::site::Site;
use crate::states::{log, show_state};
use crate::tasks::{AGING_WINDOW, carry_out};
use coda_cml::Log;
use coda_crew::{get, give_back, unmade};
use coda_disk::Bay;
use coda_net::Net;
use coda_script::{Line, Reply};
use coda_tree::Volume;
use std::alloc::Global;
use std::collections::BTreeMap;

// The server of a volume that is on one alone.
fn alone(servers: &[u8]) -> u8
    ensures { result ≡ alone servers.now }
{
    match servers {
        [] => 0,
        [server, ..] => *server,
    }
}

/// A Coda cell on the disks of a bay.
#[derive(Drop)]
pub struct Cell<B: Bay> {
    /// The bay.
    pub bay: B,
    /// What was made so far.
    pub site: Site<B::D>,
}

impl<B: Bay> Cell<B> {
    /// A cell in which nothing was made. No number of the bay is out.
    pub fn new(alloc: Global, bay: B) -> Cell<B>
        requires { (number : ℕ) → B.out bay number ≡ false }
        ensures bay { result.bay ≡ bay }
        ensures ready { IsReady B.D.told (B.out result.bay) result.site }
        ensures closable { IsClosable (B.out result.bay) result.site }
        ensures posted { result.site.net.posted ≡ 0 }
        ensures empty { (result.site.servers.items ≡ []) × (result.site.areas ≡ 0) }
        ensures shelves { (shelves : Shelves) → AreKept shelves → AreOnDisks B.D.told (B.has result.bay) shelves → Shows B.D.told (B.out result.bay) (B.has result.bay) (begun_on shelves) result.site }
        ensures counts { totals B.D.told B.D.faults B.D.arms (B.disk_faults result.bay) (B.disk_arms result.bay) result.site ≡ record { faults = plus (B.disk_faults bay) 0; arms = plus (B.disk_arms bay) 0 } }
    {
        let clients = unmade(alloc, &bay);
        let replicas = unmade(alloc, &bay);
        Cell {
            bay,
            site: Site {
                alloc,
                clock: 0,
                servers: Vec::new(alloc),
                places: BTreeMap::new(alloc),
                areas: 0,
                clients,
                replicas,
                net: Net::new(alloc),
            },
        }
    }

    /// Carries out a line that is built, and answers its reply.
    ///
    /// # Errors
    ///
    /// `Memory`, and `Bay` where the bay refused a disk, or a crash.
    pub fn step(&mut self, line: &Line) -> Result<Reply, CellFault>
        requires built { is_built line.now ≡ true }
        requires range { InRange line.now }
        requires ready { IsReady B.D.told (B.out self.old.bay) self.old.site }
        requires few { self.old.site.net.posted < 2 ^ 63 }
        ensures ready { result ≢ Err CellFault.Bay → IsReady B.D.told (B.out self.new.bay) self.new.site }
        ensures closable { IsClosable (B.out self.new.bay) self.new.site }
        ensures does { (plain : PlainCell) → Shows B.D.told (B.out self.old.bay) (B.has self.old.bay) plain self.old.site
            → IfOk result (λ reply. Leads B.D.told (B.out self.new.bay) (B.has self.new.bay) (Happens plain line.now) reply (B.answered self.old.bay) (B.answered self.new.bay) self.new.site) }
        ensures posted { self.new.site.net.posted ≤ self.old.site.net.posted + 1 }
        ensures later { B.faults self.old.bay ≤ B.faults self.new.bay }
        ensures bay_cause { result ≡ Err CellFault.Bay → Rose (B.faults self.old.bay) (B.faults self.new.bay) }
        ensures asked { result ≡ Err CellFault.Bay → asks_bay line.now ≡ true }
        ensures answered_err { OnErr result (B.answered self.new.bay ≡ B.answered self.old.bay) }
        ensures follows { B.follows self.old.bay self.new.bay }
        ensures counts { IsCounted (IsFault result) (has_armed line.now result) (totals B.D.told B.D.faults B.D.arms (B.disk_faults self.old.bay) (B.disk_arms self.old.bay) self.old.site) (totals B.D.told B.D.faults B.D.arms (B.disk_faults self.new.bay) (B.disk_arms self.new.bay) self.new.site) }
    {
        let (bay, site) = (&mut self.bay, &mut self.site);
        match line {
            Line::Volume {
                volume,
                servers,
                area,
            } => make_volume(
                bay,
                site,
                *volume,
                alone(servers.servers()),
                area.unwrap_or(AREA),
            ),
            Line::Client {
                client,
                blocks,
                area,
            } => make_client(bay, site, *client, *blocks, area.unwrap_or(AREA)),
            Line::Link {
                client,
                server,
                strength,
            } => set_link(bay, site, *client, *server, *strength),
            Line::Tick { seconds } => Ok(tick(bay, site, *seconds)),
            Line::Task(task) => carry_out(bay, site, task),
            Line::ShowVolume { server, volume } => show_volume(bay, site, *server, *volume),
            Line::ShowLog { client, volume } => show_log(bay, site, *client, *volume),
            Line::ShowState { client, volume } => show_state(bay, site, *client, *volume),
            Line::Send {
                client,
                volume,
                server,
                window,
            } => {
                let window = window.unwrap_or(AGING_WINDOW);
                send(bay, site, *client, *volume, *server, window)
            }
            Line::Deliver { message } => deliver(bay, site, *message),
            Line::Lose { message } => lose(bay, site, *message),
            _ => fail(bay, site, line),
        }
    }

    /// Gives every disk back, and answers the bay. It takes no memory.
    pub fn close(self) -> B
        requires { IsClosable (B.out self.bay) self.site }
        ensures out { IsReady B.D.told (B.out self.bay) self.site → (number : ℕ) → B.out result number ≡ false }
        ensures shelves { (plain : PlainCell) → IsReady B.D.told (B.out self.bay) self.site → Shows B.D.told (B.out self.bay) (B.has self.bay) plain self.site → AreOnDisks B.D.told (B.has result) (shelves_of plain) }
        ensures answered { B.answered result ≡ B.answered self.bay }
        ensures faults { B.faults result ≡ B.faults self.bay }
        ensures follows { B.follows self.bay result }
        ensures faults_out { plus (B.disk_faults result) 0 ≡ total B.D.told B.D.faults (B.disk_faults self.bay) self.site }
        ensures arms_out { plus (B.disk_arms result) 0 ≡ total B.D.told B.D.arms (B.disk_arms self.bay) self.site }
    {
        let mut bay = self.bay;
        give_back(&mut bay, self.site.clients);
        give_back(&mut bay, self.site.replicas);
        bay
    }

    /// The volume that a server has; `None` where it has none of this number, or is down.
    pub fn volume(&self, server: u8, volume: u32) -> Option<&Volume>
        ensures down { (cell : PlainCell) → Shows B.D.told (B.out self.now.bay) (B.has self.now.bay) cell self.now.site
            → replica_down cell server volume ≡ true → result ≡ None }
        ensures shown { (cell : PlainCell) → Shows B.D.told (B.out self.now.bay) (B.has self.now.bay) cell self.now.site
            → replica_down cell server volume ≡ false
            → MatchOption result (volume_at ((state_of cell).replicas volume) server ≡ None) (λ tree. volume_at ((state_of cell).replicas volume) server ≡ Some tree.now) }
    {
        let place = self.site.place(volume)?;
        if place.server != server {
            return None;
        }
        match get(&self.site.replicas, place.disk) {
            Some(replica) => Some(replica.volume()),
            None => None,
        }
    }

    /// A client's log of a volume; `None` where the client isn't there or is down, or never had a log of the volume.
    pub fn log(&self, client: u8, volume: u32) -> Option<&Log>
        ensures down { (cell : PlainCell) → Shows B.D.told (B.out self.now.bay) (B.has self.now.bay) cell self.now.site
            → client_down cell client ≡ true → result ≡ None }
        ensures shown { (cell : PlainCell) → Shows B.D.told (B.out self.now.bay) (B.has self.now.bay) cell self.now.site
            → client_down cell client ≡ false → (c : ClientState) → (state_of cell).clients client ≡ Some c
            → MatchOption result (log_of (c.volumes volume) ≡ log_of new_volume) (λ log. log.now ≡ log_of (c.volumes volume)) }
    {
        log(&self.bay, &self.site, client, volume)
    }
}
