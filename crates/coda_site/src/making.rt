// Lines that make actors.
ghost use Rattle.std.specs.Prelude.{◌≡◌, ◌≢◌, ◌≤◌, ◌<◌, ◌∷◌, ◌++◌, [], ℕ, List, ◌==◌, if◌then◌else◌, Some, None, IfOk, OnOk, OnErr, Err, false};
ghost use Rattle.coda_io.specs.Faults.{Rose};
ghost use Rattle.coda_crew.specs.declared.fault.CrewFault.TheVariants as crew_faults;
ghost use Rattle.coda_script.specs.Ranges.{InRange};
ghost use Rattle.coda_script.specs.declared.line.Line.TheVariants as line;
ghost use Rattle.coda_script.specs.declared.reply.Reply.TheVariants as reply;
ghost use Rattle.coda_shelves.specs.Shelves.{client_header, replica_header, disk_at};
ghost use Rattle.coda_shelves.specs.Cells.{Cell};
ghost use Rattle.coda_shelves.specs.Lines.{Happens};
ghost use Rattle.coda_site.specs.Makings.{SaysOpened};
ghost use Rattle.coda_site.specs.Shelves.{Shows};
ghost use Rattle.coda_site.specs.Sites.{IsReady, place_in};
ghost use Rattle.coda_site.specs.Steps.{Becomes};
ghost use Rattle.coda_site.specs.Totals.{IsCounted, IsFault, totals};
ghost use Rattle.coda_site.specs.declared.site.Place.{Place as APlace};

use crate::fault::CellFault;
use crate::replies::{refuse, refuse_number};
use crate::site::{Place, Site};
use coda_actors::Mounting;
use coda_crew::{CrewFault, is_made, open};
use coda_disk::Bay;
use coda_journal::{Header, Kind};
use coda_script::{Numbers, Refusal, Reply};
use std::alloc::{AllocError, Global};

/// The most volumes that are made.
const MOST_VOLUMES: usize = 64;

/// How many MiB the areas of all disks have at most.
const MOST_AREAS: u32 = 512;

/// The MiB of an area where the line names none.
pub const AREA: u8 = 8;

// The header that a client's line asks for.
fn client_header(client: u8, blocks: u32, area: u8) -> Header
    ensures { result ≡ client_header client blocks area }
{
    Header {
        kind: Kind::Client,
        number: u32::from(client),
        server: 0,
        group: 0,
        area: u32::from(area),
        cache: blocks,
    }
}

// That of the replica of a volume, which is on this server alone.
fn replica_header(volume: u32, server: u8, area: u8) -> Header
    requires { (1 ≤ server) × (server ≤ 8) }
    ensures { result ≡ replica_header volume (server ∷ []) area server }
{
    Header {
        kind: Kind::Replica,
        number: volume,
        server,
        group: 1u8 << (server - 1),
        area: u32::from(area),
        cache: 0,
    }
}

// The number of the disk of a server's replica of the volume that is made after so many others.
fn disk_number(before: usize, server: u8) -> u32
    requires { (before < 64) × (1 ≤ server) × (server ≤ 8) }
    ensures { result ≡ disk_at before server }
{
    256 + 8 * before as u32 + u32::from(server - 1)
}

// The reply that an actor's disk had so many entries. Fails for want of memory alone.
fn counted(alloc: Global, entries: u64) -> Result<Reply, AllocError>
    ensures { IfOk result (λ said. said ≡ reply.Opened (entries ∷ [])) }
{
    let numbers = vec![in alloc; entries]?;
    Ok(Reply::Opened(Numbers::from_vec(numbers)))
}

// The reply to a line that made an actor, by how the mounting of its disk ended.
fn opened(alloc: Global, mounting: Mounting) -> Result<Reply, CellFault>
    ensures says { IfOk result (λ said. SaysOpened mounting said) }
    ensures only { result ≢ Err CellFault.Bay }
    ensures cause { IsFault result → mounting ≡ Mounting.DiskFault }
{
    match mounting {
        Mounting::Entries(entries) => Ok(counted(alloc, entries)?),
        Mounting::DiskFault => Ok(refuse(alloc, Refusal::DiskFault)),
        Mounting::Foreign(at) => Ok(refuse_number(alloc, Refusal::Foreign, at)?),
        Mounting::Memory => Err(CellFault::Memory),
    }
}

// Why an actor's slot wasn't opened.
fn unopened(fault: CrewFault) -> CellFault
    ensures { result ≡ CellFault.Bay → fault ≡ crew_faults.Bay }
{
    match fault {
        CrewFault::Bay => CellFault::Bay,
        CrewFault::Memory => CellFault::Memory,
    }
}

/// Makes a client, whose disk is mounted.
///
/// # Errors
///
/// `Memory`, and `Bay` where the bay refused the disk.
pub fn make_client<B: Bay>(
    bay: &mut B,
    site: &mut Site<B::D>,
    client: u8,
    blocks: u32,
    area: u8,
) -> Result<Reply, CellFault>
    requires ready { IsReady B.D.told (B.out bay.old) site.old }
    requires range { InRange (line.Client client blocks (Some area)) }
    ensures ready { IsReady B.D.told (B.out bay.new) site.new }
    ensures does { (cell : Cell) → Shows B.D.told (B.out bay.old) (B.has bay.old) cell site.old
        → IfOk result (λ said. Becomes B.D.told (B.out bay.new) (B.has bay.new) (Happens cell (line.Client client blocks (Some area))) said (B.answered bay.old) (B.answered bay.new) site.new) }
    ensures net { site.new.net ≡ site.old.net }
    ensures answered { B.answered bay.new ≡ B.answered bay.old }
    ensures later { B.faults bay.old ≤ B.faults bay.new }
    ensures bay_cause { result ≡ Err CellFault.Bay → Rose (B.faults bay.old) (B.faults bay.new) }
    ensures follows { B.follows bay.old bay.new }
    ensures counts { IsCounted (IsFault result) false (totals B.D.told B.D.faults B.D.arms (B.disk_faults bay.old) (B.disk_arms bay.old) site.old) (totals B.D.told B.D.faults B.D.arms (B.disk_faults bay.new) (B.disk_arms bay.new) site.new) }
{
    if site.has_client(client) {
        return Ok(refuse(site.alloc, Refusal::AlreadyThere));
    }
    if site.areas + u32::from(area) > MOST_AREAS {
        return Ok(refuse(site.alloc, Refusal::CellFull));
    }
    let header = client_header(client, blocks, area);
    let number = u32::from(client);
    match open(site.alloc, bay, &mut site.clients, number, &header) {
        Ok(mounting) => {
            if is_made(&site.clients, number) {
                site.areas += u32::from(area);
            }
            opened(site.alloc, mounting)
        }
        Err(fault) => Err(unopened(fault)),
    }
}

// Notes where a volume is made that isn't there. Fails for want of memory alone, and then notes nothing.
fn note<D>(site: &mut Site<D>, volume: u32, place: Place) -> Result<(), AllocError>
    requires { place_in site.old volume ≡ None }
    ensures servers { OnOk result (site.new.servers.items ≡ site.old.servers.items ++ place.server ∷ []) }
    ensures places { OnOk result ((k : ℕ) → place_in site.new k ≡ (if k == volume then Some place else place_in site.old k)) }
    ensures servers_err { OnErr result (site.new.servers.items ≡ site.old.servers.items) }
    ensures places_err { OnErr result ((k : ℕ) → place_in site.new k ≡ place_in site.old k) }
    ensures others { site.new ≡ record site.old { servers = site.new.servers; places = site.new.places } }
{
    site.servers.push(place.server)?;
    if site.places.insert(volume, place).is_err() {
        site.servers.pop();
        return Err(AllocError);
    }
    Ok(())
}

// Takes back where the volume was noted that came last.
fn forget<D>(site: &mut Site<D>, volume: u32)
    ensures servers { (before : List ℕ) (server : ℕ) → site.old.servers.items ≡ before ++ server ∷ [] → site.new.servers.items ≡ before }
    ensures places { (k : ℕ) → place_in site.new k ≡ (if k == volume then None else place_in site.old k) }
    ensures others { site.new ≡ record site.old { servers = site.new.servers; places = site.new.places } }
{
    site.places.remove(&volume);
    site.servers.pop();
}

/// Makes a volume on a server, whose replica's disk is mounted.
///
/// # Errors
///
/// `Memory`, and `Bay` where the bay refused the disk.
pub fn make_volume<B: Bay>(
    bay: &mut B,
    site: &mut Site<B::D>,
    volume: u32,
    server: u8,
    area: u8,
) -> Result<Reply, CellFault>
    requires ready { IsReady B.D.told (B.out bay.old) site.old }
    requires volume { 1 ≤ volume }
    requires server { (1 ≤ server) × (server ≤ 8) }
    requires area { (1 ≤ area) × (area ≤ 64) }
    ensures ready { IsReady B.D.told (B.out bay.new) site.new }
    ensures does { (cell : Cell) → Shows B.D.told (B.out bay.old) (B.has bay.old) cell site.old
        → IfOk result (λ said. Becomes B.D.told (B.out bay.new) (B.has bay.new) (Happens cell (line.Volume volume (server ∷ []) (Some area))) said (B.answered bay.old) (B.answered bay.new) site.new) }
    ensures net { site.new.net ≡ site.old.net }
    ensures answered { B.answered bay.new ≡ B.answered bay.old }
    ensures later { B.faults bay.old ≤ B.faults bay.new }
    ensures bay_cause { result ≡ Err CellFault.Bay → Rose (B.faults bay.old) (B.faults bay.new) }
    ensures follows { B.follows bay.old bay.new }
    ensures counts { IsCounted (IsFault result) false (totals B.D.told B.D.faults B.D.arms (B.disk_faults bay.old) (B.disk_arms bay.old) site.old) (totals B.D.told B.D.faults B.D.arms (B.disk_faults bay.new) (B.disk_arms bay.new) site.new) }
{
    if site.places.contains_key(&volume) {
        return Ok(refuse(site.alloc, Refusal::AlreadyThere));
    }
    if site.servers.len() >= MOST_VOLUMES || site.areas + u32::from(area) > MOST_AREAS {
        return Ok(refuse(site.alloc, Refusal::CellFull));
    }
    let header = replica_header(volume, server, area);
    let disk = disk_number(site.servers.len(), server);
    // The place is noted first: then no memory is wanted behind the mounting for where the replica is.
    note(site, volume, Place { server, disk })?;
    match open(site.alloc, bay, &mut site.replicas, disk, &header) {
        Ok(mounting) => {
            if is_made(&site.replicas, disk) {
                site.areas += u32::from(area);
            } else {
                forget(site, volume);
            }
            opened(site.alloc, mounting)
        }
        Err(fault) => {
            forget(site, volume);
            Err(unopened(fault))
        }
    }
}
