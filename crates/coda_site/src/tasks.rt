// What clients are asked to do.
ghost use Rattle.std.specs.Prelude.{◌≡◌, ℕ, true, false, Some, replicate, IfOk, IfErr, IsErrOf};
ghost use Rattle.std.specs.BTreeMap.{get as get_in};
ghost use Rattle.std.specs.Ordering.{nat_cmp};
ghost use Rattle.coda_actors.specs.Clients.{client_form};
ghost use Rattle.coda_actors.specs.Slots.{is_up};
ghost use Rattle.coda_crew.specs.Crews.{slot_at, KeepsOtherSlots};
ghost use Rattle.coda_record.specs.Spelling.{HasSpelling};
ghost use Rattle.coda_record.specs.Table.{volume as a_volume};
ghost use Rattle.coda_script.specs.Ranges.{TaskInRange};
ghost use Rattle.coda_script.specs.declared.line.Line.TheVariants as line;
ghost use Rattle.coda_venus.specs.Ask.{asked, IsAskSpelled};
ghost use Rattle.coda_serving.specs.Fetching.{nodes_offered};
ghost use Rattle.coda_venus.specs.Ask.{Store};
ghost use Rattle.coda_cell.specs.Asking.{operate as operate_answer};
ghost use Rattle.coda_cell.specs.Steps.{is_built_task, bytes_of};
ghost use Rattle.coda_serving.specs.Serving.{show_answer, reply_of, IsDone, IsShown};
ghost use Rattle.coda_shelves.specs.Cells.{Cell};
ghost use Rattle.coda_shelves.specs.Lines.{Happens};
ghost use Rattle.coda_site.specs.Shelves.{Shows};
ghost use Rattle.coda_site.specs.Sites.{IsReady};
ghost use Rattle.coda_site.specs.Steps.{Becomes};
ghost use Rattle.coda_site.specs.Totals.{IsCounted, IsFault, counts_in, counts_of, totals};
ghost use Rattle.coda_site.specs.Tasks.{is_making, is_changing, Asks, SlotEnds, CallEnds, offered_at};

use crate::draining::drain;
use crate::fault::CellFault;
use crate::links::strength;
use crate::replies::{no_such_actor, refuse, refused};
use crate::site::{Place, Site};
use coda_actors::Slot;
use coda_crew::{get, is_up};
use coda_disk::{Bay, Disk};
use coda_fid::{Bytes, Path};
use coda_net::Net;
use coda_replica::Replica;
use coda_script::{Content, Readable, Refusal, Reply, Strength, Task};
use coda_serving::{Showing, operate, show};
use coda_tree::{NodeKind, Volume};
use coda_venus::{Ask, Done, Refused, Seen, Venus};
use std::alloc::{AllocError, Global};
use std::collections::BTreeMap;

/// The mode of a new directory where the line names none: rwxr-xr-x.
const DIRECTORY_MODE: u16 = 0o755;

/// The mode of a new file where the line names none: rw-r--r--.
const FILE_MODE: u16 = 0o644;

/// The seconds that an operation waits before it is sent, where the line names none (Mummert, Ebling and Satyanarayanan
/// 1995).
pub const AGING_WINDOW: u64 = 600;

// What a client can fetch of a volume: what its replica has, where that is up and can be reached.
fn offers_of<'a, D: Disk + Drop>(
    net: &Net,
    places: &BTreeMap<u32, Place>,
    replicas: &'a BTreeMap<u32, Slot<Replica<D>, D>>,
    client: u8,
    volume: u32,
) -> Option<&'a Volume>
    ensures { nodes_offered result ≡ offered_at net.now replicas.now client (get_in nat_cmp places.now volume) }
{
    let place = places.get(&volume)?;
    match strength(net, client, place.server) {
        Strength::Strong => {}
        Strength::Weak => {}
        Strength::Down => return None,
    }
    match get(replicas, place.disk) {
        Some(replica) => Some(replica.volume()),
        None => None,
    }
}

// Has a client perform an operation in its slot, where it is up.
fn operate_in<D: Disk + Drop>(
    slot: &mut Slot<Venus<D>, D>,
    offers: Option<&Volume>,
    now: u64,
    volume: u32,
    ask: &Ask,
) -> Result<Done, Refused>
    requires up { is_up (client_form D.told) slot.old ≡ true }
    requires volume { HasSpelling a_volume volume }
    requires ask { IsAskSpelled (asked ask.now) }
    ensures ends { SlotEnds D.told (nodes_offered offers.entry)
        (λ o c. operate_answer o c now volume (asked ask.now)) slot.old slot.new IsDone result }
    ensures counts { IsCounted (IsErrOf result Refused.DiskFault) false (counts_in (client_form D.told) D.faults D.arms slot.old) (counts_in (client_form D.told) D.faults D.arms slot.new) }
{
    match slot {
        Slot::Started { actor, .. } => operate(actor, offers, now, volume, ask),
        _ => unreachable!(),
    }
}

// Has a client that is up perform an operation.
fn operate_at<D: Disk + Drop>(
    clients: &mut BTreeMap<u32, Slot<Venus<D>, D>>,
    number: u32,
    offers: Option<&Volume>,
    now: u64,
    volume: u32,
    ask: &Ask,
) -> Result<Done, Refused>
    requires up { is_up (client_form D.told) (slot_at clients.old number) ≡ true }
    requires volume { HasSpelling a_volume volume }
    requires ask { IsAskSpelled (asked ask.now) }
    ensures slots { KeepsOtherSlots number clients.old clients.new }
    ensures ends { CallEnds D.told number (nodes_offered offers.entry)
        (λ o c. operate_answer o c now volume (asked ask.now)) clients.old clients.new IsDone result }
    ensures counts { IsCounted (IsErrOf result Refused.DiskFault) false (counts_of (client_form D.told) D.faults D.arms clients.old) (counts_of (client_form D.told) D.faults D.arms clients.new) }
{
    let slot = clients.get_mut(&number).unwrap();
    operate_in(slot, offers, now, volume, ask)
}

// Has a client show what is at a path in its slot, where it is up.
fn show_in<D: Disk + Drop>(
    alloc: Global,
    slot: &mut Slot<Venus<D>, D>,
    offers: Option<&Volume>,
    what: Showing,
    volume: u32,
    path: &Path,
) -> Result<(Seen, bool), Refused>
    requires up { is_up (client_form D.told) slot.old ≡ true }
    ensures ends { SlotEnds D.told (nodes_offered offers.entry)
        (λ o c. show_answer what o c volume path.now) slot.old slot.new IsShown result }
    ensures counts { IsCounted (IsErrOf result Refused.DiskFault) false (counts_in (client_form D.told) D.faults D.arms slot.old) (counts_in (client_form D.told) D.faults D.arms slot.new) }
{
    match slot {
        Slot::Started { actor, .. } => show(alloc, actor, offers, what, volume, path),
        _ => unreachable!(),
    }
}

// Has a client that is up show what is at a path.
fn show_at<D: Disk + Drop>(
    alloc: Global,
    clients: &mut BTreeMap<u32, Slot<Venus<D>, D>>,
    number: u32,
    offers: Option<&Volume>,
    what: Showing,
    volume: u32,
    path: &Path,
) -> Result<(Seen, bool), Refused>
    requires up { is_up (client_form D.told) (slot_at clients.old number) ≡ true }
    ensures slots { KeepsOtherSlots number clients.old clients.new }
    ensures ends { CallEnds D.told number (nodes_offered offers.entry)
        (λ o c. show_answer what o c volume path.now) clients.old clients.new IsShown result }
    ensures counts { IsCounted (IsErrOf result Refused.DiskFault) false (counts_of (client_form D.told) D.faults D.arms clients.old) (counts_of (client_form D.told) D.faults D.arms clients.new) }
{
    let slot = clients.get_mut(&number).unwrap();
    show_in(alloc, slot, offers, what, volume, path)
}

// The reply to an object that was shown.
fn shown(fetched: bool, kind: NodeKind) -> Reply
    ensures { result ≡ reply_of fetched kind }
{
    match kind {
        NodeKind::File(content) => {
            let what = Readable::File(content);
            Reply::Read { fetched, what }
        }
        NodeKind::Link(target) => {
            let what = Readable::Link(target);
            Reply::Read { fetched, what }
        }
        NodeKind::Dir(entries) => Reply::Listed { fetched, entries },
    }
}

// Has a client perform an operation, unless it or the volume isn't there, or the client is down.
fn perform<B: Bay>(
    _bay: &B,
    site: &mut Site<B::D>,
    client: u8,
    volume: u32,
    ask: Ask,
) -> Result<Reply, CellFault>
    requires ready { IsReady B.D.told (B.out _bay.now) site.old }
    requires volume { HasSpelling a_volume volume }
    requires ask { IsAskSpelled (asked ask) }
    ensures ready { IsReady B.D.told (B.out _bay.now) site.new }
    ensures does { (cell : Cell)
        → Shows B.D.told (B.out _bay.now) (B.has _bay.now) cell site.old
        → IfOk result (λ reply. Becomes B.D.told (B.out _bay.now) (B.has _bay.now)
        (Asks cell client volume (λ o c. operate_answer o c cell.clock volume (asked ask.entry)))
        reply (B.answered _bay.now) (B.answered _bay.now) site.new) }
    ensures net { site.new.net ≡ site.old.net }
    ensures memory { IfErr result (λ why. why ≡ CellFault.Memory) }
    ensures counts { IsCounted (IsFault result) false (totals B.D.told B.D.faults B.D.arms (B.disk_faults _bay.now) (B.disk_arms _bay.now) site.old) (totals B.D.told B.D.faults B.D.arms (B.disk_faults _bay.now) (B.disk_arms _bay.now) site.new) }
{
    if let Some(number) = site.missing(client, volume) {
        return Ok(no_such_actor(site.alloc, number)?);
    }
    if !is_up(&site.clients, u32::from(client)) {
        return Ok(refuse(site.alloc, Refusal::Down));
    }
    let offers = offers_of(&site.net, &site.places, &site.replicas, client, volume);
    let now = site.clock;
    match operate_at(
        &mut site.clients,
        u32::from(client),
        offers,
        now,
        volume,
        &ask,
    ) {
        Ok(done) => Ok(Reply::Done {
            number: done.number,
            fid: done.fid,
        }),
        Err(why) => refused(site.alloc, why),
    }
}

// Has a client show what is at a path, unless it or the volume isn't there, or the client is down.
fn look<B: Bay>(
    _bay: &B,
    site: &mut Site<B::D>,
    client: u8,
    volume: u32,
    what: Showing,
    path: &Path,
) -> Result<Reply, CellFault>
    requires ready { IsReady B.D.told (B.out _bay.now) site.old }
    ensures ready { IsReady B.D.told (B.out _bay.now) site.new }
    ensures does { (cell : Cell)
        → Shows B.D.told (B.out _bay.now) (B.has _bay.now) cell site.old
        → IfOk result (λ reply. Becomes B.D.told (B.out _bay.now) (B.has _bay.now)
        (Asks cell client volume (λ o c. show_answer what o c volume path.now))
        reply (B.answered _bay.now) (B.answered _bay.now) site.new) }
    ensures net { site.new.net ≡ site.old.net }
    ensures memory { IfErr result (λ why. why ≡ CellFault.Memory) }
    ensures counts { IsCounted (IsFault result) false (totals B.D.told B.D.faults B.D.arms (B.disk_faults _bay.now) (B.disk_arms _bay.now) site.old) (totals B.D.told B.D.faults B.D.arms (B.disk_faults _bay.now) (B.disk_arms _bay.now) site.new) }
{
    if let Some(number) = site.missing(client, volume) {
        return Ok(no_such_actor(site.alloc, number)?);
    }
    if !is_up(&site.clients, u32::from(client)) {
        return Ok(refuse(site.alloc, Refusal::Down));
    }
    let offers = offers_of(&site.net, &site.places, &site.replicas, client, volume);
    let alloc = site.alloc;
    match show_at(
        alloc,
        &mut site.clients,
        u32::from(client),
        offers,
        what,
        volume,
        path,
    ) {
        Ok((seen, fetched)) => Ok(shown(fetched, seen.node.kind)),
        Err(why) => refused(alloc, why),
    }
}

// The bytes of content that is one byte, so many times.
fn filled(alloc: Global, length: u32, byte: u8) -> Result<Bytes, AllocError>
    ensures { IfOk result (λ bytes. bytes ≡ replicate length byte) }
{
    let filled = vec![in alloc; byte; length as usize]?;
    Ok(Bytes::from_vec(filled))
}

// Has a client store content in a file.
fn store<B: Bay>(
    bay: &B,
    site: &mut Site<B::D>,
    client: u8,
    volume: u32,
    path: &Path,
    content: &Content,
) -> Result<Reply, CellFault>
    requires ready { IsReady B.D.told (B.out bay.now) site.old }
    requires volume { HasSpelling a_volume volume }
    ensures ready { IsReady B.D.told (B.out bay.now) site.new }
    ensures does { (cell : Cell)
        → Shows B.D.told (B.out bay.now) (B.has bay.now) cell site.old
        → IfOk result (λ reply. Becomes B.D.told (B.out bay.now) (B.has bay.now)
        (Asks cell client volume
        (λ o c. operate_answer o c cell.clock volume (Store path.now (bytes_of content.now))))
        reply (B.answered bay.now) (B.answered bay.now) site.new) }
    ensures net { site.new.net ≡ site.old.net }
    ensures memory { IfErr result (λ why. why ≡ CellFault.Memory) }
    ensures counts { IsCounted (IsFault result) false (totals B.D.told B.D.faults B.D.arms (B.disk_faults bay.now) (B.disk_arms bay.now) site.old) (totals B.D.told B.D.faults B.D.arms (B.disk_faults bay.now) (B.disk_arms bay.now) site.new) }
{
    match content {
        Content::Text(content) => perform(bay, site, client, volume, Ask::Store { path, content }),
        Content::Fill { length, byte } => {
            let content = &filled(site.alloc, *length, *byte)?;
            perform(bay, site, client, volume, Ask::Store { path, content })
        }
    }
}

// Has a client make an object.
fn make<B: Bay>(bay: &B, site: &mut Site<B::D>, task: &Task) -> Result<Reply, CellFault>
    requires ready { IsReady B.D.told (B.out bay.now) site.old }
    requires made { is_making task.now ≡ true }
    requires range { TaskInRange task.now }
    ensures ready { IsReady B.D.told (B.out bay.now) site.new }
    ensures does { (cell : Cell)
        → Shows B.D.told (B.out bay.now) (B.has bay.now) cell site.old
        → IfOk result (λ reply. Becomes B.D.told (B.out bay.now) (B.has bay.now) (Happens cell (line.Task task.now))
        reply (B.answered bay.now) (B.answered bay.now) site.new) }
    ensures net { site.new.net ≡ site.old.net }
    ensures memory { IfErr result (λ why. why ≡ CellFault.Memory) }
    ensures counts { IsCounted (IsFault result) false (totals B.D.told B.D.faults B.D.arms (B.disk_faults bay.now) (B.disk_arms bay.now) site.old) (totals B.D.told B.D.faults B.D.arms (B.disk_faults bay.now) (B.disk_arms bay.now) site.new) }
{
    match task {
        Task::Create {
            client,
            volume,
            path,
            mode,
            owner,
        } => {
            let (mode, owner) = (mode.unwrap_or(FILE_MODE), owner.unwrap_or(0));
            perform(
                bay,
                site,
                *client,
                *volume,
                Ask::Create { path, mode, owner },
            )
        }
        Task::Mkdir {
            client,
            volume,
            path,
            mode,
            owner,
        } => {
            let (mode, owner) = (mode.unwrap_or(DIRECTORY_MODE), owner.unwrap_or(0));
            perform(
                bay,
                site,
                *client,
                *volume,
                Ask::Mkdir { path, mode, owner },
            )
        }
        Task::Symlink {
            client,
            volume,
            path,
            target,
        } => perform(bay, site, *client, *volume, Ask::Symlink { path, target }),
        _ => unreachable!(),
    }
}

// Has a client change, remove or move an object.
fn change<B: Bay>(bay: &B, site: &mut Site<B::D>, task: &Task) -> Result<Reply, CellFault>
    requires ready { IsReady B.D.told (B.out bay.now) site.old }
    requires changed { is_changing task.now ≡ true }
    requires range { TaskInRange task.now }
    ensures ready { IsReady B.D.told (B.out bay.now) site.new }
    ensures does { (cell : Cell)
        → Shows B.D.told (B.out bay.now) (B.has bay.now) cell site.old
        → IfOk result (λ reply. Becomes B.D.told (B.out bay.now) (B.has bay.now) (Happens cell (line.Task task.now))
        reply (B.answered bay.now) (B.answered bay.now) site.new) }
    ensures net { site.new.net ≡ site.old.net }
    ensures memory { IfErr result (λ why. why ≡ CellFault.Memory) }
    ensures counts { IsCounted (IsFault result) false (totals B.D.told B.D.faults B.D.arms (B.disk_faults bay.now) (B.disk_arms bay.now) site.old) (totals B.D.told B.D.faults B.D.arms (B.disk_faults bay.now) (B.disk_arms bay.now) site.new) }
{
    match task {
        Task::Setattr {
            client,
            volume,
            path,
            attrs,
        } => {
            let attrs = *attrs;
            perform(bay, site, *client, *volume, Ask::Setattr { path, attrs })
        }
        Task::Remove {
            client,
            volume,
            path,
        } => perform(bay, site, *client, *volume, Ask::Remove { path }),
        Task::Rmdir {
            client,
            volume,
            path,
        } => perform(bay, site, *client, *volume, Ask::Rmdir { path }),
        Task::Rename {
            client,
            volume,
            from,
            to,
        } => perform(bay, site, *client, *volume, Ask::Rename { from, to }),
        _ => unreachable!(),
    }
}

/// Carries out what a client is to do.
///
/// # Errors
///
/// `Memory` alone.
pub fn carry_out<B: Bay>(bay: &B, site: &mut Site<B::D>, task: &Task) -> Result<Reply, CellFault>
    requires ready { IsReady B.D.told (B.out bay.now) site.old }
    requires built { is_built_task task.now ≡ true }
    requires range { TaskInRange task.now }
    ensures ready { IsReady B.D.told (B.out bay.now) site.new }
    ensures does { (cell : Cell)
        → Shows B.D.told (B.out bay.now) (B.has bay.now) cell site.old
        → IfOk result (λ reply. Becomes B.D.told (B.out bay.now) (B.has bay.now) (Happens cell (line.Task task.now))
        reply (B.answered bay.now) (B.answered bay.now) site.new) }
    ensures net { site.new.net ≡ site.old.net }
    ensures memory { IfErr result (λ why. why ≡ CellFault.Memory) }
    ensures counts { IsCounted (IsFault result) false (totals B.D.told B.D.faults B.D.arms (B.disk_faults bay.now) (B.disk_arms bay.now) site.old) (totals B.D.told B.D.faults B.D.arms (B.disk_faults bay.now) (B.disk_arms bay.now) site.new) }
{
    match task {
        Task::Create { .. } => make(bay, site, task),
        Task::Mkdir { .. } => make(bay, site, task),
        Task::Symlink { .. } => make(bay, site, task),
        Task::Store {
            client,
            volume,
            path,
            content,
        } => store(bay, site, *client, *volume, path, content),
        Task::Read {
            client,
            volume,
            path,
        } => look(bay, site, *client, *volume, Showing::Content, path),
        Task::List {
            client,
            volume,
            path,
        } => look(bay, site, *client, *volume, Showing::Names, path),
        Task::Drain {
            client,
            volume,
            server,
            window,
        } => {
            let window = window.unwrap_or(AGING_WINDOW);
            drain(bay, site, *client, *volume, *server, window)
        }
        _ => change(bay, site, task),
    }
}
