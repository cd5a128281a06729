// What clients and replicas that are up do for a chunk, in their slots.
ghost use Rattle.std.specs.Prelude.{◌≡◌, ◌≤◌, ℕ, List, true, false, OnOk, IfSome, IsErrOf};
ghost use Rattle.coda_fid.specs.declared.op.Record.{Record as ARecord};
ghost use Rattle.coda_journal.specs.declared.header.Header.{Header as AskedHeader};
ghost use Rattle.coda_record.specs.Form.{four};
ghost use Rattle.coda_record.specs.Spelling.{HasSpelling};
ghost use Rattle.coda_record.specs.Table.{client as a_client, server as a_server, volume as a_volume};
ghost use Rattle.coda_record.specs.Table.{verdict as a_verdict, records as some_records};
ghost use Rattle.coda_actors.specs.Clients.{client_form};
ghost use Rattle.coda_actors.specs.Replicas.{replica_form};
ghost use Rattle.coda_actors.specs.Slots.{is_up};
ghost use Rattle.coda_crew.specs.Crews.{slot_at, KeepsOtherSlots};
ghost use Rattle.coda_plain.specs.Cell.{ClientEntry};
ghost use Rattle.coda_plain.specs.Decisions.{sent_of};
ghost use Rattle.coda_venus.specs.Standing.{IsUp};
ghost use Rattle.coda_cell.specs.Sending.{freezing, ruling, taking};
ghost use Rattle.coda_matching.specs.Clients.{journal_by, IsClientHistory};
ghost use Rattle.coda_matching.specs.Replicas.{RulingEnds};
ghost use Rattle.coda_sending.specs.Ending.{FreezingEnds, TakingEnds, verdict_in};
ghost use Rattle.coda_site.specs.Totals.{IsCounted, counts_of};
ghost use Rattle.coda_site.specs.Chunks.{volume_by, replica_by, ClientEnds, ReplicaEnds};

use coda_actors::Slot;
use coda_crew::{get, put, take as take_slot};
use coda_disk::Disk;
use coda_fid::Record;
use coda_record::Answer;
use coda_replica::{Replica, ReplicaFault};
use coda_sending::{chunk_for, freeze_for, rule, take};
use coda_venus::{Refused, Venus};
use std::collections::BTreeMap;

/// How far a log is to be sent: what is at least so old at a time, both in seconds.
#[derive(Clone, Copy, Debug)]
pub struct Until {
    /// The time.
    pub now: u64,
    /// The age.
    pub window: u64,
}

/// The number of the chunk of a client that goes to a server: one that is frozen for it, or else one that is frozen now.
///
/// # Errors
///
/// Those of `freeze_for` of `coda_sending`.
pub fn freeze_at<D: Disk + Drop>(
    until: Until,
    client: u8,
    volume: u32,
    server: u8,
    clients: &mut BTreeMap<u32, Slot<Venus<D>, D>>,
) -> Result<u64, Refused>
    requires up { is_up (client_form D.told) (slot_at clients.old client) ≡ true }
    requires volume { HasSpelling a_volume volume }
    requires server { HasSpelling a_server server }
    ensures ends { ClientEnds D.told client clients.old clients.new (λ header history left.
        FreezingEnds D.told header history volume (freezing until.now until.window server (volume_by header history volume)) left result) }
    ensures others { KeepsOtherSlots client clients.old clients.new }
    ensures up { OnOk result (is_up (client_form D.told) (slot_at clients.new client) ≡ true) }
    ensures seen { (disk : D) → (D.told disk).honest → (D.told disk).may_leave (D.told disk).seen }
    ensures counts { IsCounted (IsErrOf result Refused.DiskFault) false (counts_of (client_form D.told) D.faults D.arms clients.old) (counts_of (client_form D.told) D.faults D.arms clients.new) }
{
    let number = u32::from(client);
    match take_slot(clients, number) {
        Slot::Started { header, mut actor } => {
            let said = freeze_for(&mut actor, until.now, until.window, volume, server);
            put(clients, number, Slot::Started { header, actor });
            said
        }
        _ => unreachable!(),
    }
}

/// The records of the chunk of a volume that is on its way from a client.
pub fn chunk_at<D: Disk>(
    clients: &BTreeMap<u32, Slot<Venus<D>, D>>,
    client: u8,
    volume: u32,
) -> &[Record]
    requires up { is_up (client_form D.told) (slot_at clients.now client) ≡ true }
    ensures records { (header : AskedHeader) (venus : Venus D) (history : List ClientEntry) → slot_at clients.now client ≡ Slot.Started header venus
        → IsUp D.told header venus (journal_by history) → IsClientHistory header history → result.now ≡ sent_of (volume_by header history volume).front }
    ensures sendable { HasSpelling (some_records four) result.now }
{
    match get(clients, u32::from(client)) {
        Some(venus) => chunk_for(venus, volume),
        None => unreachable!(),
    }
}

/// What a replica answers to a client's chunk, by the records that were sent.
///
/// # Errors
///
/// Those of `rule` of `coda_sending`.
pub fn rule_at<D: Disk + Drop>(
    replicas: &mut BTreeMap<u32, Slot<Replica<D>, D>>,
    disk: u32,
    client: u8,
    number: u64,
    recs: &[Record],
) -> Result<Answer, ReplicaFault>
    requires up { is_up (replica_form D.told) (slot_at replicas.old disk) ≡ true }
    requires client { HasSpelling a_client client }
    requires records { HasSpelling (some_records four) recs.now }
    ensures ends { ReplicaEnds D.told disk replicas.old replicas.new (λ header history left. (span : List ARecord) → recs.now ≡ sent_of span
        → RulingEnds D.told header history (ruling client number span (replica_by header history)) left result) }
    ensures others { KeepsOtherSlots disk replicas.old replicas.new }
    ensures counts { IsCounted (IsErrOf result ReplicaFault.DiskFault) false (counts_of (replica_form D.told) D.faults D.arms replicas.old) (counts_of (replica_form D.told) D.faults D.arms replicas.new) }
{
    match take_slot(replicas, disk) {
        Slot::Started { header, mut actor } => {
            let said = rule(&mut actor, client, number, recs);
            put(replicas, disk, Slot::Started { header, actor });
            said
        }
        _ => unreachable!(),
    }
}

/// Has a client take the answer to a chunk of a volume.
///
/// # Errors
///
/// Those of `take` of `coda_sending`.
pub fn take_at<D: Disk + Drop>(
    clients: &mut BTreeMap<u32, Slot<Venus<D>, D>>,
    client: u8,
    volume: u32,
    number: u64,
    answer: &Answer,
) -> Result<(), Refused>
    requires up { is_up (client_form D.told) (slot_at clients.old client) ≡ true }
    requires volume { HasSpelling a_volume volume }
    requires verdict { IfSome (verdict_in answer.now) (HasSpelling a_verdict) }
    ensures ends { ClientEnds D.told client clients.old clients.new (λ header history left.
        TakingEnds D.told header history volume (taking number answer.now (volume_by header history volume)) left result) }
    ensures others { KeepsOtherSlots client clients.old clients.new }
    ensures seen { (disk : D) → (D.told disk).honest → (D.told disk).may_leave (D.told disk).seen }
    ensures counts { IsCounted (IsErrOf result Refused.DiskFault) false (counts_of (client_form D.told) D.faults D.arms clients.old) (counts_of (client_form D.told) D.faults D.arms clients.new) }
{
    let disk = u32::from(client);
    match take_slot(clients, disk) {
        Slot::Started { header, mut actor } => {
            let said = take(&mut actor, volume, number, answer);
            put(clients, disk, Slot::Started { header, actor });
            said
        }
        _ => unreachable!(),
    }
}
