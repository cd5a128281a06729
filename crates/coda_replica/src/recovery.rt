// How the payloads of a journal become a replica's state.
ghost use Rattle.std.specs.Prelude.{◌≡◌, ◌≢◌, ℕ, ◌+◌, List, Err, OnOk, IfOk};
ghost use Rattle.coda_journal.specs.declared.header.Header.{Header as AskedHeader};
ghost use Rattle.coda_record.specs.declared.entry.ReplicaEntry.{ReplicaEntry as AnEntry};
ghost use Rattle.coda_record.specs.declared.entry.ReplicaEntry.TheVariants.{Decide as DecideEntry};
ghost use Rattle.coda_replica.specs.State.{decided, new_replica};
ghost use Rattle.coda_replica.specs.History.{IsDecidedIn};
ghost use Rattle.coda_replica.specs.Entering.{Enters, IsUnfit, AreEntered, Breaks};
ghost use Rattle.coda_replica.specs.declared.recovery.Unfit.TheVariants.{Memory as NoMemory};

use crate::answers::is_next;
use crate::decider::Decider;
use coda_certify::Verdict;
use coda_fid::{Bytes, Record};
use coda_journal::{Header, MountFault};
use coda_record::{RecordFault, ReplicaEntry, read_replica};
use std::alloc::{AllocError, Global};

// Why a payload isn't put into a state.
#[derive(Clone, Copy, Debug, PartialEq, Eq)]
pub(crate) enum Unfit {
    // It is no entry that can follow.
    Misfit,
    // There was no memory.
    Memory,
}

impl From<AllocError> for Unfit {
    ghost from_gives = { λ _ e. e ≡ NoMemory };

    fn from(_e: AllocError) -> Unfit {
        Unfit::Memory
    }
}

// Decides a chunk once more, and compares the verdict. Where it is no such decision the state isn't used any more.
fn enter_decision(
    decider: &mut Decider,
    client: u8,
    number: u64,
    recs: &[Record],
    verdict: Verdict,
) -> Result<(), Unfit>
    ensures ok { OnOk result (IsDecidedIn decider.old (DecideEntry client number recs.now verdict)) }
    ensures leaves { OnOk result (decider.new ≡ decided decider.old client number recs.now) }
    ensures misfit { result ≡ Err Unfit.Misfit → ¬ IsDecidedIn decider.old (DecideEntry client number recs.now verdict) }
{
    let last = decider.last_decision(client);
    if !is_next(&last, number) {
        return Err(Unfit::Misfit);
    }
    let (found, _was) = decider.decide_next(client, number, recs)?;
    if found != verdict {
        return Err(Unfit::Misfit);
    }
    Ok(())
}

// Puts the entry in that a payload spells.
fn enter(alloc: Global, decider: &mut Decider, payload: &[u8]) -> Result<(), Unfit>
    ensures ok { OnOk result (Enters decider.old payload.now decider.new) }
    ensures misfit { result ≡ Err Unfit.Misfit → IsUnfit decider.old payload.now }
{
    match read_replica(alloc, payload) {
        Ok(
            ReplicaEntry::Decide {
                client,
                number,
                recs,
                verdict,
            },
        ) => enter_decision(decider, client, number, recs.records(), verdict),
        Ok(ReplicaEntry::Resolve { .. }) => Err(Unfit::Misfit),
        Ok(ReplicaEntry::Repair { .. }) => Err(Unfit::Misfit),
        Ok(ReplicaEntry::Snapshot { .. }) => Err(Unfit::Misfit),
        Err(RecordFault::BadRecord(_)) => Err(Unfit::Misfit),
        Err(RecordFault::Memory) => Err(Unfit::Memory),
    }
}

// Puts the entries of payloads into a new state, one after the other; `start` is where the gate of the first one stands.
fn enter_all(
    alloc: Global,
    decider: &mut Decider,
    payloads: &[Bytes],
    start: u64,
) -> Result<(), MountFault>
    ensures ok { (header : AskedHeader) → decider.old ≡ new_replica header.number header.server → OnOk result (AreEntered header payloads.now decider.new) }
    ensures breaks { (header : AskedHeader) (at : ℕ) → decider.old ≡ new_replica header.number header.server → result ≡ Err (MountFault.Foreign at) → Breaks header payloads.now start at }
    ensures no_fault { result ≢ Err MountFault.DiskFault }
{
    let mut place = start;
    for payload in payloads {
        match enter(alloc, decider, payload.bytes()) {
            Ok(()) => place = place.saturating_add(5 + payload.len() as u64),
            Err(Unfit::Misfit) => return Err(MountFault::Foreign(place)),
            Err(Unfit::Memory) => return Err(MountFault::Memory),
        }
    }
    Ok(())
}

// The state that payloads leave on the disk of a replica with this header; `start` is where the gate of the first one stands.
pub(crate) fn state_of(
    alloc: Global,
    header: &Header,
    payloads: &[Bytes],
    start: u64,
) -> Result<Decider, MountFault>
    ensures ok { IfOk result (AreEntered header.now payloads.now) }
    ensures breaks { (at : ℕ) → result ≡ Err (MountFault.Foreign at) → Breaks header.now payloads.now start at }
    ensures no_fault { result ≢ Err MountFault.DiskFault }
{
    let mut decider = Decider::new(alloc, header.number, header.server)?;
    enter_all(alloc, &mut decider, payloads, start)?;
    Ok(decider)
}
