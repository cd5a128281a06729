// How the payloads of a journal become a client's state.
ghost use Rattle.std.specs.Prelude.{◌≡◌, ◌≢◌, ℕ, ◌<◌, Err, OnOk, IfOk};
ghost use Rattle.coda_journal.specs.Header.{IsHeader};
ghost use Rattle.coda_journal.specs.declared.header.Header.{Header as AskedHeader};
ghost use Rattle.coda_journal.specs.declared.header.Kind.TheVariants.{Client as OfClient};
ghost use Rattle.coda_spelling.specs.Spelled.{AreSpelled};
ghost use Rattle.coda_venus.specs.Entering.{Enters, IsUnfit, AreEntered, Breaks};
ghost use Rattle.coda_venus.specs.History.{MayEnter, MayEnterAll};
ghost use Rattle.coda_venus.specs.Logs.{AreSendable};
ghost use Rattle.coda_venus.specs.State.{ClientState, new_client, client_after, client_after_all};

use crate::client::Client;
use crate::recovery::Unfit;
use coda_fid::Bytes;
use coda_journal::{Header, MountFault};
use coda_record::{ClientEntry, RecordFault, read_client};
use std::alloc::Global;

impl Client {
    ghost use Rattle.coda_venus.specs.Code.{IsClient};

    // Takes up an entry.
    fn enter(&mut self, entry: ClientEntry) -> Result<(), Unfit>
        ensures ok { (c : ClientState) → IsClient c self.old → OnOk result (MayEnter c entry) }
        ensures leaves { (c : ClientState) → IsClient c self.old → OnOk result (IsClient (client_after c entry) self.new) }
        ensures misfit { (c : ClientState) → IsClient c self.old → result ≡ Err Unfit.Misfit → ¬ MayEnter c entry }
    {
        match entry {
            ClientEntry::Op { volume, rec } => self.enter_operated(volume, rec),
            ClientEntry::Freeze {
                volume,
                number,
                home,
                last,
            } => self.enter_freeze(volume, number, home, last),
            ClientEntry::Settled {
                volume,
                number,
                verdict,
            } => self.enter_settled(volume, number, &verdict),
            ClientEntry::Giveup { volume } => self.enter_giveup(volume),
            ClientEntry::Fetched { fid, parent, node } => self.enter_fetched(fid, parent, node),
            ClientEntry::Dropped { fid } => self.enter_dropped(fid),
            ClientEntry::Hoard(_) => Err(Unfit::Misfit),
            ClientEntry::Snapshot(_) => Err(Unfit::Misfit),
        }
    }

    // Takes up the entries of a payload, in order. Where one can't follow, the client isn't used any more.
    fn enter_each(&mut self, entries: Vec<ClientEntry>) -> Result<(), Unfit>
        ensures ok { (c : ClientState) → IsClient c self.old → OnOk result (MayEnterAll c entries.items) }
        ensures leaves { (c : ClientState) → IsClient c self.old → OnOk result (IsClient (client_after_all c entries.items) self.new) }
        ensures misfit { (c : ClientState) → IsClient c self.old → result ≡ Err Unfit.Misfit → ¬ MayEnterAll c entries.items }
    {
        for entry in entries {
            self.enter(entry)?;
        }
        Ok(())
    }

    // Takes up the entries that a payload spells.
    fn enter_payload(&mut self, payload: &[u8]) -> Result<(), Unfit>
        ensures ok { (c : ClientState) → IsClient c self.old → OnOk result (Enters c payload.now self.new) }
        ensures misfit { (c : ClientState) → IsClient c self.old → result ≡ Err Unfit.Misfit → IsUnfit c payload.now }
    {
        match read_client(self.alloc, payload) {
            Ok(entries) => self.enter_each(entries),
            Err(RecordFault::BadRecord(_)) => Err(Unfit::Misfit),
            Err(RecordFault::Memory) => Err(Unfit::Memory),
        }
    }

    // Takes up payloads, one after the other; `start` is where the gate of the first one stands.
    fn enter_payloads(&mut self, payloads: &[Bytes], start: u64) -> Result<(), MountFault>
        ensures ok { (header : AskedHeader) → IsClient (new_client header.number header.cache) self.old → OnOk result (AreEntered header payloads.now self.new) }
        ensures breaks { (header : AskedHeader) (at : ℕ) → IsClient (new_client header.number header.cache) self.old → result ≡ Err (MountFault.Foreign at) → Breaks header payloads.now start at }
        ensures no_fault { result ≢ Err MountFault.DiskFault }
    {
        let mut place = start;
        for payload in payloads {
            match self.enter_payload(payload.bytes()) {
                Ok(()) => place = place.saturating_add(5 + payload.len() as u64),
                Err(Unfit::Misfit) => return Err(MountFault::Foreign(place)),
                Err(Unfit::Memory) => return Err(MountFault::Memory),
            }
        }
        Ok(())
    }
}

// The client that payloads leave on a disk with this header; `start` is where the gate of the first one stands.
pub(crate) fn client_of(
    alloc: Global,
    header: &Header,
    payloads: &[Bytes],
    start: u64,
) -> Result<Client, MountFault>
    requires numbered { header.now.number < 256 }
    ensures ok { IfOk result (AreEntered header.now payloads.now) }
    ensures breaks { (at : ℕ) → result ≡ Err (MountFault.Foreign at) → Breaks header.now payloads.now start at }
    ensures no_fault { result ≢ Err MountFault.DiskFault }
    ensures spelled { IfOk result (λ c. AreSpelled c.cache.nodes) }
    ensures sendable { IfOk result (λ c. AreSendable c.logs) }
{
    let mut client = Client::new(alloc, header.number as u8, header.cache)?;
    client.enter_payloads(payloads, start)?;
    Ok(client)
}
