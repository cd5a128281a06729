ghost use Rattle.std.specs.Prelude.{◌≡◌, ◌≢◌, ◌↔◌, ℕ, ◌+◌, ◌<◌, ◌≤◌, vec_len, List, true, false, IsSome, IfOk, IfErr, OnOk, OnErr, IsErrOf, Err, Some};
ghost use Rattle.std.specs.FinMap as map;
ghost use Rattle.std.specs.Int.{w32};
ghost use Rattle.coda_io.specs.Faults.{counted, Rose};
ghost use Rattle.coda_journal.specs.Entries.{framed};
ghost use Rattle.coda_journal.specs.Header.{IsHeader};
ghost use Rattle.coda_certify.specs.declared.verdict.Verdict.TheVariants.{Applied as VerdictApplied};
ghost use Rattle.coda_disk.specs.Told.{Kept};
ghost use Rattle.coda_journal.specs.declared.header.Header.{Header as AskedHeader};
ghost use Rattle.coda_journal.specs.declared.header.Kind.TheVariants.{Replica as OfReplica};
ghost use Rattle.coda_record.specs.Form.{four};
ghost use Rattle.coda_record.specs.Spelling.{HasSpelling};
ghost use Rattle.coda_record.specs.Table.{client as a_client, records as some_records};
ghost use Rattle.coda_record.specs.declared.entry.ReplicaEntry.{ReplicaEntry as AnEntry};
ghost use Rattle.coda_record.specs.declared.entry.ReplicaEntry.TheVariants.{Decide as DecideEntry};
ghost use Rattle.coda_replica.specs.State.{with_last};
ghost use Rattle.coda_replica.specs.History.{payload_of};
ghost use Rattle.coda_replica.specs.Answers.{IsUnfetched};

use crate::answers::{answer_of, is_next, told};
use crate::decider::{Decider, MOST_CHUNKS};
use crate::entries::{append, decision_frame, has_room};
use crate::fault::ReplicaFault;
use crate::recovery::state_of;
use coda_certify::Verdict;
use coda_disk::{Disk, DiskFault};
use coda_fid::{Fid, Record};
use coda_journal::{Frame, Header, Journal, MountFault, Unmounted};
use coda_record::{Answer, Last};
use coda_tree::{Node, Volume};
use std::alloc::Global;

/// One server's copy of a volume on a disk: a journal of its decisions, and what they leave.
///
/// Each call adds at most one entry to the journal, and takes all memory before the first call of the disk. A decision is
/// on the disk before its verdict is answered. Once a call of the disk failed the replica is down: each call answers so,
/// until the disk is recovered.
#[derive(Drop)]
pub struct Replica<D> {
    alloc: Global,
    journal: Journal<D>,
    decider: Decider,
    down: bool,
}

impl<D: Disk> Replica<D> {
    ghost use Rattle.coda_replica.specs.Deciding.{Decides, DecidesNext, Keeps, IsFullness, IsBack, IsAppendFault, IsKeepFault, Falls};
    ghost use Rattle.coda_replica.specs.Recovering.{Recovered, NotRecovered};
    ghost use Rattle.coda_replica.specs.Standing.{IsUp, IsReplicaDisk};

    /// The replica on a disk, with the state that its entries leave, and how many entries there are. A disk that isn't made
    /// becomes one of a fresh volume. It costs the bytes of the entries, and their replay.
    ///
    /// # Errors
    ///
    /// The disk is given back. `Foreign` where it holds no journal under this header, or a payload that can't follow those
    /// before it, with the place of its gate, and never for a disk on which replicas with this header alone wrote;
    /// `DiskFault` where a call of the disk was refused; `Memory`.
    pub fn recover(
        alloc: Global,
        disk: D,
        header: &Header,
    ) -> Result<(Replica<D>, u64), Unmounted<D>>
        requires header { IsHeader header.now }
        requires kind { header.now.kind ≡ OfReplica }
        ensures ok { (D.told disk).honest → IfOk result (λ r. Recovered D.told header.now disk r.0 r.1) }
        ensures err { (D.told disk).honest → IfErr result (λ u. NotRecovered header.now (D.told disk) (D.told u.disk) u.why) }
        // What the disk's law says of it, for a caller that has the disk's type from a bay.
        ensures seen { (D.told disk).honest → (D.told disk).may_leave (D.told disk).seen }
        ensures never_foreign { (D.told disk).honest → IsReplicaDisk header.now (D.told disk) → IfErr result (λ u. (at : ℕ) → u.why ≢ MountFault.Foreign at) }
        ensures ours { (D.told disk).honest → IsReplicaDisk header.now (D.told disk) → IfErr result (λ u. IsReplicaDisk header.now (D.told u.disk)) }
        ensures up { IfOk result (λ r. r.0.down ≡ false) }
        ensures later { IfOk result (λ r. D.faults disk ≤ D.faults r.0.journal.disk) }
        ensures later_err { IfErr result (λ u. D.faults disk ≤ D.faults u.disk) }
        ensures cause { IfErr result (λ u. u.why ≡ MountFault.DiskFault → Rose (D.faults disk) (D.faults u.disk)) }
        ensures arms { IfOk result (λ r. D.arms r.0.journal.disk ≡ D.arms disk) }
        ensures arms_err { IfErr result (λ u. D.arms u.disk ≡ D.arms disk) }
    {
        let (journal, payloads) = Journal::mount(alloc, disk, header)?;
        match state_of(alloc, header, &payloads, journal.start) {
            Ok(decider) => {
                let replica = Replica {
                    alloc,
                    journal,
                    decider,
                    down: false,
                };
                Ok((replica, payloads.len() as u64))
            }
            Err(why) => Err(Unmounted {
                disk: journal.into_disk(),
                why,
            }),
        }
    }

    /// Whether a call of the disk failed since it was recovered.
    pub fn is_down(&self) -> bool
        ensures { result ≡ self.now.down }
    {
        self.down
    }

    /// Gives the disk.
    pub fn down(self) -> D
        ensures { result ≡ self.journal.disk }
    {
        self.journal.into_disk()
    }

    // Adds an entry to the journal. After a fault the replica is down.
    fn keep(&mut self, frame: &Frame) -> Result<(), ReplicaFault>
        requires { self.old.down ≡ false }
        ensures keeps { (header : AskedHeader) (payloads : List (List ℕ)) (payload : List ℕ) → frame.now.bytes.items ≡ framed w32 payload
            → Keeps D.told header self.old.journal payloads payload self.new result }
        ensures full { (self.old.journal.area < self.old.journal.used + vec_len frame.now.bytes) ↔ (result ≡ Err ReplicaFault.JournalFull) }
        ensures fault { IfErr result IsAppendFault }
        ensures same { self.new.decider ≡ self.old.decider }
        ensures falls { Falls self.old.down self.new.down result }
        ensures later { D.faults self.old.journal.disk ≤ D.faults self.new.journal.disk }
        ensures cause { IsErrOf result ReplicaFault.DiskFault → Rose (D.faults self.old.journal.disk) (D.faults self.new.journal.disk) }
        ensures arms { D.arms self.new.journal.disk ≡ D.arms self.old.journal.disk }
    {
        if !has_room(&self.journal, frame) {
            return Err(ReplicaFault::JournalFull);
        }
        match append(&mut self.journal, frame) {
            Ok(()) => Ok(()),
            Err(DiskFault) => {
                self.down = true;
                Err(ReplicaFault::DiskFault)
            }
        }
    }

    // Keeps a decision with this verdict.
    fn keep_decision(
        &mut self,
        client: u8,
        number: u64,
        recs: &[Record],
        verdict: &Verdict,
    ) -> Result<(), ReplicaFault>
        requires up { self.old.down ≡ false }
        requires records { HasSpelling (some_records four) recs.now }
        ensures keeps { (header : AskedHeader) (payloads : List (List ℕ)) → Keeps D.told header self.old.journal payloads (payload_of (DecideEntry client number recs.now verdict.now)) self.new result }
        ensures fullness { IsFullness self.old.journal (DecideEntry client number recs.now verdict.now) result }
        ensures fault { IfErr result IsKeepFault }
        ensures same { self.new.decider ≡ self.old.decider }
        ensures falls { Falls self.old.down self.new.down result }
        ensures later { D.faults self.old.journal.disk ≤ D.faults self.new.journal.disk }
        ensures cause { IsErrOf result ReplicaFault.DiskFault → Rose (D.faults self.old.journal.disk) (D.faults self.new.journal.disk) }
        ensures arms { D.arms self.new.journal.disk ≡ D.arms self.old.journal.disk }
    {
        let frame = decision_frame(self.alloc, client, number, recs, verdict)?;
        self.keep(&frame)
    }

    // Keeps a conflict that was decided; `was` is the client's last decision before, which is put back where it isn't kept.
    fn keep_conflict(
        &mut self,
        client: u8,
        number: u64,
        recs: &[Record],
        verdict: &Verdict,
        was: Option<Last>,
    ) -> Result<(), ReplicaFault>
        requires up { self.old.down ≡ false }
        requires records { HasSpelling (some_records four) recs.now }
        requires there { IsSome (map.get self.old.decider.lasts client) }
        ensures keeps { (header : AskedHeader) (payloads : List (List ℕ)) → Keeps D.told header self.old.journal payloads (payload_of (DecideEntry client number recs.now verdict.now)) self.new result }
        ensures fullness { IsFullness self.old.journal (DecideEntry client number recs.now verdict.now) result }
        ensures fault { IfErr result IsKeepFault }
        ensures same { OnOk result (self.new.decider ≡ self.old.decider) }
        ensures put_back { OnErr result (self.new.decider ≡ with_last self.old.decider client was) }
        ensures falls { Falls self.old.down self.new.down result }
        ensures later { D.faults self.old.journal.disk ≤ D.faults self.new.journal.disk }
        ensures cause { IsErrOf result ReplicaFault.DiskFault → Rose (D.faults self.old.journal.disk) (D.faults self.new.journal.disk) }
        ensures arms { D.arms self.new.journal.disk ≡ D.arms self.old.journal.disk }
    {
        match self.keep_decision(client, number, recs, verdict) {
            Ok(()) => Ok(()),
            Err(e) => {
                self.decider.put_back(client, was);
                Err(e)
            }
        }
    }

    // Keeps the decision of the next chunk of a client, once it was decided. `applied` is the entry of a chunk that is applied, for which
    // there is room, and `was` the client's last decision before.
    fn keep_verdict(
        &mut self,
        client: u8,
        number: u64,
        recs: &[Record],
        verdict: &Verdict,
        applied: &Frame,
        was: Option<Last>,
    ) -> Result<(), ReplicaFault>
        requires up { self.old.down ≡ false }
        requires records { HasSpelling (some_records four) recs.now }
        requires there { IsSome (map.get self.old.decider.lasts client) }
        requires entry { applied.now.bytes.items ≡ framed w32 (payload_of (DecideEntry client number recs.now VerdictApplied)) }
        requires room { self.old.journal.used + vec_len applied.now.bytes ≤ self.old.journal.area }
        ensures keeps { (header : AskedHeader) (payloads : List (List ℕ)) → Keeps D.told header self.old.journal payloads (payload_of (DecideEntry client number recs.now verdict.now)) self.new result }
        ensures fullness { IsFullness self.old.journal (DecideEntry client number recs.now verdict.now) result }
        ensures fault { IfErr result IsKeepFault }
        ensures same { OnOk result (self.new.decider ≡ self.old.decider) }
        ensures back { IsBack self.old.decider client was verdict.now self.new.decider result }
        ensures falls { Falls self.old.down self.new.down result }
        ensures later { D.faults self.old.journal.disk ≤ D.faults self.new.journal.disk }
        ensures cause { IsErrOf result ReplicaFault.DiskFault → Rose (D.faults self.old.journal.disk) (D.faults self.new.journal.disk) }
        ensures arms { D.arms self.new.journal.disk ≡ D.arms self.old.journal.disk }
    {
        match verdict {
            Verdict::Applied => self.keep(applied),
            Verdict::Conflict(..) => self.keep_conflict(client, number, recs, verdict, was),
        }
    }

    // Decides the next chunk of a client, and keeps the decision. The entry of a chunk that is applied is made before the
    // replay, since that can't be undone; no entry is shorter.
    fn decide_next(
        &mut self,
        client: u8,
        number: u64,
        recs: &[Record],
    ) -> Result<Verdict, ReplicaFault>
        requires up { self.old.down ≡ false }
        requires client { HasSpelling a_client client }
        requires records { HasSpelling (some_records four) recs.now }
        requires few { number ≤ 4294967295 }
        ensures decides { (header : AskedHeader) → DecidesNext D.told header self.old client number recs.now self.new result }
        ensures never { (result ≢ Err ReplicaFault.Down) × (result ≢ Err ReplicaFault.NotFound) }
        ensures falls { Falls self.old.down self.new.down result }
        ensures later { D.faults self.old.journal.disk ≤ D.faults self.new.journal.disk }
        ensures cause { IsErrOf result ReplicaFault.DiskFault → Rose (D.faults self.old.journal.disk) (D.faults self.new.journal.disk) }
        ensures arms { D.arms self.new.journal.disk ≡ D.arms self.old.journal.disk }
    {
        let applied = decision_frame(self.alloc, client, number, recs, &Verdict::Applied)?;
        if !has_room(&self.journal, &applied) {
            return Err(ReplicaFault::JournalFull);
        }
        let (verdict, was) = self.decider.decide_next(client, number, recs)?;
        self.keep_verdict(client, number, recs, &verdict, &applied, was)?;
        Ok(verdict)
    }

    /// Decides a client's chunk, or answers what became of it.
    ///
    /// The next chunk of a client is decided by the records that were sent: all are applied, or none, and a conflict uses
    /// its number up. The decision is on the disk before it is answered. The chunk that was decided last gets the kept
    /// verdict, which takes no memory; an earlier one, and number 0, is `Old`, and one that comes before its turn is
    /// `Behind`. These three change nothing.
    ///
    /// Whatever it answers, a crash at any moment since its start leaves the history that was there, or that history with
    /// this decision.
    ///
    /// # Errors
    ///
    /// `Down` exactly where the replica is down. Else only the next chunk may be refused: `JournalFull` exactly where its
    /// number is above 2^32 - 1 or the journal has no room for the decision, and `Memory`, which both change nothing; or
    /// `DiskFault`, after which the replica is down.
    pub fn decide(
        &mut self,
        client: u8,
        number: u64,
        recs: &[Record],
    ) -> Result<Answer, ReplicaFault>
        requires client { HasSpelling a_client client }
        requires records { HasSpelling (some_records four) recs.now }
        ensures decides { (header : AskedHeader) → Decides D.told header self.old client number recs.now self.new result }
        ensures down { self.old.down ≡ true → (result ≡ Err ReplicaFault.Down) × (self.new ≡ self.old) }
        ensures only_down { result ≡ Err ReplicaFault.Down → self.old.down ≡ true }
        ensures falls { Falls self.old.down self.new.down result }
        ensures later { D.faults self.old.journal.disk ≤ D.faults self.new.journal.disk }
        ensures cause { IsErrOf result ReplicaFault.DiskFault → Rose (D.faults self.old.journal.disk) (D.faults self.new.journal.disk) }
        ensures arms { D.arms self.new.journal.disk ≡ D.arms self.old.journal.disk }
    {
        if self.down {
            return Err(ReplicaFault::Down);
        }
        let last = self.decider.last_decision(client);
        if !is_next(&last, number) {
            return Ok(told(&last, number));
        }
        if number > MOST_CHUNKS {
            return Err(ReplicaFault::JournalFull);
        }
        let verdict = self.decide_next(client, number, recs)?;
        Ok(answer_of(verdict))
    }

    /// A copy of the node at a fid, for a client.
    ///
    /// # Errors
    ///
    /// `Down` exactly where the replica is down, `NotFound` exactly where the volume has no such object, and `Memory`.
    pub fn fetch(&mut self, client: u8, fid: Fid) -> Result<Node, ReplicaFault>
        ensures node { IfOk result (λ n. map.get self.old.decider.tree.nodes fid ≡ Some n) }
        ensures down { self.old.down ≡ true → result ≡ Err ReplicaFault.Down }
        ensures refused { self.old.down ≡ false → IfErr result (IsUnfetched (map.get self.old.decider.tree.nodes fid)) }
        ensures same { self.new ≡ self.old }
    {
        if self.down {
            return Err(ReplicaFault::Down);
        }
        self.decider.fetch(client, fid)
    }

    /// The server that has it.
    pub fn server(&self) -> u8
        ensures { result ≡ self.now.decider.server }
    {
        self.decider.server()
    }

    /// The volume as this server has it, while the replica isn't down.
    pub fn volume(&self) -> &Volume
        requires { self.now.down ≡ false }
        ensures { result.now ≡ self.now.decider.tree }
    {
        self.decider.volume()
    }

    /// Lets so many further calls of the disk through, while the replica isn't down. It changes nothing else.
    pub fn arm(&mut self, passes: u64)
        requires { self.old.down ≡ false }
        ensures up { (header : AskedHeader) (history : List AnEntry) → IsUp D.told header self.old history → IsUp D.told header self.new history }
        ensures kept { (D.told self.old.journal.disk).honest → Kept (D.told self.old.journal.disk) (D.told self.new.journal.disk) }
        ensures same { (self.new.decider ≡ self.old.decider) × (self.new.down ≡ false) }
        ensures faults { D.faults self.new.journal.disk ≡ D.faults self.old.journal.disk }
        ensures arms { D.arms self.new.journal.disk ≡ counted (D.arms self.old.journal.disk) }
        ensures passes { D.passes self.new.journal.disk ≡ Some passes }
    {
        self.journal.arm(passes);
    }
}
