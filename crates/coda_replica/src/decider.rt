ghost use Rattle.std.specs.Prelude.{◌≡◌, ◌≤◌, ℕ, List, true, IsSome, IfOk, IfErr, OnOk, OnErr, Some};
ghost use Rattle.std.specs.FinMap as map;
ghost use Rattle.coda_fid.specs.declared.op.Record.{Record};
ghost use Rattle.coda_fid.specs.Fid.{root_of};
ghost use Rattle.coda_tree.specs.Volume.{IsVolume};
ghost use Rattle.coda_certify.specs.Replay.{replay as replayed};
ghost use Rattle.coda_certify.specs.Verdicts.{verdict_of};
ghost use Rattle.coda_plain.specs.Decisions.{ReplicaEntry, sent_of};
ghost use Rattle.coda_replica.specs.State.{decided, last_for, new_replica, number_and_verdict, with_last};
ghost use Rattle.coda_replica.specs.Answers.{after_chunk, answer_to, is_next as next, IsUndecided, IsUnfetched};
ghost use Rattle.coda_replica.specs.Comes.{Comes, IsReplicaOf};

use crate::ReplicaFault;
use crate::answers::{answer_of, is_next, told};
use crate::lasts::LastTable;
use coda_certify::{Verdict, replay};
use coda_fid::{Fid, Record};
use coda_record::{Answer, Last};
use coda_tree::{Node, Volume};
use std::alloc::{AllocError, Global};
use std::marker::Model;

/// The most chunks of a client on a volume.
pub(crate) const MOST_CHUNKS: u64 = 4_294_967_295;

/// One server's copy of a volume (Satyanarayanan and others 1990), which decides the chunks of clients, each once
/// (Kistler and Satyanarayanan 1992), as it stands in memory.
///
/// For each client it keeps the number of the last chunk that it decided, with the verdict, and so answers a chunk that
/// comes again. Contracts see the server, the volume, and the last decisions by client.
#[derive(Drop)]
pub struct Decider {
    alloc: Global,
    server: u8,
    volume: Volume,
    lasts: LastTable,
}

impl Model for Decider {
    ghost use Rattle.coda_tree.specs.contracts.node.Node as node_row;
    ghost use Rattle.coda_record.specs.contracts.last.Last as last_row;
    ghost use Rattle.coda_replica.specs.State.{ReplicaState, coded_replica};

    ghost Value = { ReplicaState };

    ghost coded = { coded_replica node_row.the_row.coded last_row.the_row.coded };

    ghost view = { λ r. record { server = r.server; tree = r.volume; lasts = r.lasts } };
}

impl Decider {
    /// That of a fresh volume, on which nothing was decided. Fails for want of memory alone.
    pub fn new(alloc: Global, volume: u32, server: u8) -> Result<Decider, AllocError>
        ensures { IfOk result (λ r. r ≡ new_replica volume server) }
    {
        let volume = Volume::new(alloc, volume)?;
        Ok(Decider {
            alloc,
            server,
            volume,
            lasts: LastTable::new(alloc),
        })
    }

    /// The server that has it.
    pub fn server(&self) -> u8
        ensures { result ≡ self.now.server }
    {
        self.server
    }

    /// The volume as this server has it.
    pub fn volume(&self) -> &Volume
        ensures { result.now ≡ self.now.tree }
    {
        &self.volume
    }

    /// The number of the last chunk of a client that was decided; 0 where none was.
    pub fn last(&self, client: u8) -> u64
        ensures { result ≡ (last_for self.now client).number }
    {
        self.lasts.last(client).number
    }

    // A client's last decision; of number 0 where it has none.
    pub(crate) fn last_decision(&self, client: u8) -> Last
        ensures { number_and_verdict (Some result) ≡ last_for self.now client }
    {
        self.lasts.last(client)
    }

    // Decides a client's chunk by the records that were sent, and keeps the verdict. Answers it, and the last decision that the
    // client had. Want of memory leaves all as it was.
    pub(crate) fn decide_next(
        &mut self,
        client: u8,
        number: u64,
        recs: &[Record],
    ) -> Result<(Verdict, Option<Last>), AllocError>
        ensures volume { IsVolume (root_of self.old.tree.number) self.old.tree.nodes }
        ensures verdict { IfOk result (λ r. r.0 ≡ verdict_of (replayed self.old.tree.nodes client recs.now)) }
        ensures was { IfOk result (λ r. r.1 ≡ map.get self.old.lasts client) }
        ensures ok { OnOk result (self.new ≡ decided self.old client number recs.now) }
        ensures err { OnErr result (self.new ≡ self.old) }
    {
        // Its clause says that the nodes are a volume.
        let _number = self.volume.number();
        // The room for the verdict is taken first, since a replay can't be undone once it ended.
        let was = self.lasts.put(Last {
            client,
            number,
            verdict: Verdict::Applied,
        })?;
        match replay(self.alloc, &mut self.volume, client, recs) {
            Ok(verdict) => {
                let last = Last {
                    client,
                    number,
                    verdict,
                };
                self.lasts.put_back(client, Some(last));
                Ok((verdict, was))
            }
            Err(e) => {
                self.lasts.put_back(client, was);
                Err(e)
            }
        }
    }

    // Puts a decision, or none, in the place of a client's last one, which is there. The volume stays. It takes no memory.
    pub(crate) fn put_back(&mut self, client: u8, was: Option<Last>)
        requires { IsSome (map.get self.old.lasts client) }
        ensures { self.new ≡ with_last self.old client was }
    {
        self.lasts.put_back(client, was);
    }

    /// Decides a client's chunk, or answers what became of it.
    ///
    /// The next chunk of a client is decided by the records that were sent: all are applied, or none, and a conflict uses
    /// its number up. The chunk that was decided last gets the kept verdict, which takes no memory; an earlier one, and
    /// number 0, is `Old`, and one that comes before its turn is `Behind`. These three change nothing.
    ///
    /// # Errors
    ///
    /// Only the next chunk may be refused: `JournalFull` where its number is above 2^32 - 1, and else `Memory`. Nothing
    /// changes then.
    pub fn decide(
        &mut self,
        client: u8,
        number: u64,
        recs: &[Record],
    ) -> Result<Answer, ReplicaFault>
        ensures answer { IfOk result (λ a. a ≡ answer_to (last_for self.old client) number (verdict_of (replayed self.old.tree.nodes client recs.now))) }
        ensures state { OnOk result (self.new ≡ after_chunk self.old client number recs.now) }
        ensures refused { IfErr result (IsUndecided (last_for self.old client) number) }
        ensures room { OnOk result (next (last_for self.old client) number ≡ true → number ≤ 4294967295) }
        ensures err { OnErr result (self.new ≡ self.old) }
        // Whatever operations the records are left of, the history goes on with their decision, or stays.
        ensures history { (past : List ReplicaEntry) (span : List Record) → IsReplicaOf past self.old → recs.now ≡ sent_of span → IfOk result (Comes past (record { client = client; number = number; span = span }) self.old self.new) }
    {
        let last = self.lasts.last(client);
        if !is_next(&last, number) {
            return Ok(told(&last, number));
        }
        if number > MOST_CHUNKS {
            return Err(ReplicaFault::JournalFull);
        }
        let (verdict, _was) = self.decide_next(client, number, recs)?;
        Ok(answer_of(verdict))
    }

    /// A copy of the node at a fid, for a client.
    ///
    /// # Errors
    ///
    /// `NotFound` exactly where the volume has none, and `Memory`.
    pub fn fetch(&mut self, _client: u8, fid: Fid) -> Result<Node, ReplicaFault>
        ensures node { IfOk result (λ n. map.get self.old.tree.nodes fid ≡ Some n) }
        ensures refused { IfErr result (IsUnfetched (map.get self.old.tree.nodes fid)) }
        ensures same { self.new ≡ self.old }
    {
        match self.volume.get(fid) {
            Some(node) => Ok(node.copy()?),
            None => Err(ReplicaFault::NotFound),
        }
    }
}
