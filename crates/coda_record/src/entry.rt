// What journals keep.
use crate::last::Lasts;
use crate::snapshot::ClientSnapshot;
use coda_certify::Verdict;
use coda_fid::{Fid, Record};
use coda_hdb::HoardChange;
use coda_reslog::{Change, HeldObjects};
use coda_tree::Node;
use coda_values::Records;

/// What a client keeps in its journal, in the order in which it happened.
#[derive(Debug, Drop)]
pub enum ClientEntry {
    /// An operation was performed.
    Op {
        /// The volume.
        volume: u32,
        /// Its record.
        rec: Record,
    },
    /// A chunk was frozen.
    Freeze {
        /// The volume.
        volume: u32,
        /// The chunk's number.
        number: u64,
        /// The server that is to decide on it.
        home: u8,
        /// The last operation in it.
        last: u64,
    },
    /// The answer to a chunk came.
    Settled {
        /// The volume.
        volume: u32,
        /// The chunk's number.
        number: u64,
        /// The verdict.
        verdict: Verdict,
    },
    /// The log of a volume was given up.
    Giveup {
        /// The volume.
        volume: u32,
    },
    /// An object was put into the cache.
    Fetched {
        /// The object.
        fid: Fid,
        /// Its parent; none for a volume's root.
        parent: Option<Fid>,
        /// What was cached.
        node: Node,
    },
    /// An object was taken out of the cache.
    Dropped {
        /// The object.
        fid: Fid,
    },
    /// The hoard database changed.
    Hoard(HoardChange),
    /// What stands for all entries so far.
    Snapshot(ClientSnapshot),
}

/// What a replica keeps in its journal.
#[derive(Debug, Drop)]
pub enum ReplicaEntry {
    /// A chunk was decided.
    Decide {
        /// The client.
        client: u8,
        /// The chunk's number.
        number: u64,
        /// Its records.
        recs: Records,
        /// The verdict.
        verdict: Verdict,
    },
    /// The replicas of the volume were resolved.
    Resolve {
        /// What became of this one.
        change: Change,
        /// The last decision of each client that any of them knew.
        lasts: Lasts,
    },
    /// An object that was marked was repaired.
    Repair {
        /// What became of this replica.
        change: Change,
        /// The last decisions that came with it.
        lasts: Lasts,
    },
    /// What stands for all entries so far.
    Snapshot {
        /// How many entries it stands for.
        count: u64,
        /// The objects, with what the replica holds of each.
        held: HeldObjects,
        /// The last decision of each client that has any.
        lasts: Lasts,
    },
}
