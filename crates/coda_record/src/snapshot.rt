// What stands for all entries of a client's journal so far.
ghost use Rattle.std.specs.Prelude.{◌≡◌};

use coda_fid::Fid;
use coda_hdb::HdbEntry;
use coda_tree::Node;
use coda_values::Records;
use std::marker::Model;

/// A run of a client's operations on a volume, with the records that are left of them.
#[derive(Debug, Drop)]
pub struct LogSegment {
    /// The number of the first operation.
    pub first: u64,
    /// The number of the last operation.
    pub last: u64,
    /// The greatest time of them, in seconds.
    pub newest: u64,
    /// What is left of them, in the order of their numbers.
    pub recs: Records,
}

/// Segments of a log, in the order of their operations.
///
/// Contracts see the list.
#[derive(Debug, Drop)]
pub struct LogSegments {
    items: Vec<LogSegment>,
}

impl Model for LogSegments {
    ghost use Rattle.std.specs.Prelude.{List};
    ghost use Rattle.coda_record.specs.declared.snapshot.LogSegment.{LogSegment};

    ghost Value = { List LogSegment };

    ghost view = { λ x. x.items.items };
}

impl LogSegments {
    /// What the vector holds.
    pub fn from_vec(items: Vec<LogSegment>) -> LogSegments
        ensures { result ≡ items.items }
    {
        LogSegments { items }
    }

    /// What is listed, in its order.
    pub fn list(&self) -> &[LogSegment]
        ensures { result.now ≡ self.now }
    {
        &self.items
    }

    /// The vector, in the memory that it has.
    pub fn into_vec(self) -> Vec<LogSegment>
        ensures { result.items ≡ self }
    {
        self.items
    }
}

/// What a client has of its operations on a volume.
#[derive(Debug, Drop)]
pub struct VolumeLog {
    /// The volume.
    pub volume: u32,
    /// How many operations were performed.
    pub operations: u64,
    /// How many chunks were frozen.
    pub chunks: u64,
    /// How many objects were created.
    pub creations: u32,
    /// Where a chunk is frozen, the server that is to decide on it, and how many segments it has.
    pub frozen: Option<(u8, u32)>,
    /// All segments, those of the chunk first.
    pub segments: LogSegments,
}

/// Logs of volumes, in increasing order of these.
///
/// Contracts see the list.
#[derive(Debug, Drop)]
pub struct VolumeLogs {
    items: Vec<VolumeLog>,
}

impl Model for VolumeLogs {
    ghost use Rattle.std.specs.Prelude.{List};
    ghost use Rattle.coda_record.specs.declared.snapshot.VolumeLog.{VolumeLog};

    ghost Value = { List VolumeLog };

    ghost view = { λ x. x.items.items };
}

impl VolumeLogs {
    /// What the vector holds.
    pub fn from_vec(items: Vec<VolumeLog>) -> VolumeLogs
        ensures { result ≡ items.items }
    {
        VolumeLogs { items }
    }

    /// What is listed, in its order.
    pub fn list(&self) -> &[VolumeLog]
        ensures { result.now ≡ self.now }
    {
        &self.items
    }

    /// The vector, in the memory that it has.
    pub fn into_vec(self) -> Vec<VolumeLog>
        ensures { result.items ≡ self }
    {
        self.items
    }
}

/// Cached objects, each with its parent and what is cached of it, in increasing order of fids.
///
/// Contracts see the list.
#[derive(Debug, Drop)]
pub struct CachedNodes {
    items: Vec<(Fid, Option<Fid>, Node)>,
}

impl Model for CachedNodes {
    ghost use Rattle.std.specs.Prelude.{List};
    ghost use Rattle.std.specs.Prelude.{Option, refl};
    ghost use Rattle.std.specs.Coded.{code_by, coded×, coded_list, coded_option};
    ghost use Rattle.coda_fid.specs.Fid.{coded_fid};
    ghost use Rattle.coda_fid.specs.declared.fid.Fid.{Fid};
    ghost use Rattle.coda_tree.specs.declared.node.Node.{Node};
    ghost use Rattle.coda_tree.specs.contracts.node.Node as node_row;

    ghost Value = { List (Fid × Option Fid × Node) };

    ghost coded = { coded_list (code_by (Fid × (Option Fid × Node)) (coded× coded_fid (coded× (coded_option coded_fid) node_row.the_row.coded)) (λ o. (o.0, (o.1, o.2))) (λ p. (p.0, p.1.0, p.1.1)) (λ _. refl)) };

    ghost view = { λ x. x.items.items };
}

impl CachedNodes {
    /// What the vector holds.
    pub fn from_vec(items: Vec<(Fid, Option<Fid>, Node)>) -> CachedNodes
        ensures { result ≡ items.items }
    {
        CachedNodes { items }
    }

    /// What is listed, in its order.
    pub fn list(&self) -> &[(Fid, Option<Fid>, Node)]
        ensures { result.now ≡ self.now }
    {
        &self.items
    }

    /// The vector, in the memory that it has.
    pub fn into_vec(self) -> Vec<(Fid, Option<Fid>, Node)>
        ensures { result.items ≡ self }
    {
        self.items
    }
}

/// Entries of a hoard database, in its order.
///
/// Contracts see the list.
#[derive(Debug, Drop)]
pub struct HoardEntries {
    items: Vec<HdbEntry>,
}

impl Model for HoardEntries {
    ghost use Rattle.std.specs.Prelude.{List};
    ghost use Rattle.coda_hdb.specs.declared.entry.HdbEntry.{HdbEntry};

    ghost Value = { List HdbEntry };

    ghost view = { λ x. x.items.items };
}

impl HoardEntries {
    /// What the vector holds.
    pub fn from_vec(items: Vec<HdbEntry>) -> HoardEntries
        ensures { result ≡ items.items }
    {
        HoardEntries { items }
    }

    /// What is listed, in its order.
    pub fn list(&self) -> &[HdbEntry]
        ensures { result.now ≡ self.now }
    {
        &self.items
    }

    /// The vector, in the memory that it has.
    pub fn into_vec(self) -> Vec<HdbEntry>
        ensures { result.items ≡ self }
    {
        self.items
    }
}

/// What stands for all entries of a client's journal so far.
#[derive(Debug, Drop)]
pub struct ClientSnapshot {
    /// How many entries it stands for.
    pub count: u64,
    /// The log of each volume on which an operation was performed.
    pub volumes: VolumeLogs,
    /// What is cached.
    pub nodes: CachedNodes,
    /// The hoard database.
    pub hoard: HoardEntries,
}
