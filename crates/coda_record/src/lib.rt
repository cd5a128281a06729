//! Decisions, answers and what journals keep as bytes: a table of formats over that of values, with its laws.
#![tactic(auto)]

mod answer;
pub mod decisions;
pub mod entries;
mod entry;
mod fault;
pub mod hoard;
mod last;
mod law;
mod snapshot;
pub mod snapshots;
mod view;

pub use answer::Answer;
pub use coda_values::{
    Cursor, Fault, Records, Tag, held, lengths, nodes, parts, reading, updates, writing,
};
pub use entries::{read_client, read_replica, write_client, write_replica};
pub use entry::{ClientEntry, ReplicaEntry};
pub use fault::RecordFault;
pub use last::{Last, Lasts};
pub use law::{decisions_are_exact, entries_are_exact, hoards_are_exact, snapshots_are_exact};
pub use snapshot::{
    CachedNodes, ClientSnapshot, HoardEntries, LogSegment, LogSegments, VolumeLog, VolumeLogs,
};
pub use view::View;
