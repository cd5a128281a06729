ghost use Rattle.std.specs.Prelude.{◌≡◌};
ghost use Rattle.coda_replica.specs.declared.fault.ReplicaFault.TheVariants.{Memory};

use std::alloc::{AllocError, AllocFailed};
use thiserror::Error;

/// Why a replica refuses a call.
#[derive(Clone, Copy, Debug, PartialEq, Eq, Error)]
pub enum ReplicaFault {
    /// A call of its disk failed before, and it wasn't recovered since.
    #[error("the replica is down")]
    Down,
    /// The volume has no such object.
    #[error("there is no such object")]
    NotFound,
    /// No client has so many chunks on a volume, or the journal has no room for one more entry.
    #[error("the journal is full")]
    JournalFull,
    /// A call of the disk was refused.
    #[error("disk fault")]
    DiskFault,
    /// There was no memory.
    #[error("out of memory for a replica")]
    Memory,
}

impl From<AllocError> for ReplicaFault {
    ghost from_gives = { λ _ e. e ≡ Memory };

    fn from(_e: AllocError) -> ReplicaFault {
        ReplicaFault::Memory
    }
}

impl<T: Drop> From<AllocFailed<T>> for ReplicaFault {
    ghost from_gives = { λ _ e. e ≡ Memory };

    fn from(_e: AllocFailed<T>) -> ReplicaFault {
        ReplicaFault::Memory
    }
}
