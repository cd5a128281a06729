ghost use Rattle.std.specs.Prelude.{◌≡◌};
ghost use Rattle.coda_hdb.specs.declared.fault.HdbFault.TheVariants.{Memory};

use std::alloc::{AllocError, AllocFailed};
use thiserror::Error;

/// Why a call left a hoard database as it was.
#[derive(Clone, Copy, Debug, PartialEq, Eq, Error)]
pub enum HdbFault {
    /// The path has no entry.
    #[error("the path has no hoard entry")]
    NoEntry,
    /// The path is new, and there are 1,024 entries.
    #[error("the hoard database is full")]
    HdbFull,
    /// There was no memory.
    #[error("out of memory for the hoard database")]
    Memory,
}

impl From<AllocError> for HdbFault {
    ghost from_gives = { λ _ e. e ≡ Memory };

    fn from(_e: AllocError) -> HdbFault {
        HdbFault::Memory
    }
}

impl<T: Drop> From<AllocFailed<T>> for HdbFault {
    ghost from_gives = { λ _ e. e ≡ Memory };

    fn from(_e: AllocFailed<T>) -> HdbFault {
        HdbFault::Memory
    }
}
