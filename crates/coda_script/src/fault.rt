ghost use Rattle.std.specs.Prelude.{◌≡◌};
ghost use Rattle.coda_script.specs.declared.fault.LineFault.TheVariants.{Memory};

use coda_engine::Kind;
use std::alloc::{AllocError, AllocFailed};
use thiserror::Error;

/// Why a line wasn't read.
#[derive(Clone, Copy, Debug, PartialEq, Eq, Error)]
pub enum LineFault {
    /// The line is wrong: its first wrong column, in bytes from 1, and what is wrong there.
    #[error("column {column}: {kind}")]
    BadLine { column: u64, kind: Kind },
    /// There was no memory for what the line says.
    #[error("out of memory for a line")]
    Memory,
}

impl From<AllocError> for LineFault {
    ghost from_gives = { λ _ e. e ≡ Memory };

    fn from(_e: AllocError) -> LineFault {
        LineFault::Memory
    }
}

impl<T: Drop> From<AllocFailed<T>> for LineFault {
    ghost from_gives = { λ _ e. e ≡ Memory };

    fn from(_e: AllocFailed<T>) -> LineFault {
        LineFault::Memory
    }
}
