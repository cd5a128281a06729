ghost use Rattle.std.specs.Prelude.{◌≡◌};
ghost use Rattle.coda_values.specs.declared.fault.Fault.TheVariants.{Memory};

use std::alloc::{AllocError, AllocFailed};
use thiserror::Error;

/// Why a value wasn't read from the front of some bytes.
#[derive(Clone, Copy, Debug, PartialEq, Eq, Error)]
pub enum Fault {
    /// The bytes break its format.
    #[error("the bytes break the format, {left} before their end")]
    Broken {
        /// How many bytes are left from the first field on that breaks it; none where they are cut short.
        left: usize,
    },
    /// There was no memory for the value.
    #[error("out of memory for what bytes say")]
    Memory,
}

impl From<AllocError> for Fault {
    ghost from_gives = { λ _ e. e ≡ Memory };

    fn from(_e: AllocError) -> Fault {
        Fault::Memory
    }
}

impl<T: Drop> From<AllocFailed<T>> for Fault {
    ghost from_gives = { λ _ e. e ≡ Memory };

    fn from(_e: AllocFailed<T>) -> Fault {
        Fault::Memory
    }
}
