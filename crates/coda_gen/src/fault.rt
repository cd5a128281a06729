ghost use Rattle.std.specs.Prelude.{◌≡◌};
ghost use Rattle.coda_gen.specs.declared.fault.GenFault.TheVariants.{Memory};

use std::alloc::AllocError;
use thiserror::Error;

/// Why no script was generated.
#[derive(Clone, Copy, Debug, PartialEq, Eq, Error)]
pub enum GenFault {
    /// More than 200,000 lines were asked for.
    #[error("more than 200000 lines were asked for")]
    TooMany,
    /// There was no memory for them.
    #[error("out of memory for a generated script")]
    Memory,
}

impl From<AllocError> for GenFault {
    ghost from_gives = { λ _ e. e ≡ Memory };

    fn from(_e: AllocError) -> GenFault {
        GenFault::Memory
    }
}
