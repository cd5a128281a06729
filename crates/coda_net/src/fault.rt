ghost use Rattle.std.specs.Prelude.{◌≡◌};
ghost use Rattle.coda_net.specs.declared.fault.NetFault.TheVariants.{Memory};

use std::alloc::{AllocError, AllocFailed};
use thiserror::Error;

/// Why a call left the network as it was.
#[derive(Clone, Copy, Debug, PartialEq, Eq, Error)]
pub enum NetFault {
    /// The link between the two ends is down.
    #[error("the link is down")]
    LinkDown,
    /// No letter of this number was posted, or it is lost.
    #[error("there is no letter {0}")]
    NoMessage(u64),
    /// The letter has no more bytes than it was to be trimmed to: so many.
    #[error("the letter has {0} bytes alone")]
    NotShorter(u64),
    /// There was no memory.
    #[error("out of memory for the network")]
    Memory,
}

impl From<AllocError> for NetFault {
    ghost from_gives = { λ _ e. e ≡ Memory };

    fn from(_e: AllocError) -> NetFault {
        NetFault::Memory
    }
}

impl<T: Drop> From<AllocFailed<T>> for NetFault {
    ghost from_gives = { λ _ e. e ≡ Memory };

    fn from(_e: AllocFailed<T>) -> NetFault {
        NetFault::Memory
    }
}
