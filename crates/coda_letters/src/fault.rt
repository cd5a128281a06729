ghost use Rattle.std.specs.Prelude.{◌≡◌};
ghost use Rattle.coda_letters.specs.declared.fault.LetterFault.TheVariants.{Memory};

use std::alloc::AllocError;
use thiserror::Error;

/// Why a letter isn't delivered or lost.
#[derive(Clone, Copy, Debug, PartialEq, Eq, Error)]
pub enum LetterFault {
    /// No letter of this number was posted, or it is lost.
    #[error("there is no letter {0}")]
    NoMessage(u64),
    /// The link between the two ends is down.
    #[error("the link is down")]
    LinkDown,
    /// The bytes of the letter are no message, from this offset on.
    #[error("the bytes are no message, from {0} on")]
    BadMessage(usize),
    /// There was no memory.
    #[error("out of memory for a letter")]
    Memory,
}

impl From<AllocError> for LetterFault {
    ghost from_gives = { λ _ e. e ≡ Memory };

    fn from(_e: AllocError) -> LetterFault {
        LetterFault::Memory
    }
}
