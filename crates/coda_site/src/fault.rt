// Why a line wasn't carried out.
ghost use Rattle.std.specs.Prelude.{◌≡◌};

use coda_disk::BayFault;
use std::alloc::AllocError;
use thiserror::Error;

/// Why a line wasn't carried out, which ends a run.
#[derive(Clone, Copy, Debug, PartialEq, Eq, Error)]
pub enum CellFault {
    /// There was no memory.
    #[error("out of memory for the cell")]
    Memory,
    /// The bay refused a disk, or a crash.
    #[error("bay fault")]
    Bay,
}

impl From<AllocError> for CellFault {
    ghost use Rattle.coda_site.specs.declared.fault.CellFault.{CellFault};

    ghost from_gives = { λ _ fault. fault ≡ CellFault.Memory };

    fn from(_fault: AllocError) -> CellFault {
        CellFault::Memory
    }
}

impl From<BayFault> for CellFault {
    ghost use Rattle.coda_site.specs.declared.fault.CellFault.{CellFault};

    ghost from_gives = { λ _ fault. fault ≡ CellFault.Bay };

    fn from(_fault: BayFault) -> CellFault {
        CellFault::Bay
    }
}
