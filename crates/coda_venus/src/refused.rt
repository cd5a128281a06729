ghost use Rattle.std.specs.Prelude.{◌≡◌};
ghost use Rattle.coda_venus.specs.declared.refused.Refused.TheVariants.{Memory};
ghost use Rattle.coda_venus.specs.Keeping.{refused_as, unsettled_as, IsOwn};

use coda_cml::{FreezeFault, SettleFault};
use coda_fid::Fid;
use std::alloc::AllocError;
use thiserror::Error;

/// Why a client refuses a call.
#[derive(Clone, Copy, Debug, PartialEq, Eq, Error)]
pub enum Refused {
    /// A call of its disk failed before, and it wasn't recovered since.
    #[error("the client is down")]
    Down,
    /// The content has so many bytes, and more than a file may have.
    #[error("the content has {0} bytes, which is too many")]
    TooBig(u64),
    /// A name of the path isn't bound.
    #[error("a name of the path isn't bound")]
    NotFound,
    /// What must be a directory is none.
    #[error("not a directory")]
    NotDir,
    /// The new name is bound, or the path is that of the root, or the new fid is in use.
    #[error("the new name is bound")]
    Exists,
    /// What must be no directory is one.
    #[error("a directory")]
    IsDir,
    /// What must be a file is a link.
    #[error("not a file")]
    NotFile,
    /// The directory binds something, or an object is held below it that the log mentions.
    #[error("the directory isn't empty")]
    NotEmpty,
    /// A directory would come to stand below itself, or the root is to go.
    #[error("a directory would come to stand below itself")]
    Loop,
    /// An object on the way isn't cached: it is to be fetched first.
    #[error("the object {0:?} isn't cached")]
    Need(Fid),
    /// The log would have more than 4,096 records with the operation, or weigh more than 16 MiB.
    #[error("the log is full")]
    LogFull,
    /// The client has as many operations, objects or chunks as there may be, or the journal has no room for one more entry.
    #[error("the journal is full")]
    JournalFull,
    /// A call of the disk was refused.
    #[error("disk fault")]
    DiskFault,
    /// The chunk of this number is frozen, for this server.
    #[error("chunk {0} is frozen for server {1}")]
    Frozen(u64, u8),
    /// The log has no record to send.
    #[error("the log has no record to send")]
    Nothing,
    /// The newest operation that would be sent is so many seconds old, and must be as old as the window.
    #[error("{0} seconds old, and not {1}")]
    Young(u64, u64),
    /// No chunk is frozen, so this one isn't.
    #[error("chunk {0} isn't frozen")]
    NotFrozen(u64),
    /// The first chunk is frozen, and not the second.
    #[error("chunk {0} is frozen, and not {1}")]
    WrongNumber(u64, u64),
    /// There was no memory.
    #[error("out of memory for a client")]
    Memory,
}

impl From<AllocError> for Refused {
    ghost from_gives = { λ _ e. e ≡ Memory };

    fn from(_e: AllocError) -> Refused {
        Refused::Memory
    }
}

// Why a log freezes nothing, as a call is refused for it.
pub(crate) fn refused_as(why: FreezeFault) -> Refused
    ensures is { result ≡ refused_as why }
    ensures own { IsOwn result }
{
    match why {
        FreezeFault::Frozen(number, home) => Refused::Frozen(number, home),
        FreezeFault::Nothing => Refused::Nothing,
        FreezeFault::Young(age, window) => Refused::Young(age, window),
        FreezeFault::Memory => Refused::Memory,
    }
}

// Why a log settles nothing, as a call is refused for it.
pub(crate) fn unsettled_as(why: SettleFault) -> Refused
    ensures is { result ≡ unsettled_as why }
    ensures own { IsOwn result }
{
    match why {
        SettleFault::NotFrozen(number) => Refused::NotFrozen(number),
        SettleFault::WrongNumber(frozen, number) => Refused::WrongNumber(frozen, number),
        SettleFault::Memory => Refused::Memory,
    }
}
