use thiserror::Error;

/// Why a log took no operation.
#[derive(Clone, Copy, Debug, PartialEq, Eq, Error)]
pub enum LogFault {
    /// It would hold more than 4,096 records, or more than 16 MiB.
    #[error("the log is full")]
    LogFull,
    /// There was no memory.
    #[error("out of memory for the log")]
    Memory,
}

/// Why no chunk was frozen, or the log was not given up.
#[derive(Clone, Copy, Debug, PartialEq, Eq, Error)]
pub enum FreezeFault {
    /// The chunk of this number is frozen, for this server.
    #[error("chunk {0} is frozen for server {1}")]
    Frozen(u64, u8),
    /// There is no record.
    #[error("nothing to send")]
    Nothing,
    /// The newest operation that is to go is as many seconds old as the first says, and the second are asked.
    #[error("{0} seconds old, of {1}")]
    Young(u64, u64),
    /// There was no memory.
    #[error("out of memory for a chunk")]
    Memory,
}

/// Why a verdict was not taken.
#[derive(Clone, Copy, Debug, PartialEq, Eq, Error)]
pub enum SettleFault {
    /// No chunk is frozen; the verdict is on the chunk of this number.
    #[error("chunk {0} is not frozen")]
    NotFrozen(u64),
    /// The chunk of the first number is frozen, and the verdict is on the second.
    #[error("chunk {0} is frozen, not {1}")]
    WrongNumber(u64, u64),
    /// There was no memory to put the chunk back.
    #[error("out of memory for a thaw")]
    Memory,
}
