use thiserror::Error;

/// Why bytes were read as no entry.
#[derive(Clone, Copy, Debug, PartialEq, Eq, Error)]
pub enum RecordFault {
    /// The bytes are no entry: the offset of the first field or byte that breaks the format, or their length where
    /// they are cut short.
    #[error("the bytes are no entry, from {0} on")]
    BadRecord(usize),
    /// There was no memory for the entry.
    #[error("out of memory for an entry")]
    Memory,
}
