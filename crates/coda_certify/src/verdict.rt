use crate::Reason;

/// What became of a list of records.
#[derive(Clone, Copy, Debug, PartialEq, Eq)]
pub enum Verdict {
    /// Each record was certified and applied.
    Applied,
    /// The record of this number was refused for this reason, and none was applied.
    Conflict(u64, Reason),
}
