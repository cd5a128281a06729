/// Neighbouring operations of a log that are sent together, or not at all, since some dropped records of
/// others as they were added.
#[derive(Clone, Copy, Debug, PartialEq, Eq)]
pub struct Segment {
    /// The number of its first operation.
    pub first: u64,
    /// The number of its last operation.
    pub last: u64,
    /// How many records are left of it.
    pub count: usize,
    /// The greatest time of its operations.
    pub newest: u64,
}
