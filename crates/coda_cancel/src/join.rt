/// An operation that dropped earlier records as it was added.
#[derive(Clone, Copy, Debug, PartialEq, Eq)]
pub struct Join {
    /// The least number of a record that it dropped.
    pub least: u64,
    /// Its own number.
    pub number: u64,
}
