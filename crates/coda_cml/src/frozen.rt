/// The chunk on its way to a server.
#[derive(Clone, Copy, Debug, PartialEq, Eq)]
pub struct Frozen {
    /// Its number.
    pub number: u64,
    /// The server that it is for.
    pub home: u8,
}
