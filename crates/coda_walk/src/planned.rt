use coda_fid::Fid;

/// What a hoard walk does to a cache: who stays, who is fetched and who goes.
#[derive(Debug, Drop)]
pub struct Plan {
    /// The cached objects that stay as they are.
    pub keep: Vec<Fid>,
    /// The objects to be fetched, directories before what stands under them, and else by fid: those that were taken and may
    /// not be served, and what is above them and isn't cached.
    pub fetch: Vec<Fid>,
    /// The cached objects that go, in order.
    pub drop: Vec<Fid>,
}
