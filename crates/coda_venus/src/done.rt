use coda_fid::Fid;

/// An operation that was performed: its number, and the object that it created, changed, removed or moved.
#[derive(Clone, Copy, Debug, PartialEq, Eq)]
pub struct Done {
    /// Its number among those of the client on the volume.
    pub number: u64,
    /// The object.
    pub fid: Fid,
}
