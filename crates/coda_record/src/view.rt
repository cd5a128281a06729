use crate::last::Lasts;
use coda_reslog::HeldObjects;

/// What a replica of a volume holds.
#[derive(Debug, Drop)]
pub struct View {
    /// The replica's server, from 1 to 8.
    pub server: u8,
    /// The volume.
    pub volume: u32,
    /// The objects, with what the replica holds of each, in increasing order of fids.
    pub held: HeldObjects,
    /// The last decision of each client that has any.
    pub lasts: Lasts,
}
