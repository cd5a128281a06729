// Why an actor wasn't made.
use coda_disk::BayFault;
use std::alloc::AllocError;
use thiserror::Error;

/// Why no actor was made, and nothing else was changed.
#[derive(Clone, Copy, Debug, PartialEq, Eq, Error)]
pub enum CrewFault {
    /// The bay refused the disk.
    #[error("bay fault")]
    Bay,
    /// There was no memory for the place of a new actor.
    #[error("no memory")]
    Memory,
}
