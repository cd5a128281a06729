//! Chunks between a client on a disk and a replica on a disk, one of the two at a time: a client freezes a chunk, a
//! replica rules on it, and the client takes the answer.
#![tactic(auto)]

mod freezing;
mod ruling;
mod spelling;
mod taking;

pub use freezing::{chunk_for, freeze_for};
pub use ruling::rule;
pub use spelling::can_be_posted;
pub use taking::take;
