//! The last updates of a directory, by which its replicas are resolved, and what a replica holds of an object.
#![tactic(auto)]

mod change;
mod entry;
mod law;
mod ring;

pub use change::{Change, Fids, Held, HeldObjects};
pub use entry::{Lost, ResEntry, ResKind};
pub use law::rings_keep_the_latest;
pub use ring::Ring;
