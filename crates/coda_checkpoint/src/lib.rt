//! A list of entries on a disk, of which a snapshot may take the place. After a crash in the midst of that it is the
//! list that was there, or the snapshot alone.
#![tactic(auto)]

mod area;
mod laws;
mod store;

pub use laws::{stores_stay_ours, truncations_are_whole};
pub use store::Store;

#[cfg(test)]
mod tests;
