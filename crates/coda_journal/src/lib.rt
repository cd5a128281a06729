//! A list of payloads on a disk. After a crash each entry is whole or isn't there.
#![tactic(auto)]

mod anew;
mod entries;
mod frame;
mod header;
mod heading;
mod journal;
mod laws;
mod mounting;
mod pieces;
mod synced;

pub use frame::Frame;
pub use header::{Header, Kind};
pub use journal::{Journal, JournalFault};
pub use laws::{
    each_image_is_found_once, journals_stay_ours, new_disks_are_empty, readings_are_not_foreign,
};
pub use mounting::{MountFault, Unmounted};
pub use synced::write_synced;
