//! Disks, what a crash leaves of them, and bays that have them and crash them.
#![tactic(auto)]

mod bay;
mod calls;
mod files;
mod image;
mod laws;
mod memory;
mod outside;
mod places;
mod plan;

pub use bay::{Bay, BayFault};
pub use calls::{Call, Past};
pub use files::{FileBay, FileDisk};
pub use image::Image;
pub use laws::{crashes_fill_what_is_pending, crashes_take_all_or_nothing};
pub use memory::MemDisk;
pub use outside::{Disk, DiskFault};
pub use places::MemBay;
pub use plan::Plan;
