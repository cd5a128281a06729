//! The actors of one kind of a cell, its clients or its replicas, by the numbers of their disks, over one bay.
#![tactic(auto)]

mod crew;
mod fault;
mod law;
mod places;

pub use crew::{arm, crash, get, give_back, give_up, is_made, is_up, open, recover, unmade};
pub use fault::CrewFault;
pub use law::{others_fit, steps_fit};
pub use places::{put, take};
