//! Clients: what one caches, its logs, and which operations it accepts; and the disk that keeps it.
#![tactic(auto)]

mod accepting;
mod ask;
mod below;
mod caching;
mod calls;
mod client;
mod done;
mod entries;
mod following;
mod fronts;
mod holding;
mod installing;
mod law;
mod looking;
mod marks;
mod mentioning;
mod operating;
mod reaching;
mod recover;
mod recovering;
mod recovery;
mod refused;
mod room;
mod seen;
mod serving;
mod settling;
mod venus;
mod volume_log;

pub use ask::{Ask, object_of, too_big};
pub use client::Client;
pub use done::Done;
pub use law::{clients_stay_ours, logs_are_folds};
pub use recovery::Unfit;
pub use refused::Refused;
pub use seen::Seen;
pub use venus::Venus;
pub use volume_log::VolumeLog;
