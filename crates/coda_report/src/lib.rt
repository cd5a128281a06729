//! The texts of a report: of each reply, and of the volumes and logs that are shown.
#![tactic(auto)]

mod laws;
mod logs;
mod outcomes;
mod paths;
mod printing;
mod records;
mod replies;
mod volumes;
mod walk;

pub use laws::volumes_are_shown_in_path_order;
pub use logs::log_text;
pub use replies::reply_text;
pub use volumes::volume_text;
