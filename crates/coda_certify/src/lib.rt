//! Certification of operations against a volume, and their replay, all or nothing.
#![tactic(auto)]

mod checks;
mod effects;
mod law;
mod reason;
mod replays;
mod verdict;

pub use checks::certify;
pub use effects::{apply, apply_to_table};
pub use law::{applied_records_are_certified, conflicts_name_the_first_refused};
pub use reason::Reason;
pub use replays::replay;
pub use verdict::Verdict;
