//! The states of a client on a volume: hoarding, emulating, write-disconnected.
#![tactic(auto)]

mod law;
mod state;

pub use law::{states_follow_their_links, states_settle};
pub use state::{Link, State, next};
