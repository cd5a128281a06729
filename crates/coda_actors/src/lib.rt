//! The life of one actor of a cell, a client or a server's replica of a volume, and of its disk: opened, crashed, recovered, armed and
//! given back.
#![tactic(auto)]

mod actor;
mod client;
mod law;
mod life;
mod replica;
mod slot;

pub use actor::Actor;
pub use law::{
    actors_are_at_rest, additions_fit, crashes_are_recovered, entries_stay, own_headers_are_served,
};
pub use life::{arm, crash, give_back, give_up, open, recover};
pub use slot::{Mounting, Slot};
