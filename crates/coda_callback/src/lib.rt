//! Callbacks: what a server owes the clients that have copies of a volume's objects.
#![tactic(auto)]

mod interest;
mod kept;
mod law;
mod promises;

pub use interest::Interest;
pub use law::callbacks_move;
pub use promises::Promises;
