//! Plans for a cache of bounded size: who goes so that the rest fits, and a queue of which that is found fast.
#![tactic(auto)]

mod candidate;
mod index;
mod item;
mod law;
mod leaving;
mod planned;
mod planning;
mod queue;
mod rank;
mod room;
mod taking;

pub use item::Item;
pub use law::{plans_are_in_equilibrium, they_go_in_turn, who_goes_is_right};
pub use leaving::Gone;
pub use planned::Plan;
pub use planning::plan;
pub use queue::Queue;
pub use room::{queue_of, who_goes};

#[cfg(test)]
mod tests;
