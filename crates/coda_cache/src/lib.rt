//! The cache of a client: copies of nodes, how each is held, and in which order they were used.
#![tactic(auto)]

mod above;
mod ahead;
mod begun;
mod by_use;
mod cache;
mod children;
mod choosing;
mod contents;
mod descending;
mod editing;
mod evicting;
mod fault;
mod growing;
mod hold;
mod holds;
mod law;
mod making;
mod marks;
mod mutating;
mod operating;
mod priorities;
mod prospect;
mod queued;
mod recency;
mod room;
mod row;
mod sizes;
mod sources;
mod sparing;
mod walking;

pub use begun::Begun;
pub use cache::Cache;
pub use fault::CacheFault;
pub use hold::Hold;
pub use law::{
    steps_keep_caches, who_goes_for_a_node_is_right, who_goes_for_an_operation_is_right,
};
pub use operating::{mentioned, taken_out};
pub use recency::Recency;
pub use row::CacheRow;
pub use sizes::kind_blocks;
