//! Scripts that are generated from a number, as many lines as are asked for: the same at each run.
#![tactic(auto)]

mod fault;
mod generator;
mod law;

pub use fault::GenFault;
pub use generator::script;
pub use law::longer_scripts_begin_with_shorter_ones;
