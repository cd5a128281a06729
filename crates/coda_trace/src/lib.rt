//! A cell that keeps the trace of its lines: each that was carried out, with what its step tells of disks.
#![tactic(auto)]

mod copying;
mod event;
mod laws;
mod operations;
mod traced;

pub use event::{Event, Note};
pub use laws::{recoveries_are_noted, traces_are_runs};
pub use traced::TracedCell;
