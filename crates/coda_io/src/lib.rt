//! What a program reads from and writes to, each with a count of its faults; and where its threads can be held.
#![tactic(auto)]

mod gate;
mod memory;
mod outside;
mod standard;

pub use gate::{Actor, Gate, Point, RealGate};
pub use memory::{MemSink, MemSource};
pub use outside::{ReadFault, Sink, Source, WriteFault};
pub use standard::{StdSink, StdSource};
