//! The engine that reads a script in pieces and runs it line by line over a machine.
//!
//! A line is what `str::lines` gives: the bytes before a newline, less one carriage return before it. What stands
//! behind the last newline is a line too, where it isn't empty. Each line runs as soon as it is complete. The texts of the
//! replies are gathered, and written before the next piece is read, before a line runs that may ask the bay, and before the run
//! ends: a script of many lines takes few calls of the sink, who types lines sees the reply to each before the next, and behind a
//! fault of the bay none is missing. A script has at most 16 MiB and 200,000 lines.
#![tactic(auto)]

mod gathering;
mod laws;
mod machine;
mod reader;
mod running;
mod status;
mod writing;

pub use laws::{clean_scripts_run, one_status};
pub use machine::{LineFault, LineStop, Machine};
pub use running::run;
pub use status::{Kind, Status};
