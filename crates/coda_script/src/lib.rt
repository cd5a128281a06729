//! The lines of a script: what they say, and which they are.
#![tactic(auto)]

mod actors;
mod extras;
mod fault;
mod laws;
mod line;
mod operations;
mod options;
mod reading;
mod refusal;
mod reply;
mod servers;
mod services;
mod slots;
mod turns;

pub use coda_engine::Kind;
pub use fault::LineFault;
pub use laws::{each_line_has_a_spelling, wrong_columns_are_first, wrong_columns_are_wrong};
pub use line::{Content, Expansion, Line, Rights, Rule, Servers, Strength, Task};
pub use reading::read_line;
pub use refusal::Refusal;
pub use reply::{
    Answer, Arg, Args, ClientState, HoardEntries, HoardEntry, Mark, Marks, Numbers, Readable,
    Records, Reply, Undecided, Why,
};
