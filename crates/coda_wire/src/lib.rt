//! Messages between clients and servers, as bytes.
#![tactic(auto)]

mod fault;
mod law;
mod message;
mod reading;
mod writing;

pub use coda_record::Answer;
pub use fault::WireFault;
pub use law::{first_bytes_say_nothing, messages_are_exact};
pub use message::Message;
pub use reading::read;
pub use writing::{write, write_chunk};
