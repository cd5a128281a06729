//! Letters between clients and servers as what they say: chunks on their way to be decided, the answers to them, and
//! breaks.
#![tactic(auto)]

mod breaking;
mod delivering;
mod fault;
mod law;
mod losing;
mod sending;

pub use breaking::post_break;
pub use delivering::deliver;
pub use fault::LetterFault;
pub use law::{breaks_wait, bytes_tell_messages, chunks_are_light};
pub use losing::lose;
pub use sending::{post_answer, send_chunk};
