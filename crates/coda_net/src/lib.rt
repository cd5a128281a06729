//! The network between clients and servers: letters that wait until they are lost, and links.
#![tactic(auto)]

mod fault;
mod law;
mod letter;
mod net;
mod pool;

pub use fault::NetFault;
pub use law::{
    finds_name_the_least_number, letters_wait_until_they_are_lost, posts_lose_the_oldest,
    trimmed_letters_wait,
};
pub use letter::Letter;
pub use net::Net;
