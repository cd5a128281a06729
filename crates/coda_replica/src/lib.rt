//! Replicas: one server's copy of a volume, which decides the chunks of clients, each once.
#![tactic(auto)]

mod answers;
mod decider;
mod entries;
mod fault;
mod lasts;
mod law;
mod recovery;
mod replica;

pub use decider::Decider;
pub use fault::ReplicaFault;
pub use law::{answers_tell_the_last, chunks_are_decided_once, repeats_are_answered_alike};
pub use replica::Replica;
