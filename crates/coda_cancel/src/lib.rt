//! The tail of a client's log: operations that were not sent yet, where later ones cancel earlier ones.
#![tactic(auto)]

mod adding;
mod dropping;
mod entering;
mod handing;
mod indexing;
mod join;
mod leaving;
mod lent;
mod mentions;
mod scanning;
mod shelf;
mod tail;
mod undoing;

pub use entering::AddFault;
pub use join::Join;
pub use lent::LentRecords;
pub use tail::Tail;
