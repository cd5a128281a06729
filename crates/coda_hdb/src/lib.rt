//! The hoard database: which paths a client wants to have in its cache, and how much.
#![tactic(auto)]

mod database;
mod entry;
mod fault;
mod law;
mod names;
mod place;

pub use database::Hdb;
pub use entry::{Expand, HdbEntry, HoardChange};
pub use fault::HdbFault;
pub use law::{databases_keep_their_order, one_place_has_one_path};
pub use place::text_of;
