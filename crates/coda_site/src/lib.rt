//! What the lines of a script do to a Coda cell in one process, on the disks of a bay: clients and replicas in their slots, the links between
//! them and the letters on their way.
#![tactic(auto)]

mod cell;
mod chunks;
mod draining;
mod failing;
mod fault;
mod laws;
mod lines;
mod links;
mod making;
mod messages;
mod replies;
mod site;
mod states;
mod tasks;
mod there;

pub use cell::Cell;
pub use fault::CellFault;
pub use laws::blank_disks_stand;
pub use lines::{asks_bay, fail, is_built, set_link, show_log, show_volume, tick};
pub use messages::{deliver, lose, send};
pub use site::{Place, Site};
pub use states::show_state;
pub use tasks::carry_out;
