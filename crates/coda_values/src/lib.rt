//! Operations, records, verdicts, nodes and what replicas hold as bytes: a table of formats, with its laws.
#![tactic(auto)]

mod cursor;
mod fault;
pub mod held;
mod law;
pub mod lengths;
pub mod nodes;
pub mod parts;
pub mod reading;
mod records;
pub mod updates;
pub mod writing;

pub use cursor::{Cursor, Tag};
pub use fault::Fault;
pub use law::{
    changes_are_exact, each_part_is_exact, nodes_are_exact, operations_are_exact,
    verdicts_are_exact,
};
pub use records::Records;
