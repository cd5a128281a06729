//! What each line of a script does to a Coda cell, in definitions: clients with what they hold and their logs, replicas of volumes, the
//! letters and links between them; and the laws of what lines keep.
#![tactic(auto)]

mod laws;
mod runs;

pub use laws::{
    acceptance_goes_by_checks, accepted_operations_certify, caches_stay_in_order,
    clients_alone_meet_no_conflict, own_operations_keep_parents, refusals_come_in_order,
};
pub use runs::{
    cells_are_kept, drains_are_decided, lines_keep_cells, lines_keep_fronts,
    messages_can_be_spelled,
};
