//! Repair: an object of a volume, and all below it, made at all replicas what one of them has.
#![tactic(auto)]

mod finding;
mod law;
mod lookup;
mod part;
mod reach;
mod record;
mod spare;
mod updates;

pub use finding::have_room;
pub use law::{
    found_lead_alike, losers_are_marked, repaired_are_equal, repairs_belong_to_the_lineage,
    repairs_keep_trees_of_one_kind, source_keeps_the_rest,
};
pub use record::{Changes, RepairFault, RepairRecord, repair};

#[cfg(test)]
mod tests;
