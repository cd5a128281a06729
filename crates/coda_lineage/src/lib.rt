//! Histories of the replicas of a volume: what decisions, resolutions and repairs make of them, and that they stay
//! trees of one kind.
#![tactic(auto)]

mod law;

pub use law::{
    certified_records_are_decided, decisions_count_updates, merges_are_resolutions,
    replicas_stay_trees_of_one_kind,
};
