//! Version vectors: how many updates of each server are in a version of an object.
#![tactic(auto)]

mod law;
mod vector;

pub use law::{
    a_bump_adds_one_update, comparisons_tell_inclusion, inclusion_is_an_order,
    merging_is_the_least_upper_bound, merging_joins_updates, vectors_include_updates,
};
pub use vector::{Compare, Vv};
