//! Cells whose volumes have several replicas: what may happen in them, and what holds of all their runs.
#![tactic(auto)]

mod law;

pub use law::{
    group_cells_are_promised, group_runs_are_sound, groups_stand_elsewhere,
    joined_lists_are_joined, letters_are_true, merge_changes_are_resolutions, repaired_are_equal,
    resolved_replicas_are_equal_or_marked, some_chunk_is_taken_over, some_volume_is_repaired,
    steps_are_moves, steps_keep_group_sound, steps_run,
};
