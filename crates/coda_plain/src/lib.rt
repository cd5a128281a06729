//! The plain cell: the history of each actor, what may happen to it entry by entry, and what holds of all its runs.
#![tactic(auto)]

mod laws;

pub use laws::{
    freezes_part_the_log, histories_stay, logs_go_on, moves_keep_sound, moves_run,
    next_objects_are_fresh, replicas_stand_elsewhere, runs_are_sound, some_chunk_is_settled,
    sound_cells_are_promised,
};
