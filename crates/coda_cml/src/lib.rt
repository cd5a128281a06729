//! The log of a client on a volume: frozen records on their way to a server, and those after them.
#![tactic(auto)]

mod choosing;
mod chunk;
mod fault;
mod frozen;
mod law;
mod log;
mod regrouping;
mod segment;

pub use fault::{FreezeFault, LogFault, SettleFault};
pub use frozen::Frozen;
pub use law::{
    a_thaw_has_the_segments, a_thaw_is_the_fold, additions_are_sound, cancellation_is_sound,
    chunks_are_the_longest, chunks_cut_the_run, conflicts_of_folds_are_real, cuts_part_the_fold,
    nothing_is_an_empty_fold, nothing_needless_stays, operations_keep_steady,
    segments_are_their_folds, segments_part_the_fold, temporary_objects_leave_nothing,
    the_rest_is_steady,
};
pub use log::Log;
pub use segment::Segment;
