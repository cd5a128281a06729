//! The call that runs a script in a Coda cell on the disks of a bay.
#![tactic(auto)]

mod laws;
mod lent;
mod machine;
mod report;
mod top;

pub use coda_cell::{
    acceptance_goes_by_checks, accepted_operations_certify, cells_are_kept,
    clients_alone_meet_no_conflict, lines_keep_cells, own_operations_keep_parents,
};
pub use coda_engine::{Kind, Status};
pub use coda_report::volumes_are_shown_in_path_order;
pub use coda_runs::{
    acknowledged_entries_stay, caches_are_forests, certified_chunks_are_applied,
    chunks_are_decided_once, chunks_overwrite_nobody, chunks_stand_with_clients, clean_scripts_run,
    clients_come_back, conflicts_name_a_sent_record, every_refusal_has_its_cause,
    frozen_chunks_go_again, letters_have_ends, letters_say_what_is_so, lines_act_on_made_volumes,
    logs_are_pending, missed_objects_are_out_of_reach, one_status, operations_are_kept,
    operations_are_performed, own_disks_are_not_foreign, recoveries_find_their_own,
    refusals_have_causes, refused_lines_change_little, replicas_come_back, replies_name_letters,
    runs_go_on, scripts_act_on_made_volumes, scripts_in_the_grammar_are_clean, scripts_run,
    settlements_are_decided, shown_states_are_settled, verdicts_are_told, verdicts_stand_at_home,
    verdicts_thaw, volumes_in_one_row_are_done_once, what_is_made_again_is_counted,
    what_is_shown_is_there, what_is_shown_is_up, what_others_hold_is_kept, what_ran_can_be_resumed,
    what_ran_is_kept, who_never_came_is_as_it_was,
};
pub use coda_shelves::{quiet_lines_have_one_outcome, shelves_are_kept};
pub use coda_site::blank_disks_stand;
pub use coda_versions::{
    applied_chunks_overwrite_nobody, operations_leave_versions, stale_operations_are_refused,
    versions_come_from_somewhere,
};
pub use laws::{
    cached_is_held, counted_replies_are_told, good_lines_run_over_any_bay,
    one_status_over_all_bays, what_asks_the_bay_is_of_it,
};
pub use top::{coda, run_script};
