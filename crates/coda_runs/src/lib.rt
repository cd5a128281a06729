//! What holds of all runs of scripts in cells that are their disks, whatever crashes and whatever disks fail.
#![tactic(auto)]

mod laws;

pub use laws::{
    acknowledged_entries_stay, caches_are_forests, certified_chunks_are_applied,
    chunks_are_decided_once, chunks_overwrite_nobody, chunks_stand_with_clients, clean_scripts_run,
    clients_come_back, conflicts_name_a_sent_record, every_refusal_has_its_cause,
    frozen_chunks_go_again, letters_have_ends, letters_say_what_is_so, lines_act_on_made_volumes,
    logs_are_pending, missed_objects_are_out_of_reach, one_status, operations_are_kept,
    operations_are_performed, own_disks_are_not_foreign, recoveries_find_their_own,
    refusals_have_causes, refused_lines_change_little, replicas_come_back, replies_name_letters,
    runs_go_on, scripts_act_on_made_volumes, scripts_in_the_grammar_are_clean, scripts_run,
    settlements_are_decided, shown_states_are_settled, verdicts_are_told, verdicts_stand_at_home,
    verdicts_thaw, volumes_in_one_row_are_done_once, what_is_made_again_is_counted,
    what_is_shown_is_there, what_is_shown_is_up, what_others_hold_is_kept, what_ran_can_be_resumed,
    what_ran_is_kept, who_never_came_is_as_it_was,
};
