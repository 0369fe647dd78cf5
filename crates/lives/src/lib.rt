//! What a volume keeps over many times that power comes on: the definitions of `specs/`, and their laws.
#![tactic(auto)]

mod law;

pub use law::{
    a_done_sync_of_all_leaves_all, a_life_finds_no_fault, a_life_keeps_its_tree_sound,
    a_session_without_a_cut_replies_as_the_steps, each_command_begun_has_a_reply,
    failed_mounts_leave_the_tree, lives_in_turn_are_a_life, only_a_cut_stops_a_session,
    the_next_mount_shows_a_prefix, undisturbed_lives_are_plain_runs,
};
