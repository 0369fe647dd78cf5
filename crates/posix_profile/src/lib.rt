//! What each command of the file system means: the types of commands and replies, the definitions of `specs/`, and the trait of
//! what answers commands.
#![tactic(auto)]

mod answers;
mod bytes;
mod command;
mod law;
mod reply;
mod request;

pub use answers::Answers;
pub use bytes::{Bytes, FilePath, NameList};
pub use command::{Access, Command, OpenFlags, Stamped, Whence};
pub use law::{
    a_formatted_volume_is_well_formed, a_free_descriptor_is_the_least,
    a_new_number_is_free_and_the_least, a_path_leads_to_a_place, a_settled_state_is_a_tree,
    a_step_answers_itself, a_write_goes_as_far_as_there_is_room, an_error_changes_nothing,
    every_changed_object_has_the_moment, every_reply_fits_its_type,
    every_run_keeps_a_state_well_formed, every_step_fits, every_step_keeps_a_state_well_formed,
    settling_again_changes_nothing, the_links_of_a_directory_are_its_subdirectories,
    the_links_of_a_file_are_its_names, the_test_says_what_lies_below,
};
pub use reply::{Errno, Info, Kind, Reply, SpaceInfo};
pub use request::{Request, StampedRequest};
