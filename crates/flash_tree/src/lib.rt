//! What a flash represents: which pages count, which is the newest of a key, and which tree they show.
#![tactic(auto)]

mod law;
mod marks;
mod place;
mod slot;
mod summaries;
mod tag;
mod truth;

pub use law::{
    a_flash_has_an_answer, a_flash_has_one_answer_at_most, a_flash_shows_one_tree,
    a_key_has_one_newest_page, a_list_is_gone_through_in_one_way, a_mark_keeps_what_lies_elsewhere,
    a_page_counts_by_its_own_tag, a_sound_flash_answers_its_tree, a_tag_lies_on_the_device,
    an_erase_keeps_what_lies_elsewhere, free_blocks_can_be_counted, one_more_group_is_newest,
    only_what_counts_is_newest, places_are_in_order, reads_keep_what_is_newest,
    the_footprint_shows_the_tree, the_greatest_numbers_are_one, the_same_groups_show_the_same,
    what_stays_newest_has_its_data,
};
pub use marks::count_bad;
pub use place::{Found, FreshPage, Key, TagNumbers};
pub use slot::{CHECK_OBJECT, CHUNK_END, decode_tree_slot};
pub use summaries::{
    a_block_that_fades_leaves_keys_findable, a_flash_without_tags_is_summarized,
    a_group_keeps_a_flash_summarized, a_mark_keeps_a_flash_summarized,
    a_summary_leaves_keys_findable, an_erase_of_the_first_keeps_a_flash_summarized,
    the_lowest_block_goes_first, the_pages_of_a_group_are_findable,
    the_same_groups_leave_keys_findable, trees_and_checkpoints_add_no_summary,
};
pub use tag::tag_at;
pub use truth::{
    a_block_that_fades_leaves_a_flash_true, a_true_flash_has_one_checkpoint,
    an_erase_and_a_mark_fade_a_block, groups_of_objects_bring_no_checkpoint,
    the_group_of_a_checkpoint_leaves_a_flash_true,
};
