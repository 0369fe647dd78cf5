//! Writes pages in groups that count whole or not at all, wherever the power is cut.
#![tactic(auto)]

mod checkpoint;
mod fresh;
mod group;
mod law;
mod mark;
mod open;
mod page;
mod place;
mod source;
mod summary;
mod table;

pub use checkpoint::write_checkpoint;
pub use fresh::Fresh;
pub use group::{GroupFault, Placed, write_group};
pub use law::{
    a_group_comes_last, a_group_is_newest_of_its_keys, erases_and_marks_bring_no_number,
    numbers_of_calls_in_turn_add_up, the_table_has_the_marks_of_the_flash,
};
pub use mark::mark_block;
pub use open::erase_and_open;
pub use source::{LentPage, PageName, PageSource, SourceFault};
pub use summary::write_summary;
pub use table::{marked_table, table_of};
