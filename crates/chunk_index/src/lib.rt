//! The index of the store: for each key its committed page on the flash, and what is present.
#![tactic(auto)]

mod change;
mod changes;
mod committed_keys;
mod copied;
mod cut;
mod entry;
mod filter;
mod form;
mod from_committed;
mod index;
mod law;
mod listing;
mod newest;
mod next;
mod object;
mod packed;
mod placed_pages;
mod prepare;
mod retain;
mod settle;
mod shelf;

pub use committed_keys::CommittedKeys;
pub use filter::KeyFilter;
pub use form::{CommittedKey, CommittedPage, Form, PagePlace, Present, WrittenGroup};
pub use index::Index;
pub use law::{
    a_list_as_long_as_the_count_is_whole, blocks_without_committed_pages_are_free,
    the_counts_add_up_to_the_committed_keys, the_counts_are_of_the_keys,
    the_list_of_a_block_is_whole, the_sorted_list_of_a_block_is_whole,
};
pub use placed_pages::PlacedPages;
