//! The table of a device's blocks: which are bad, how many committed pages each has, which one is being written, and the
//! numbers that are handed out next.
#![tactic(auto)]

mod blocks;
mod counts;
mod law;

pub use blocks::{BlockEntry, Blocks, NextNumbers};
pub use law::{
    a_block_can_be_collected, a_mark_moves_a_block, free_blocks_are_uncommitted,
    the_same_counts_count_the_same,
};
