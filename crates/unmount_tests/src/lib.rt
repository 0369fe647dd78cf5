//! Tests of an unmount that writes a checkpoint and of a mount that goes by it: what is written, what is read, what a cut or a
//! failure of each call leaves, checkpoints that were altered, and unmounts that write none; and of a mount by block summaries, what
//! a cut in the writing of one leaves, beside a mount by all tags, and by all tags where one is altered.
#![tactic(auto)]

#[cfg(test)]
mod altered;
#[cfg(test)]
mod both_ways;
#[cfg(test)]
mod devices;
#[cfg(test)]
mod faults;
#[cfg(test)]
mod lines;
#[cfg(test)]
mod rows;
#[cfg(test)]
mod search;
#[cfg(test)]
mod skipped;
#[cfg(test)]
mod summarized;
