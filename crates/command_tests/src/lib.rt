//! Sessions of commands over maps: requests and replies, with each call refused memory in turn; and runs that are
//! cut off at each of their calls.
#![tactic(auto)]

#[cfg(test)]
mod committed;
#[cfg(test)]
mod cuts;
#[cfg(test)]
mod fuse;
#[cfg(test)]
mod lines;
#[cfg(test)]
mod refused;
#[cfg(test)]
mod refusing;
#[cfg(test)]
mod shells;
#[cfg(test)]
mod trees;
