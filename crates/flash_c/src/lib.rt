//! The file system for C programs: a static library whose exports `flash_fs.h` declares.
//!
//! A mounted volume lies in memory that C hands in, a slot. Its device is at the other end of a port: a file whose reads and
//! writes C serves, as `port_nand` says. Each command is an export of its own, with a plain name. What it returns is the
//! number of the reply: 0 or a count, and below 0 an error, by the numbers of Linux. A slice crosses as a pointer and a length,
//! and no pointer is null.
#![tactic(auto)]

mod asking;
mod commands;
mod devices;
mod filling;
mod flags;
mod law;
mod listing;
mod names;
mod numbers;
mod placed;
mod port;
mod questions;
mod refreshing;
mod salvage_session;
mod salvage_slot;
mod salvaged;
mod salvaging;
mod session;
mod slot;
mod volumes;
mod way;
mod writing;
