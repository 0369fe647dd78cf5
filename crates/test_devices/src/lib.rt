//! Devices for tests and benchmarks: a flash in memory that is put together page by page, a log and a store on a device as a scan
//! finds them, and a plain search of a flash, which reads tags again and again.
#![tactic(auto)]

mod build_fault;
mod change;
mod consistency;
mod fault;
mod flash;
mod group;
mod keys;
mod mount;
mod opening;
mod search;

pub use build_fault::BuildFault;
pub use change::{Apart, fits};
pub use consistency::has_uncommitted;
pub use fault::LogFault;
pub use flash::{TestFault, TestFlash};
pub use mount::{mount_log, mount_log_beside};
pub use opening::{open_committed, open_each, open_noted};
pub use search::{greatest, newest};
