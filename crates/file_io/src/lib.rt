//! Files as lists of bytes, over pages that are found by their keys.
#![tactic(auto)]

mod bits;
mod chunk;
mod file_head;
mod head;
mod overwriting;
mod reading;
mod resizing;
mod writing;

pub use head::{FileInfo, create, read_info};
pub use reading::read_at;
pub use resizing::set_length;
pub use writing::write_at;
