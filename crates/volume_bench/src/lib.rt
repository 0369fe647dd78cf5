//! A run of shell lines over a fresh volume in memory, and what it costs: calls of the device by their kind, erases of each block,
//! time of the flash and of the processor, and what the mounts after it cost.
#![tactic(auto)]

mod cost;
mod counts;
mod device;
mod fault;
mod flash_times;
mod histogram;
mod mounts;
mod running;
mod script;
mod svg;
mod text;

pub use cost::Cost;
pub use counts::Counts;
pub use device::CountedNand;
pub use fault::BenchFault;
pub use flash_times::FlashTimes;
pub use histogram::{Bin, bins};
pub use running::{Bench, run};
pub use svg::write_svg;
pub use text::write_text;
