//! Lives of a volume: sessions in turn on a device in memory, each of which may end at any moment, as the plan of its session says.
#![tactic(auto)]

mod commands;
mod device;
mod life;
mod power;
mod serving;
mod session;
mod start;

pub use device::PlannedNand;
pub use life::{LiveFault, live, live_one};
pub use nand_image::{ImageFault, ImageNand, create_image, open_image};
pub use plain_volume::PlainTree;
pub use session::{Session, SessionEnd};
