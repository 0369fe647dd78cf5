//! The log: a device, the table of its blocks and the index of its pages. Blocks are allocated, past those that went bad,
//! emptied, collected as garbage and retired; and a checkpoint is written, which lists where the newest page of each key lies.
#![tactic(auto)]

mod allocation;
mod checkpoint_due;
mod checkpoint_parts;
mod checkpoint_source;
mod checkpoint_writing;
mod choice;
mod collection;
mod copies;
mod copying;
mod fault;
mod gathering;
mod law;
mod log;
mod moving;
mod next_block;
mod noted;
mod origin;
mod refresh;
mod reporting;
mod retirement;
mod room;
mod room_fault;
mod room_making;
mod seal_fault;
mod sealing;
mod summary_parts;
mod summary_source;
mod summary_writing;
mod take;

pub use fault::MoveFault;
pub use law::blocks_are_taken_in_turn;
pub use log::Log;
pub use moving::Moved;
pub use origin::Origin;
pub use room::MoveRoom;
pub use room_fault::RoomFault;
pub use seal_fault::SealFault;
pub use summary_source::{SummarySource, a_written_summary_is_whole};
pub use take::{TakeFault, take_block};
