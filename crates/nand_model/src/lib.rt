//! A NAND flash device: its interface, with what each call leaves wherever it is cut, and a device in memory.
#![tactic(auto)]

mod block;
mod count;
mod fate;
mod geometry;
mod law;
mod memory;
mod nand;
mod plan;
mod power;
mod trust;
mod trusted_nand;

pub use count::Count;
pub use fate::Fate;
pub use geometry::{BadGeometry, Geometry};
pub use law::{
    a_program_changes_an_erased_page, an_erase_shrinks_its_block, calls_in_turn,
    reads_change_nothing,
};
pub use memory::MemNand;
pub use nand::{EraseFault, Gone, Nand, PageKind, ProgramFault};
pub use trust::Trust;
pub use trusted_nand::TrustedNand;
