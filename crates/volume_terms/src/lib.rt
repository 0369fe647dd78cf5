//! The words that all floors share: names, the sizes of a volume, why a store failed.
#![tactic(auto)]

mod fault;
mod name;
mod numbers;
mod sizes;

pub use fault::StoreFault;
pub use name::is_name;
pub use numbers::{
    BUFFERS_IN_BLOCK, DESCRIPTORS, NAME_LIMIT, NUMBER_END, PATH_LIMIT, ROOT, SLOT_BYTES,
};
pub use sizes::{VolumeSizes, most_file_bytes};
