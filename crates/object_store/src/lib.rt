//! What the commands of the profile ask of a store of objects, and what its calls leave; the table of objects, for whatever keeps
//! them.
#![tactic(auto)]

mod change;
mod counted_facts;
mod edit;
mod facts;
mod free_numbers;
mod halves;
mod packed_facts;
mod refusal;
mod store;
mod table;
mod table_builder;
mod table_facts;
mod table_parts;

pub use change::{DirectoryEntry, ObjectChange};
pub use facts::is_file;
pub use refusal::Refusal;
pub use store::ObjectStore;
pub use table::ObjectTable;
pub use table_builder::TableBuilder;
pub use table_facts::ObjectFacts;
