// Maps in memory as a store of objects.

mod changes;
mod names;
mod store;

pub use store::PlainObjects;
