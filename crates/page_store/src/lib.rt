//! The store of pages: pages of keys on a log, with a buffer over them and a cache beside. It is opened by a scan or a checkpoint,
//! and what is buffered is committed as one group. The pages of a worn device are only read.
#![tactic(auto)]

mod buffer;
mod buffer_law;
mod buffering;
mod cache;
mod caching;
mod changing;
mod checkpoint_opening;
mod committed_reading;
mod committing;
mod counts;
mod cutting;
mod dropping;
mod first_pages;
mod first_pages_law;
mod flash_pages;
mod group_writing;
mod key_ranges;
mod log_commit;
mod newest_law;
mod newest_pages;
mod opening;
mod page_names;
mod read_only;
mod reading;
mod refreshing;
mod sealing;
mod slot;
mod store;
mod store_trait;
mod summary_opening;
mod turn;

pub use buffer::Buffer;
pub use buffer_law::a_written_buffer_is_committed;
pub use buffering::prepare;
pub use cache::PageCache;
pub use checkpoint_opening::open_committed;
pub use committed_reading::read_committed;
pub use counts::StoreCounts;
pub use first_pages::note_firsts;
pub use first_pages_law::a_table_of_first_pages_knows_erased_blocks;
pub use flash_pages::FlashPages;
pub use newest_law::the_opened_pages_are_the_newest;
pub use newest_pages::NewestPages;
pub use object_store::ObjectTable;
pub use opening::{OpenFault, Opened, open};
pub use pages::Change;
pub use read_only::ReadOnlyPages;
pub use store::Store;
pub use summary_opening::open_summarized;
