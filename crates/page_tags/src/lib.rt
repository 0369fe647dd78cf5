//! The bytes of the formats: a tag, a header, a slot, the head of a checkpoint and of a block summary, and an
//! entry of either. No call takes memory.
#![tactic(auto)]

mod check;
mod header;
mod law;
mod numbers;
mod presence;
mod slot;
mod summary_head;
mod tag;
mod zeros;

pub use check::{
    CheckEntry, decode_check_entry, decode_check_head, encode_check_entry, encode_check_head,
};
pub use header::{
    Format, Header, HeaderFault, ObjectKind, decode_header, encode_header, write_file_header,
};
pub use law::{
    each_page_is_a_header_or_has_a_fault, each_slot_is_one_or_none, each_tag_is_one_or_none,
    headers_differ, slots_differ, tags_differ,
};
pub use presence::{is_present, set_present};
pub use slot::{Slot, decode_slot, encode_slot};
pub use summary_head::{SummaryHead, decode_summary_head, encode_summary_head};
pub use tag::Tag;
