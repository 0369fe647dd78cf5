//! A picture of a NAND chip: what each page is, in numbers, as text and as SVG, and single pages dumped.
#![tactic(auto)]

mod cell;
mod counts;
mod dump;
mod fault;
mod hex;
mod marking;
mod page_state;
mod reading;
mod surveyed;
mod surveying;
mod svg;
mod text;

pub use cell::Marked;
pub use counts::{PageCounts, count};
pub use dump::write_dump;
pub use fault::MapFault;
pub use page_state::{PageState, SurveyedPage};
pub use surveyed::Survey;
pub use surveying::survey;
pub use svg::write_svg;
pub use text::write_text;
