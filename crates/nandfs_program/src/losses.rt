// What is lost of a volume, in lines.

use crate::fault::ToolFault;
use crate::listing::{shown_path, write_text};
use crate::salvaging::Salvaged;
use salvage::LostPlace;
use std::alloc::{AllocError, Global};
use std::io::Write;

/// Bytes of a file, from this one on, as many.
#[derive(Clone, Copy, PartialEq)]
pub struct ByteRange {
    pub from: u64,
    pub count: u64,
}

/// What is lost at a path.
#[derive(Clone, Copy, PartialEq)]
pub enum Loss {
    /// The header of the object, so that nothing is known of it.
    Header,
    /// So many names of a directory.
    Names(u64),
    /// Bytes of a file.
    Bytes(ByteRange),
    /// The directory has the name twice, and the second is left out.
    NamedTwice,
    /// The directory has another path, too, and is left out here.
    DirectoryTwice,
}

/// A path, and what is lost there.
#[derive(Drop)]
pub struct LostAt {
    pub path: Vec<u8>,
    pub loss: Loss,
}

impl ByteRange {
    /// Notes bytes: with the last range, where they follow it.
    pub(crate) fn note(
        ranges: &mut Vec<ByteRange>,
        from: u64,
        count: u64,
    ) -> Result<(), AllocError> {
        if let Some(last) = ranges.last_mut() {
            if last.from.saturating_add(last.count) == from {
                last.count = last.count.saturating_add(count);
                return Ok(());
            }
        }
        ranges.push(ByteRange { from, count })?;
        Ok(())
    }
}

/// What is said of a loss.
fn loss_text(alloc: Global, loss: Loss) -> Result<String, AllocError> {
    match loss {
        Loss::Header => String::from_str(alloc, "the header is lost"),
        Loss::Names(count) => format!(in alloc; "{count} names are lost"),
        Loss::Bytes(range) => {
            let from = range.from;
            let count = range.count;
            format!(in alloc; "{count} bytes from {from} on are lost")
        }
        Loss::NamedTwice => String::from_str(alloc, "the name is there twice"),
        Loss::DirectoryTwice => String::from_str(alloc, "the directory has another path"),
    }
}

/// Writes the places of the pages that are lost, a line for each.
fn show_pages<W: Write>(alloc: Global, out: &mut W, pages: &[LostPlace]) -> Result<(), ToolFault> {
    for place in pages {
        let block = place.block;
        let page = place.page;
        write_text(
            out,
            &format!(in alloc; "lost page: block {block}, page {page}\n")?,
        )?;
    }
    Ok(())
}

/// Writes what is lost, a line for each path and for each page. A page that is lost has no path any more: where an older page of its key
/// was left, that one is shown.
pub fn show_losses<W: Write>(alloc: Global, out: &mut W, left: &Salvaged) -> Result<(), ToolFault> {
    for at in &left.lost {
        let path = shown_path(alloc, &at.path)?;
        let text = loss_text(alloc, at.loss)?;
        write_text(out, &format!(in alloc; "{path}: {text}\n")?)?;
    }
    show_pages(alloc, out, &left.pages)
}
