// Names and what they lead to, in lines.

use crate::fault::ToolFault;
use crate::walking::{Child, Walk, last_name};
use image_tools::host_name;
use plain_volume::info_at;
use posix_calls::{Info, Kind};
use posix_profile::Answers;
use std::alloc::Global;
use std::io::Write;

/// How names are listed: with kind, links, bytes and seconds of each, and with all directories below.
#[derive(Clone, Copy)]
pub struct Listing {
    pub long: bool,
    pub all_below: bool,
}

/// Writes a text. A fault of the writer is one of the output.
pub(crate) fn write_text<W: Write>(out: &mut W, text: &str) -> Result<(), ToolFault> {
    match out.write_all(text.as_bytes()) {
        Ok(()) => Ok(()),
        Err(_) => Err(ToolFault::Output),
    }
}

/// The letter of a kind.
pub(crate) fn letter_of(kind: Kind) -> char {
    match kind {
        Kind::File => '-',
        Kind::Directory => 'd',
    }
}

/// A path as it is shown: each name as a host name, so that no byte of an image reaches a terminal as it is.
pub(crate) fn shown_path(alloc: Global, path: &[u8]) -> Result<String, ToolFault> {
    let text = image_tools::host_path(alloc, "", path)?;
    if text.is_empty() {
        return Ok(String::from_str(alloc, "/")?);
    }
    Ok(text)
}

/// Writes a name on a line, after what its object is.
fn write_name<W: Write>(
    alloc: Global,
    out: &mut W,
    name: &[u8],
    info: &Info,
    long: bool,
) -> Result<(), ToolFault> {
    let name = host_name(alloc, name)?;
    if long {
        let letter = letter_of(info.kind);
        let links = info.links;
        let size = info.size;
        let moment = info.moment;
        let line = format!(in alloc; "{letter} {links:>4} {size:>10} {moment:>12} ")?;
        write_text(out, &line)?;
    }
    write_text(out, &name)?;
    write_text(out, "\n")
}

/// Writes the names of a directory.
fn write_children<W: Write>(
    alloc: Global,
    out: &mut W,
    children: &[Child],
    long: bool,
) -> Result<(), ToolFault> {
    for child in children {
        write_name(alloc, out, last_name(&child.path), &child.info, long)?;
    }
    Ok(())
}

/// Writes the path of a directory above its names.
fn write_heading<W: Write>(
    alloc: Global,
    out: &mut W,
    gap: &str,
    path: &[u8],
) -> Result<(), ToolFault> {
    let shown = shown_path(alloc, path)?;
    write_text(out, gap)?;
    write_text(out, &shown)?;
    write_text(out, ":\n")
}

/// Lists the names of a directory in the order of their bytes, or the one file that the path leads to: the letter `d` of a
/// directory, the links, the bytes and the seconds of the last change where it is long. With all directories below, each comes
/// after its path.
pub fn list<V: Answers, W: Write>(
    alloc: Global,
    volume: &mut V,
    out: &mut W,
    path: &[u8],
    listing: Listing,
) -> Result<(), ToolFault> {
    let info = info_at(alloc, volume, path)?;
    if info.kind == Kind::File {
        return write_name(alloc, out, last_name(path), &info, listing.long);
    }
    let mut walk = Walk::new(alloc, path, listing.all_below)?;
    let mut gap = "";
    for _directory in 0..u64::MAX {
        let Some(directory) = walk.next_directory(alloc, volume)? else {
            break;
        };
        if listing.all_below {
            write_heading(alloc, out, gap, &directory.path)?;
        }
        write_children(alloc, out, &directory.children, listing.long)?;
        gap = "\n";
    }
    Ok(())
}
