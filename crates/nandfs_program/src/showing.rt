// The bytes of a file, and what a path leads to.

use crate::fault::ToolFault;
use crate::listing::{shown_path, write_text};
use plain_volume::{bytes_at, info_at};
use posix_calls::Kind;
use posix_profile::Answers;
use std::alloc::Global;
use std::io::Write;

/// Writes the bytes of a file, as they are.
pub fn show_file<V: Answers, W: Write>(
    alloc: Global,
    volume: &mut V,
    out: &mut W,
    path: &[u8],
) -> Result<(), ToolFault> {
    let bytes = bytes_at(alloc, volume, path)?;
    match out.write_all(&bytes) {
        Ok(()) => Ok(()),
        Err(_) => Err(ToolFault::Output),
    }
}

/// The word of a kind.
pub(crate) fn kind_name(kind: Kind) -> &'static str {
    match kind {
        Kind::File => "file",
        Kind::Directory => "directory",
    }
}

/// Writes what a path leads to: kind, number, links, bytes and seconds of the last change, a line for each.
pub fn show_status<V: Answers, W: Write>(
    alloc: Global,
    volume: &mut V,
    out: &mut W,
    path: &[u8],
) -> Result<(), ToolFault> {
    let info = info_at(alloc, volume, path)?;
    let shown = shown_path(alloc, path)?;
    let kind = kind_name(info.kind);
    let object = info.object;
    let links = info.links;
    let size = info.size;
    let moment = info.moment;
    let text = format!(in alloc;
        "path {shown}\nkind {kind}\nobject {object}\nlinks {links}\nbytes {size}\nseconds {moment}\n"
    )?;
    write_text(out, &text)
}
