// Single pages, decoded and in hexadecimal numbers.
ghost use Rattle.std.specs.Prelude.{◌≡◌, ◌<◌, ◌≤◌, length};
ghost use Rattle.nand_model.specs.Changes.{OnlyReads};

use crate::fault::MapFault;
use crate::hex::write_hex;
use crate::text::put;
use flash_tree::CHECK_OBJECT;
use nand_model::{Nand, PageKind};
use page_tags::{Format, Header, HeaderFault, ObjectKind, Tag, decode_header};
use std::alloc::{AllocError, Global};
use std::io::Write;

/// What is shown of each page.
#[derive(Clone, Copy, PartialEq, Eq)]
enum Detail {
    /// What its tag and its header say.
    Tag,
    /// And its data.
    Data,
}

/// The fields of a tag.
fn tag_line(alloc: Global, tag: &Tag) -> Result<String, AllocError> {
    let index = tag.index;
    let count = tag.count;
    let object = tag.object;
    let chunk = tag.chunk;
    let version = tag.version;
    let group = tag.group;
    let seq = tag.seq;
    let checkpoint = if object == CHECK_OBJECT {
        " (a checkpoint)"
    } else {
        ""
    };
    format!(in alloc;
        "  page {index} of {count} of group {group}, object {object}{checkpoint}, chunk {chunk}, version {version}, seq {seq}\n"
    )
}

/// The fields of a header.
fn header_line(alloc: Global, header: &Header) -> Result<String, AllocError> {
    let format = match header.format {
        Format::One => 1,
        Format::Two => 2,
    };
    let length = header.length;
    let moment = header.moment;
    let spare = header.spare;
    match header.kind {
        ObjectKind::File => {
            format!(in alloc;
                "  header of format {format}: a file of {length} bytes, changed at {moment}\n"
            )
        }
        ObjectKind::Directory => {
            format!(in alloc;
                "  header of format {format}: a directory of {length} entries, changed at {moment}, spare {spare}\n"
            )
        }
    }
}

/// What is wrong with a header.
fn fault_line(alloc: Global, fault: HeaderFault) -> Result<String, AllocError> {
    let what = match fault {
        HeaderFault::Magic => "its first bytes are no header's",
        HeaderFault::Newer(number) => {
            return format!(in alloc; "  no header: it is of format {number}, which is newer\n");
        }
        HeaderFault::Kind => "it is neither a file nor a directory",
        HeaderFault::Length => "its length is out of range",
        HeaderFault::Pad => "a byte or a bit is set that has to be 0",
    };
    format!(in alloc; "  no header: {what}\n")
}

/// Writes what a valid tag says, and what the header of chunk 0 does.
fn write_fields<W: Write>(
    alloc: Global,
    out: &mut W,
    tag: &Tag,
    bytes: &[u8],
) -> Result<(), MapFault>
    requires least { 32 ≤ length bytes.now }
    requires most { length bytes.now ≤ 4096 }
{
    put(out, &tag_line(alloc, tag)?)?;
    if tag.chunk != 0 || tag.object == CHECK_OBJECT {
        return Ok(());
    }
    let line = match decode_header(bytes) {
        Ok(header) => header_line(alloc, &header)?,
        Err(fault) => fault_line(alloc, fault)?,
    };
    put(out, &line)
}

/// Writes a page that is written.
fn write_written<W: Write>(
    alloc: Global,
    out: &mut W,
    tag: &[u8; 48],
    bytes: &[u8],
    detail: Detail,
) -> Result<(), MapFault>
    requires least { 32 ≤ length bytes.now }
    requires most { length bytes.now ≤ 4096 }
{
    match Tag::decode(tag) {
        Some(fields) => {
            put(out, "written\n")?;
            write_fields(alloc, out, &fields, bytes)?;
        }
        None => put(out, "written, with no valid tag\n")?,
    }
    put(out, "  tag:\n")?;
    write_hex(alloc, out, &tag[..])?;
    if detail == Detail::Data {
        put(out, "  data:\n")?;
        write_hex(alloc, out, bytes)?;
    }
    Ok(())
}

/// Writes a page. Its data are read into `bytes`.
fn write_page<N: Nand, W: Write>(
    alloc: Global,
    out: &mut W,
    device: &mut N,
    block: u32,
    page: u32,
    bytes: &mut [u8],
    detail: Detail,
) -> Result<(), MapFault>
    requires block { block < (N.state device.old).geometry.blocks }
    requires page { page < (N.state device.old).geometry.pages }
    requires size { length bytes.old ≡ (N.state device.old).geometry.bytes }
    ensures reads { OnlyReads (N.state device.old) (N.state device.new) }
{
    let mut tag = [0; 48];
    let kind = device.read_page(block, page, bytes, &mut tag)?;
    put(out, &format!(in alloc; "block {block} page {page}: ")?)?;
    match kind {
        PageKind::Erased => put(out, "erased\n"),
        PageKind::Uncorrectable => put(out, "uncorrectable\n"),
        PageKind::Written => write_written(alloc, out, &tag, bytes, detail),
    }
}

/// Writes all pages of a block.
fn write_block<N: Nand, W: Write>(
    alloc: Global,
    out: &mut W,
    device: &mut N,
    block: u32,
    bytes: &mut [u8],
) -> Result<(), MapFault>
    requires block { block < (N.state device.old).geometry.blocks }
    requires size { length bytes.old ≡ (N.state device.old).geometry.bytes }
    ensures reads { OnlyReads (N.state device.old) (N.state device.new) }
{
    for page in 0..device.geometry().pages() {
        write_page(alloc, out, device, block, page, bytes, Detail::Tag)?;
    }
    Ok(())
}

/// Writes what a page of a block reads as: of a written page the fields of its tag, those of the header where it is one, and the
/// bytes of its tag and of its data, 16 on a line. With no page all pages of the block are written so, without their data. Of bytes
/// that are not printable only their numbers are shown.
///
/// Errors: NoPage where the device has no such block or page, Gone, NoMemory, Output.
pub fn write_dump<N: Nand, W: Write>(
    alloc: Global,
    out: &mut W,
    device: &mut N,
    block: u32,
    page: Option<u32>,
) -> Result<(), MapFault>
    ensures reads { OnlyReads (N.state device.old) (N.state device.new) }
{
    let geometry = device.geometry();
    if block >= geometry.blocks() {
        return Err(MapFault::NoPage);
    }
    let mut bytes = vec![in alloc; 0u8; geometry.bytes() as usize]?;
    if device.is_bad(block) {
        put(out, &format!(in alloc; "block {block} is marked bad\n")?)?;
    }
    match page {
        None => write_block(alloc, out, device, block, &mut bytes),
        Some(page) if page < geometry.pages() => {
            write_page(alloc, out, device, block, page, &mut bytes, Detail::Data)
        }
        Some(_) => Err(MapFault::NoPage),
    }
}
