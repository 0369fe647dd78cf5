// The room of a volume.

use crate::blocks::ceiling;
use crate::chip::BlockCounts;
use crate::fault::ToolFault;
use crate::json::write_json;
use crate::listing::write_text;
use plain_volume::ask;
use posix_calls::{Command, Reply};
use posix_profile::Answers;
use serde::Serialize;
use std::alloc::Global;
use std::io::Write;

/// The room of a volume for files and directories, without the pages that it needs for itself: in bytes, in pages, and how many
/// percent are in use, where a part of one counts as one.
#[derive(Clone, Copy, Serialize)]
pub(crate) struct Room {
    bytes: u64,
    used: u64,
    free: u64,
    page_bytes: u64,
    pages: u64,
    used_pages: u64,
    free_pages: u64,
    percent: u64,
}

/// The room of a volume, and the blocks that it is on.
#[derive(Clone, Copy, Serialize)]
struct SpaceReport {
    #[serde(flatten)]
    room: Room,
    #[serde(flatten)]
    blocks: BlockCounts,
    reserved_blocks: u64,
}

/// The room of a volume.
pub(crate) fn room_of<V: Answers>(volume: &mut V) -> Result<Room, ToolFault> {
    let Reply::SpaceInfo(space) = ask(volume, 0, Command::Space)? else {
        return Err(ToolFault::Unlike);
    };
    let used_pages = space.total.saturating_sub(space.free);
    Ok(Room {
        bytes: space.total.saturating_mul(space.unit),
        used: used_pages.saturating_mul(space.unit),
        free: space.free.saturating_mul(space.unit),
        page_bytes: space.unit,
        pages: space.total,
        used_pages,
        free_pages: space.free,
        percent: ceiling(used_pages.saturating_mul(100), space.total),
    })
}

/// The blocks that may go bad, of a volume with this room: it has three quarters of the pages of all blocks but these and one.
fn reserved_of(room: Room, blocks: BlockCounts) -> u64 {
    let pages = u64::from(blocks.pages_in_block - blocks.pages_in_block / 4);
    if pages == 0 {
        return 0;
    }
    u64::from(blocks.blocks)
        .saturating_sub(1)
        .saturating_sub(room.pages / pages)
}

/// Writes the room of a volume and the blocks that it is on, a number a line.
pub(crate) fn write_room<W: Write>(
    alloc: Global,
    out: &mut W,
    room: Room,
    blocks: BlockCounts,
) -> Result<(), ToolFault> {
    let Room {
        bytes,
        used,
        free,
        ..
    } = room;
    let text = format!(in alloc; "bytes {bytes}\nused {used}\nfree {free}\n")?;
    write_text(out, &text)?;
    let Room {
        page_bytes,
        pages,
        used_pages,
        free_pages,
        percent,
        ..
    } = room;
    let text = format!(in alloc;
        "page_bytes {page_bytes}\npages {pages}\nused_pages {used_pages}\nfree_pages {free_pages}\npercent {percent}\n"
    )?;
    write_text(out, &text)?;
    let reserved = reserved_of(room, blocks);
    let BlockCounts {
        blocks,
        pages_in_block,
        free_blocks,
        bad_blocks,
    } = blocks;
    let text = format!(in alloc;
        "blocks {blocks}\npages_in_block {pages_in_block}\nfree_blocks {free_blocks}\nbad_blocks {bad_blocks}\nreserved_blocks {reserved}\n"
    )?;
    write_text(out, &text)
}

/// Writes the room of a volume, in use and free, in bytes and in pages, and of its blocks how many are erased, bad and reserved.
pub fn show_space<V: Answers, W: Write>(
    alloc: Global,
    volume: &mut V,
    out: &mut W,
    blocks: BlockCounts,
) -> Result<(), ToolFault> {
    let room = room_of(volume)?;
    write_room(alloc, out, room, blocks)
}

/// Writes the same as an object of JSON.
pub fn show_space_as_json<V: Answers, W: Write>(
    alloc: Global,
    volume: &mut V,
    out: &mut W,
    blocks: BlockCounts,
) -> Result<(), ToolFault> {
    let room = room_of(volume)?;
    let report = SpaceReport {
        room,
        blocks,
        reserved_blocks: reserved_of(room, blocks),
    };
    write_json(alloc, out, &report)
}
