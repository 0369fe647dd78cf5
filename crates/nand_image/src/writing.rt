// What a change of the flash writes to the file.
ghost use Rattle.std.specs.Prelude.{◌≡◌, ◌<◌, List, [], ◌∷◌, Option, None, length};
ghost use Rattle.nand_image.specs.Writes.{Write as FileWrite, Adds, WritesAll, program_writes, erase_writes, mark_writes};

use crate::layout::{mark_place, page_place};
use nand_model::Geometry;
use std::io::{Result, Seek, SeekFrom, Write};

/// What bytes can be written to at a place.
pub trait WriteAt {
    /// The writes that were done, in their order, where they are known.
    ghost writes: { Self → Option (List FileWrite) } = { λ _. None };

    /// Writes all the bytes from this place on, from the start.
    fn write_at(&mut self, place: u64, bytes: &[u8]) -> Result<()>
        ensures { WritesAll (record { place = place; bytes = bytes.now } ∷ []) (writes self.old) (writes self.new) result };
}

impl<F: Write + Seek> WriteAt for F {
    fn write_at(&mut self, place: u64, bytes: &[u8]) -> Result<()> {
        self.seek(SeekFrom::Start(place))?;
        self.write_all(bytes)
    }
}

/// Writes a page: its data, its tag, and only then that it is written.
pub(crate) fn write_program<F: WriteAt>(
    file: &mut F,
    geometry: Geometry,
    block: u32,
    page: u32,
    bytes: &[u8],
    tag: &[u8; 48],
) -> Result<()>
    requires block { block < geometry.blocks }
    requires page { page < geometry.pages }
    ensures { WritesAll (program_writes geometry block page bytes.now tag.now) (F.writes file.old) (F.writes file.new) result }
{
    let place = page_place(geometry, block, page);
    file.write_at(place + 49, bytes)?;
    file.write_at(place + 1, tag)?;
    file.write_at(place, &[1])
}

/// Writes of each page of a block that it is erased.
pub(crate) fn write_erase<F: WriteAt>(file: &mut F, geometry: Geometry, block: u32) -> Result<()>
    requires { block < geometry.blocks }
    ensures { WritesAll (erase_writes geometry block geometry.pages) (F.writes file.old) (F.writes file.new) result }
{
    for page in 0..geometry.pages() {
        file.write_at(page_place(geometry, block, page), &[0])?;
    }
    Ok(())
}

/// Writes that a block is bad.
pub(crate) fn write_mark<F: WriteAt>(file: &mut F, block: u32) -> Result<()>
    ensures { WritesAll (mark_writes block) (F.writes file.old) (F.writes file.new) result }
{
    file.write_at(mark_place(block), &[1])
}
