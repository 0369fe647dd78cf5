// Where what is in an image.
ghost use Rattle.std.specs.Prelude.{◌≡◌, ◌<◌};
ghost use Rattle.nand_image.specs.Layout as spec;

use nand_model::Geometry;

/// What an image begins with.
pub(crate) const MAGIC: [u8; 8] = *b"NANDIMG1";

/// The bytes of the head of an image.
pub(crate) const HEAD_BYTES: u64 = 32;

/// What a page has beside its data: its kind and its tag.
pub(crate) const BESIDE_BYTES: u64 = 49;

/// Where a page begins, with its kind.
pub(crate) fn page_place(geometry: Geometry, block: u32, page: u32) -> u64
    requires block { block < geometry.blocks }
    requires page { page < geometry.pages }
    ensures { result ≡ spec.page_place geometry block page }
{
    let index = u64::from(block) * u64::from(geometry.pages()) + u64::from(page);
    HEAD_BYTES + u64::from(geometry.blocks()) + index * (BESIDE_BYTES + u64::from(geometry.bytes()))
}

/// Where the mark of a block stands.
pub(crate) fn mark_place(block: u32) -> u64
    ensures { result ≡ spec.mark_place block }
{
    HEAD_BYTES + u64::from(block)
}
