// The interface of a NAND flash device whose spare area has room for 24 bytes.
ghost use Rattle.std.specs.Prelude.{◌≡◌, ◌<◌, true, false, length, Some};
ghost use Rattle.nand_model.specs.Flash.{IsClean, IsWithin};
ghost use Rattle.nand_model.specs.Calls.{Device, Reads, ReadReports, Fills, FillsData, bytes_of, tag_of, Programs, Erases, Marks};
ghost use Rattle.port_nand.specs.SmallSpare.{IsSmallSized};

use nand_model::{EraseFault, Geometry, Gone, PageKind, ProgramFault};

/// A raw NAND flash as `nand_model::Nand` is one, but each page has a tag of 24 bytes in its spare area.
pub trait SmallSpareNand {
    /// What is known of the device.
    ghost state: { Self → Device };

    fn geometry(&self) -> Geometry
        ensures { result ≡ (state self.now).geometry };

    /// Whether the block is marked bad.
    fn is_bad(&self, block: u32) -> bool
        requires { block < (state self.now).geometry.blocks }
        ensures { result ≡ (state self.now).flash.bad block };

    /// Reads the tag of a page. The buffer is filled where the page is written, and else stays.
    fn read_tag(&mut self, block: u32, page: u32, tag: &mut [u8; 24]) -> Result<PageKind, Gone>
        requires block { block < (state self.old).geometry.blocks }
        requires page { page < (state self.old).geometry.pages }
        ensures reads { Reads (state self.old) (state self.new) result }
        ensures kind { ReadReports (state self.old).honest ((state self.old).flash.page block page) result }
        ensures tag { Fills (state self.old).honest (tag_of ((state self.old).flash.page block page) tag.old) result tag.old tag.new };

    /// Reads the data and the tag of a page. The buffers are filled where the page is written; else the tag's stays, and that
    /// of the data may hold anything.
    fn read_page(
        &mut self,
        block: u32,
        page: u32,
        bytes: &mut [u8],
        tag: &mut [u8; 24],
    ) -> Result<PageKind, Gone>
        requires block { block < (state self.old).geometry.blocks }
        requires page { page < (state self.old).geometry.pages }
        requires size { length bytes.old ≡ (state self.old).geometry.bytes }
        ensures reads { Reads (state self.old) (state self.new) result }
        ensures kind { ReadReports (state self.old).honest ((state self.old).flash.page block page) result }
        ensures bytes { FillsData (state self.old).honest (bytes_of ((state self.old).flash.page block page) bytes.old) result bytes.new }
        ensures tag { Fills (state self.old).honest (tag_of ((state self.old).flash.page block page) tag.old) result tag.old tag.new };

    /// Reads the data of a page alone. The buffer is filled where the page is written; else it may hold anything.
    fn read_data(&mut self, block: u32, page: u32, bytes: &mut [u8]) -> Result<PageKind, Gone>
        requires block { block < (state self.old).geometry.blocks }
        requires page { page < (state self.old).geometry.pages }
        requires size { length bytes.old ≡ (state self.old).geometry.bytes }
        ensures reads { Reads (state self.old) (state self.new) result }
        ensures kind { ReadReports (state self.old).honest ((state self.old).flash.page block page) result }
        ensures bytes { FillsData (state self.old).honest (bytes_of ((state self.old).flash.page block page) bytes.old) result bytes.new };

    /// Programs the next page of a good block.
    fn program(
        &mut self,
        block: u32,
        page: u32,
        bytes: &[u8],
        tag: &[u8; 24],
    ) -> Result<(), ProgramFault>
        requires block { block < (state self.old).geometry.blocks }
        requires page { page < (state self.old).geometry.pages }
        requires good { (state self.old).flash.bad block ≡ false }
        requires next { (state self.old).flash.next block ≡ Some page }
        requires size { length bytes.now ≡ (state self.old).geometry.bytes }
        ensures programs { Programs block page bytes.now tag.now (state self.old) (state self.new) result };

    /// Erases all pages of a block.
    fn erase(&mut self, block: u32) -> Result<(), EraseFault>
        requires { block < (state self.old).geometry.blocks }
        ensures erases { Erases block (state self.old) (state self.new) result };

    /// Marks a block bad, for ever.
    fn mark_bad(&mut self, block: u32) -> Result<(), Gone>
        requires { block < (state self.old).geometry.blocks }
        ensures marks { Marks block (state self.old) (state self.new) result };

    /// In an honest device the pages from a block's next page on are erased.
    ghost clean: { (device : Self) → (state device).honest ≡ true → IsClean (state device).flash };

    /// What lies outside of the geometry is good, erased and can't be programmed.
    ghost within: { (device : Self) → IsWithin (state device).geometry.pages (state device).geometry.blocks (state device).flash };

    /// In an honest device each written page has the bytes of a page and of a packed tag.
    ghost sized: { (device : Self) → (state device).honest ≡ true → IsSmallSized (state device).geometry.bytes (state device).flash };
}
