// A device whose flash is in memory and is written through to a file.
ghost use Rattle.std.specs.Prelude.{◌≡◌, ◌≢◌, ◌<◌, [], true, false, length, Some, None, IfOk, IfErr, IsOk, OnErr};
ghost use Rattle.nand_model.specs.Calls.{Reads, ReadReports, Fills, bytes_of, tag_of, Programs, Erases, Marks};
ghost use Rattle.nand_model.specs.Changes.{PowersUp};
ghost use Rattle.nand_model.specs.MemoryState as in_memory;
ghost use Rattle.nand_image.specs.Quiet.{IsQuiet};
ghost use Rattle.nand_image.specs.Writes.{WritesThrough, program_writes, erase_writes, mark_writes};

use crate::writing::{WriteAt, write_erase, write_mark, write_program};
use nand_model::{EraseFault, Geometry, Gone, MemNand, Nand, PageKind, ProgramFault};
use std::alloc::AllocError;

/// A device in a file. It is honest.
///
/// Its flash is in memory, and each change is written to the file first. A write or a seek that fails is a cut:
/// the flash in memory is as before the call, and the device is gone. Nothing is read from the file.
#[derive(Drop)]
pub struct ImageNand<F> {
    pub(crate) memory: MemNand,
    pub(crate) file: F,
    ghost quiet: { IsQuiet (in_memory.plan memory) },
}

impl<F> ImageNand<F> {
    ghost use Rattle.nand_image.specs.ImageState.{device};

    /// The flash as a device in memory that is powered up.
    pub fn to_memory(&self) -> Result<MemNand, AllocError>
        ensures flash { IfOk result (λ d. PowersUp (device self.now) (in_memory.device d)) }
        ensures plan { IfOk result (λ d. in_memory.plan d ≡ record { calls = 0; changes = 0; fuse = None; failures = [] }) }
    {
        let mut copy = self.memory.copy()?;
        copy.power_up();
        Ok(copy)
    }

    /// The file, which is where the last write left it.
    pub fn into_file(self) -> F
        ensures { result ≡ self.file }
    {
        self.file
    }
}

impl<F: Drop> ImageNand<F> {
    ghost use Rattle.nand_image.specs.ImageState.{device};

    /// The flash as a device in memory that is powered up. The file is given up, so what is done to the device does not reach it.
    pub fn into_memory(self) -> MemNand
        ensures flash { PowersUp (device self) (in_memory.device result) }
        ensures plan { in_memory.plan result ≡ record { calls = 0; changes = 0; fuse = None; failures = [] } }
    {
        let mut memory = self.memory;
        memory.power_up();
        memory
    }
}

impl<F: WriteAt> Nand for ImageNand<F> {
    ghost use Rattle.nand_model.specs.laws.Memory.{within_of};
    ghost use Rattle.nand_image.specs.ImageState.{device};

    ghost state = { device };

    ghost clean = { λ d honest. d.memory.whole.clean };

    ghost within = { λ d. within_of d.memory.geometry d.memory.blocks.items d.memory.whole };

    ghost sized = { λ d honest. d.memory.whole.sized };

    fn geometry(&self) -> Geometry {
        self.memory.geometry()
    }

    fn is_bad(&self, block: u32) -> bool {
        self.memory.is_bad(block)
    }

    fn read_tag(&mut self, block: u32, page: u32, tag: &mut [u8; 48]) -> Result<PageKind, Gone>
        requires block { block < (device self.old).geometry.blocks }
        requires page { page < (device self.old).geometry.pages }
        ensures reads { Reads (device self.old) (device self.new) result }
        ensures kind { ReadReports (device self.old).honest ((device self.old).flash.page block page) result }
        ensures tag { Fills (device self.old).honest (tag_of ((device self.old).flash.page block page) tag.old) result tag.old tag.new }
        ensures ok { (device self.old).gone ≡ false → IsOk result }
        ensures file { self.new.file ≡ self.old.file }
    {
        self.memory.read_tag(block, page, tag)
    }

    fn read_page(
        &mut self,
        block: u32,
        page: u32,
        bytes: &mut [u8],
        tag: &mut [u8; 48],
    ) -> Result<PageKind, Gone>
        requires block { block < (device self.old).geometry.blocks }
        requires page { page < (device self.old).geometry.pages }
        requires size { length bytes.old ≡ (device self.old).geometry.bytes }
        ensures reads { Reads (device self.old) (device self.new) result }
        ensures kind { ReadReports (device self.old).honest ((device self.old).flash.page block page) result }
        ensures bytes { Fills (device self.old).honest (bytes_of ((device self.old).flash.page block page) bytes.old) result bytes.old bytes.new }
        ensures tag { Fills (device self.old).honest (tag_of ((device self.old).flash.page block page) tag.old) result tag.old tag.new }
        ensures ok { (device self.old).gone ≡ false → IsOk result }
        ensures file { self.new.file ≡ self.old.file }
    {
        self.memory.read_page(block, page, bytes, tag)
    }

    fn read_data(&mut self, block: u32, page: u32, bytes: &mut [u8]) -> Result<PageKind, Gone>
        requires block { block < (device self.old).geometry.blocks }
        requires page { page < (device self.old).geometry.pages }
        requires size { length bytes.old ≡ (device self.old).geometry.bytes }
        ensures reads { Reads (device self.old) (device self.new) result }
        ensures kind { ReadReports (device self.old).honest ((device self.old).flash.page block page) result }
        ensures bytes { Fills (device self.old).honest (bytes_of ((device self.old).flash.page block page) bytes.old) result bytes.old bytes.new }
        ensures ok { (device self.old).gone ≡ false → IsOk result }
        ensures file { self.new.file ≡ self.old.file }
    {
        self.memory.read_data(block, page, bytes)
    }

    fn program(
        &mut self,
        block: u32,
        page: u32,
        bytes: &[u8],
        tag: &[u8; 48],
    ) -> Result<(), ProgramFault>
        requires block { block < (device self.old).geometry.blocks }
        requires page { page < (device self.old).geometry.pages }
        requires good { (device self.old).flash.bad block ≡ false }
        requires next { (device self.old).flash.next block ≡ Some page }
        requires size { length bytes.now ≡ (device self.old).geometry.bytes }
        ensures programs { Programs block page bytes.now tag.now (device self.old) (device self.new) result }
        ensures fault { IfErr result (λ e. e ≡ ProgramFault.Gone) }
        ensures committed { OnErr result ((device self.new).flash.page ≡ (device self.old).flash.page) }
        ensures writes { WritesThrough (device self.old).gone (program_writes (device self.old).geometry block page bytes.now tag.now)
            (F.writes self.old.file) (F.writes self.new.file) result }
    {
        let geometry = self.memory.geometry();
        if !self.memory.gone()
            && write_program(&mut self.file, geometry, block, page, bytes, tag).is_err()
        {
            self.memory.cut_change(block);
            return Err(ProgramFault::Gone);
        }
        self.memory.program(block, page, bytes, tag)
    }

    fn erase(&mut self, block: u32) -> Result<(), EraseFault>
        requires { block < (device self.old).geometry.blocks }
        ensures erases { Erases block (device self.old) (device self.new) result }
        ensures fault { IfErr result (λ e. e ≡ EraseFault.Gone) }
        ensures committed { OnErr result ((device self.new).flash.page ≡ (device self.old).flash.page) }
        ensures writes { WritesThrough (device self.old).gone (erase_writes (device self.old).geometry block (device self.old).geometry.pages)
            (F.writes self.old.file) (F.writes self.new.file) result }
    {
        let geometry = self.memory.geometry();
        if !self.memory.gone() && write_erase(&mut self.file, geometry, block).is_err() {
            self.memory.cut_change(block);
            return Err(EraseFault::Gone);
        }
        self.memory.erase(block)
    }

    fn mark_bad(&mut self, block: u32) -> Result<(), Gone>
        requires { block < (device self.old).geometry.blocks }
        ensures marks { Marks block (device self.old) (device self.new) result }
        ensures committed { OnErr result ((device self.new).flash.bad ≡ (device self.old).flash.bad) }
        ensures writes { WritesThrough (device self.old).gone (mark_writes block) (F.writes self.old.file) (F.writes self.new.file) result }
    {
        if !self.memory.gone() && write_mark(&mut self.file, block).is_err() {
            self.memory.cut_mark();
            return Err(Gone);
        }
        self.memory.mark_bad(block)
    }
}
