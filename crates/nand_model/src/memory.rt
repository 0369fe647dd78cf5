// A device in memory, whose power can be cut at a call and whose calls can fail.
ghost use Rattle.std.specs.Prelude.{◌≡◌, ◌<◌, [], true, false, length, Some, None, IfOk};
ghost use Rattle.nand_model.specs.Flash.{IsClean, IsWithin, IsSized};
ghost use Rattle.nand_model.specs.Calls.{Device, Reads, ReadReports, Fills, bytes_of, tag_of, Programs, Erases, Marks};
ghost use Rattle.nand_model.specs.Changes.{IsBlank, CountsNothing, PowersUp};
ghost use Rattle.nand_model.specs.Plans.{listed};
ghost use Rattle.nand_model.specs.Planned.{after_read, after_change, ReadsAsPlanned, ProgramsAsPlanned, ErasesAsPlanned, MarksAsPlanned};
ghost use Rattle.nand_model.specs.Memory.{IsWhole, flash_of, pages_at};

mod putting;

use crate::block::{
    MemBlock, clear_nexts, copy_blocks, erase_block, kind_after_program, mark_block, new_blocks,
    write_page,
};
use crate::fate::Fate;
use crate::geometry::Geometry;
use crate::nand::{EraseFault, Gone, Nand, PageKind, ProgramFault};
use crate::plan::{End, Fuse};
use crate::power::Power;
use std::alloc::{AllocError, Global};

/// A device in memory. It is honest, and a call of its number can be cut or fail as wanted.
///
/// Its memory is taken by `new` and `copy` alone.
#[derive(Drop)]
pub struct MemNand {
    geometry: Geometry,
    blocks: Vec<MemBlock>,
    power: Power,
    ghost whole: { IsWhole geometry blocks.items },
}

impl MemNand {
    ghost use Rattle.nand_model.specs.MemoryState.{device, plan};

    /// All pages erased, no block bad, none with a next page, and every count 0.
    pub fn new(alloc: Global, geometry: Geometry) -> Result<MemNand, AllocError>
        ensures geometry { IfOk result (λ d. (device d).geometry ≡ geometry) }
        ensures blank { IfOk result (λ d. IsBlank (device d).flash) }
        ensures gone { IfOk result (λ d. (device d).gone ≡ false) }
        ensures steady { IfOk result (λ d. (device d).steady ≡ true) }
        ensures counts { IfOk result (λ d. CountsNothing (device d)) }
        ensures plan { IfOk result (λ d. plan d ≡ record { calls = 0; changes = 0; fuse = None; failures = [] }) }
    {
        let blocks = new_blocks(alloc, geometry.bytes(), geometry.pages(), geometry.blocks())?;
        Ok(MemNand {
            geometry,
            blocks,
            power: Power::new(alloc),
        })
    }

    /// Power comes back, also to a device that had it: pages and marks stay, no block has a next page, and the calls
    /// and changes begin anew. Fuse and failures are taken away.
    pub fn power_up(&mut self)
        ensures power { PowersUp (device self.old) (device self.new) }
        ensures plan { plan self.new ≡ record { calls = 0; changes = 0; fuse = None; failures = [] } }
    {
        self.power.restart();
        clear_nexts(&mut self.blocks);
    }

    /// The call of this number since the power-up is cut, with these fates: of a program and a mark the first, of an
    /// erase one for each page. A missing one is `Old`. It takes the place of an earlier fuse.
    pub fn with_fuse(mut self, op: u64, fates: Vec<Fate>) -> MemNand
        ensures device { device result ≡ record (device self) { steady = false } }
        ensures plan { plan result ≡ record (plan self) { fuse = Some (op, fates.items) } }
    {
        self.power.script.fuse = Some(Fuse { call: op, fates });
        self
    }

    /// The programs and erases of these numbers since the power-up fail, each with the fates of the first entry of its
    /// number. The fuse goes before. They take the place of an earlier list.
    pub fn with_failures(mut self, failures: Vec<(u64, Vec<Fate>)>) -> MemNand
        ensures device { device result ≡ device self }
        ensures plan { plan result ≡ record (plan self) { failures = listed failures.items } }
    {
        self.power.script.failures = failures;
        self
    }

    /// How many reads, programs, erases and marks were called since the power-up, on a gone device too.
    pub fn calls(&self) -> u64
        ensures { result ≡ (plan self.now).calls }
    {
        self.power.script.calls
    }

    /// How many programs, erases and marks there were since the power-up, those on a gone device apart.
    pub fn changes(&self) -> u64
        ensures { result ≡ (plan self.now).changes }
    {
        self.power.script.changes
    }

    /// Whether the power is gone.
    pub fn gone(&self) -> bool
        ensures { result ≡ (device self.now).gone }
    {
        self.power.gone
    }

    /// The same device once more.
    pub fn copy(&self) -> Result<MemNand, AllocError>
        ensures device { IfOk result (λ d. device d ≡ device self.now) }
        ensures plan { IfOk result (λ d. plan d ≡ plan self.now) }
    {
        let blocks = copy_blocks(&self.blocks)?;
        let power = self.power.copy()?;
        Ok(MemNand {
            geometry: self.geometry,
            blocks,
            power,
        })
    }
}

impl Nand for MemNand {
    ghost use Rattle.nand_model.specs.MemoryState.{device, plan};
    ghost use Rattle.nand_model.specs.laws.Memory.{within_of};

    ghost state = { device };

    ghost clean = { λ d honest. d.whole.clean };

    ghost within = { λ d. within_of d.geometry d.blocks.items d.whole };

    ghost sized = { λ d honest. d.whole.sized };

    fn geometry(&self) -> Geometry {
        self.geometry
    }

    fn is_bad(&self, block: u32) -> bool {
        self.blocks[block as usize].bad
    }

    fn read_tag(&mut self, block: u32, page: u32, tag: &mut [u8; 48]) -> Result<PageKind, Gone>
        requires block { block < (device self.old).geometry.blocks }
        requires page { page < (device self.old).geometry.pages }
        ensures reads { Reads (device self.old) (device self.new) result }
        ensures kind { ReadReports (device self.old).honest ((device self.old).flash.page block page) result }
        ensures tag { Fills (device self.old).honest (tag_of ((device self.old).flash.page block page) tag.old) result tag.old tag.new }
        ensures planned { ReadsAsPlanned (plan self.old) (device self.old) result }
        ensures totaled { plan self.new ≡ after_read (plan self.old) }
    {
        self.power.script.count_call();
        if self.power.begin_read() == End::Cut {
            return Err(Gone);
        }
        let found = &self.blocks[block as usize].pages[page as usize];
        if found.kind == PageKind::Written {
            *tag = found.tag;
        }
        Ok(found.kind)
    }

    fn read_page(
        &mut self,
        block: u32,
        page: u32,
        bytes: &mut [u8],
        tag: &mut [u8; 48],
    ) -> Result<PageKind, Gone>
        requires block { block < (device self.old).geometry.blocks }
        requires page { page < (device self.old).geometry.pages }
        requires size { length bytes.old ≡ (device self.old).geometry.bytes }
        ensures reads { Reads (device self.old) (device self.new) result }
        ensures kind { ReadReports (device self.old).honest ((device self.old).flash.page block page) result }
        ensures bytes { Fills (device self.old).honest (bytes_of ((device self.old).flash.page block page) bytes.old) result bytes.old bytes.new }
        ensures tag { Fills (device self.old).honest (tag_of ((device self.old).flash.page block page) tag.old) result tag.old tag.new }
        ensures planned { ReadsAsPlanned (plan self.old) (device self.old) result }
        ensures totaled { plan self.new ≡ after_read (plan self.old) }
    {
        self.power.script.count_call();
        if self.power.begin_read() == End::Cut {
            return Err(Gone);
        }
        let slot = &self.blocks[block as usize].pages[page as usize];
        if slot.kind == PageKind::Written {
            bytes.copy_from_slice(&slot.bytes);
            *tag = slot.tag;
        }
        Ok(slot.kind)
    }

    fn read_data(&mut self, block: u32, page: u32, bytes: &mut [u8]) -> Result<PageKind, Gone>
        requires block { block < (device self.old).geometry.blocks }
        requires page { page < (device self.old).geometry.pages }
        requires size { length bytes.old ≡ (device self.old).geometry.bytes }
        ensures reads { Reads (device self.old) (device self.new) result }
        ensures kind { ReadReports (device self.old).honest ((device self.old).flash.page block page) result }
        ensures bytes { Fills (device self.old).honest (bytes_of ((device self.old).flash.page block page) bytes.old) result bytes.old bytes.new }
        ensures planned { ReadsAsPlanned (plan self.old) (device self.old) result }
        ensures totaled { plan self.new ≡ after_read (plan self.old) }
    {
        self.read_page(block, page, bytes, &mut [0; 48])
    }

    fn program(
        &mut self,
        block: u32,
        page: u32,
        bytes: &[u8],
        tag: &[u8; 48],
    ) -> Result<(), ProgramFault>
        requires block { block < (device self.old).geometry.blocks }
        requires page { page < (device self.old).geometry.pages }
        requires good { (device self.old).flash.bad block ≡ false }
        requires next { (device self.old).flash.next block ≡ Some page }
        requires size { length bytes.now ≡ (device self.old).geometry.bytes }
        ensures programs { Programs block page bytes.now tag.now (device self.old) (device self.new) result }
        ensures planned { ProgramsAsPlanned block page bytes.now tag.now (plan self.old) (device self.old) (device self.new) result }
        ensures totaled { plan self.new ≡ after_change (device self.old).gone (plan self.old) }
    {
        self.power.script.count_call();
        if self.power.gone {
            return Err(ProgramFault::Gone);
        }
        let end = self.power.begin_change();
        let fates = self.power.script.fates();
        let kind = kind_after_program(end, fates);
        let next = if end == End::Whole {
            Some(page + 1)
        } else {
            None
        };
        write_page(
            &mut self.blocks,
            block as usize,
            page as usize,
            kind,
            bytes,
            tag,
            next,
        );
        match end {
            End::Whole => Ok(()),
            End::Failed => Err(ProgramFault::Failed),
            End::Cut => Err(ProgramFault::Gone),
        }
    }

    fn erase(&mut self, block: u32) -> Result<(), EraseFault>
        requires { block < (device self.old).geometry.blocks }
        ensures erases { Erases block (device self.old) (device self.new) result }
        ensures planned { ErasesAsPlanned block (plan self.old) (device self.old) (device self.new) result }
        ensures totaled { plan self.new ≡ after_change (device self.old).gone (plan self.old) }
    {
        self.power.script.count_call();
        if self.power.gone {
            return Err(EraseFault::Gone);
        }
        let end = self.power.begin_change();
        let fates = self.power.script.fates();
        let next = if end == End::Whole { Some(0) } else { None };
        erase_block(&mut self.blocks, block as usize, end, fates, next);
        match end {
            End::Whole => Ok(()),
            End::Failed => Err(EraseFault::Failed),
            End::Cut => Err(EraseFault::Gone),
        }
    }

    fn mark_bad(&mut self, block: u32) -> Result<(), Gone>
        requires { block < (device self.old).geometry.blocks }
        ensures marks { Marks block (device self.old) (device self.new) result }
        ensures planned { MarksAsPlanned block (plan self.old) (device self.old) (device self.new) result }
        ensures totaled { plan self.new ≡ after_change (device self.old).gone (plan self.old) }
    {
        self.power.script.count_call();
        if self.power.gone {
            return Err(Gone);
        }
        let end = self.power.begin_mark();
        let fates = self.power.script.fates();
        mark_block(&mut self.blocks, block as usize, end, fates);
        if end == End::Cut { Err(Gone) } else { Ok(()) }
    }
}
