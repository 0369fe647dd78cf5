// The flash, and the next page of each of its blocks.
ghost use Rattle.std.specs.Prelude.{◌≡◌, ◌<◌, ◌≤◌, ℕ, true, false, Some, IfOk, OnOk};
ghost use Rattle.nand_model.specs.Flash.{Erased};
ghost use Rattle.nand_model.specs.MemoryState.{device};
ghost use Rattle.test_devices.specs.Following.{IsFollowed, HasWritten};

use nand_model::{Fate, Geometry, MemNand, Nand};
use page_tags::Tag;
use std::alloc::{AllocError, Global};

/// Why a block was not written or marked.
#[derive(Clone, Copy, Debug, PartialEq, Eq)]
pub enum TestFault {
    /// The device has no such block.
    NoBlock,
    /// The block is marked bad.
    BadBlock,
    /// All pages of the block are written.
    Full,
    /// The device failed or is gone.
    Device,
}

/// A flash in memory. Each block is written from its first page on.
#[derive(Drop)]
pub struct TestFlash {
    nand: MemNand,
    nexts: Vec<Option<u32>>,
    bytes: Vec<u8>,
    ghost followed: { IsFollowed (device nand) nexts.items bytes.items },
}

impl TestFlash {
    ghost use Rattle.std.specs.Prelude.{IfErr};
    ghost use Rattle.nand_model.specs.Plans.{listed};
    ghost use Rattle.test_devices.specs.Shown.{device_of, plan_of};
    ghost use Rattle.test_devices.specs.Faults.{Explains};

    /// All pages erased, no block bad.
    pub fn new(alloc: Global, geometry: Geometry) -> Result<TestFlash, AllocError>
        ensures geometry { IfOk result (λ flash. (device_of flash).geometry ≡ geometry) }
        ensures gone { IfOk result (λ flash. (device_of flash).gone ≡ false) }
    {
        let nand = MemNand::new(alloc, geometry)?;
        let nexts = vec![in alloc; None::<u32>; geometry.blocks() as usize]?;
        let bytes = vec![in alloc; 0u8; geometry.bytes() as usize]?;
        Ok(TestFlash { nand, nexts, bytes })
    }

    /// The programs and erases of these numbers, numbered from the making of the flash, fail with these fates.
    pub fn with_failures(self, failures: Vec<(u64, Vec<Fate>)>) -> TestFlash
        ensures device { device_of result ≡ device_of self }
        ensures plan { plan_of result ≡ record (plan_of self) { failures = listed failures.items } }
    {
        let TestFlash { nand, nexts, bytes } = self;
        let nand = nand.with_failures(failures);
        TestFlash { nand, nexts, bytes }
    }

    /// Erases a block.
    pub fn erase(&mut self, block: u32) -> Result<(), TestFault>
        ensures geometry { (device_of self.new).geometry ≡ (device_of self.old).geometry }
        ensures gone { OnOk result ((device_of self.new).gone ≡ false) }
        ensures erased { OnOk result ((page : ℕ) → (device_of self.new).flash.page block page ≡ Erased) }
        ensures fault { IfErr result (Explains block (device_of self.old) (device_of self.new)) }
    {
        if block >= self.nand.geometry().blocks() {
            return Err(TestFault::NoBlock);
        }
        self.nexts[block as usize] = None;
        match self.nand.erase(block) {
            Ok(()) => Ok(()),
            Err(_) => Err(TestFault::Device),
        }
    }

    /// The next page of a block, which is erased where it has none.
    fn next_page(&mut self, block: u32) -> Result<u32, TestFault>
        requires block { block < (device_of self.old).geometry.blocks }
        ensures geometry { (device_of self.new).geometry ≡ (device_of self.old).geometry }
        ensures bad { (device_of self.new).flash.bad ≡ (device_of self.old).flash.bad }
        ensures failures { (device_of self.old).failures ≤ (device_of self.new).failures }
        ensures next { IfOk result (λ page. (device_of self.new).flash.next block ≡ Some page) }
        ensures fault { IfErr result (Explains block (device_of self.old) (device_of self.new)) }
    {
        if let Some(page) = self.nexts[block as usize] {
            return Ok(page);
        }
        match self.nand.erase(block) {
            Ok(()) => Ok(0),
            Err(_) => Err(TestFault::Device),
        }
    }

    /// Programs the next page of a block.
    fn program(&mut self, block: u32, page: u32, tag: &Tag, fill: u8) -> Result<(), TestFault>
        requires block { block < (device_of self.old).geometry.blocks }
        requires page { page < (device_of self.old).geometry.pages }
        requires good { (device_of self.old).flash.bad block ≡ false }
        requires next { (device_of self.old).flash.next block ≡ Some page }
        ensures geometry { (device_of self.new).geometry ≡ (device_of self.old).geometry }
        ensures gone { OnOk result ((device_of self.new).gone ≡ false) }
        ensures written { OnOk result (HasWritten block page tag.now fill (device_of self.new)) }
        ensures fault { IfErr result (Explains block (device_of self.old) (device_of self.new)) }
    {
        self.bytes.fill(fill);
        match self.nand.program(block, page, &self.bytes, &tag.encode()) {
            Ok(()) => {
                self.nexts[block as usize] = Some(page + 1);
                Ok(())
            }
            Err(_) => {
                self.nexts[block as usize] = None;
                Err(TestFault::Device)
            }
        }
    }

    /// Programs the next page of a block with this tag and data bytes that are all `fill`. The block is erased first
    /// where nothing was written to it since it was made.
    pub fn write(&mut self, block: u32, tag: &Tag, fill: u8) -> Result<(), TestFault>
        ensures geometry { (device_of self.new).geometry ≡ (device_of self.old).geometry }
        ensures gone { OnOk result ((device_of self.new).gone ≡ false) }
        ensures written { OnOk result ((page : ℕ) × HasWritten block page tag.now fill (device_of self.new)) }
        ensures fault { IfErr result (Explains block (device_of self.old) (device_of self.new)) }
    {
        let geometry = self.nand.geometry();
        if block >= geometry.blocks() {
            return Err(TestFault::NoBlock);
        }
        if self.nand.is_bad(block) {
            return Err(TestFault::BadBlock);
        }
        let page = self.next_page(block)?;
        if page >= geometry.pages() {
            return Err(TestFault::Full);
        }
        self.program(block, page, tag, fill)
    }

    /// Marks a block bad.
    pub fn mark_bad(&mut self, block: u32) -> Result<(), TestFault>
        ensures geometry { (device_of self.new).geometry ≡ (device_of self.old).geometry }
        ensures gone { OnOk result ((device_of self.new).gone ≡ false) }
        ensures marked { OnOk result ((device_of self.new).flash.bad block ≡ true) }
        ensures fault { IfErr result (Explains block (device_of self.old) (device_of self.new)) }
    {
        if block >= self.nand.geometry().blocks() {
            return Err(TestFault::NoBlock);
        }
        match self.nand.mark_bad(block) {
            Ok(()) => Ok(()),
            Err(_) => Err(TestFault::Device),
        }
    }

    /// The device, with the pages and marks as they are.
    pub fn into_nand(self) -> MemNand
        ensures { device result ≡ device_of self }
    {
        self.nand
    }
}
