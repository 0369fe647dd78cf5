// A device whose driver is behind a port, with 24 bytes of a tag.
ghost use Rattle.std.specs.Prelude.{◌≡◌, false};
ghost use Rattle.port_nand.specs.Calls.{session};
ghost use Rattle.port_nand.specs.Driving.{IsCommittedKey};

use crate::SmallSpareNand;
use crate::driver::Driver;
use crate::port::Port;
use nand_model::{EraseFault, Geometry, Gone, PageKind, ProgramFault};

/// As `PortNand`, of a driver that keeps 24 bytes of a tag with a page.
#[derive(Drop)]
pub struct SmallPortNand<P: Port> {
    pub(crate) driver: Driver<P>,
    ghost committed: { IsCommittedKey P.calls driver },
}

impl<P: Port> SmallSpareNand for SmallPortNand<P> {
    ghost use Rattle.std.specs.Prelude.{◌<◌, length, Some};
    ghost use Rattle.nand_model.specs.Flash.{Erased};
    ghost use Rattle.nand_model.specs.Calls.{Reads, ReadReports, Fills, FillsData, Programs, Erases, Marks};
    ghost use Rattle.port_nand.specs.Calls.{erase_result, mark_result};
    ghost use Rattle.port_nand.specs.Sending.{Issues, IssuesData, IssuesPage, SendsPage, data_call, programming, reading, tag_read};
    ghost use Rattle.port_nand.specs.State.{device};
    ghost use Rattle.port_nand.specs.declared.request.Request.TheVariants as requests;
    ghost use Rattle.port_nand.specs.laws.Within.{within_of, of_dishonest};

    ghost state = { λ d. device P.calls d.driver };

    ghost clean = { λ d honest. of_dishonest honest };

    ghost within = { λ d. within_of d.driver.geometry d.driver.blocks.items d.driver.gone (session (P.calls d.driver.port)) d.committed };

    ghost sized = { λ d honest. of_dishonest honest };

    fn geometry(&self) -> Geometry {
        self.driver.geometry
    }

    fn is_bad(&self, block: u32) -> bool {
        self.driver.blocks[block as usize].bad
    }

    /// One request, for the tag.
    fn read_tag(&mut self, block: u32, page: u32, tag: &mut [u8; 24]) -> Result<PageKind, Gone>
        requires block { block < self.old.driver.geometry.blocks }
        requires page { page < self.old.driver.geometry.pages }
        ensures reads { Reads (device P.calls self.old.driver) (device P.calls self.new.driver) result }
        ensures kind { ReadReports false Erased result }
        ensures tag { Fills false tag.old result tag.old tag.new }
        ensures asks { Issues (requests.ReadTag block page) (tag_read tag.old) (P.calls self.old.driver.port) (P.calls self.new.driver.port) (result, tag.new) }
    {
        self.driver.read_tag(block, page, tag)
    }

    /// One request for the data, and where the page is written one for the tag.
    fn read_page(
        &mut self,
        block: u32,
        page: u32,
        bytes: &mut [u8],
        tag: &mut [u8; 24],
    ) -> Result<PageKind, Gone>
        requires block { block < self.old.driver.geometry.blocks }
        requires page { page < self.old.driver.geometry.pages }
        requires size { length bytes.old ≡ self.old.driver.geometry.bytes }
        ensures reads { Reads (device P.calls self.old.driver) (device P.calls self.new.driver) result }
        ensures kind { ReadReports false Erased result }
        ensures bytes { FillsData false bytes.old result bytes.new }
        ensures tag { Fills false tag.old result tag.old tag.new }
        ensures asks { IssuesPage (reading block page bytes.new tag.new tag.old) (P.calls self.old.driver.port) (P.calls self.new.driver.port) result }
    {
        self.driver.read_page(block, page, bytes, tag)
    }

    /// One request, for the data.
    fn read_data(&mut self, block: u32, page: u32, bytes: &mut [u8]) -> Result<PageKind, Gone>
        requires block { block < self.old.driver.geometry.blocks }
        requires page { page < self.old.driver.geometry.pages }
        requires size { length bytes.old ≡ self.old.driver.geometry.bytes }
        ensures reads { Reads (device P.calls self.old.driver) (device P.calls self.new.driver) result }
        ensures kind { ReadReports false Erased result }
        ensures bytes { FillsData false bytes.old result bytes.new }
        ensures asks { IssuesData (data_call block page bytes.new) (P.calls self.old.driver.port) (P.calls self.new.driver.port) result }
    {
        self.driver.read_data(block, page, bytes)
    }

    /// Two requests: with the tag, and where it is taken with the data.
    fn program(
        &mut self,
        block: u32,
        page: u32,
        bytes: &[u8],
        tag: &[u8; 24],
    ) -> Result<(), ProgramFault>
        requires block { block < self.old.driver.geometry.blocks }
        requires page { page < self.old.driver.geometry.pages }
        requires good { (device P.calls self.old.driver).flash.bad block ≡ false }
        requires next { (device P.calls self.old.driver).flash.next block ≡ Some page }
        requires size { length bytes.now ≡ self.old.driver.geometry.bytes }
        ensures programs { Programs block page bytes.now tag.now (device P.calls self.old.driver) (device P.calls self.new.driver) result }
        ensures sends { SendsPage (programming block page bytes.now tag.now) (P.calls self.old.driver.port) (P.calls self.new.driver.port) result }
    {
        self.driver.program(block, page, bytes, tag)
    }

    /// One request.
    fn erase(&mut self, block: u32) -> Result<(), EraseFault>
        requires { block < self.old.driver.geometry.blocks }
        ensures erases { Erases block (device P.calls self.old.driver) (device P.calls self.new.driver) result }
        ensures asks { Issues (requests.Erase block) (λ c. erase_result c.answer) (P.calls self.old.driver.port) (P.calls self.new.driver.port) result }
    {
        self.driver.erase(block)
    }

    /// One request.
    fn mark_bad(&mut self, block: u32) -> Result<(), Gone>
        requires { block < self.old.driver.geometry.blocks }
        ensures marks { Marks block (device P.calls self.old.driver) (device P.calls self.new.driver) result }
        ensures asks { Issues (requests.MarkBad block) (λ c. mark_result c.answer) (P.calls self.old.driver.port) (P.calls self.new.driver.port) result }
    {
        self.driver.mark_bad(block)
    }
}
