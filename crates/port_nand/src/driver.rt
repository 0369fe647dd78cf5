// The driver of a device, and what is held of its answers.
ghost use Rattle.std.specs.Prelude.{◌≡◌, ◌<◌, ◌∷◌, false, length, IfOk, OnOk};
ghost use Rattle.nand_model.specs.declared.nand.Gone.{Gone};
ghost use Rattle.port_nand.specs.Calls.{call, cuts, erase_result, mark_result};
ghost use Rattle.port_nand.specs.Driving.{IsCommittedKey};
ghost use Rattle.port_nand.specs.Knowing.{IsBelow};
ghost use Rattle.port_nand.specs.Opening.{IssuesAll, IssuesMarks};
ghost use Rattle.port_nand.specs.Sending.{Issues, IssuesData, IssuesPage, SendsPage, data_call, programming, reading, tag_read, tag_with};
ghost use Rattle.port_nand.specs.declared.request.Request.TheVariants as requests;

use crate::block::{Block, new_blocks, note_mark, note_next};
use crate::port::Port;
use crate::request::{
    Answer, Request, cuts, erase_result, kind_result, mark_result, program_result,
};
use crate::sizes::{OpenFault, Sizes, TagForm, sizes_of};
use nand_model::{EraseFault, Geometry, Gone, PageKind, ProgramFault};
use std::alloc::Global;

/// A driver behind a port. The marks, the next page of each block and whether power is gone are held by its answers; once power
/// is gone no request is sent.
#[derive(Drop)]
pub(crate) struct Driver<P> {
    pub port: P,
    pub geometry: Geometry,
    pub blocks: Vec<Block>,
    pub gone: bool,
}

/// Fills the buffer of a tag where the page is written.
fn fill_tag<const T: usize>(tag: &mut [u8; T], bytes: &[u8; T], answer: Answer)
    ensures { tag.new ≡ tag_with tag.old bytes.now answer }
{
    if answer == Answer::One {
        *tag = *bytes;
    }
}

impl<P: Port> Driver<P> {
    /// Issues for something, which comes into the buffer.
    fn ask(&mut self, request: Request, buffer: &mut [u8]) -> Answer
        requires committed { IsCommittedKey P.calls self.old }
        requires below { IsBelow self.old.geometry.blocks self.old.geometry.pages request }
        requires power { self.old.gone ≡ false }
        ensures committed { IsCommittedKey P.calls self.new }
        ensures geometry { self.new.geometry ≡ self.old.geometry }
        ensures power { self.new.gone ≡ cuts request result }
        ensures issued { P.calls self.new.port ≡ call request buffer.new result ∷ P.calls self.old.port }
    {
        let answer = self.port.read(request, buffer);
        note_next(&mut self.blocks, request, answer);
        note_mark(&mut self.blocks, request, answer);
        self.gone = cuts(request, answer);
        answer
    }

    /// Issues for something with these bytes.
    fn send(&mut self, request: Request, bytes: &[u8]) -> Answer
        requires committed { IsCommittedKey P.calls self.old }
        requires below { IsBelow self.old.geometry.blocks self.old.geometry.pages request }
        requires power { self.old.gone ≡ false }
        ensures committed { IsCommittedKey P.calls self.new }
        ensures geometry { self.new.geometry ≡ self.old.geometry }
        ensures sent { P.calls self.new.port ≡ call request bytes.now result ∷ P.calls self.old.port }
    {
        let answer = self.port.write(request, bytes);
        note_next(&mut self.blocks, request, answer);
        note_mark(&mut self.blocks, request, answer);
        self.gone = cuts(request, answer);
        answer
    }

    /// Issues for the tag of a page.
    pub(crate) fn read_tag<const T: usize>(
        &mut self,
        block: u32,
        page: u32,
        tag: &mut [u8; T],
    ) -> Result<PageKind, Gone>
        requires committed { IsCommittedKey P.calls self.old }
        requires block { block < self.old.geometry.blocks }
        requires page { page < self.old.geometry.pages }
        ensures committed { IsCommittedKey P.calls self.new }
        ensures geometry { self.new.geometry ≡ self.old.geometry }
        ensures asks { Issues (requests.ReadTag block page) (tag_read tag.old) (P.calls self.old.port) (P.calls self.new.port) (result, tag.new) }
    {
        if self.gone {
            return Err(Gone);
        }
        let mut bytes = [255u8; T];
        let answer = self.ask(Request::ReadTag { block, page }, &mut bytes);
        fill_tag(tag, &bytes, answer);
        kind_result(answer)
    }

    /// Issues for the data of a page.
    pub(crate) fn read_data(
        &mut self,
        block: u32,
        page: u32,
        bytes: &mut [u8],
    ) -> Result<PageKind, Gone>
        requires committed { IsCommittedKey P.calls self.old }
        requires block { block < self.old.geometry.blocks }
        requires page { page < self.old.geometry.pages }
        ensures committed { IsCommittedKey P.calls self.new }
        ensures geometry { self.new.geometry ≡ self.old.geometry }
        ensures asks { IssuesData (data_call block page bytes.new) (P.calls self.old.port) (P.calls self.new.port) result }
    {
        if self.gone {
            return Err(Gone);
        }
        kind_result(self.ask(Request::ReadPage { block, page }, bytes))
    }

    /// Issues for a page, and where it is written for its tag.
    pub(crate) fn read_page<const T: usize>(
        &mut self,
        block: u32,
        page: u32,
        bytes: &mut [u8],
        tag: &mut [u8; T],
    ) -> Result<PageKind, Gone>
        requires committed { IsCommittedKey P.calls self.old }
        requires block { block < self.old.geometry.blocks }
        requires page { page < self.old.geometry.pages }
        ensures committed { IsCommittedKey P.calls self.new }
        ensures geometry { self.new.geometry ≡ self.old.geometry }
        ensures asks { IssuesPage (reading block page bytes.new tag.new tag.old) (P.calls self.old.port) (P.calls self.new.port) result }
    {
        if self.gone {
            return Err(Gone);
        }
        let answer = self.ask(Request::ReadPage { block, page }, bytes);
        if answer != Answer::One {
            return kind_result(answer);
        }
        let mut read = [255u8; T];
        if self.ask(Request::LastTag { block, page }, &mut read) != Answer::Zero {
            return Err(Gone);
        }
        *tag = read;
        Ok(PageKind::Written)
    }

    /// Sends the tag of a page and then its data.
    pub(crate) fn program<const T: usize>(
        &mut self,
        block: u32,
        page: u32,
        bytes: &[u8],
        tag: &[u8; T],
    ) -> Result<(), ProgramFault>
        requires committed { IsCommittedKey P.calls self.old }
        requires block { block < self.old.geometry.blocks }
        requires page { page < self.old.geometry.pages }
        ensures committed { IsCommittedKey P.calls self.new }
        ensures geometry { self.new.geometry ≡ self.old.geometry }
        ensures sends { SendsPage (programming block page bytes.now tag.now) (P.calls self.old.port) (P.calls self.new.port) result }
    {
        if self.gone {
            return Err(ProgramFault::Gone);
        }
        if self.send(Request::NextTag { block, page }, tag) != Answer::Zero {
            return Err(ProgramFault::Gone);
        }
        program_result(self.send(Request::Program { block, page }, bytes))
    }

    /// Issues for an erase.
    pub(crate) fn erase(&mut self, block: u32) -> Result<(), EraseFault>
        requires committed { IsCommittedKey P.calls self.old }
        requires block { block < self.old.geometry.blocks }
        ensures committed { IsCommittedKey P.calls self.new }
        ensures geometry { self.new.geometry ≡ self.old.geometry }
        ensures asks { Issues (requests.Erase block) (λ c. erase_result c.answer) (P.calls self.old.port) (P.calls self.new.port) result }
    {
        if self.gone {
            return Err(EraseFault::Gone);
        }
        erase_result(self.send(Request::Erase { block }, &[0]))
    }

    /// Issues for a mark.
    pub(crate) fn mark_bad(&mut self, block: u32) -> Result<(), Gone>
        requires committed { IsCommittedKey P.calls self.old }
        requires block { block < self.old.geometry.blocks }
        ensures committed { IsCommittedKey P.calls self.new }
        ensures geometry { self.new.geometry ≡ self.old.geometry }
        ensures asks { Issues (requests.MarkBad block) (λ c. mark_result c.answer) (P.calls self.old.port) (P.calls self.new.port) result }
    {
        if self.gone {
            return Err(Gone);
        }
        mark_result(self.send(Request::MarkBad { block }, &[0]))
    }
}

impl<P: Port + Drop> Driver<P> {
    /// Issues of each block whether it is marked.
    fn read_marks(&mut self) -> Result<(), OpenFault>
        requires committed { IsCommittedKey P.calls self.old }
        requires power { self.old.gone ≡ false }
        ensures committed { IsCommittedKey P.calls self.new }
        ensures geometry { self.new.geometry ≡ self.old.geometry }
        ensures marks { OnOk result (self.new.gone ≡ false) }
        ensures asks { OnOk result (IssuesMarks (P.calls self.old.port) self.old.geometry.blocks (P.calls self.new.port)) }
    {
        for block in 0..self.geometry.blocks() {
            self.ask(Request::IsMarked { block }, &mut [0u8; 1]);
            if self.gone {
                return Err(OpenFault::Gone);
            }
        }
        Ok(())
    }

    /// Opens a device: asks for its sizes, and which blocks are marked.
    pub(crate) fn open(alloc: Global, mut port: P) -> Result<(Driver<P>, TagForm), OpenFault>
        ensures committed { IfOk result (λ d. IsCommittedKey P.calls d.0) }
        ensures power { IfOk result (λ d. d.0.gone ≡ false) }
        ensures asks { IfOk result (λ d. IssuesAll (record { geometry = d.0.geometry; tags = d.1 }) (P.calls port) (P.calls d.0.port)) }
    {
        let mut bytes = [0u8; 16];
        let answer = port.read(Request::Sizes, &mut bytes);
        let Sizes { geometry, tags } = sizes_of(&bytes, answer)?;
        let mut driver = Driver {
            port,
            geometry,
            blocks: new_blocks(alloc, geometry.blocks())?,
            gone: false,
        };
        driver.read_marks()?;
        Ok((driver, tags))
    }
}
