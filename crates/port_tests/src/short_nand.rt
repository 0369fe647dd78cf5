// A device in memory with 24 bytes of a tag: those of a tag of 48 whose others are zero.

use nand_model::{EraseFault, Geometry, Gone, Nand, PageKind, ProgramFault};
use port_nand::SmallSpareNand;

/// A device whose tags end in zeros. Nothing is promised of its pages.
#[derive(Drop)]
pub(crate) struct ShortNand<N: Nand> {
    pub(crate) inner: N,
}

fn first_half(tag: &[u8; 48]) -> [u8; 24] {
    let mut half = [0; 24];
    half.copy_from_slice(&tag[..24]);
    half
}

fn with_zeros(half: &[u8; 24]) -> [u8; 48] {
    let mut tag = [0; 48];
    tag[..24].copy_from_slice(half);
    tag
}

impl<N: Nand> SmallSpareNand for ShortNand<N> {
    ghost use Rattle.std.specs.Prelude.{false};
    ghost use Rattle.std.proofs.lemmas.Bool.{false≢true};

    ghost state = { λ d. record (N.state d.inner) { honest = false } };

    ghost clean = { λ d honest. absurd (false≢true honest) };

    ghost within = { λ d. N.within d.inner };

    ghost sized = { λ d honest. absurd (false≢true honest) };

    fn geometry(&self) -> Geometry {
        self.inner.geometry()
    }

    fn is_bad(&self, block: u32) -> bool {
        self.inner.is_bad(block)
    }

    fn read_tag(&mut self, block: u32, page: u32, tag: &mut [u8; 24]) -> Result<PageKind, Gone> {
        let mut long = with_zeros(tag);
        let answer = self.inner.read_tag(block, page, &mut long);
        if answer == Ok(PageKind::Written) {
            *tag = first_half(&long);
        }
        answer
    }

    fn read_page(
        &mut self,
        block: u32,
        page: u32,
        bytes: &mut [u8],
        tag: &mut [u8; 24],
    ) -> Result<PageKind, Gone> {
        let mut long = with_zeros(tag);
        let answer = self.inner.read_page(block, page, bytes, &mut long);
        if answer == Ok(PageKind::Written) {
            *tag = first_half(&long);
        }
        answer
    }

    fn read_data(&mut self, block: u32, page: u32, bytes: &mut [u8]) -> Result<PageKind, Gone> {
        self.inner.read_data(block, page, bytes)
    }

    fn program(
        &mut self,
        block: u32,
        page: u32,
        bytes: &[u8],
        tag: &[u8; 24],
    ) -> Result<(), ProgramFault> {
        self.inner.program(block, page, bytes, &with_zeros(tag))
    }

    fn erase(&mut self, block: u32) -> Result<(), EraseFault> {
        self.inner.erase(block)
    }

    fn mark_bad(&mut self, block: u32) -> Result<(), Gone> {
        self.inner.mark_bad(block)
    }
}
