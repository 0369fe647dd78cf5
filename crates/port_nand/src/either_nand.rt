// A device that is one of two.
ghost use Rattle.std.specs.Prelude.{◌≡◌, true};
ghost use Rattle.nand_model.specs.Flash.{IsClean, IsWithin, IsSized};
ghost use Rattle.port_nand.specs.Either.{state_of};
ghost use Rattle.port_nand.specs.laws.Either.{of_both};

use nand_model::{EraseFault, Geometry, Gone, Nand, PageKind, ProgramFault};

/// One of two devices: which one is known when it is opened.
#[derive(Drop)]
pub enum EitherNand<A, B> {
    First(A),
    Second(B),
}

impl<A: Nand, B: Nand> Nand for EitherNand<A, B> {
    ghost state = { state_of A.state B.state };

    ghost clean = { of_both A.state B.state (λ d. d.honest ≡ true → IsClean d.flash) A.clean B.clean };

    ghost within = { of_both A.state B.state (λ d. IsWithin d.geometry.pages d.geometry.blocks d.flash) A.within B.within };

    ghost sized = { of_both A.state B.state (λ d. d.honest ≡ true → IsSized d.geometry.bytes d.flash) A.sized B.sized };

    fn geometry(&self) -> Geometry {
        match self {
            EitherNand::First(device) => device.geometry(),
            EitherNand::Second(device) => device.geometry(),
        }
    }

    fn is_bad(&self, block: u32) -> bool {
        match self {
            EitherNand::First(device) => device.is_bad(block),
            EitherNand::Second(device) => device.is_bad(block),
        }
    }

    fn read_tag(&mut self, block: u32, page: u32, tag: &mut [u8; 48]) -> Result<PageKind, Gone> {
        match self {
            EitherNand::First(device) => device.read_tag(block, page, tag),
            EitherNand::Second(device) => device.read_tag(block, page, tag),
        }
    }

    fn read_page(
        &mut self,
        block: u32,
        page: u32,
        bytes: &mut [u8],
        tag: &mut [u8; 48],
    ) -> Result<PageKind, Gone> {
        match self {
            EitherNand::First(device) => device.read_page(block, page, bytes, tag),
            EitherNand::Second(device) => device.read_page(block, page, bytes, tag),
        }
    }

    fn read_data(&mut self, block: u32, page: u32, bytes: &mut [u8]) -> Result<PageKind, Gone> {
        match self {
            EitherNand::First(device) => device.read_data(block, page, bytes),
            EitherNand::Second(device) => device.read_data(block, page, bytes),
        }
    }

    fn program(
        &mut self,
        block: u32,
        page: u32,
        bytes: &[u8],
        tag: &[u8; 48],
    ) -> Result<(), ProgramFault> {
        match self {
            EitherNand::First(device) => device.program(block, page, bytes, tag),
            EitherNand::Second(device) => device.program(block, page, bytes, tag),
        }
    }

    fn erase(&mut self, block: u32) -> Result<(), EraseFault> {
        match self {
            EitherNand::First(device) => device.erase(block),
            EitherNand::Second(device) => device.erase(block),
        }
    }

    fn mark_bad(&mut self, block: u32) -> Result<(), Gone> {
        match self {
            EitherNand::First(device) => device.mark_bad(block),
            EitherNand::Second(device) => device.mark_bad(block),
        }
    }
}
