// A device that counts as honest only where it is trusted.
ghost use Rattle.std.specs.Prelude.{◌≡◌, Bool};
ghost use Rattle.nand_model.specs.Trusting.{trusted_as};

use crate::trust::Trust;
use crate::{EraseFault, Geometry, Gone, Nand, PageKind, ProgramFault};

/// A device that promises what an honest one does only where it is trusted. Each call is the device's own; whether it is
/// trusted is known to contracts alone, and takes no memory.
#[derive(Drop)]
pub struct TrustedNand<N: Nand> {
    inner: N,
    trust: Trust,
}

impl<N: Nand> TrustedNand<N> {
    ghost use Rattle.nand_model.specs.TrustedParts.{inner_of};

    /// The device, trusted or not, as a proof chooses at the call.
    pub fn new(inner: N) -> TrustedNand<N>
        ghost reported: { Bool }
        ensures state { ⟦<TrustedNand<N> as Nand>⟧.state result ≡ trusted_as reported (N.state inner) }
        ensures inner { inner_of result ≡ inner }
    {
        TrustedNand {
            inner,
            trust: Trust::as_reported(),
        }
    }

    /// The device itself.
    pub fn into_inner(self) -> N
        ensures state { (reported : Bool) × (⟦<TrustedNand<N> as Nand>⟧.state self ≡ trusted_as reported (N.state result)) }
        ensures inner { result ≡ inner_of self }
    {
        self.inner
    }
}

impl<N: Nand> Nand for TrustedNand<N> {
    ghost use Rattle.nand_model.specs.Trusting.{trusted_as};
    ghost use Rattle.nand_model.specs.laws.Trusted.{honest_of};

    ghost state = { λ d. trusted_as d.trust.reported (N.state d.inner) };

    ghost clean = { λ d honest. N.clean d.inner (honest_of _ _ honest) };

    ghost within = { λ d. N.within d.inner };

    ghost sized = { λ d honest. N.sized d.inner (honest_of _ _ honest) };

    fn geometry(&self) -> Geometry {
        self.inner.geometry()
    }

    fn is_bad(&self, block: u32) -> bool {
        self.inner.is_bad(block)
    }

    fn read_tag(&mut self, block: u32, page: u32, tag: &mut [u8; 48]) -> Result<PageKind, Gone> {
        self.inner.read_tag(block, page, tag)
    }

    fn read_page(
        &mut self,
        block: u32,
        page: u32,
        bytes: &mut [u8],
        tag: &mut [u8; 48],
    ) -> Result<PageKind, Gone> {
        self.inner.read_page(block, page, bytes, tag)
    }

    fn read_data(&mut self, block: u32, page: u32, bytes: &mut [u8]) -> Result<PageKind, Gone> {
        self.inner.read_data(block, page, bytes)
    }

    fn program(
        &mut self,
        block: u32,
        page: u32,
        bytes: &[u8],
        tag: &[u8; 48],
    ) -> Result<(), ProgramFault> {
        self.inner.program(block, page, bytes, tag)
    }

    fn erase(&mut self, block: u32) -> Result<(), EraseFault> {
        self.inner.erase(block)
    }

    fn mark_bad(&mut self, block: u32) -> Result<(), Gone> {
        self.inner.mark_bad(block)
    }
}
