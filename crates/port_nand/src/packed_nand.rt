// A device with tags of 48 bytes over one with tags of 24.
ghost use Rattle.std.specs.Prelude.{◌≡◌, ◌<◌, ℕ, List, length, Some, IsErr, false};

use crate::answers::{fill, is_gone_by_erase, is_gone_by_program};
use crate::codec::pack;
use crate::refusals::Refusals;
use crate::small_spare::SmallSpareNand;
use nand_model::{EraseFault, Geometry, Gone, Nand, PageKind, ProgramFault};

/// A device whose pages have 24 bytes of tag, as one with tags of 48. It is as honest as the device.
///
/// A program whose tag does not fit is answered as a failure, without a call of the device, and the block has no next page
/// until it is erased. It remembers whether the power is gone, and takes no other memory.
#[derive(Drop)]
pub struct PackedNand<N: SmallSpareNand> {
    inner: N,
    gone: bool,
    refusals: Refusals,
    ghost power: { gone ≡ (N.state inner).gone },
}

impl<N: SmallSpareNand> PackedNand<N> {
    ghost use Rattle.port_nand.specs.Adapted.{unpacked_device};
    ghost use Rattle.port_nand.specs.Parts.{inner_of};
    ghost use Rattle.port_nand.specs.Refused.{none_refused};
    ghost use Rattle.port_nand.specs.declared.refusals.Refusals.{Refusals};

    /// The device with its tags unpacked, where it has power.
    pub fn new(inner: N) -> PackedNand<N>
        requires power { (N.state inner).gone ≡ false }
        ensures state { ⟦<PackedNand<N> as Nand>⟧.state result ≡ unpacked_device none_refused (N.state inner) }
        ensures inner { inner_of result ≡ inner }
    {
        PackedNand {
            inner,
            gone: false,
            refusals: Refusals::new(),
        }
    }

    /// The device itself.
    pub fn into_inner(self) -> N
        ensures state { (refusals : Refusals) × (⟦<PackedNand<N> as Nand>⟧.state self ≡ unpacked_device refusals (N.state result)) }
        ensures inner { result ≡ inner_of self }
    {
        self.inner
    }
}

impl<N: SmallSpareNand> Nand for PackedNand<N> {
    ghost use Rattle.nand_model.specs.Calls.{Erases, Programs};
    ghost use Rattle.port_nand.specs.Packed.{PacksTo};
    ghost use Rattle.port_nand.specs.Parts.{small_state, state_of};
    ghost use Rattle.port_nand.specs.laws.Adapted.{clean_unpacked, within_unpacked, sized_unpacked};

    ghost state = { state_of };

    ghost clean = { λ d honest. clean_unpacked d.refusals (N.state d.inner).flash (N.clean d.inner honest) };

    ghost within = { λ d. within_unpacked d.refusals _ _ (N.state d.inner).flash (N.within d.inner) };

    ghost sized = { λ d honest. sized_unpacked d.refusals _ (N.state d.inner).flash (N.sized d.inner honest) };

    fn geometry(&self) -> Geometry {
        self.inner.geometry()
    }

    fn is_bad(&self, block: u32) -> bool {
        self.inner.is_bad(block)
    }

    fn read_tag(&mut self, block: u32, page: u32, tag: &mut [u8; 48]) -> Result<PageKind, Gone> {
        let mut packed = [0; 24];
        let answer = self.inner.read_tag(block, page, &mut packed);
        self.gone = answer.is_err();
        fill(answer, &packed, tag);
        answer
    }

    fn read_page(
        &mut self,
        block: u32,
        page: u32,
        bytes: &mut [u8],
        tag: &mut [u8; 48],
    ) -> Result<PageKind, Gone> {
        let mut packed = [0; 24];
        let answer = self.inner.read_page(block, page, bytes, &mut packed);
        self.gone = answer.is_err();
        fill(answer, &packed, tag);
        answer
    }

    fn read_data(&mut self, block: u32, page: u32, bytes: &mut [u8]) -> Result<PageKind, Gone> {
        let answer = self.inner.read_data(block, page, bytes);
        self.gone = answer.is_err();
        answer
    }

    fn program(
        &mut self,
        block: u32,
        page: u32,
        bytes: &[u8],
        tag: &[u8; 48],
    ) -> Result<(), ProgramFault>
        requires block { block < (state_of self.old).geometry.blocks }
        requires page { page < (state_of self.old).geometry.pages }
        requires good { (state_of self.old).flash.bad block ≡ false }
        requires next { (state_of self.old).flash.next block ≡ Some page }
        requires size { length bytes.now ≡ (state_of self.old).geometry.bytes }
        ensures programs { Programs block page bytes.now tag.now (state_of self.old) (state_of self.new) result }
        ensures fits { (packed : List ℕ) → PacksTo tag.now packed
            → Programs block page bytes.now packed (small_state self.old) (small_state self.new) result }
        ensures refused { ((packed : List ℕ) → PacksTo tag.now packed → ⊥)
            → (small_state self.new ≡ small_state self.old) × IsErr result }
    {
        match pack(tag) {
            Some(packed) => {
                let answer = self.inner.program(block, page, bytes, &packed);
                self.gone = is_gone_by_program(answer);
                answer
            }
            None => {
                if self.gone {
                    return Err(ProgramFault::Gone);
                }
                self.refusals = self.refusals.refuse(&block);
                Err(ProgramFault::Failed)
            }
        }
    }

    fn erase(&mut self, block: u32) -> Result<(), EraseFault>
        requires { block < (state_of self.old).geometry.blocks }
        ensures erases { Erases block (state_of self.old) (state_of self.new) result }
        ensures small { Erases block (small_state self.old) (small_state self.new) result }
    {
        let answer = self.inner.erase(block);
        self.gone = is_gone_by_erase(answer);
        match answer {
            Ok(()) => {
                self.refusals = self.refusals.open(&block);
                Ok(())
            }
            Err(fault) => Err(fault),
        }
    }

    fn mark_bad(&mut self, block: u32) -> Result<(), Gone> {
        let answer = self.inner.mark_bad(block);
        self.gone = answer.is_err();
        answer
    }
}
