// A device in memory that is known to keep its plan.
ghost use Rattle.std.specs.Prelude.{◌≡◌, ◌<◌, ◌^◌, ℕ, false};
ghost use Rattle.nand_model.specs.Calls.{Device};
ghost use Rattle.nand_model.specs.Plans.{Plan};
ghost use Rattle.nand_model.specs.MemoryState.{device, plan};
ghost use Rattle.powercut.specs.Planning.{fuse_call, calls_since, IsPlanned};
ghost use Rattle.powercut.specs.Running.{RunsAsPlanned};
ghost use Rattle.powercut.specs.Naming.{KeepsPlan, HasRun, totals, begun};

use crate::start::Start;
use nand_model::{EraseFault, Geometry, Gone, MemNand, Nand, PageKind, ProgramFault};

/// A device in memory from a power-up to the end of a session. Each call is the device's own.
///
/// Code that works on any device is proved without a word on plans. What is known of this one still says, when it comes back from
/// such code, which session it is from: its count of cuts begins at a number that names the plan, and the counts and the flash before it.
#[derive(Drop)]
pub struct PlannedNand {
    nand: MemNand,
    start: Start,
    ghost committed: { KeepsPlan (device nand) (plan nand) start.reported },
    ghost run: { ∥ HasRun start.reported (plan nand) (device nand) ∥₁ },
}

impl PlannedNand {
    ghost use Rattle.powercut.specs.States.{state_of, InSession};

    /// A device that was just powered up, with the plan of its session.
    pub fn new(nand: MemNand) -> PlannedNand
        ghost reported: { ℕ × ℕ × ℕ × ℕ × ℕ }
        requires power { (device nand).gone ≡ false }
        requires anew { (plan nand).calls ≡ 0 }
        requires fuse { fuse_call (plan nand) < 2 ^ 64 }
        requires reported { reported ≡ totals (device nand) }
        ensures { state_of result ≡ begun (plan nand) (device nand) }
    {
        PlannedNand {
            nand,
            start: Start::as_reported(),
        }
    }

    /// The device itself.
    pub fn into_nand(self) -> MemNand
        ensures device { state_of self ≡ record (device result) { cuts = (state_of self).cuts } }
        ensures planned { (p : Plan) (first : Device) → InSession p first self → IsPlanned p first (device result) }
        ensures runs { (p : Plan) (first : Device) → InSession p first self → ∥ RunsAsPlanned p first (device result) ∥₁ }
        ensures calls { (p : Plan) (first : Device) → InSession p first self → (device result).gone ≡ false
            → (plan result).calls ≡ calls_since first (device result) }
    {
        self.nand
    }
}

impl Nand for PlannedNand {
    ghost use Rattle.nand_model.specs.laws.Memory.{within_of};
    ghost use Rattle.powercut.specs.States.{state_of};

    ghost state = { state_of };

    ghost clean = { λ d honest. d.nand.whole.clean };

    ghost within = { λ d. within_of d.nand.geometry d.nand.blocks.items d.nand.whole };

    ghost sized = { λ d honest. d.nand.whole.sized };

    fn geometry(&self) -> Geometry {
        self.nand.geometry()
    }

    fn is_bad(&self, block: u32) -> bool {
        self.nand.is_bad(block)
    }

    fn read_tag(&mut self, block: u32, page: u32, tag: &mut [u8; 48]) -> Result<PageKind, Gone> {
        self.nand.read_tag(block, page, tag)
    }

    fn read_page(
        &mut self,
        block: u32,
        page: u32,
        bytes: &mut [u8],
        tag: &mut [u8; 48],
    ) -> Result<PageKind, Gone> {
        self.nand.read_page(block, page, bytes, tag)
    }

    fn read_data(&mut self, block: u32, page: u32, bytes: &mut [u8]) -> Result<PageKind, Gone> {
        self.nand.read_data(block, page, bytes)
    }

    fn program(
        &mut self,
        block: u32,
        page: u32,
        bytes: &[u8],
        tag: &[u8; 48],
    ) -> Result<(), ProgramFault> {
        self.nand.program(block, page, bytes, tag)
    }

    fn erase(&mut self, block: u32) -> Result<(), EraseFault> {
        self.nand.erase(block)
    }

    fn mark_bad(&mut self, block: u32) -> Result<(), Gone> {
        self.nand.mark_bad(block)
    }
}
