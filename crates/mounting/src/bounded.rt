// A device whose flash is known to lie within its sizes.
ghost use Rattle.nand_model.specs.Flash.{IsWithin};

use nand_model::Nand;

/// A device whose flash lies within its sizes.
pub(crate) struct Bounded<N: Nand> {
    pub(crate) device: N,
    ghost within: { IsWithin (N.state device).geometry.pages (N.state device).geometry.blocks (N.state device).flash },
}
