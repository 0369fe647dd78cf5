// Why no checkpoint was written.
use crate::TakeFault;

/// Why no checkpoint was written.
#[derive(Clone, Copy, Debug, PartialEq, Eq)]
pub enum SealFault {
    /// More blocks are bad than there are to spare.
    Worn,
    /// The device did not do as it said.
    Lost,
    Gone,
}

impl From<TakeFault> for SealFault {
    ghost use Rattle.std.specs.Prelude.{◌≡◌};
    ghost use Rattle.flash_log.specs.Sealing.{seal_fault};

    ghost from_gives = { λ t f. f ≡ seal_fault t };

    fn from(fault: TakeFault) -> SealFault {
        match fault {
            TakeFault::Worn => SealFault::Worn,
            TakeFault::Gone => SealFault::Gone,
        }
    }
}
