// Why committed pages were not moved.
use crate::take::TakeFault;

/// Why committed pages were not moved.
#[derive(Clone, Copy, Debug, PartialEq, Eq)]
pub enum MoveFault {
    /// More blocks are bad than there are to spare, or no number is left.
    Worn,
    /// A committed page did not read back under its name.
    Lost,
    Gone,
}

impl From<TakeFault> for MoveFault {
    ghost use Rattle.std.specs.Prelude.{◌≡◌};
    ghost use Rattle.flash_log.specs.Faults.{move_fault};

    ghost from_gives = { λ t f. f ≡ move_fault t };

    fn from(fault: TakeFault) -> MoveFault {
        match fault {
            TakeFault::Worn => MoveFault::Worn,
            TakeFault::Gone => MoveFault::Gone,
        }
    }
}
