// Why no room was made.
ghost use Rattle.std.specs.Prelude.{◌≡◌};
ghost use Rattle.flash_log.specs.Faults.{move_fault};
ghost use Rattle.flash_log.specs.RoomFaults.{room_fault};

use crate::{MoveFault, TakeFault};

/// Why no room was made.
#[derive(Clone, Copy, Debug, PartialEq, Eq)]
pub enum RoomFault {
    /// No block can be collected: more is committed than there is room for.
    Full,
    /// More blocks are bad than there are to spare, or no number is left.
    Worn,
    /// A committed page did not read back under its name.
    Lost,
    Gone,
}

impl From<MoveFault> for RoomFault {
    ghost from_gives = { λ m f. f ≡ room_fault m };

    fn from(fault: MoveFault) -> RoomFault {
        match fault {
            MoveFault::Worn => RoomFault::Worn,
            MoveFault::Lost => RoomFault::Lost,
            MoveFault::Gone => RoomFault::Gone,
        }
    }
}

impl From<TakeFault> for RoomFault {
    ghost from_gives = { λ t f. f ≡ room_fault (move_fault t) };

    fn from(fault: TakeFault) -> RoomFault {
        RoomFault::from(MoveFault::from(fault))
    }
}
