// Why a device was not formatted.
ghost use Rattle.std.specs.Prelude.{◌≡◌};
ghost use Rattle.formatting.specs.declared.fault.FormatFault.TheVariants as faults;

use nand_model::Gone;
use thiserror::Error;

/// After `Worn` and `Gone` nothing is promised of what is in good blocks.
#[derive(Clone, Copy, Debug, PartialEq, Eq, Error)]
pub enum FormatFault {
    #[error("fewer than four blocks are left besides the spare ones: ask for fewer spare blocks")]
    Spare,
    #[error("memory was refused, and nothing was changed: free some, then format again")]
    NoMemory,
    #[error("more blocks are bad than are spare: ask for more spare blocks, or take another part")]
    Worn,
    #[error("power was lost: format again after the next power-up")]
    Gone,
}

impl From<Gone> for FormatFault {
    ghost from_gives = { λ _ e. e ≡ faults.Gone };

    fn from(_e: Gone) -> FormatFault {
        FormatFault::Gone
    }
}
