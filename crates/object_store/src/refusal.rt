// Why a call of a store, or a command, does nothing.
ghost use Rattle.std.specs.Prelude.{◌≡◌};
ghost use Rattle.object_store.specs.declared.refusal.Refusal.TheVariants as refusals;
ghost use Rattle.volume_terms.specs.declared.fault.StoreFault.TheVariants as faults;

use posix_profile::Errno;
use std::alloc::AllocError;
use volume_terms::StoreFault;

/// Why a command is not done: the store has a fault, or the reply is an error of the profile.
#[derive(Clone, Copy, Debug, PartialEq, Eq, Drop)]
pub enum Refusal {
    Fault(StoreFault),
    Error(Errno),
}

impl From<StoreFault> for Refusal {
    ghost from_gives = { λ fault e. e ≡ refusals.Fault fault };

    fn from(fault: StoreFault) -> Refusal {
        Refusal::Fault(fault)
    }
}

impl From<Errno> for Refusal {
    ghost from_gives = { λ error e. e ≡ refusals.Error error };

    fn from(error: Errno) -> Refusal {
        Refusal::Error(error)
    }
}

impl From<AllocError> for Refusal {
    ghost from_gives = { λ _ e. e ≡ refusals.Fault faults.NoMemory };

    fn from(_error: AllocError) -> Refusal {
        Refusal::Fault(StoreFault::NoMemory)
    }
}
