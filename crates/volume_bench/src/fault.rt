// Why a run ended early.
ghost use Rattle.std.specs.Prelude.{◌≡◌};
ghost use Rattle.volume_bench.specs.declared.fault.BenchFault.TheVariants as faults;

use line_shell::ShellFault;
use posix_calls::{FormatFault, MountFault};
use std::alloc::{AllocError, AllocFailed};
use thiserror::Error;

/// Why a run ended before its lines did, or was not reported. A line is named by its number, from 1 on.
#[derive(Clone, Copy, Debug, PartialEq, Eq, Error)]
pub enum BenchFault {
    #[error("memory was refused: free some, then run the program again")]
    NoMemory,
    #[error("line {0}: after `repeat` comes how often, as a number")]
    NoCount(u64),
    #[error("line {0}: `repeat` or `mark` before the `end` of a `repeat`")]
    Unended(u64),
    #[error("line {0}: `end` without a `repeat` before it")]
    NoRepeat(u64),
    /// The fresh volume could not be made.
    #[error(transparent)]
    Format(FormatFault),
    /// The volume could not be mounted.
    #[error(transparent)]
    Mount(MountFault),
    #[error("the volume could not be unmounted after the lines")]
    Unmount,
    /// The lines could not be run to their end.
    #[error(transparent)]
    Shell(ShellFault),
    #[error("the processor's time could not be read")]
    Clock,
    #[error("the report could not be written: check where it goes")]
    Output,
}

impl From<AllocError> for BenchFault {
    ghost from_gives = { λ _ e. e ≡ faults.NoMemory };

    fn from(_error: AllocError) -> BenchFault {
        BenchFault::NoMemory
    }
}

impl<T: Drop> From<AllocFailed<T>> for BenchFault {
    ghost from_gives = { λ _ e. e ≡ faults.NoMemory };

    fn from(_error: AllocFailed<T>) -> BenchFault {
        BenchFault::NoMemory
    }
}
