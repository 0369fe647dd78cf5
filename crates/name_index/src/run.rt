// A run of numbers.
ghost use Rattle.std.specs.Prelude.{◌≡◌, ◌≢◌, ◌<◌, ◌≤◌, [], ◌∷◌, length, slice_index, take, drop, IfOk, OnOk, OnErr, IsTrue, ◌↔◌};
ghost use Rattle.name_index.specs.Lists.{Rises, IsIn, Adds, Drops, IsNextFrom};

use crate::standing::Standing;
use std::alloc::{AllocError, Global};

/// The numbers of a full run, and how many of them stay where it is divided.
const MOST_NUMBERS: usize = 64;

const HALF: usize = 32;

/// The numbers that a run grows by room for.
const STEP: usize = 8;

/// Some numbers, which rise. There is at least one.
#[derive(Drop)]
pub(crate) struct Run {
    pub(crate) numbers: Vec<u64>,
    ghost rises: { Rises numbers.items },
    ghost filled: { 0 < length numbers.items },
}

impl Run {
    ghost use Rattle.name_index.specs.Halves.{IsUpperPart};
    ghost use Rattle.name_index.specs.Standings.{IsStanding};

    /// One number.
    pub(crate) fn one(alloc: Global, number: u64) -> Result<Run, AllocError>
        ensures { IfOk result (λ run. run.numbers.items ≡ number ∷ []) }
    {
        let numbers = vec![in alloc; number]?;
        Ok(Run { numbers })
    }

    /// The least number.
    pub(crate) fn first(&self) -> u64
        ensures { result ≡ slice_index self.now.numbers.items 0 }
    {
        self.numbers[0]
    }

    /// Whether this number is the only one.
    pub(crate) fn is_only(&self, number: u64) -> bool
        ensures { IsTrue result ↔ ((length self.now.numbers.items ≡ 1) × (slice_index self.now.numbers.items 0 ≡ number)) }
    {
        self.numbers.len() == 1 && self.numbers[0] == number
    }

    /// The least number from one on.
    pub(crate) fn next_from(&self, from: u64) -> Option<u64>
        ensures { IsNextFrom (IsIn self.now.numbers.items) from result }
    {
        match self.numbers.binary_search(&from) {
            Ok(at) => Some(self.numbers[at]),
            Err(at) => {
                if at < self.numbers.len() {
                    Some(self.numbers[at])
                } else {
                    None
                }
            }
        }
    }

    /// How a number stands to the run.
    pub(crate) fn standing(&self, number: u64) -> Standing
        ensures { IsStanding self.now.numbers.items number result }
    {
        match self.numbers.binary_search(&number) {
            Ok(_) => Standing::Held,
            Err(_) => {
                if self.numbers.len() < MOST_NUMBERS {
                    Standing::Fits
                } else {
                    Standing::Full
                }
            }
        }
    }

    /// Puts a number in its place, if it is not there yet.
    pub(crate) fn insert(&mut self, number: u64) -> Result<(), AllocError>
        ensures ok { OnOk result (Adds number (IsIn self.old.numbers.items) (IsIn self.new.numbers.items)) }
        ensures err { OnErr result (self.new.numbers.items ≡ self.old.numbers.items) }
    {
        match self.numbers.binary_search(&number) {
            Ok(_) => Ok(()),
            Err(at) => {
                reserve_one(&mut self.numbers)?;
                self.numbers.insert(at, number)?;
                Ok(())
            }
        }
    }

    /// Takes a number out that is not the only one.
    pub(crate) fn remove(&mut self, number: u64)
        requires { length self.old.numbers.items ≡ 1 → slice_index self.old.numbers.items 0 ≢ number }
        ensures { Drops number (IsIn self.old.numbers.items) (IsIn self.new.numbers.items) }
    {
        match self.numbers.binary_search(&number) {
            Ok(at) => {
                let _ = self.numbers.remove(at);
            }
            Err(_) => {}
        }
    }

    /// The upper part of a full run, as a run of its own.
    pub(crate) fn upper(&self, alloc: Global) -> Result<Option<Run>, AllocError>
        ensures { IfOk result (λ part. IsUpperPart self.now.numbers.items part) }
    {
        if self.numbers.len() < MOST_NUMBERS {
            return Ok(None);
        }
        let (_, upper) = self.numbers.split_at(HALF);
        let numbers = Vec::from_slice(alloc, upper)?;
        Ok(Some(Run { numbers }))
    }

    /// Leaves the numbers below the upper part.
    pub(crate) fn cut_upper(&mut self)
        requires { 32 < length self.old.numbers.items }
        ensures { self.new.numbers.items ≡ take 32 self.old.numbers.items }
    {
        self.numbers.truncate(HALF);
        self.numbers.shrink_to_fit();
    }
}

/// Sees that there is room for one number more.
fn reserve_one(numbers: &mut Vec<u64>) -> Result<(), AllocError>
    ensures { numbers.new.items ≡ numbers.old.items }
{
    if numbers.len() < numbers.capacity() {
        return Ok(());
    }
    numbers.reserve_exact(STEP)
}
