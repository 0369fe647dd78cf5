// A set of numbers.
ghost use Rattle.std.specs.Prelude.{◌≡◌, ◌≤◌, ℕ, OnOk, OnErr, IfOk, IsSome, Some, None};
ghost use Rattle.std.specs.Ordering.{nat_cmp};
ghost use Rattle.std.specs.BTreeMap.{get};
ghost use Rattle.name_index.specs.Lists.{Adds, Drops, SameNumbers, IsNextFrom};
ghost use Rattle.name_index.specs.Sets.{Has, IsTiled, IsLastBegun, IsHome, HasBegun, IsUpperOf, IsOnlyOf, IsRemoval, IsNextWithin, IsFirstBeyond};

use crate::run::Run;
use crate::standing::Standing;
use std::alloc::{AllocError, Global};
use std::collections::BTreeMap;
use std::ops::Bound;

/// A set of numbers, in runs by the numbers that they begin at.
#[derive(Drop)]
pub(crate) struct NumberSet {
    alloc: Global,
    pub(crate) runs: BTreeMap<u64, Run>,
    ghost tiled: { IsTiled runs },
}

impl NumberSet {
    /// No number.
    pub(crate) fn new(alloc: Global) -> NumberSet
        ensures { (x : ℕ) → Has result.runs x → ⊥ }
    {
        NumberSet {
            alloc,
            runs: BTreeMap::new(alloc),
        }
    }

    /// The last run that begins at a number or before it.
    fn last_begun(&self, number: u64) -> Option<u64>
        ensures { IsLastBegun self.now.runs number result }
    {
        let (at, _) = self.runs.range(..=number).next_back()?;
        Some(*at)
    }

    /// The least number from one on.
    pub(crate) fn next_from(&self, from: u64) -> Option<u64>
        ensures { IsNextFrom (Has self.now.runs) from result }
    {
        match self.next_within(from) {
            Some(found) => Some(found),
            None => self.first_beyond(from),
        }
    }

    /// The least number from one on in the last run that begins at it or before it.
    fn next_within(&self, from: u64) -> Option<u64>
        ensures { IsNextWithin self.now.runs from result }
    {
        let (_, run) = self.runs.range(..=from).next_back()?;
        run.next_from(from)
    }

    /// The least number of the runs that begin beyond a number.
    fn first_beyond(&self, number: u64) -> Option<u64>
        ensures { IsFirstBeyond self.now.runs number result }
    {
        let range = (Bound::Excluded(number), Bound::Unbounded);
        let (_, run) = self.runs.range(range).next()?;
        Some(run.first())
    }

    /// Puts a number into the set.
    pub(crate) fn insert(&mut self, number: u64) -> Result<(), AllocError>
        ensures ok { OnOk result (Adds number (Has self.old.runs) (Has self.new.runs)) }
        ensures err { OnErr result (SameNumbers (Has self.old.runs) (Has self.new.runs)) }
    {
        let Some((at, standing)) = self.home_of(number) else {
            return self.begin(number);
        };
        match standing {
            Standing::Held => Ok(()),
            Standing::Fits => self.put_at(at, number),
            Standing::Full => {
                self.divide(at)?;
                self.put(number)
            }
        }
    }

    /// The last run that begins at a number or before it, and how the number stands to it.
    fn home_of(&self, number: u64) -> Option<(u64, Standing)>
        ensures { IsHome self.now.runs number result }
    {
        let (at, run) = self.runs.range(..=number).next_back()?;
        Some((*at, run.standing(number)))
    }

    /// Puts a number into a run of its own, before which none begins.
    fn begin(&mut self, number: u64) -> Result<(), AllocError>
        requires { IsLastBegun self.old.runs number None }
        ensures ok { OnOk result (Adds number (Has self.old.runs) (Has self.new.runs)) }
        ensures err { OnErr result (SameNumbers (Has self.old.runs) (Has self.new.runs)) }
    {
        let run = Run::one(self.alloc, number)?;
        let _ = self.runs.insert(0, run)?;
        Ok(())
    }

    /// Divides the run that begins at a number, where it is full.
    fn divide(&mut self, at: u64) -> Result<(), AllocError>
        ensures same { SameNumbers (Has self.old.runs) (Has self.new.runs) }
        ensures here { IsSome (get nat_cmp self.old.runs at) → IsSome (get nat_cmp self.new.runs at) }
    {
        let Some(upper) = self.upper(at)? else {
            return Ok(());
        };
        let _ = self.runs.insert(upper.first(), upper)?;
        if let Some(run) = self.runs.get_mut(&at) {
            run.cut_upper();
        }
        Ok(())
    }

    /// The upper part of the run that begins at a number, where it is full.
    fn upper(&self, at: u64) -> Result<Option<Run>, AllocError>
        ensures { IfOk result (IsUpperOf self.now.runs at) }
    {
        match self.runs.get(&at) {
            Some(run) => run.upper(self.alloc),
            None => Ok(None),
        }
    }

    /// Puts a number into the last run that begins at it or before it.
    fn put(&mut self, number: u64) -> Result<(), AllocError>
        requires { HasBegun self.old.runs number }
        ensures ok { OnOk result (Adds number (Has self.old.runs) (Has self.new.runs)) }
        ensures err { OnErr result (SameNumbers (Has self.old.runs) (Has self.new.runs)) }
    {
        match self.last_begun(number) {
            Some(at) => self.put_at(at, number),
            None => Ok(()),
        }
    }

    /// Puts a number into the last run that begins at it or before it, which begins at `at`.
    fn put_at(&mut self, at: u64, number: u64) -> Result<(), AllocError>
        requires { IsLastBegun self.old.runs number (Some at) }
        ensures ok { OnOk result (Adds number (Has self.old.runs) (Has self.new.runs)) }
        ensures err { OnErr result (SameNumbers (Has self.old.runs) (Has self.new.runs)) }
    {
        match self.runs.get_mut(&at) {
            Some(run) => run.insert(number),
            None => Ok(()),
        }
    }

    /// Takes a number out, if it is there. It takes no memory.
    pub(crate) fn remove(&mut self, number: u64)
        ensures { Drops number (Has self.old.runs) (Has self.new.runs) }
    {
        let Some((at, is_only)) = self.removal_of(number) else {
            return;
        };
        if is_only {
            let _ = self.runs.remove(&at);
        } else {
            self.take_out(at, number);
        }
    }

    /// The last run that begins at a number or before it, and whether the number is the only one of it.
    fn removal_of(&self, number: u64) -> Option<(u64, bool)>
        ensures { IsRemoval self.now.runs number result }
    {
        let (at, run) = self.runs.range(..=number).next_back()?;
        Some((*at, run.is_only(number)))
    }

    /// Takes a number out of the run that begins at a number, where it is not the only one.
    fn take_out(&mut self, at: u64, number: u64)
        requires last { IsLastBegun self.old.runs number (Some at) }
        requires more { IsOnlyOf self.old.runs at number → ⊥ }
        ensures { Drops number (Has self.old.runs) (Has self.new.runs) }
    {
        if let Some(run) = self.runs.get_mut(&at) {
            run.remove(number);
        }
    }
}
