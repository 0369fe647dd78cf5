// The numbers that no object has.
ghost use Rattle.std.proofs.Props.{props};
ghost use Rattle.std.specs.Prelude.{◌≡◌, ◌≤◌, ◌<◌, ℕ, Bool, true, false};
ghost use Rattle.std.specs.BinaryHeap.{IsHeap, heap_items};
ghost use Rattle.object_store.specs.Taken.{by_number, IsLeastFree, AllTaken, Takes, GivesBack, taken_in};

use crate::packed_facts::PackedFacts;
use std::alloc::{AllocError, Global};
use std::cmp::Reverse;
use std::collections::{BTreeMap, BinaryHeap};

/// The least number that a new object gets: 1 is the root's.
pub(crate) const FIRST: u64 = 2;

/// How many numbers that were given back are listed at most.
const LISTED: usize = 32;

/// The numbers that are free: those that were given back, and from `low` up those that no object has.
///
/// Where more are given back than the list has room for, it begins anew: the least that is free is the mark then, and those above are
/// sought when they are needed.
#[derive(Drop)]
pub(crate) struct FreeNumbers {
    freed: BinaryHeap<Reverse<u64>>,
    low: u64,
    ghost ordered: { IsHeap by_number (heap_items freed) } by { Prim.hlevel props },
}

impl FreeNumbers {
    ghost use Rattle.object_store.specs.Numbers.{KnowsFree, next_number};

    /// The free numbers where these facts are all that there are.
    pub(crate) fn new(alloc: Global, facts: &BTreeMap<u64, PackedFacts>) -> FreeNumbers
        ensures { KnowsFree result (taken_in facts.now) }
    {
        let freed = BinaryHeap::new(alloc);
        let low = first_free(facts, FIRST);
        FreeNumbers { freed, low }
    }

    /// The least number that is free.
    pub(crate) fn next(&self) -> u64
        ensures is { result ≡ next_number self.now }
        ensures least { (taken : ℕ → Bool) → KnowsFree self.now taken → IsLeastFree taken result }
    {
        match self.freed.peek() {
            Some(number) => number.0,
            None => self.low,
        }
    }

    /// Makes room for the list of numbers that are given back.
    pub(crate) fn make_list(&mut self) -> Result<(), AllocError>
        ensures { (taken : ℕ → Bool) → KnowsFree self.old taken → KnowsFree self.new taken }
    {
        self.freed.reserve_exact(LISTED)
    }

    /// The least number that is free is taken, as these facts say.
    pub(crate) fn take(&mut self, facts: &BTreeMap<u64, PackedFacts>)
        ensures { (before : ℕ → Bool) → KnowsFree self.old before → Takes before (taken_in facts.now) (next_number self.old) → KnowsFree self.new (taken_in facts.now) }
    {
        match self.freed.pop() {
            Some(_) => {}
            None => {
                let low = first_free(facts, self.low);
                self.low = low;
            }
        }
    }

    /// A number is free again.
    pub(crate) fn give_back(&mut self, number: u64)
        ensures { (before after : ℕ → Bool) → KnowsFree self.old before → GivesBack before after number → KnowsFree self.new after }
    {
        if FIRST <= number && number < self.low {
            self.list(number);
        }
    }

    /// A number below the mark is free again.
    fn list(&mut self, number: u64)
        requires first { 2 ≤ number }
        requires below { number < self.old.low }
        ensures { (before after : ℕ → Bool) → KnowsFree self.old before → GivesBack before after number → KnowsFree self.new after }
    {
        if self.freed.len() == self.freed.capacity() {
            self.begin_anew(number);
            return;
        }
        match self.freed.push(Reverse(number)) {
            Ok(()) => {}
            Err(_) => unreachable!(),
        }
    }

    /// A number is free again, and the least that is free is the mark.
    fn begin_anew(&mut self, number: u64)
        requires { 2 ≤ number }
        ensures { (before after : ℕ → Bool) → KnowsFree self.old before → GivesBack before after number → KnowsFree self.new after }
    {
        self.low = self.next().min(number);
        self.freed.clear();
    }
}

/// Whether there are facts at a number.
fn is_taken(facts: &BTreeMap<u64, PackedFacts>, number: u64) -> bool
    ensures { result ≡ taken_in facts.now number }
{
    match facts.get(&number) {
        Some(facts) => facts.is_some(),
        None => false,
    }
}

/// The least number from this one up at which there are no facts, where there are facts at each below. Of one number more
/// than there are entries, one has none.
fn first_free(facts: &BTreeMap<u64, PackedFacts>, from: u64) -> u64
    ensures low { AllTaken (taken_in facts.now) from → from ≤ result }
    ensures free { AllTaken (taken_in facts.now) from → taken_in facts.now result ≡ false }
    ensures below { AllTaken (taken_in facts.now) from → AllTaken (taken_in facts.now) result }
{
    let last = facts.len() as u64 + FIRST;
    for number in from..last {
        if !is_taken(facts, number) {
            return number;
        }
    }
    last
}
