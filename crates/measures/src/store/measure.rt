// What is measured.

use crate::store::flash::{BYTES, GROUP, PAGES, SPARE, key_of, keys_of, written};
use crate::usage::nanoseconds_since;
use anyhow::{Context, Result, anyhow};
use flash_tree::FreshPage;
use nand_model::MemNand;
use page_store::Store;
use pages::{Cut, PageStore, Pages};
use rand_core::utils::NextWord;
use rand_pcg::Pcg32;
use std::alloc::Global;
use std::num::NonZeroUsize;
use std::time::CpuClock;
use test_devices::{Apart, fits, open_each};
use volume_bench::{CountedNand, Counts};

/// The pages in the cache.
const CAPACITY: usize = 16;

/// How often a thing is done that is timed.
const ROUNDS: u32 = 100;

/// One thing that is measured.
#[derive(Clone, Copy, Debug, PartialEq, Eq)]
pub(crate) enum Measure {
    /// A store is opened on a flash that is full.
    Opening,
    /// Pages are found at random.
    Reads,
    /// Changes of a few pages are committed, while blocks are free.
    Commits,
    /// The same on a flash that is full, so that blocks are collected.
    Collections,
    /// Cuts of a few pages are committed, with nothing to be written.
    Settling,
}

/// The calls of the device, and how long a processor took for a round.
#[derive(Clone, Copy, Debug)]
pub(crate) struct Report {
    pub(crate) counts: Counts,
    pub(crate) nanoseconds: u128,
}

type CountedStore = Store<CountedNand<MemNand>>;

impl Measure {
    /// The measure that a word names, if there is one.
    pub(crate) fn named(word: &str) -> Option<Measure> {
        match word {
            "opening" => Some(Measure::Opening),
            "reads" => Some(Measure::Reads),
            "commits" => Some(Measure::Commits),
            "collections" => Some(Measure::Collections),
            "settling" => Some(Measure::Settling),
            _ => None,
        }
    }

    /// How many of so many blocks are written before.
    fn written(self, blocks: u32) -> u32 {
        match self {
            Measure::Opening | Measure::Collections => blocks.saturating_sub(SPARE + 1),
            Measure::Reads | Measure::Commits | Measure::Settling => blocks / 2,
        }
    }

    /// The flash that is measured.
    pub(crate) fn flash(self, alloc: Global, blocks: u32) -> Result<MemNand> {
        written(alloc, blocks, self.written(blocks))
    }

    /// Measures a store on a flash of so many blocks. The reads of its opening count where that is measured.
    pub(crate) fn run<R: CpuClock>(
        self,
        rt: &R,
        alloc: Global,
        nand: MemNand,
        blocks: u32,
    ) -> Result<Report> {
        let start = rt.thread_cpu_time()?;
        let mut store = open(alloc, nand)?;
        let opened = nanoseconds_since(rt, start)?;
        let nanoseconds = match self {
            Measure::Opening => opened,
            Measure::Reads => find_pages(rt, &mut store, keys_of(blocks))?,
            Measure::Commits | Measure::Collections => {
                commit_changes(rt, alloc, &mut store, keys_of(blocks))?
            }
            Measure::Settling => settle_cuts(rt, &mut store)?,
        };
        let mut counts = store.into_device().counts();
        if self != Measure::Opening {
            counts.reads = counts
                .reads
                .saturating_sub(blocks as u64 * (PAGES as u64 + 1));
        }
        Ok(Report {
            counts,
            nanoseconds,
        })
    }
}

/// A store on a flash.
fn open(alloc: Global, nand: MemNand) -> Result<CountedStore> {
    let capacity = NonZeroUsize::new(CAPACITY).context("no cache")?;
    match open_each(alloc, CountedNand::new(alloc, nand)?, SPARE, capacity) {
        Ok(store) => Ok(store),
        Err(fault) => Err(anyhow!("no store: {fault:?}")),
    }
}

/// Finds pages at random. Reports the time of a hundred.
fn find_pages<R: CpuClock>(rt: &R, store: &mut CountedStore, keys: u64) -> Result<u128> {
    let mut random = Pcg32::new(42, 54);
    let start = rt.thread_cpu_time()?;
    for _page in 0..ROUNDS * 100 {
        let key = key_of(u64::from(random.next_word()) % keys.max(1));
        if let Err(fault) = store.find(key) {
            return Err(anyhow!("a page is not found: {fault:?}"));
        }
    }
    let time = nanoseconds_since(rt, start)?;
    Ok(time / ROUNDS as u128)
}

/// A change of pages at random.
fn drawn_change(alloc: Global, random: &mut Pcg32, keys: u64) -> Result<Apart> {
    let mut apart = Apart::new(alloc, None)?;
    for _page in 0..GROUP {
        let key = key_of(u64::from(random.next_word()) % keys.max(1));
        let bytes = vec![in alloc; 9u8; BYTES as usize]?;
        apart = apart.with(alloc, FreshPage { key, bytes })?;
    }
    Ok(apart)
}

/// Makes changes at random, and commits each. Reports the mean time of one.
fn commit_changes<R: CpuClock>(
    rt: &R,
    alloc: Global,
    store: &mut CountedStore,
    keys: u64,
) -> Result<u128> {
    let mut random = Pcg32::new(42, 54);
    let mut time = 0u128;
    for _round in 0..ROUNDS {
        let Apart { change } = drawn_change(alloc, &mut random, keys)?;
        if !fits(store, &change) {
            return Err(anyhow!("a change does not fit"));
        }
        let start = rt.thread_cpu_time()?;
        if let Err(fault) = store.apply(change) {
            return Err(anyhow!("a change is not made: {fault:?}"));
        }
        if let Err(fault) = store.commit() {
            return Err(anyhow!("a change is not committed: {fault:?}"));
        }
        let taken = nanoseconds_since(rt, start)?;
        time = time.saturating_add(taken);
    }
    Ok(time / ROUNDS as u128)
}

/// Cuts objects, and commits each cut. Reports the mean time of one.
fn settle_cuts<R: CpuClock>(rt: &R, store: &mut CountedStore) -> Result<u128> {
    let start = rt.thread_cpu_time()?;
    for round in 0..ROUNDS {
        let cut = Cut {
            object: 1 + round as u64,
            from: 0,
        };
        if let Err(fault) = store.cut(cut) {
            return Err(anyhow!("a cut is not made: {fault:?}"));
        }
        if let Err(fault) = store.commit() {
            return Err(anyhow!("a cut is not committed: {fault:?}"));
        }
    }
    let time = nanoseconds_since(rt, start)?;
    Ok(time / ROUNDS as u128)
}
