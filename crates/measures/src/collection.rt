// Collects a block of a flash in memory, of 64 blocks of 64 pages of 2,048 bytes each.
//
// Each argument is a number of pages that are committed in the block. Where `time` goes before, the times are printed.

mod full;

use crate::arguments::number;
use crate::collection::full::{PAGES, SPARE, full_flash};
use crate::usage::nanoseconds_since;
use anyhow::{Result, anyhow};
use nand_model::MemNand;
use std::alloc::Global;
use std::time::CpuClock;
use test_devices::mount_log;

/// The pages for which room is made.
const COUNT: u32 = 8;

/// How often a collection is made where it is timed.
const ROUNDS: u32 = 100;

/// What a collection did.
#[derive(Clone, Copy)]
struct Report {
    reads: u64,
    programs: u64,
    erases: u64,
    nanoseconds: u128,
}

/// Mounts a copy of a flash and collects one of its blocks. No block is marked, so what was changed and not programmed
/// was erased.
fn collected<R: CpuClock>(rt: &R, alloc: Global, flash: &MemNand) -> Result<Report> {
    let mut log = match mount_log(alloc, flash.copy()?, SPARE) {
        Ok(log) => log,
        Err(fault) => return Err(anyhow!("no mount: {fault:?}")),
    };
    let (calls, changes) = (log.device.calls(), log.device.changes());
    let start = rt.thread_cpu_time()?;
    let made = log.make_room(COUNT);
    let nanoseconds = nanoseconds_since(rt, start)?;
    if let Err(fault) = made {
        return Err(anyhow!("no room: {fault:?}"));
    }
    let after_change = log.device.changes().saturating_sub(changes);
    let programs = PAGES.saturating_sub(log.blocks.open_room()) as u64;
    Ok(Report {
        reads: log
            .device
            .calls()
            .saturating_sub(calls)
            .saturating_sub(after_change),
        programs,
        erases: after_change.saturating_sub(programs),
        nanoseconds,
    })
}

/// The mean time of many collections on the same flash, in nanoseconds.
fn mean_time<R: CpuClock>(rt: &R, alloc: Global, flash: &MemNand) -> Result<u128> {
    let mut sum = 0u128;
    for _round in 0..ROUNDS {
        sum = sum.saturating_add(collected(rt, alloc, flash)?.nanoseconds);
    }
    Ok(sum / ROUNDS as u128)
}

/// Measures a collection of a block that keeps so many pages.
fn measure<R: CpuClock + Print + Eprint>(
    rt: &R,
    alloc: Global,
    committed: u32,
    timed: bool,
) -> Result<()> {
    let flash = full_flash(alloc, committed)?;
    let report = collected(rt, alloc, &flash)?;
    println!(rt;
        "{committed} committed pages: {} reads, {} programs, {} erases",
        report.reads, report.programs, report.erases
    )?;
    if timed {
        let time = mean_time(rt, alloc, &flash)?;
        eprintln!(rt; "{committed} committed pages: {time} nanoseconds")?;
    }
    Ok(())
}

/// Measures what the arguments say.
pub(crate) fn run<R: CpuClock + Print + Eprint>(
    rt: &R,
    alloc: Global,
    words: &[&str],
) -> Result<()> {
    let mut timed = false;
    for place in 0..words.len() {
        if words[place] == "time" {
            timed = true;
        } else {
            let committed = number(words, place, "the number of committed pages")?;
            measure(rt, alloc, committed, timed)?;
        }
    }
    Ok(())
}
