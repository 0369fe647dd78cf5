// Measures a store on a flash in memory, with 64 pages of 512 bytes in a block and half as many keys as pages.
//
// The first argument is the number of blocks, from 64 on. Each further one is a measure: `opening`; `reads`, 10,000 pages at
// random; `commits`, 100 changes of up to 16 pages, of which each is committed; `collections`, the same on a flash that is
// full; `settling`, 100 cuts of 16 pages, of which each is committed. Where `time` stands before a measure, its processor time, for
// 100 reads, a change or a cut, and the most memory that it took are printed.

mod flash;
mod measure;

use crate::arguments::number;
use crate::store::measure::Measure;
use crate::usage::kilobytes;
use anyhow::{Result, anyhow};
use std::alloc::Global;
use std::rt::Files;
use std::time::CpuClock;

/// Makes the measure that a word names.
fn measure_one<R: CpuClock + Print + Eprint + Files + Alloc>(
    rt: &R,
    alloc: Global,
    blocks: u32,
    word: &str,
    timed: bool,
) -> Result<()> {
    let Some(measure) = Measure::named(word) else {
        return Err(anyhow!("there is no measure {word}"));
    };
    let nand = measure.flash(alloc, blocks)?;
    let before = if timed { kilobytes(rt, "VmRSS:")? } else { 0 };
    let report = measure.run(rt, alloc, nand, blocks)?;
    if timed {
        let most = kilobytes(rt, "VmHWM:")?.saturating_sub(before);
        eprintln!(rt;
            "{word}: {} nanoseconds, at most {most} kilobytes",
            report.nanoseconds
        )?;
    }
    let counts = report.counts;
    println!(rt;
        "{word}: {} reads, {} programs, {} erases",
        counts.reads, counts.programs, counts.erases
    )?;
    Ok(())
}

/// Measures what the arguments say.
pub(crate) fn run<R: CpuClock + Print + Eprint + Files + Alloc>(
    rt: &R,
    alloc: Global,
    words: &[&str],
) -> Result<()> {
    let blocks = number(words, 0, "the number of blocks")?;
    let mut timed = false;
    for word in words.iter().skip(1) {
        if *word == "time" {
            timed = true;
        } else {
            measure_one(rt, alloc, blocks, word, timed)?;
        }
    }
    Ok(())
}
