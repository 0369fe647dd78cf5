// A run as text.

use crate::cost::Cost;
use crate::counts::Counts;
use crate::fault::BenchFault;
use crate::flash_times::FlashTimes;
use crate::histogram::{Bin, bins};
use crate::running::Bench;
use std::alloc::{AllocError, Global};
use std::io::Write;

/// The characters of the longest bar of the histogram.
const BAR: u64 = 50;

/// Writes a text.
pub(crate) fn put<W: Write>(out: &mut W, text: &str) -> Result<(), BenchFault> {
    match out.write_all(text.as_bytes()) {
        Ok(()) => Ok(()),
        Err(_) => Err(BenchFault::Output),
    }
}

/// Nanoseconds as milliseconds with three places.
fn milliseconds(alloc: Global, nanoseconds: u64) -> Result<String, AllocError> {
    let microseconds = nanoseconds / 1000;
    let whole = microseconds / 1000;
    let rest = microseconds % 1000;
    format!(in alloc; "{whole}.{rest:03} ms")
}

/// How a cost is written.
#[derive(Clone, Copy)]
struct Form {
    times: FlashTimes,
    /// Whether the processor's time is written.
    timed: bool,
}

/// Writes the line of a cost.
fn write_cost<W: Write>(
    alloc: Global,
    out: &mut W,
    name: &str,
    cost: Cost,
    form: Form,
) -> Result<(), BenchFault> {
    let Counts {
        reads,
        tags,
        programs,
        erases,
        marks,
    } = cost.calls;
    let pages = reads.saturating_sub(tags);
    let flash = milliseconds(alloc, form.times.total(cost.calls))?;
    let flash = flash.as_str();
    let calls = format!(in alloc;
        "{name}: {tags} tags and {pages} pages read, {programs} programs, {erases} erases, {marks} marks, {flash} of the flash"
    )?;
    put(out, &calls)?;
    if form.timed {
        let processor = milliseconds(alloc, cost.processor)?;
        let processor = processor.as_str();
        put(out, &format!(in alloc; ", {processor} of the processor")?)?;
    }
    if cost.errors > 0 {
        let errors = cost.errors;
        put(out, &format!(in alloc; ", {errors} errors")?)?;
    }
    put(out, "\n")
}

/// Writes what was programmed for what was written.
fn write_amplification<W: Write>(
    alloc: Global,
    out: &mut W,
    bench: &Bench,
) -> Result<(), BenchFault> {
    let written = bench.whole.written;
    let programmed = bench.programmed();
    let bytes = format!(in alloc; "{written} bytes written to files, {programmed} programmed")?;
    put(out, &bytes)?;
    if let Some(hundredths) = bench.amplification() {
        let whole = hundredths / 100;
        let rest = hundredths % 100;
        put(
            out,
            &format!(in alloc; ": write amplification {whole}.{rest:02}")?,
        )?;
    }
    put(out, "\n")
}

/// The bar of a bin of a histogram whose greatest has so many blocks. A bin with a block has at least one character.
fn bar_of(alloc: Global, blocks: u64, greatest: u64) -> Result<String, AllocError> {
    let mut bar = String::new(alloc);
    for _character in 0..blocks.saturating_mul(BAR).div_ceil(greatest.max(1)) {
        bar.push('#')?;
    }
    Ok(bar)
}

/// Writes how many blocks were erased how often.
fn write_histogram<W: Write>(
    alloc: Global,
    out: &mut W,
    histogram: &[Bin],
) -> Result<(), BenchFault> {
    let greatest = histogram.iter().map(|bin| bin.blocks).max().unwrap_or(0);
    put(out, "\n erases        blocks\n")?;
    for bin in histogram {
        let Bin {
            least,
            most,
            blocks,
        } = *bin;
        let bar = bar_of(alloc, blocks, greatest)?;
        let bar = bar.as_str();
        let line = if least == most {
            format!(in alloc; "{least:>7} {blocks:>12}  {bar}\n")?
        } else {
            format!(in alloc; "{least:>7}..{most:<4} {blocks:>6}  {bar}\n")?
        };
        put(out, &line)?;
    }
    Ok(())
}

/// Writes what a run cost, a line for each part, for the whole, and for the mounts after it, and a histogram of the erases of its
/// blocks. `timed` adds the time of the processor.
///
/// Errors: NoMemory, Output.
pub fn write_text<W: Write>(
    alloc: Global,
    out: &mut W,
    bench: &Bench,
    times: FlashTimes,
    timed: bool,
) -> Result<(), BenchFault> {
    let form = Form { times, timed };
    write_cost(alloc, out, "mount", bench.mount, form)?;
    let mut number = 0u64;
    for part in &bench.parts {
        let name = format!(in alloc; "part {number}")?;
        write_cost(alloc, out, &name, *part, form)?;
        number = number.saturating_add(1);
    }
    write_cost(alloc, out, "whole", bench.whole, form)?;
    write_cost(alloc, out, "mount by a scan", bench.by_scan, form)?;
    write_cost(alloc, out, "unmount", bench.unmount, form)?;
    let by_checkpoint = bench.by_checkpoint;
    write_cost(alloc, out, "mount by its checkpoint", by_checkpoint, form)?;
    write_amplification(alloc, out, bench)?;
    write_histogram(alloc, out, &bins(alloc, &bench.erases)?)
}
