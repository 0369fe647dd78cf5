// Lines over a fresh volume in memory, measured.

use crate::fault::ToolFault;
use crate::json::write_json;
use crate::session::ImageSizes;
use nand_model::Geometry;
use serde::Serialize;
use std::alloc::{AllocError, Global};
use std::io::Write;
use std::time::CpuClock;
use volume_bench::{Bench, Cost, FlashTimes, run, write_svg, write_text};

/// How a run is reported.
#[derive(Clone, Copy)]
pub enum BenchForm {
    /// A line for each part, and a histogram.
    Text,
    /// The same with the time of the processor.
    Timed,
    /// A bar for the erases of each block.
    Svg,
    /// All numbers, without the time of the processor.
    Json,
}

/// What a stretch of a run costs.
#[derive(Clone, Copy, Serialize)]
struct CostReport {
    tags_read: u64,
    pages_read: u64,
    programs: u64,
    erases: u64,
    marks: u64,
    errors: u64,
    written_bytes: u64,
    flash_nanoseconds: u64,
}

/// What a run costs.
#[derive(Drop, Serialize)]
struct BenchReport {
    page_bytes: u32,
    pages_in_block: u32,
    blocks: u32,
    mount: CostReport,
    parts: Vec<CostReport>,
    whole: CostReport,
    mount_by_scan: CostReport,
    unmount: CostReport,
    mount_by_checkpoint: CostReport,
    programmed_bytes: u64,
    /// In hundredths.
    write_amplification_percent: Option<u64>,
    erases_of_blocks: Vec<u64>,
}

/// A cost on a flash of these times.
fn report_of(cost: Cost, times: FlashTimes) -> CostReport {
    let calls = cost.calls;
    CostReport {
        tags_read: calls.tags,
        pages_read: calls.reads.saturating_sub(calls.tags),
        programs: calls.programs,
        erases: calls.erases,
        marks: calls.marks,
        errors: cost.errors,
        written_bytes: cost.written,
        flash_nanoseconds: times.total(calls),
    }
}

/// A run on a flash of these times.
fn whole_report(
    alloc: Global,
    bench: &Bench,
    times: FlashTimes,
) -> Result<BenchReport, AllocError> {
    let mut parts = Vec::new(alloc);
    for part in &bench.parts {
        parts.push(report_of(*part, times))?;
    }
    Ok(BenchReport {
        page_bytes: bench.geometry.bytes(),
        pages_in_block: bench.geometry.pages(),
        blocks: bench.geometry.blocks(),
        mount: report_of(bench.mount, times),
        parts,
        whole: report_of(bench.whole, times),
        mount_by_scan: report_of(bench.by_scan, times),
        unmount: report_of(bench.unmount, times),
        mount_by_checkpoint: report_of(bench.by_checkpoint, times),
        programmed_bytes: bench.programmed(),
        write_amplification_percent: bench.amplification(),
        erases_of_blocks: bench.erases.as_slice().to_vec(alloc)?,
    })
}

/// The places after the point of a number of microseconds, as nanoseconds: at most three digits.
fn part_of_microsecond(digits: &str) -> Option<u64> {
    let scale = match digits.len() {
        1 => 100,
        2 => 10,
        3 => 1,
        _ => return None,
    };
    let number: u64 = u64::from(digits.parse::<u16>().ok()?);
    digits
        .bytes()
        .all(|digit| digit.is_ascii_digit())
        .then_some(number * scale)
}

/// The nanoseconds that a text means, a number of microseconds below 2^32 with at most three places after a point. `BadTime` for any
/// other text.
pub fn nanoseconds_in(text: &str) -> Result<u64, ToolFault> {
    let (whole, part) = match text.split_once('.') {
        Some((whole, digits)) => (whole, part_of_microsecond(digits)),
        None => (text, Some(0)),
    };
    match (whole.parse::<u32>(), part) {
        (Ok(whole), Some(part)) => Ok((u64::from(whole) * 1000).saturating_add(part)),
        _ => Err(ToolFault::BadTime),
    }
}

/// Issues the lines of a fresh volume in memory, and measures them and the mounts after them.
pub fn bench<R: CpuClock>(
    rt: &R,
    alloc: Global,
    sizes: ImageSizes,
    lines: &str,
) -> Result<Bench, ToolFault> {
    let Ok(geometry) = Geometry::new(sizes.data, sizes.pages, sizes.blocks) else {
        return Err(ToolFault::BadGeometry);
    };
    Ok(run(rt, alloc, geometry, sizes.reserve, lines)?)
}

/// Writes what a run costs on a flash of these times.
pub fn show_bench<W: Write>(
    alloc: Global,
    out: &mut W,
    bench: &Bench,
    times: FlashTimes,
    form: BenchForm,
) -> Result<(), ToolFault> {
    match form {
        BenchForm::Text => write_text(alloc, out, bench, times, false)?,
        BenchForm::Timed => write_text(alloc, out, bench, times, true)?,
        BenchForm::Svg => write_svg(alloc, out, bench)?,
        BenchForm::Json => write_json(alloc, out, &whole_report(alloc, bench, times)?)?,
    }
    Ok(())
}
