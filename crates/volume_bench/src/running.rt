// A run of lines over a fresh volume.

use crate::cost::Cost;
use crate::device::CountedNand;
use crate::fault::BenchFault;
use crate::mounts::measure;
use crate::script::read_parts;
use line_shell::shell;
use nand_model::{Geometry, MemNand};
use posix_calls::{Answers, Reply, Stamped, Volume, format};
use std::alloc::Global;
use std::time::{CpuClock, Duration};

/// What a run cost.
#[derive(Drop, Debug)]
pub struct Bench {
    pub geometry: Geometry,
    /// The mount of the fresh volume.
    pub mount: Cost,
    /// The lines of each part.
    pub parts: Vec<Cost>,
    /// All lines.
    pub whole: Cost,
    /// A mount after the lines, by a scan, as power was lost then.
    pub by_scan: Cost,
    /// The unmount after that.
    pub unmount: Cost,
    /// A mount after the unmount, by its checkpoint where it left one.
    pub by_checkpoint: Cost,
    /// How often each block was erased by the lines.
    pub erases: Vec<u64>,
}

/// A volume that a shell serves, the processor's nanoseconds for its mount, the bytes that were written to its files, and how often it
/// replied an error.
#[derive(Drop)]
struct Served {
    volume: Volume<CountedNand<MemNand>>,
    mount: u64,
    written: u64,
    errors: u64,
}

impl Answers for Served {
    ghost serves = { λ old command reply new. Unit {0} };

    ghost shows = { λ _ _ _ _. ⊥ };

    fn answer(&mut self, command: &Stamped) -> Reply {
        let reply = self.volume.call(command);
        match &reply {
            Reply::Wrote(count) => {
                self.written = self.written.saturating_add(u64::from(*count));
            }
            Reply::Error(_) => self.errors = self.errors.saturating_add(1),
            _ => {}
        }
        reply
    }

    ghost sound = { λ v z read_only s shown. absurd shown };
}

/// How large a fresh volume is.
#[derive(Clone, Copy)]
struct Size {
    geometry: Geometry,
    reserve: u32,
}

/// The time that the processor took so far.
pub(crate) fn now<R: CpuClock>(rt: &R) -> Result<Duration, BenchFault> {
    rt.thread_cpu_time().map_err(|_| BenchFault::Clock)
}

/// The processor's nanoseconds since then.
pub(crate) fn nanoseconds_since<R: CpuClock>(rt: &R, start: Duration) -> Result<u64, BenchFault> {
    let taken = now(rt)?.saturating_sub(start).as_nanos();
    Ok(u64::try_from(taken).unwrap_or(u64::MAX))
}

/// Mounts a device.
pub(crate) fn mounted(
    alloc: Global,
    device: CountedNand<MemNand>,
) -> Result<Volume<CountedNand<MemNand>>, BenchFault> {
    match Volume::mount(alloc, device) {
        Ok(volume) => Ok(volume),
        Err((_device, fault)) => Err(BenchFault::Mount(fault)),
    }
}

/// A device that was just formatted.
fn formatted(alloc: Global, size: Size) -> Result<CountedNand<MemNand>, BenchFault> {
    let nand = MemNand::new(alloc, size.geometry)?;
    match format(alloc, nand, size.reserve) {
        Ok(mut nand) => {
            nand.power_up();
            Ok(CountedNand::new(alloc, nand)?)
        }
        Err((_nand, fault)) => Err(BenchFault::Format(fault)),
    }
}

/// A volume that was just formatted and mounted.
fn fresh<R: CpuClock>(rt: &R, alloc: Global, size: Size) -> Result<Served, BenchFault> {
    let device = formatted(alloc, size)?;
    let start = now(rt)?;
    let volume = mounted(alloc, device)?;
    Ok(Served {
        volume,
        mount: nanoseconds_since(rt, start)?,
        written: 0,
        errors: 0,
    })
}

/// Issues the lines of a volume. Returns the processor's nanoseconds.
fn ask<R: CpuClock>(
    rt: &R,
    alloc: Global,
    served: &mut Served,
    lines: &[u8],
) -> Result<u64, BenchFault> {
    let mut reader = lines;
    let mut replies = std::io::sink();
    let start = now(rt)?;
    match shell(alloc, &mut reader, &mut replies, served) {
        Ok(()) => nanoseconds_since(rt, start),
        Err(fault) => Err(BenchFault::Shell(fault)),
    }
}

/// Issues the lines of these parts of a fresh volume. Returns its device, and what it cost from the mount on, with the time of the
/// processor for the last part alone, or for the mount where there is none.
fn ask_parts<R: CpuClock>(
    rt: &R,
    alloc: Global,
    size: Size,
    parts: &[Vec<u8>],
) -> Result<(CountedNand<MemNand>, Cost), BenchFault> {
    let mut served = fresh(rt, alloc, size)?;
    let mut processor = served.mount;
    for lines in parts {
        processor = ask(rt, alloc, &mut served, lines)?;
    }
    let Served {
        volume,
        written,
        errors,
        ..
    } = served;
    let device = volume.abandon();
    let cost = Cost {
        calls: device.counts(),
        written,
        errors,
        processor,
    };
    Ok((device, cost))
}

/// What the parts of a run cost, each and together.
#[derive(Drop)]
struct Costs {
    mount: Cost,
    parts: Vec<Cost>,
    whole: Cost,
}

/// Measures each part, on a fresh volume that was wanted the parts before it, since the calls of a device are seen only when its volume
/// has ended. Returns the device of the last.
fn measure_parts<R: CpuClock>(
    rt: &R,
    alloc: Global,
    size: Size,
    parts: &[Vec<u8>],
) -> Result<(CountedNand<MemNand>, Costs), BenchFault> {
    let (mut device, mount) = ask_parts(rt, alloc, size, &[])?;
    let mut costs = Vec::new(alloc);
    let mut before = mount;
    let mut processor = 0u64;
    for number in 0..parts.len() {
        let (left, all) = ask_parts(rt, alloc, size, &parts[..number + 1])?;
        processor = processor.saturating_add(all.processor);
        costs.push(all.since(before))?;
        before = all;
        device = left;
    }
    let whole = Cost {
        processor,
        ..before.since(mount)
    };
    let costs = Costs {
        mount,
        parts: costs,
        whole,
    };
    Ok((device, costs))
}

/// Issues lines of a shell of a fresh volume in memory, in which `reserve` blocks may go bad, then leaves it as if power were lost, mounts
/// it by a scan, unmounts it, and mounts it by its checkpoint. A line `mark` ends a part of the lines. Those from `repeat N` to `end`
/// are run N times, with the number of the turn, from 0 on, in place of each `#`.
///
/// Errors: each of `BenchFault`, but `Output`.
pub fn run<R: CpuClock>(
    rt: &R,
    alloc: Global,
    geometry: Geometry,
    reserve: u32,
    lines: &str,
) -> Result<Bench, BenchFault> {
    let parts = read_parts(alloc, lines)?;
    let (device, costs) = measure_parts(rt, alloc, Size { geometry, reserve }, &parts)?;
    let erases = device.erases().to_vec(alloc)?;
    let mounts = measure(rt, alloc, device)?;
    Ok(Bench {
        geometry,
        mount: costs.mount,
        parts: costs.parts,
        whole: costs.whole,
        by_scan: mounts.by_scan,
        unmount: mounts.unmount,
        by_checkpoint: mounts.by_checkpoint,
        erases,
    })
}

impl Bench {
    /// The bytes that the lines had programmed into pages.
    pub fn programmed(&self) -> u64 {
        let bytes = u64::from(self.geometry.bytes());
        self.whole.calls.programs.saturating_mul(bytes)
    }

    /// The write amplification in hundredths: what was programmed, for each hundred bytes that were written to files, and a part of one
    /// not in the count. None where nothing was written.
    pub fn amplification(&self) -> Option<u64> {
        self.programmed()
            .saturating_mul(100)
            .checked_div(self.whole.written)
    }
}
