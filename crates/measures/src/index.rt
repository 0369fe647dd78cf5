// Settles changes of a few keys in an index in memory that has many entries.
//
// The first argument is the number of blocks, of 256 pages each, whose pages are all committed, and the second one that of the
// pages of an object, where it is not 256. With a third one, `time`, the times are printed. The memory that the index takes is what
// the program holds above one of few blocks.
ghost use Rattle.std.specs.Prelude.{◌<◌, ◌≤◌, ◌^◌};

mod filled;

use crate::arguments::number;
use crate::index::filled::Filled;
use crate::usage::nanoseconds_since;
use anyhow::{Result, anyhow};
use flash_tree::Key;
use std::alloc::Global;
use std::time::CpuClock;

/// The pages of a block, of a group that fills it, and of a change.
const PAGES: u32 = 256;

const GROUP: u32 = 64;

const CHANGE: u32 = 16;

/// How often a change is made and settled.
const ROUNDS: u32 = 1000;

/// How large an index is: its blocks, and the pages of an object.
#[derive(Clone, Copy)]
struct Size {
    blocks: u32,
    of_object: u32,
}

/// The processor's nanoseconds for the changes of all rounds, and for settling them.
#[derive(Clone, Copy)]
struct Times {
    changing: u128,
    settling: u128,
}

/// The key of a page of an index that is filled in turn, object after object, each of so many pages.
fn key(block: u32, page: u32, of_object: u32) -> Key
    ensures { result.chunk < 2 ^ 32 }
{
    let number = block as u64 * PAGES as u64 + page as u64;
    let of_object = of_object.max(1) as u64;
    Key {
        object: 1 + number / of_object,
        chunk: number % of_object,
    }
}

/// Fills the index: each page of each block is committed.
fn fill(filled: &mut Filled, size: Size) -> Result<()> {
    for block in 0..size.blocks {
        for group in 0..PAGES / GROUP {
            fill_group(filled, block, group * GROUP, size.of_object)?;
        }
    }
    Ok(())
}

/// Fills one group.
fn fill_group(filled: &mut Filled, block: u32, first: u32, of_object: u32) -> Result<()>
    requires { first ≤ 192 }
{
    for page in 0..GROUP {
        filled.buffer(key(block, first + page, of_object), page)?;
    }
    filled.settle(block, first, 1);
    Ok(())
}

/// Changes some keys that lie far apart.
fn change(filled: &mut Filled, size: Size, round: u32) -> Result<()> {
    for page in 0..CHANGE {
        let place = (round.wrapping_mul(CHANGE).wrapping_add(page)).wrapping_mul(40503);
        let block = place % size.blocks.max(1);
        filled.buffer(key(block, place / 4096 % PAGES, size.of_object), page)?;
    }
    Ok(())
}

/// Makes and settles a change in each round.
fn settle_changes<R: CpuClock>(rt: &R, filled: &mut Filled, size: Size) -> Result<Times> {
    let mut times = Times {
        changing: 0,
        settling: 0,
    };
    for round in 0..ROUNDS {
        let start = rt.thread_cpu_time()?;
        change(filled, size, round)?;
        let after_change = nanoseconds_since(rt, start)?;
        filled.settle(0, 0, 2);
        let settled = nanoseconds_since(rt, start)?;
        times.changing = times.changing.saturating_add(after_change);
        let settling = settled.saturating_sub(after_change);
        times.settling = times.settling.saturating_add(settling);
    }
    Ok(times)
}

/// The size that the arguments give.
fn size_of(words: &[&str]) -> Result<Size> {
    let of_object = if words.len() < 2 {
        PAGES
    } else {
        number(words, 1, "the pages of an object")?
    };
    Ok(Size {
        blocks: number(words, 0, "the number of blocks")?,
        of_object,
    })
}

/// Measures an index of the size that the arguments give.
pub(crate) fn run<R: CpuClock + Print + Eprint>(
    rt: &R,
    alloc: Global,
    words: &[&str],
) -> Result<()> {
    let size = size_of(words)?;
    let Some(mut filled) = Filled::new(alloc, size.blocks)? else {
        return Err(anyhow!("the number of blocks is out of range"));
    };
    let start = rt.thread_cpu_time()?;
    fill(&mut filled, size)?;
    let filling = nanoseconds_since(rt, start)?;
    let Times { changing, settling } = settle_changes(rt, &mut filled, size)?;
    if words.len() > 2 {
        eprintln!(rt; "filled in {} microseconds", filling / 1000)?;
        eprintln!(rt;
            "a change of {CHANGE} keys took {} nanoseconds, and was settled in {}",
            changing / ROUNDS as u128,
            settling / ROUNDS as u128
        )?;
    }
    println!(rt; "{} pages", size.blocks as u64 * PAGES as u64)?;
    Ok(())
}
