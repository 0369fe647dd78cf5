//! Runs a scenario of the program: runs of it over images, one after the other, with what each writes and the status that it ends
//! with. The scenario comes from standard input. A line of it that begins with one of these marks is a step, which is written as it
//! is; under it stands what comes of it. Words are separated by spaces.
//!
//! - `# TEXT`: nothing is done.
//! - `$ WORDS`: a run of the program with these words; `$` alone is one without a subcommand. The lines after it, up to the next
//!   step, are what the program reads. Under it stand what it writes to standard output, what it writes to standard error, and
//!   `status N`.
//! - `! copy IMAGE NAME`: the image is there under another name too.
//! - `! length IMAGE N`: the image is cut to so many bytes, or grows to them by zero bytes.
//! - `! byte IMAGE PLACE VALUE`: one byte of the image is set; the first has the place 0.
//! - `? length IMAGE`: under it stands how many bytes the image has.
//! - `? same IMAGE OTHER`: under it stands `yes` where both have the same bytes, else `no`.
//! - `? shown WORDS`: under it stands `yes` where what the program writes on standard output in place of a run with these words,
//!   as its help, has the line after it in it, else `no`.
//!
//! Images are held in memory by their names. The first time that one is wanted it is read from the file of that name in the
//! folder that the program runs in, and no file is ever written. A run of `format` begins with an empty image; where there is no
//! image of a name, other runs find no file. A step with other words, or without its image, ends the program by an error.
#![tactic(auto)]

mod changes;
mod images;
mod questions;
mod runs;
mod steps;

use crate::changes::change;
use crate::images::Images;
use crate::questions::answer;
use crate::runs::run;
use crate::steps::{Step, steps_of};
use anyhow::{Result, anyhow};
use std::alloc::{AllocError, Global};
use std::io::Read;

/// The words of a step, after its mark.
fn words_of<'a>(alloc: Global, line: &'a str) -> Result<Vec<&'a str>, AllocError> {
    line.split_ascii_whitespace().skip(1).collect(alloc)
}

/// Does a step.
fn take(rt: &HostRuntime, images: &mut Images, step: &Step<'_>) -> Result<()> {
    println!(rt; "{}", step.line)?;
    let words = words_of(rt.alloc(), step.line)?;
    match step.line.as_bytes().first() {
        Some(b'$') => run(rt, images, &words, &step.input),
        Some(b'!') => change(rt, images, &words),
        Some(b'?') => answer(rt, images, &words, &step.input),
        Some(b'#') => Ok(()),
        _ => Err(anyhow!("{} is no step", step.line)),
    }
}

fn main(rt: HostRuntime) -> Result<()> {
    let alloc = rt.alloc();
    let mut scenario = String::new(alloc);
    rt.stdin().lock().read_to_string(&mut scenario)?;
    let mut images = Images::new(alloc);
    for step in &steps_of(alloc, &scenario)? {
        take(&rt, &mut images, step)?;
    }
    Ok(())
}
