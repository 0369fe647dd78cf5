//! Measures parts of the file system on flashes in memory. The first argument is the measure, and the others are its own; the
//! head of each module says which. Numbers go to standard output, times and memory to standard error.
//!
//! - `index`: the settling of changes in an index.
//! - `collection`: garbage collections.
//! - `store`: a store: opening, reads, commits, collections, settling.
//! - `all`, or no argument: a small run of each.
//!
//! A whole volume is measured by `nandfs bench`.
#![tactic(auto)]

mod arguments;
mod collection;
mod index;
mod store;
mod usage;

use anyhow::{Result, anyhow};
use std::alloc::Global;
use std::env;

/// A small run of each measure.
fn run_all(rt: &HostRuntime, alloc: Global) -> Result<()> {
    index::run(rt, alloc, &["64"])?;
    collection::run(rt, alloc, &["1", "8", "16", "24"])?;
    let measures = [
        "64",
        "opening",
        "reads",
        "commits",
        "collections",
        "settling",
    ];
    store::run(rt, alloc, &measures)
}

fn main(rt: HostRuntime) -> Result<()> {
    let alloc = rt.alloc();
    let mut texts = Vec::new(alloc);
    for text in env::args(&rt)?.skip(1) {
        texts.push(text)?;
    }
    let mut words = Vec::new(alloc);
    for text in &texts {
        words.push(text.as_str())?;
    }
    match words.as_slice() {
        [] | ["all"] => run_all(&rt, alloc),
        ["index", rest @ ..] => index::run(&rt, alloc, rest),
        ["collection", rest @ ..] => collection::run(&rt, alloc, rest),
        ["store", rest @ ..] => store::run(&rt, alloc, rest),
        _ => Err(anyhow!("index, collection, store or all is wanted")),
    }
}
