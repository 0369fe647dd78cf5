//! Lives through sessions on a device in memory, and looks whether each is one of a life: each reply is the plain tree's, and
//! what the next mount shows is the tree after a prefix of the session, at least up to its last sync. A session that is none
//! ends the program by an error. At the end a line says how many sessions there were, and one on standard error how many were
//! cut and how many commands survived; each session of `scenarios` has two such lines, of its cuts and of its failing calls.
//!
//! - `random LIVES SEED`: lives of three sessions, whose commands, cuts and failing calls are random.
//! - `cuts [CALL FATE]`: a session of the lines of standard input, cut at each of its calls with each fate of the pages, alone
//!   and with a cut in the next session, which mounts and unmounts. The call may fail besides, and leaves its page so: `old`, `new`,
//!   `erased`, `uncorrectable`.
//! - `fails`: a session of the lines of standard input, with each of its calls failing with each fate of the pages.
//! - `scenarios`: five sessions whose lines are known here, each as by `cuts` and as by `fails`: a collection beside a file that
//!   stays; a file that takes the place of another; a full volume that is written again; directories that are moved; as many names as
//!   the volume takes. One as by `cuts` with a call that fails: a sync whose last program fails, and leaves its page new, and then
//!   uncorrectable. Then three sessions, each a thousand times as the exerciser cuts it: a file that is not synced; the first of the four; a full volume
//!   that is written five hundred times.
//! - `all LIVES SEED`: as `random`, and then `scenarios`.
#![tactic(auto)]

mod commands;
mod counting;
mod cuts;
mod drawing;
mod exercised;
mod fails;
mod judging;
mod living;
mod random;
mod scenarios;
mod stages;

use crate::counting::Count;
use crate::cuts::cut_lines;
use crate::fails::fail_lines;
use crate::random::live_random;
use crate::scenarios::live_scenarios;
use anyhow::{Context, Result, anyhow};
use nand_model::Fate;
use std::alloc::Global;
use std::env;
use std::io::Read;

/// The fate of this name.
fn fate_of(name: &str) -> Result<Fate> {
    match name {
        "old" => Ok(Fate::Old),
        "new" => Ok(Fate::New),
        "erased" => Ok(Fate::Erased),
        "uncorrectable" => Ok(Fate::Uncorrectable),
        _ => Err(anyhow!("{name} is no fate of a page")),
    }
}

/// The call that fails, and what it leaves.
fn failure_of(words: &[String]) -> Result<Option<(u64, Fate)>> {
    match words {
        [] => Ok(None),
        [call, fate] => Ok(Some((call.parse().context("the call")?, fate_of(fate)?))),
        _ => Err(anyhow!("a call and a fate are wanted")),
    }
}

/// Lives through random lives, and reports on them.
fn push_random(alloc: Global, lives: &str, seed: &str, counts: &mut Vec<Count>) -> Result<()> {
    let lives = lives.parse().context("the lives")?;
    let seed = seed.parse().context("the seed")?;
    counts.push(live_random(alloc, lives, seed)?)?;
    Ok(())
}

/// Does what the words say.
fn live_as(alloc: Global, words: &[String], lines: &str) -> Result<Vec<Count>> {
    let [_program, what, rest @ ..] = words else {
        return Err(anyhow!("random, cuts, fails, scenarios or all is wanted"));
    };
    let mut counts = Vec::new(alloc);
    match (what.as_str(), rest) {
        ("random", [lives, seed]) => push_random(alloc, lives, seed, &mut counts)?,
        ("cuts", rest) => counts.push(cut_lines(alloc, lines, failure_of(rest)?)?)?,
        ("fails", []) => counts.push(fail_lines(alloc, lines)?)?,
        ("scenarios", []) => live_scenarios(alloc, &mut counts)?,
        ("all", [lives, seed]) => {
            push_random(alloc, lives, seed, &mut counts)?;
            live_scenarios(alloc, &mut counts)?;
        }
        _ => return Err(anyhow!(
            "random or all with two numbers, cuts, fails or scenarios is wanted"
        )),
    }
    Ok(counts)
}

fn main(rt: HostRuntime) -> Result<()> {
    let alloc = rt.alloc();
    let mut words = Vec::new(alloc);
    for word in env::args(&rt)? {
        words.push(word)?;
    }
    let mut lines = String::new(alloc);
    rt.stdin().lock().read_to_string(&mut lines)?;
    for count in live_as(alloc, &words, &lines)? {
        println!(rt; "{}", count.text(alloc)?)?;
        eprintln!(rt; "{}", count.details(alloc)?)?;
    }
    Ok(())
}
