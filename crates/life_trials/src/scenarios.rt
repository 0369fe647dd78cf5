// Sessions whose lines stand here.
use crate::counting::Count;
use crate::cuts::cut_lines;
use crate::exercised::exercise_lines;
use crate::fails::fail_lines;
use anyhow::Result;
use nand_model::Fate;
use std::alloc::{AllocError, Global};

/// A file takes the place of another.
const REPLACED: &str = "open /x wc
write 0 new
open /y wc
write 1 old
sync
rename /x /y
sync
";

/// Directories are moved into directories and removed, and the last one was open.
const MOVED: &str = "mkdir /a
mkdir /b
mkdir /a/c
rename /a/c /b/c
mkdir /d
rename /b/c /d
open /d r
rmdir /d
mkdir /e
close 0
mkdir /f
sync
";

/// A file of one page that stays, and another one to be written.
const TWO_FILES: &str = "open /a rwc
write 0 hello
fsync 0
open /b rwc
";

/// A directory that is synced.
const SYNCED: &str = "mkdir /a
sync
";

/// The call that programs the last page of that sync: after the tags of the 8 first pages and of the 32 of the root's block and of the
/// first erased one, the root's header, that once more for the new name, an erase and two programs.
const LAST_PROGRAM: u64 = 78;

/// A file that is written, read and not synced.
const UNSYNCED: &str = "open /a rwc
write 0 hello
seek 0 0 set
read 0 10
space
";

/// Thirty writes of 2,560 bytes to a descriptor, the last of which find no room.
fn push_filling(alloc: Global, lines: &mut String, descriptor: u32) -> Result<(), AllocError> {
    let bytes = "x".repeat(alloc, 2560)?;
    let write = format!(in alloc; "write {descriptor} {bytes}\n")?;
    lines.push_str(&write.repeat(alloc, 30)?)
}

/// Writes the first page of a file anew, with the bytes of a number of two digits, and keeps it.
fn push_round(
    alloc: Global,
    lines: &mut String,
    descriptor: u32,
    digits: u32,
) -> Result<(), AllocError> {
    let bytes = format!(in alloc; "{digits}")?.repeat(alloc, 256)?;
    let round = format!(in alloc;
        "seek {descriptor} 0 set\nwrite {descriptor} {bytes}\nfsync {descriptor}\n"
    )?;
    lines.push_str(&round)
}

/// Lines that open a file last, fill the volume with it, and write its first page anew in so many rounds.
fn filled(alloc: Global, opened: &str, descriptor: u32, rounds: u32) -> Result<String, AllocError> {
    let mut lines = String::from_str(alloc, opened)?;
    push_filling(alloc, &mut lines, descriptor)?;
    for round in 0..rounds {
        push_round(alloc, &mut lines, descriptor, 10 + round % 90)?;
    }
    Ok(lines)
}

/// Lines that make as many names as the volume takes, one more, and remove one.
fn named(alloc: Global) -> Result<String, AllocError> {
    let mut lines = String::new(alloc);
    for name in 10..82 {
        lines.push_str(&format!(in alloc; "mkdir /{name}\n")?)?;
    }
    lines.push_str("space\nrmdir /10\nspace\nsync\n")?;
    Ok(lines)
}

/// Lives through a sync whose last program fails, and leaves its page new or uncorrectable, with each call cut.
fn live_failing(alloc: Global, counts: &mut Vec<Count>) -> Result<()> {
    for fate in [Fate::New, Fate::Uncorrectable] {
        counts.push(cut_lines(alloc, SYNCED, Some((LAST_PROGRAM, fate)))?)?;
    }
    Ok(())
}

/// Lives through each of five sessions with each call cut, and then with each call failing; through one with a call that fails and
/// each call cut; and through three with random cuts.
pub(crate) fn live_scenarios(alloc: Global, counts: &mut Vec<Count>) -> Result<()> {
    let two_files = filled(alloc, TWO_FILES, 1, 12)?;
    let one_file = filled(alloc, "open /a rwc\n", 0, 40)?;
    let names = named(alloc)?;
    for lines in [
        two_files.as_str(),
        REPLACED,
        one_file.as_str(),
        MOVED,
        names.as_str(),
    ] {
        counts.push(cut_lines(alloc, lines, None)?)?;
        counts.push(fail_lines(alloc, lines)?)?;
    }
    live_failing(alloc, counts)?;
    let full = filled(alloc, "open /a rwc\n", 0, 500)?;
    for lines in [UNSYNCED, two_files.as_str(), full.as_str()] {
        counts.push(exercise_lines(alloc, lines)?)?;
    }
    Ok(())
}
