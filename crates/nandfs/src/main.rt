//! Images of NAND flash: made of folders, looked into, changed, and taken apart.
//!
//! Status 0: all was done. 1: the words were not taken. 2: a fault, with a line on standard error. 3: the image has no volume
//! that this program reads.
#![tactic(auto)]

mod bench;
mod chip;
mod files;
mod reading;
mod reports;
mod writing;

use crate::reading::{get, unpack_image};
use crate::reports::show;
use crate::writing::{change_image, make_empty_image, pack_folder};
use clap::ArgMatches;
use nandfs_program::{ToolFault, program};
use std::alloc::{AllocError, Global};
use std::env::{self, Args};
use std::process::ExitCode;

/// The words after the program's name, which is the first of the arguments.
fn words_after_name(alloc: Global, arguments: Args) -> Result<Vec<String>, AllocError> {
    arguments.skip(1).collect(alloc)
}

/// Does what a subcommand says.
fn perform(rt: &HostRuntime, name: &str, matches: &ArgMatches<'_>) -> Result<(), ToolFault> {
    match name {
        "mkfs" => make_empty_image(rt, matches),
        "pack" => pack_folder(rt, matches),
        "unpack" => unpack_image(rt, matches),
        "get" => get(rt, matches),
        "put" | "mkdir" | "rm" | "mv" | "ln" => change_image(rt, name, matches),
        _ => show(rt, name, matches),
    }
}

/// The exit status of how it ended, after a line on standard error where that is a fault.
fn status_of(rt: &HostRuntime, ended: Result<(), ToolFault>) -> u8 {
    match ended {
        Ok(()) => 0,
        Err(fault) => {
            let _ = eprintln!(rt; "nandfs: {fault}");
            fault.status()
        }
    }
}

/// Does what the words say, and returns the exit status.
fn answer(rt: &HostRuntime, words: &[String]) -> u8 {
    let Ok(program) = program(rt.alloc()) else {
        return 1;
    };
    match program.try_get_matches_from(words) {
        Ok(matches) => match matches.subcommand() {
            Some((name, matches)) => status_of(rt, perform(rt, name, matches)),
            None => 1,
        },
        Err(error) => {
            let _ = error.print(rt);
            u8::from(error.use_stderr())
        }
    }
}

fn main(rt: HostRuntime) -> ExitCode {
    let Ok(arguments) = env::args(&rt) else {
        return ExitCode::from(1);
    };
    let Ok(words) = words_after_name(rt.alloc(), arguments) else {
        return ExitCode::from(1);
    };
    ExitCode::from(answer(&rt, &words))
}
