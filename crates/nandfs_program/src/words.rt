// The program as `clap` takes it.

use crate::table::{SUBCOMMANDS, Subcommand, Word};
use clap::{Arg, ArgAction, Command, value_parser};
use std::alloc::{AllocError, Global};

const EXAMPLES: &str = "\
Names are shown, and written on the host, with `\\xhh` for each byte that is not printed.

Status: 0 all was done; 1 the words were not taken; 2 a fault; 3 the image has no volume that this program reads.

Examples:
  nandfs pack --size-from-content photos flash.img
  nandfs ls -l -R flash.img
  nandfs unpack flash.img copy";

/// An option without a value.
fn flag<'a>(alloc: Global, name: &'a str, help: &'a str) -> Arg<'a> {
    Arg::new(alloc, name)
        .long(name)
        .action(ArgAction::SetTrue)
        .help(help)
}

/// An option with a number.
fn number<'a>(alloc: Global, name: &'a str, default: &'a str, help: &'a str) -> Arg<'a> {
    Arg::new(alloc, name)
        .long(name)
        .value_name("N")
        .value_parser(value_parser!(u32))
        .default_value(default)
        .help(help)
}

/// An option with a value that may be left out.
fn option<'a>(alloc: Global, name: &'a str, value: &'a str, help: &'a str) -> Arg<'a> {
    Arg::new(alloc, name)
        .long(name)
        .value_name(value)
        .help(help)
}

/// A number, not after a name.
fn place<'a>(alloc: Global, name: &'a str, help: &'a str) -> Arg<'a> {
    Arg::new(alloc, name)
        .value_parser(value_parser!(u32))
        .help(help)
}

/// A word of the table.
fn argument<'a>(alloc: Global, word: Word) -> Arg<'a> {
    match word {
        Word::Needed(name, help) => Arg::new(alloc, name).required(true).help(help),
        Word::Optional(name, help) => Arg::new(alloc, name).help(help),
        Word::Flag(name, help) => flag(alloc, name, help),
        Word::Letter(name, letter, help) => flag(alloc, name, help).short(letter),
        Word::Number(name, default, help) => number(alloc, name, default, help),
        Word::Chosen(name, help) => {
            option(alloc, name, "N", help).value_parser(value_parser!(u64))
        }
        Word::Time(name, default, help) => {
            option(alloc, name, "MICROSECONDS", help).default_value(default)
        }
        Word::File(name, help) => option(alloc, name, "FILE", help),
        Word::Place(name, help) => place(alloc, name, help).required(true),
        Word::MaybePlace(name, help) => place(alloc, name, help),
    }
}

/// A subcommand of the table.
fn command<'a>(alloc: Global, row: &Subcommand) -> Result<Command<'a>, AllocError> {
    let mut command = Command::new(alloc, row.name)
        .about(row.about)
        .after_help(row.example);
    for word in row.words {
        command = command.arg(argument(alloc, *word))?;
    }
    Ok(command)
}

/// The words that the program takes, without its own name: a subcommand and its words.
pub fn program<'a>(alloc: Global) -> Result<Command<'a>, AllocError> {
    let mut program = Command::new(alloc, "nandfs")
        .version("0.1.0")
        .about(
            "Makes images of NAND flash from folders, looks into them, changes them, and takes files out",
        )
        .after_help(EXAMPLES)
        .no_binary_name(true)
        .subcommand_required(true);
    for row in SUBCOMMANDS {
        program = program.subcommand(command(alloc, row)?)?;
    }
    Ok(program)
}
