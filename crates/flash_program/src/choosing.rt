// What words choose.
ghost use Rattle.std.specs.Prelude.{◌≡◌, IfOk, IfErr, IfSome, OnOk, Some, codes, map};
ghost use Rattle.std.specs.String.{string_bytes};
ghost use Rattle.clap.specs.Words.{FailsBy, fault_of, first_of, found_of, rows_of, subcommand_of, subcommand_rows_of};
ghost use Rattle.flash_program.specs.Choices.{IsNumber, Chooses, ChoosesIn, AreTaken};
ghost use Rattle.flash_program.specs.Program.{program};

use crate::chosen::Chosen;
use crate::commands::program;
use clap::{ArgMatches, Error};
use std::alloc::Global;
use std::convert::AsStr;

/// The status of words that are not taken.
const REFUSED: u8 = 1;

/// The image.
fn image_in(alloc: Global, matches: &ArgMatches<'_>) -> Option<String>
    ensures { IfSome result (λ image. first_of (codes "IMAGE") (rows_of (found_of matches.now)) ≡ Some (string_bytes image)) }
{
    match String::from_str(alloc, matches.get_str("IMAGE")?) {
        Ok(image) => Some(image),
        Err(_) => None,
    }
}

/// The number of an option.
fn number_in(matches: &ArgMatches<'_>, name: &str) -> Option<u32>
    ensures { IfSome result (IsNumber (rows_of (found_of matches.now)) name.now) }
{
    matches.get_one(name)
}

fn seed_in(matches: &ArgMatches<'_>) -> Option<u64>
    ensures { IfSome result (IsNumber (rows_of (found_of matches.now)) (codes "seed")) }
{
    matches.get_one("seed")
}

/// What a subcommand chooses. None, if memory is refused.
fn chosen_in(alloc: Global, name: &str, matches: &ArgMatches<'_>) -> Option<Chosen>
    ensures { IfSome result (ChoosesIn name.now (rows_of (found_of matches.now))) }
{
    match name {
        "format" => Some(Chosen::Format {
            image: image_in(alloc, matches)?,
            size: number_in(matches, "data")?,
            pages: number_in(matches, "pages")?,
            blocks: number_in(matches, "blocks")?,
            spare: number_in(matches, "spare")?,
        }),
        "run" => Some(Chosen::Run {
            image: image_in(alloc, matches)?,
        }),
        "check" => Some(Chosen::Check {
            image: image_in(alloc, matches)?,
        }),
        "cut" => Some(Chosen::Cut {
            image: image_in(alloc, matches)?,
            seed: seed_in(matches)?,
            sessions: number_in(matches, "sessions")?,
        }),
        _ => None,
    }
}

/// What the words after the program's name say, or the text that is reported of them: what is wrong, or the help or version
/// that they ask for.
pub fn parse<'a, S: AsStr>(alloc: Global, words: &'a [S]) -> Result<ArgMatches<'a>, Error>
    ensures entered { IfOk result (λ matches. subcommand_rows_of matches ≡ subcommand_of program (map S.text words.entry.now)) }
    ensures kinds { FailsBy (fault_of program (map S.text words.entry.now)) result }
{
    program(alloc)?.try_get_matches_from(words)
}

/// What the words after the program's name choose, or the status 1: they are not taken, ask for help or the version, or
/// memory is refused.
pub fn choose<'a, S: AsStr>(alloc: Global, words: &'a [S]) -> Result<Chosen, u8>
    ensures taken { OnOk result (AreTaken (map S.text words.entry.now)) }
    ensures chosen { IfOk result (Chooses (subcommand_of program (map S.text words.entry.now))) }
    ensures refused { IfErr result (λ status. status ≡ 1) }
{
    let Ok(matches) = parse(alloc, words) else {
        return Err(REFUSED);
    };
    match matches.subcommand() {
        None => Ok(Chosen::Memory),
        Some((name, matches)) => chosen_in(alloc, name, matches).ok_or(REFUSED),
    }
}
