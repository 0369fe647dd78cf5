//! A flash file system, called line by line: over a flash in memory, which is formatted anew at each start, or over an image.
//!
//! Status 0: all was done. 1: the words were not taken. 2: the image, the volume or memory failed. 3: a cut tore the tree. 4:
//! the lines or standard output failed. With 2 and 4 one line, `fault` and a name, goes to standard error.
#![tactic(auto)]

ghost use Rattle.std.specs.Prelude.{◌≡◌, ◌≤◌, IfOk, None, drop, map, option_map};
ghost use Rattle.std.specs.String.{string_bytes};
ghost use Rattle.std.specs.Vec.Iter.{into_iter_items};
ghost use Rattle.flash_program.specs.Sessions.{stream};
ghost use Rattle.flashsh.specs.Ending.{IsDone, IsDoneBetween, IsDoneWith, EndsWith};
ghost use Rattle.flashsh.specs.Opening.{options_of, path_of};
ghost use Rattle.flash_program.specs.Choices.{AskForHelp};
ghost use Rattle.flash_program.specs.declared.chosen.Chosen.TheVariants as choices;

use flash_program::{Chosen, ProgramFault, act, choose, parse, report};
use nand_image::ImageNand;
use nand_model::{MemNand, Nand, TrustedNand};
use std::alloc::{AllocError, Global};
use std::env::{self, Args};
use std::fs::{File, OpenOptions};
use std::io::{BufRead, LineWriter, Read, Write};
use std::process::ExitCode;

/// A flash in memory.
type Memory = TrustedNand<MemNand>;
/// The flash of an image in a file.
type Image = TrustedNand<ImageNand<File>>;

/// The words after the program's name, which is the first of the arguments.
fn words_after_name(alloc: Global, arguments: Args) -> Result<Vec<String>, AllocError>
    ensures { IfOk result (λ words. words.items ≡ drop 1 (into_iter_items arguments)) }
{
    arguments.skip(1).collect(alloc)
}

/// How the image of what was chosen is opened: made or emptied for a new volume, and read alone where it is not changed.
fn options_of(chosen: &Chosen) -> OpenOptions
    ensures { result ≡ options_of chosen.now }
{
    let mut options = OpenOptions::new();
    options.read(true);
    match chosen {
        Chosen::Format { .. } => {
            options.write(true).create(true).truncate(true);
        }
        Chosen::Run { .. } => {
            options.write(true);
        }
        Chosen::Memory | Chosen::Check { .. } | Chosen::Cut { .. } => {}
    }
    options
}

/// The path of the image that was chosen.
fn path_of(chosen: &Chosen) -> Option<&str>
    ensures { option_map (λ path. path.now) result ≡ path_of chosen.now }
{
    match chosen {
        Chosen::Memory => None,
        Chosen::Format { image, .. }
        | Chosen::Run { image }
        | Chosen::Check { image }
        | Chosen::Cut { image, .. } => Some(image.as_str()),
    }
}

/// The image that was chosen, opened.
fn open(rt: &HostRuntime, chosen: &Chosen) -> Option<File>
    ensures { chosen.now ≡ choices.Memory → result ≡ None }
{
    options_of(chosen).open(rt, path_of(chosen)?).ok()
}

/// Does what was chosen, between these.
fn perform<R: BufRead, W: Write>(
    rt: &HostRuntime,
    chosen: &Chosen,
    input: &mut R,
    out: &mut W,
) -> Result<(), ProgramFault>
    ensures { IsDone ⟦<File as Read>⟧.remaining ⟦<Memory as Nand>⟧ ⟦<Image as Nand>⟧
        chosen.now (stream R.remaining input.old input.new) (stream W.contents out.old out.new) result }
{
    act(rt.alloc(), chosen, open(rt, chosen), input, out)
}

/// Does what was chosen, between standard input and output.
fn perform_between_streams(rt: &HostRuntime, chosen: &Chosen) -> Result<(), ProgramFault>
    ensures { IsDoneBetween ⟦<File as Read>⟧.remaining ⟦<Memory as Nand>⟧ ⟦<Image as Nand>⟧ chosen.now result }
{
    let mut input = rt.stdin().lock();
    let Ok(mut out) = LineWriter::new(rt.alloc(), rt.stdout()) else {
        return Err(ProgramFault::NoMemory);
    };
    perform(rt, chosen, &mut input, &mut out)
}

/// Does what was chosen, and returns the status of its end. A fault is reported on standard error.
fn end(rt: &HostRuntime, chosen: &Chosen) -> u8
    ensures { IsDoneWith ⟦<File as Read>⟧.remaining ⟦<Memory as Nand>⟧ ⟦<Image as Nand>⟧ chosen.now result }
{
    let ended = perform_between_streams(rt, chosen);
    report(&mut rt.stderr(), ended)
}

/// Says why the words are not taken, or the help or version that they ask for.
fn explain(rt: &HostRuntime, words: &[String]) -> u8
    ensures status { result ≤ 1 }
    ensures help { result ≡ 0 → AskForHelp (map string_bytes words.now) }
{
    match parse(rt.alloc(), words) {
        Ok(_) => 1,
        Err(error) => {
            let _ = error.print(rt);
            u8::from(error.use_stderr())
        }
    }
}

/// Does what the words choose, or says why they are not taken, and gives the status.
fn answer(rt: &HostRuntime, words: &[String]) -> u8
    ensures { EndsWith ⟦<File as Read>⟧.remaining ⟦<Memory as Nand>⟧ ⟦<Image as Nand>⟧ (map string_bytes words.now) result }
{
    match choose(rt.alloc(), words) {
        Ok(chosen) => end(rt, &chosen),
        Err(_) => explain(rt, words),
    }
}

fn main(rt: HostRuntime) -> ExitCode {
    let Ok(arguments) = env::args(&rt) else {
        return ExitCode::from(1);
    };
    let Ok(words) = words_after_name(rt.alloc(), arguments) else {
        return ExitCode::from(1);
    };
    ExitCode::from(answer(&rt, &words))
}
