// The subcommands, and what help reports on them.
ghost use Rattle.std.specs.Prelude.{IfOk};
ghost use Rattle.flash_program.specs.Program.{TakesWords, over_image, format_words, cut_words, bare_program, program};

use crate::options::{image, number, seed, sessions};
use clap::Command;
use std::alloc::{AllocError, Global};

const EXAMPLES: &str = "\
Without a subcommand the lines are answered over a new volume in memory, which is gone at the end.

Lines:
  open PATH FLAGS     flags r, w, c (create), x (only if new), t (cut to no length), a (append)
  close FD            read FD COUNT        write FD TEXT        fsync FD
  seek FD OFFSET set, cur or end           truncate FD LENGTH
  stat PATH           list PATH            mkdir PATH           rmdir PATH
  link OLD NEW        rename OLD NEW       unlink PATH
  sync                space                now N (the moment of the lines after it)
In a word \\x20 is a space, \\\\ a backslash and \\e no byte at all.

Status: 0 all was done; 1 the words were not taken; 2 the image or the volume failed; 3 a cut tore the tree;
4 the lines or standard output failed.

Examples:
  printf 'mkdir /a\\nlist /\\n' | flashsh
  flashsh format flash.img --blocks 128 --spare 4
  flashsh run flash.img < lines.txt
  flashsh check flash.img
  flashsh cut flash.img --seed 7 --sessions 100 < lines.txt";

/// A subcommand with an image.
fn over_image<'a>(
    alloc: Global,
    name: &'a str,
    about: &'a str,
    example: &'a str,
) -> Result<Command<'a>, AllocError>
    ensures { IfOk result (TakesWords (over_image name.entry.now)) }
{
    Command::new(alloc, name)
        .about(about)
        .after_help(example)
        .arg(image(alloc))
}

fn format_command<'a>(alloc: Global) -> Result<Command<'a>, AllocError>
    ensures { IfOk result (TakesWords format_words) }
{
    let command = over_image(
        alloc,
        "format",
        "Makes a new image with an empty volume, and tells its space. A file that is there is emptied before",
        "Example: flashsh format flash.img --blocks 128 --spare 4",
    )?;
    command
        .arg(number(
            alloc,
            "data",
            "2048",
            "Bytes of data in a page: 512, 1024, 2048 or 4096",
        ))?
        .arg(number(alloc, "pages", "64", "Pages in a block: 32, 64, 128 or 256"))?
        .arg(number(alloc, "blocks", "64", "Blocks: 5 to 4096"))?
        .arg(number(
            alloc,
            "spare",
            "2",
            "Blocks that may go bad, at most four less than there are",
        ))
}

fn cut_command<'a>(alloc: Global) -> Result<Command<'a>, AllocError>
    ensures { IfOk result (TakesWords cut_words) }
{
    let command = over_image(
        alloc,
        "cut",
        "Runs the lines of standard input on a copy of the volume, cuts power at a random place, and checks what is left",
        "Example: flashsh cut flash.img --seed 7 --sessions 100 < lines.txt",
    )?;
    command.arg(seed(alloc))?.arg(sessions(alloc))
}

/// The program without a subcommand.
fn bare_program<'a>(alloc: Global) -> Command<'a>
    ensures { TakesWords bare_program result }
{
    Command::new(alloc, "flashsh")
        .version("0.1.0")
        .about("A flash file system, asked line by line")
        .after_help(EXAMPLES)
        .no_binary_name(true)
}

/// The words that the program takes.
pub(crate) fn program<'a>(alloc: Global) -> Result<Command<'a>, AllocError>
    ensures { IfOk result (TakesWords program) }
{
    let run = over_image(
        alloc,
        "run",
        "Answers the lines of standard input over the volume in an image",
        "Example: flashsh run flash.img < lines.txt",
    )?;
    let check = over_image(
        alloc,
        "check",
        "Mounts the volume in an image, tells its space, and whether it can only be read. Nothing is changed",
        "Example: flashsh check flash.img",
    )?;
    bare_program(alloc)
        .subcommand(format_command(alloc)?)?
        .subcommand(run)?
        .subcommand(check)?
        .subcommand(cut_command(alloc)?)
}
