// The commands of a whole input.
ghost use Rattle.std.specs.Prelude.{◌≡◌};
ghost use Rattle.line_shell.specs.Commands.{line_of};
ghost use Rattle.line_shell.specs.Scripts.{script_fault, Collects, ReadsScript};
ghost use Rattle.line_shell.specs.declared.script.ScriptFault.TheVariants as faults;

use crate::fault::ShellFault;
use crate::input::{has_more, read_line};
use crate::line::Line;
use crate::meaning::parse;
use crate::run::MOST_LINES;
use posix_profile::Stamped;
use std::alloc::{AllocError, AllocFailed, Global};
use std::io::BufRead;
use thiserror::Error;

/// Why a script was not read to its end.
#[derive(Clone, Copy, Debug, PartialEq, Eq, Error)]
pub enum ScriptFault {
    #[error("the lines could not be read: check where they come from")]
    Read,
    #[error("a line has more than 65,536 bytes, or follows the first 16,777,216 lines: split the input")]
    TooLong,
    #[error("memory was refused for a line: free some, then try again")]
    NoMemory,
    #[error("a line is not a command: `run` replies `bad line` to each such line")]
    Line,
}

impl From<ShellFault> for ScriptFault {
    ghost from_gives = { λ fault e. e ≡ script_fault fault };

    fn from(fault: ShellFault) -> ScriptFault {
        match fault {
            ShellFault::TooLong => ScriptFault::TooLong,
            ShellFault::NoMemory => ScriptFault::NoMemory,
            _ => ScriptFault::Read,
        }
    }
}

impl From<AllocError> for ScriptFault {
    ghost from_gives = { λ _ e. e ≡ faults.NoMemory };

    fn from(_error: AllocError) -> ScriptFault {
        ScriptFault::NoMemory
    }
}

impl<T: Drop> From<AllocFailed<T>> for ScriptFault {
    ghost from_gives = { λ _ e. e ≡ faults.NoMemory };

    fn from(_error: AllocFailed<T>) -> ScriptFault {
        ScriptFault::NoMemory
    }
}

/// Adds the command of a line to the script, if the line asks for one, and gives the moment of the lines after it.
fn collect(
    alloc: Global,
    line: &[u8],
    moment: u64,
    script: &mut Vec<Stamped>,
) -> Result<u64, ScriptFault>
    ensures { Collects (line_of line.now) moment script.old.items script.new.items result }
{
    match parse(alloc, line)? {
        Line::Nothing => Ok(moment),
        Line::Now(next) => Ok(next),
        Line::Do(command) => {
            script.push(Stamped { moment, command })?;
            Ok(moment)
        }
        Line::Bad => Err(ScriptFault::Line),
    }
}

/// Reads all lines of an input as commands, each with the moment that the lines before it gave, 0 at first. Lines without a
/// word are passed over.
pub fn read_script<R: BufRead>(alloc: Global, reader: &mut R) -> Result<Vec<Stamped>, ScriptFault>
    ensures { ReadsScript (R.remaining reader.old) (R.remaining reader.new) result }
{
    let mut script = Vec::new(alloc);
    let mut line = Vec::new(alloc);
    let mut moment = 0;
    for _count in 0..MOST_LINES {
        if !read_line(reader, &mut line)? {
            return Ok(script);
        }
        moment = collect(alloc, &line, moment, &mut script)?;
    }
    if has_more(reader)? {
        Err(ScriptFault::TooLong)
    } else {
        Ok(script)
    }
}
