// The line of a session.
ghost use Rattle.std.specs.Prelude.{◌≡◌, ◌++◌};
ghost use Rattle.exerciser.specs.Lines.{finding_text, session_line, IsStated};
ghost use Rattle.line_shell.specs.Written.{Writes};

use crate::fault::CutFault;
use crate::finding::{Finding, mount_fault_name};
use line_shell::{write_bytes, write_tagged_numbers};
use std::io::{self, Write};

/// Writes what was found, of so many commands.
fn write_finding<W: Write>(writer: &mut W, finding: Finding, commands: u64) -> io::Result<()>
    ensures { Writes (W.contents writer.old) (W.contents writer.new) (finding_text finding commands) result }
{
    match finding {
        Finding::Committed(count) => {
            write_tagged_numbers(writer, b" kept", &[count])?;
            write_tagged_numbers(writer, b" of", &[commands])
        }
        Finding::Torn => write_bytes(writer, b" torn"),
        Finding::Mount(fault) => {
            write_bytes(writer, b" mount ")?;
            write_bytes(writer, mount_fault_name(fault))
        }
    }
}

/// Writes the line of a session that was cut at this call of the device.
fn write_line<W: Write>(
    writer: &mut W,
    number: u64,
    operation: u64,
    finding: Finding,
    commands: u64,
) -> io::Result<()>
    ensures { Writes (W.contents writer.old) (W.contents writer.new) (session_line number operation finding commands) result }
{
    write_tagged_numbers(writer, b"session", &[number])?;
    write_tagged_numbers(writer, b" op", &[operation])?;
    write_finding(writer, finding, commands)?;
    write_bytes(writer, b"\n")
}

/// Writes the line of a session.
pub fn tell<W: Write>(
    writer: &mut W,
    number: u64,
    operation: u64,
    finding: Finding,
    commands: u64,
) -> Result<(), CutFault>
    ensures { IsStated (W.contents writer.old) (W.contents writer.new) (session_line number operation finding commands) result }
{
    match write_line(writer, number, operation, finding, commands) {
        Ok(()) => Ok(()),
        Err(_) => Err(CutFault::Write),
    }
}
