// What the program reports on its end.
ghost use Rattle.std.specs.Prelude.{◌≡◌, ◌++◌, ◌∷◌, [], codes};
ghost use Rattle.flash_program.specs.Statuses.{status_of, IsReported};
ghost use Rattle.line_shell.specs.Replies.{newline};
ghost use Rattle.line_shell.specs.Written.{Writes};

use crate::fault::ProgramFault;
use line_shell::write_bytes;
use std::io::{self, Write};

/// Writes `fault` and the name, on a line.
fn write_fault<E: Write>(err: &mut E, name: &[u8]) -> io::Result<()>
    ensures { Writes (E.contents err.old) (E.contents err.new) (codes "fault " ++ (name.now ++ (newline ∷ []))) result }
{
    write_bytes(err, b"fault ")?;
    write_bytes(err, name)?;
    write_bytes(err, b"\n")
}

/// Writes a fault on standard error, and gives the status. A torn tree was reported before.
pub fn report<E: Write>(err: &mut E, ended: Result<(), ProgramFault>) -> u8
    ensures status { result ≡ status_of ended }
    ensures reported { IsReported (E.contents err.old) (E.contents err.new) ended }
{
    match ended {
        Ok(()) => 0,
        Err(fault) => {
            if fault != ProgramFault::Torn {
                let _ = write_fault(err, fault.name());
            }
            fault.status()
        }
    }
}
