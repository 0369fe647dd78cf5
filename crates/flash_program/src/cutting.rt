// Sessions that are cut, on a copy of an image.
ghost use Rattle.std.specs.Prelude.{◌≡◌};
ghost use Rattle.flash_program.specs.Images.{of_cut, ReadsInput, CutEnds};
ghost use Rattle.flash_program.specs.Sessions.{stream};

use crate::fault::ProgramFault;
use crate::opening::copy_of;
use exerciser::{CutFault, cut};
use line_shell::read_script;
use posix_profile::Stamped;
use std::alloc::Global;
use std::io::{BufRead, Read, Write};

/// The commands of all lines.
fn script_of<R: BufRead>(alloc: Global, reader: &mut R) -> Result<Vec<Stamped>, ProgramFault>
    ensures { ReadsInput (stream R.remaining reader.old reader.new) result }
{
    Ok(read_script(alloc, reader)?)
}

fn fault_of(fault: CutFault) -> ProgramFault
    ensures { result ≡ of_cut fault }
{
    match fault {
        CutFault::NoMemory => ProgramFault::NoMemory,
        CutFault::Mount(fault) => ProgramFault::Mount(fault),
        CutFault::Unmount => ProgramFault::Unmount,
        CutFault::Unread => ProgramFault::Unread,
        CutFault::Torn => ProgramFault::Torn,
        CutFault::Write => ProgramFault::Write,
    }
}

/// Does the commands of the reader on a copy of the volume in an image, in sessions that are cut, and reports on each what a
/// mount finds. The image is not changed: its type has no means to be written.
pub(crate) fn cut_image<F: Read + Drop, R: BufRead, W: Write>(
    alloc: Global,
    image: Option<F>,
    seed: u64,
    sessions: u32,
    reader: &mut R,
    writer: &mut W,
) -> Result<(), ProgramFault>
    ensures { CutEnds F.remaining image seed sessions (stream R.remaining reader.old reader.new) (stream W.contents writer.old writer.new) result }
{
    let device = copy_of(alloc, image)?;
    let script = script_of(alloc, reader)?;
    match cut(alloc, device, script, seed, sessions, writer) {
        Ok(()) => Ok(()),
        Err(fault) => Err(fault_of(fault)),
    }
}
