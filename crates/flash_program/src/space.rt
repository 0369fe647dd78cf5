// The space of a volume.
ghost use Rattle.std.specs.Prelude.{◌≡◌};
ghost use Rattle.nand_model.specs.MemoryState as memory;
ghost use Rattle.flash_program.specs.Sessions.{stream};
ghost use Rattle.flash_program.specs.Spaces.{space_asked, space_text, IsStated, CheckEnds, shown, ShowEnds};
ghost use Rattle.line_shell.specs.Written.{Writes};

use crate::fault::ProgramFault;
use line_shell::{write_bytes, write_reply};
use nand_model::{MemNand, Nand, TrustedNand};
use posix_calls::Volume;
use posix_profile::{Answers, Command, Reply, Stamped};
use std::alloc::Global;
use std::io::{self, Write};

/// Issues a volume for its space.
fn ask_space<V: Answers>(volume: &mut V) -> Reply
    ensures { V.serves volume.old space_asked result volume.new }
{
    volume.answer(&Stamped {
        moment: 0,
        command: Command::Space,
    })
}

/// Writes the reply, and `read-only` on a line of its own where the volume is so.
fn write_space<W: Write>(writer: &mut W, reply: &Reply, read_only: bool) -> io::Result<()>
    ensures { Writes (W.contents writer.old) (W.contents writer.new) (space_text reply.now read_only) result }
{
    write_reply(writer, reply)?;
    if read_only {
        write_bytes(writer, b"read-only\n")
    } else {
        Ok(())
    }
}

fn report_space<W: Write>(
    writer: &mut W,
    reply: &Reply,
    read_only: bool,
) -> Result<(), ProgramFault>
    ensures { IsStated (stream W.contents writer.old writer.new) (space_text reply.now read_only) result }
{
    match write_space(writer, reply, read_only) {
        Ok(()) => Ok(()),
        Err(_) => Err(ProgramFault::Write),
    }
}

/// Mounts the volume of a device by all tags, as the device may come from anywhere, writes its space and whether it can only be read,
/// and leaves it as it is.
pub(crate) fn check_device<W: Write>(
    alloc: Global,
    device: MemNand,
    writer: &mut W,
) -> (MemNand, Result<(), ProgramFault>)
    ensures { CheckEnds ⟦<TrustedNand<MemNand> as Nand>⟧ (memory.device device) (stream W.contents writer.old writer.new) (memory.device result.0) result.1 }
{
    let mut volume = match Volume::mount_scanned(alloc, device) {
        Ok(volume) => volume,
        Err((device, fault)) => return (device, Err(ProgramFault::Mount(fault))),
    };
    let reply = ask_space(&mut volume);
    let reported = report_space(writer, &reply, volume.read_only());
    (volume.abandon(), reported)
}

/// What a new volume ends with, from how its space was reported and from the answer to the unmount.
fn shown(reported: Result<(), ProgramFault>, reply: &Reply) -> Result<(), ProgramFault>
    ensures { result ≡ shown reported reply.now }
{
    match (reported, reply) {
        (Err(fault), _) => Err(fault),
        (Ok(()), Reply::Done) => Ok(()),
        (Ok(()), _) => Err(ProgramFault::Unmount),
    }
}

/// Mounts the volume of a device, writes its space, and unmounts it.
pub(crate) fn show_device<N: Nand, W: Write>(
    alloc: Global,
    device: N,
    writer: &mut W,
) -> (N, Result<(), ProgramFault>)
    ensures { ShowEnds ⟦<TrustedNand<N> as Nand>⟧ (N.state device) (stream W.contents writer.old writer.new) (N.state result.0) result.1 }
{
    let mut volume = match Volume::mount(alloc, device) {
        Ok(volume) => volume,
        Err((device, fault)) => return (device, Err(ProgramFault::Mount(fault))),
    };
    let reply = ask_space(&mut volume);
    let reported = report_space(writer, &reply, false);
    let (device, reply) = volume.unmount();
    (device, shown(reported, &reply))
}
