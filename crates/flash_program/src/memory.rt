// The program: a flash in memory is formatted, mounted, called by the lines of a shell and unmounted.
ghost use Rattle.std.specs.Prelude.{◌≡◌, ◌⊎◌, IfOk, IfErr};
ghost use Rattle.nand_model.specs.MemoryState.{device};
ghost use Rattle.posix_profile.specs.laws.Fresh.{fresh};
ghost use Rattle.flash_program.specs.Sessions.{reported, stream, LinesEnd, IsEarly, IsFresh, ProgramEnds};
ghost use Rattle.flash_program.specs.declared.fault.ProgramFault.TheVariants as faults;

use crate::fault::ProgramFault;
use line_shell::{ShellFault, shell};
use nand_model::{Geometry, MemNand, Nand, TrustedNand};
use posix_calls::{Volume, format};
use posix_profile::Reply;
use std::alloc::Global;
use std::io::{BufRead, Write};

/// A flash in memory with a new volume on it: eight blocks of 32 pages of 512 bytes, one of them spare.
#[tactic(auto, using(crate::proofs::Early::early))]
fn new_flash(alloc: Global) -> Result<MemNand, ProgramFault>
    ensures fresh { IfOk result (λ d. IsFresh (device d)) }
    ensures fault { IfErr result IsEarly }
{
    let Ok(geometry) = Geometry::new(512, 32, 8) else {
        return Err(ProgramFault::BadGeometry);
    };
    let Ok(nand) = MemNand::new(alloc, geometry) else {
        return Err(ProgramFault::NoMemory);
    };
    match format(alloc, nand, 1) {
        Ok(nand) => Ok(nand),
        Err((_, fault)) => Err(ProgramFault::Format(fault)),
    }
}

/// What is reported, from how the shell ended and from the answer to the unmount.
fn reported(ended: Result<(), ShellFault>, reply: &Reply) -> Result<(), ProgramFault>
    ensures { result ≡ reported ended reply.now }
{
    match (ended, reply) {
        (Err(fault), _) => Err(ProgramFault::Shell(fault)),
        (Ok(()), Reply::Done) => Ok(()),
        (Ok(()), _) => Err(ProgramFault::Unmount),
    }
}

/// Mounts the volume of a device, answers the lines of the reader in the writer, and unmounts it. The device is given
/// back.
pub(crate) fn answer_lines<N: Nand, R: BufRead, W: Write>(
    alloc: Global,
    device: N,
    reader: &mut R,
    writer: &mut W,
) -> (N, Result<(), ProgramFault>)
    ensures { LinesEnd ⟦<TrustedNand<N> as Nand>⟧ (N.state device) (stream R.remaining reader.old reader.new) (stream W.contents writer.old writer.new) (N.state result.0) result.1 }
{
    let mut volume = match Volume::mount(alloc, device) {
        Ok(volume) => volume,
        Err((device, fault)) => return (device, Err(ProgramFault::Mount(fault))),
    };
    let ended = shell(alloc, reader, writer, &mut volume);
    let (device, reply) = volume.unmount();
    (device, reported(ended, &reply))
}

/// Answers the lines of the reader in the writer, over a new flash in memory.
pub(crate) fn run_in_memory<R: BufRead, W: Write>(
    alloc: Global,
    reader: &mut R,
    writer: &mut W,
) -> Result<(), ProgramFault>
    ensures { ProgramEnds ⟦<TrustedNand<MemNand> as Nand>⟧ (stream R.remaining reader.old reader.new) (stream W.contents writer.old writer.new) result }
{
    let device = new_flash(alloc)?;
    let (_, ended) = answer_lines(alloc, device, reader, writer);
    ended
}
