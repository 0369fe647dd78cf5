// The lines of a shell over an image.
ghost use Rattle.flash_program.specs.Images.{RunEnds};
ghost use Rattle.flash_program.specs.Sessions.{stream};

use crate::fault::ProgramFault;
use crate::memory::answer_lines;
use nand_image::{ImageNand, open_image};
use nand_model::{Nand, TrustedNand};
use std::alloc::Global;
use std::io::{BufRead, Read, Seek, Write};

/// Answers the lines of the reader in the writer, over the volume in an image.
pub(crate) fn run_image<F: Read + Write + Seek + Drop, R: BufRead, W: Write>(
    alloc: Global,
    image: Option<F>,
    reader: &mut R,
    writer: &mut W,
) -> Result<(), ProgramFault>
    ensures { RunEnds F.remaining ⟦<TrustedNand<ImageNand<F>> as Nand>⟧ image (stream R.remaining reader.old reader.new) (stream W.contents writer.old writer.new) result }
{
    let Some(file) = image else {
        return Err(ProgramFault::File);
    };
    match open_image(alloc, file) {
        Ok(device) => {
            let (_device, ended) = answer_lines(alloc, device, reader, writer);
            ended
        }
        Err(fault) => Err(ProgramFault::Image(fault)),
    }
}
