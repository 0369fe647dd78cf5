// The check of an image.
ghost use Rattle.flash_program.specs.Images.{ImageCheckEnds};
ghost use Rattle.flash_program.specs.Sessions.{stream};

use crate::fault::ProgramFault;
use crate::opening::copy_of;
use crate::space::check_device;
use nand_model::{MemNand, Nand, TrustedNand};
use std::alloc::Global;
use std::io::{Read, Write};

/// Writes the space of the volume in an image, and whether it can only be read. The image is not changed: its type has no
/// means to be written.
pub(crate) fn check_image<F: Read + Drop, W: Write>(
    alloc: Global,
    image: Option<F>,
    writer: &mut W,
) -> Result<(), ProgramFault>
    ensures { ImageCheckEnds F.remaining ⟦<TrustedNand<MemNand> as Nand>⟧ image (stream W.contents writer.old writer.new) result }
{
    let device = copy_of(alloc, image)?;
    let (_device, ended) = check_device(alloc, device, writer);
    ended
}
