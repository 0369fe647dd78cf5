// A new volume in an image.
ghost use Rattle.flash_program.specs.Images.{MakeEnds};
ghost use Rattle.flash_program.specs.Sessions.{stream};
ghost use Rattle.flash_program.specs.Spaces.{FormatEnds};

use crate::fault::ProgramFault;
use crate::space::show_device;
use nand_image::{ImageNand, create_image};
use nand_model::{Geometry, Nand, TrustedNand};
use posix_calls::format;
use std::alloc::Global;
use std::io::{Read, Seek, Write};

/// Formats a device, and writes the space of its volume.
fn format_device<N: Nand, W: Write>(
    alloc: Global,
    device: N,
    spare: u32,
    writer: &mut W,
) -> (N, Result<(), ProgramFault>)
    ensures { FormatEnds ⟦<TrustedNand<N> as Nand>⟧ spare (N.state device) (stream W.contents writer.old writer.new) (N.state result.0) result.1 }
{
    match format(alloc, device, spare) {
        Ok(device) => show_device(alloc, device, writer),
        Err((device, fault)) => (device, Err(ProgramFault::Format(fault))),
    }
}

/// Makes an image in an empty file, with `size` bytes in a page, `pages` pages in a block and so many blocks, formats it, and writes the space of its volume.
pub(crate) fn make_image<F: Read + Write + Seek + Drop, W: Write>(
    alloc: Global,
    image: Option<F>,
    size: u32,
    pages: u32,
    blocks: u32,
    spare: u32,
    writer: &mut W,
) -> Result<(), ProgramFault>
    ensures { MakeEnds ⟦<TrustedNand<ImageNand<F>> as Nand>⟧ image size pages blocks spare (stream W.contents writer.old writer.new) result }
{
    let Some(file) = image else {
        return Err(ProgramFault::File);
    };
    let Ok(geometry) = Geometry::new(size, pages, blocks) else {
        return Err(ProgramFault::BadGeometry);
    };
    match create_image(alloc, file, geometry) {
        Ok(device) => {
            let (_device, ended) = format_device(alloc, device, spare, writer);
            ended
        }
        Err(fault) => Err(ProgramFault::Image(fault)),
    }
}
