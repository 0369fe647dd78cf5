// An image that is opened to be read alone.
ghost use Rattle.std.specs.Prelude.{IfOk, IfErr, Err};
ghost use Rattle.nand_model.specs.MemoryState as memory;
ghost use Rattle.flash_program.specs.Images.{NotOpened, IsCopy};

use crate::fault::ProgramFault;
use nand_image::open_image;
use nand_model::MemNand;
use std::alloc::Global;
use std::io::Read;

/// The flash in an image, in memory. The file is read and let go, and its type has no means to be written: what is done to the
/// flash does not reach it.
pub(crate) fn copy_of<F: Read + Drop>(
    alloc: Global,
    image: Option<F>,
) -> Result<MemNand, ProgramFault>
    ensures opens { IfOk result (λ copy. IsCopy F.remaining image (memory.device copy)) }
    ensures fault { IfErr result (λ e. NotOpened F.remaining image (Err e)) }
{
    let Some(file) = image else {
        return Err(ProgramFault::File);
    };
    match open_image(alloc, file) {
        Ok(device) => Ok(device.into_memory()),
        Err(fault) => Err(ProgramFault::Image(fault)),
    }
}
