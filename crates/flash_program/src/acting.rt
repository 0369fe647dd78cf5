// What the program does.
ghost use Rattle.flash_program.specs.Acting.{ActsAs};
ghost use Rattle.flash_program.specs.Sessions.{stream};

use crate::Chosen;
use crate::checking::check_image;
use crate::creating::make_image;
use crate::cutting::cut_image;
use crate::fault::ProgramFault;
use crate::memory::run_in_memory;
use crate::running::run_image;
use nand_image::ImageNand;
use nand_model::{MemNand, Nand, TrustedNand};
use std::alloc::Global;
use std::io::{BufRead, Read, Seek, Write};

/// Does what was chosen over the file of the image, `None` if it could not be opened. Without a subcommand the file is not looked at.
/// `report` makes the exit status of how it ends.
pub fn act<F: Read + Write + Seek + Drop, R: BufRead, W: Write>(
    alloc: Global,
    chosen: &Chosen,
    image: Option<F>,
    input: &mut R,
    out: &mut W,
) -> Result<(), ProgramFault>
    ensures { ActsAs F.remaining ⟦<TrustedNand<MemNand> as Nand>⟧ ⟦<TrustedNand<ImageNand<F>> as Nand>⟧
        chosen.now image (stream R.remaining input.old input.new) (stream W.contents out.old out.new) result }
{
    match chosen {
        Chosen::Memory => run_in_memory(alloc, input, out),
        Chosen::Run { .. } => run_image(alloc, image, input, out),
        Chosen::Check { .. } => check_image(alloc, image, out),
        Chosen::Format {
            size,
            pages,
            blocks,
            spare,
            ..
        } => make_image(alloc, image, *size, *pages, *blocks, *spare, out),
        Chosen::Cut { seed, sessions, .. } => cut_image(alloc, image, *seed, *sessions, input, out),
    }
}
