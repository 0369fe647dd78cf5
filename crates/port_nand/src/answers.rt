// What the answers of a device with tags of 24 bytes say.
ghost use Rattle.std.specs.Prelude.{◌≡◌};
ghost use Rattle.port_nand.specs.Answers.{TagAfter, is_program_gone, is_erase_gone};

use crate::codec::unpack;
use nand_model::{EraseFault, Gone, PageKind, ProgramFault};

/// Fills the tag of a page that was read as written.
pub(crate) fn fill(answer: Result<PageKind, Gone>, packed: &[u8; 24], tag: &mut [u8; 48])
    ensures { TagAfter answer packed.now tag.old tag.new }
{
    match answer {
        Ok(PageKind::Written) => *tag = unpack(packed),
        Ok(PageKind::Erased) => {}
        Ok(PageKind::Uncorrectable) => {}
        Err(Gone) => {}
    }
}

pub(crate) fn is_gone_by_program(answer: Result<(), ProgramFault>) -> bool
    ensures { result ≡ is_program_gone answer }
{
    match answer {
        Ok(()) => false,
        Err(ProgramFault::Failed) => false,
        Err(ProgramFault::Gone) => true,
    }
}

pub(crate) fn is_gone_by_erase(answer: Result<(), EraseFault>) -> bool
    ensures { result ≡ is_erase_gone answer }
{
    match answer {
        Ok(()) => false,
        Err(EraseFault::Failed) => false,
        Err(EraseFault::Gone) => true,
    }
}
