// The reading of a page that is committed.
ghost use Rattle.std.specs.Prelude.{◌≡◌, ◌<◌, ◌≤◌, ◌+◌, length, true, Some, OnOk, IfErr};
ghost use Rattle.nand_model.specs.Changes.{OnlyReads};
ghost use Rattle.page_store.specs.Shown.{data_at};
ghost use Rattle.page_store.specs.CommittedReading.{IsReadFault};

use chunk_index::CommittedPage;
use nand_model::{Nand, PageKind};
use volume_terms::StoreFault;

/// Reads the page that is committed there. One that is not written was not committed by its device.
pub fn read_committed<N: Nand>(
    device: &mut N,
    at: CommittedPage,
    page: &mut [u8],
) -> Result<(), StoreFault>
    requires block { at.block < (N.state device.old).geometry.blocks }
    requires page { at.page < (N.state device.old).geometry.pages }
    requires size { length page.old ≡ (N.state device.old).geometry.bytes }
    ensures reads { OnlyReads (N.state device.old) (N.state device.new) }
    ensures issued { (N.state device.new).reads ≤ (N.state device.old).reads + 1 }
    ensures power { OnOk result ((N.state device.new).gone ≡ (N.state device.old).gone) }
    ensures size { length page.new ≡ length page.old }
    ensures bytes { (N.state device.old).honest ≡ true → OnOk result (data_at (N.state device.old).flash at ≡ Some page.new) }
    ensures fault { IfErr result (IsReadFault (N.state device.old) (N.state device.new) at) }
{
    match device.read_data(at.block, at.page, page) {
        Ok(PageKind::Written) => Ok(()),
        Ok(PageKind::Erased) => Err(StoreFault::Device),
        Ok(PageKind::Uncorrectable) => Err(StoreFault::Device),
        Err(_) => Err(StoreFault::Device),
    }
}
