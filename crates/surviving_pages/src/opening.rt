// The index of the pages that survive on a device, and the places of those that are lost.
ghost use Rattle.std.specs.Prelude.{◌≡◌, ◌≤◌, ◌+◌, true, false, OnOk, IfOk, IfErr};
ghost use Rattle.nand_model.specs.Changes.{OnlyReads};
ghost use Rattle.mount_scan.specs.Scanned.{good_pages};
ghost use Rattle.surviving_pages.specs.Lost.{ListsLost};
ghost use Rattle.surviving_pages.specs.Opened.{HasSurvivors, LiesOn, WhyNotFound};

use crate::scan::find_survivors;
use crate::survivors::Survivors;
use block_state::Blocks;
use chunk_index::Index;
use nand_model::Nand;
use page_store::OpenFault;
use std::alloc::Global;

/// Reads the tag of each page of a good block once, and returns an index of the newest page of each key that survives: of a group that
/// was completed, also where other pages of the group are lost. Beside it stand the places of the pages that are lost: those of good
/// blocks that have no valid tag, where a page behind them in the block has one. So they were programmed, and an older page of their key
/// may be the newest that survives. Nothing is programmed and nothing erased, and no page's data are read.
///
/// It ends with NoMemory where memory is refused, and with Gone where the device is without power; it has read some of the tags then.
pub fn open_surviving<N: Nand>(alloc: Global, device: &mut N) -> Result<Survivors, OpenFault>
    ensures reads { OnlyReads (N.state device.old) (N.state device.new) }
    ensures issued { (N.state device.new).reads ≤ (N.state device.old).reads + good_pages (N.state device.old).flash (N.state device.old).geometry.pages (N.state device.old).geometry.blocks }
    ensures power { (N.state device.old).gone ≡ false → OnOk result ((N.state device.new).gone ≡ false) }
    ensures within { IfOk result (λ found. LiesOn (N.state device.old).geometry found.index) }
    ensures survivors { (N.state device.old).honest ≡ true → IfOk result (λ found. HasSurvivors (N.state device.old).flash found.index) }
    ensures lost { (N.state device.old).honest ≡ true → IfOk result (λ found. ListsLost (N.state device.old).flash found.lost.items) }
    ensures fault { IfErr result (WhyNotFound (N.state device.new)) }
{
    let (found, lost) = find_survivors(alloc, device)?;
    let blocks = Blocks::new(alloc, device.geometry())?;
    let (index, _blocks) = Index::from_newest(alloc, found, blocks)?;
    Ok(Survivors { index, lost })
}
