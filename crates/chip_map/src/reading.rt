// The pages of a chip, read one after another.
ghost use Rattle.std.specs.Prelude.{◌≡◌, ◌<◌, ◌+◌, ◌*◌, true, false, IfOk, OnOk, OnErr, length};
ghost use Rattle.nand_model.specs.Changes.{OnlyReads};
ghost use Rattle.mount_scan.specs.Scanned.{ScanReportsGone};
ghost use Rattle.chip_map.specs.Valid.{IsNoted, AreNoted, KeepsNoted};

use crate::page_state::{PageState, SurveyedPage};
use mount_scan::ScanFault;
use nand_model::{Gone, Nand, PageKind};
use page_tags::Tag;
use std::alloc::Global;

/// What a page reads as, with its tag. What is written counts as invalid, until it is noted as valid.
fn read_one<N: Nand>(device: &mut N, block: u32, page: u32) -> Result<SurveyedPage, Gone>
    requires block { block < (N.state device.old).geometry.blocks }
    requires page { page < (N.state device.old).geometry.pages }
    ensures reads { OnlyReads (N.state device.old) (N.state device.new) }
    ensures powered { OnOk result ((N.state device.old).gone ≡ false → (N.state device.new).gone ≡ false) }
    ensures gone { OnErr result ((N.state device.new).gone ≡ true) }
    ensures noted { (N.state device.old).honest ≡ true → IfOk result (IsNoted (N.state device.old).flash block page) }
{
    if device.is_bad(block) {
        return Ok(SurveyedPage {
            state: PageState::Bad,
            tag: None,
        });
    }
    let mut tag = [0; 48];
    match device.read_tag(block, page, &mut tag)? {
        PageKind::Written => Ok(SurveyedPage {
            state: PageState::Invalid,
            tag: Tag::decode(&tag),
        }),
        PageKind::Erased => Ok(SurveyedPage {
            state: PageState::Erased,
            tag: None,
        }),
        PageKind::Uncorrectable => Ok(SurveyedPage {
            state: PageState::Uncorrectable,
            tag: None,
        }),
    }
}

/// Adds the pages of a block to those of all blocks before it.
fn read_block<N: Nand>(
    device: &mut N,
    block: u32,
    pages: &mut Vec<SurveyedPage>,
) -> Result<(), ScanFault>
    requires block { block < (N.state device.old).geometry.blocks }
    requires before { length pages.old.items ≡ block * (N.state device.old).geometry.pages }
    ensures reads { OnlyReads (N.state device.old) (N.state device.new) }
    ensures gone { ScanReportsGone (N.state device.old) (N.state device.new) result }
    ensures len { OnOk result (length pages.new.items ≡ (block + 1) * (N.state device.old).geometry.pages) }
    ensures noted { KeepsNoted (N.state device.old) pages.old.items pages.new.items result }
{
    for page in 0..device.geometry().pages() {
        let read = read_one(device, block, page)?;
        pages.push(read)?;
    }
    Ok(())
}

/// Reads all pages, one block after another.
pub(crate) fn read_all<N: Nand>(
    alloc: Global,
    device: &mut N,
) -> Result<Vec<SurveyedPage>, ScanFault>
    ensures reads { OnlyReads (N.state device.old) (N.state device.new) }
    ensures gone { ScanReportsGone (N.state device.old) (N.state device.new) result }
    ensures len { IfOk result (λ pages. length pages.items ≡ (N.state device.old).geometry.blocks * (N.state device.old).geometry.pages) }
    ensures noted { (N.state device.old).honest ≡ true
        → IfOk result (λ pages. AreNoted (N.state device.old).flash (N.state device.old).geometry.pages pages.items) }
{
    let mut pages = Vec::new(alloc);
    for block in 0..device.geometry().blocks() {
        read_block(device, block, &mut pages)?;
    }
    Ok(pages)
}
