// The valid pages, noted in a survey.
ghost use Rattle.std.specs.Prelude.{◌≡◌, ◌+◌, ◌<◌, ◌≤◌, ◌↔◌, IsTrue, Some, length, slice_get};
ghost use Rattle.flash_tree.specs.declared.place.Found.{Found};
ghost use Rattle.nand_model.specs.Flash.{Flash};
ghost use Rattle.mount_scan.specs.NewestMap.{HasEachNewest, page_of};
ghost use Rattle.chip_map.specs.States.{AreSurveyed};
ghost use Rattle.chip_map.specs.Valid.{AreNoted, AreValid, AreWithin, LiesAt, Notes};

use crate::page_state::{PageState, SurveyedPage};
use flash_tree::Found;
use std::collections::BTreeMap;

/// Whether the newest page of its key lies where this valid page does.
fn is_newest(valid: &[Found], newest: &BTreeMap<(u64, u64), Found>, i: usize) -> bool
    requires { i < length valid.now }
    ensures { (f : Found) → slice_get valid.now i ≡ Some f → IsTrue result ↔ LiesAt (page_of newest.now f.tag.object f.tag.chunk) f }
{
    let found = &valid[i];
    let key = (found.tag.object, found.tag.chunk);
    match newest.get(&key) {
        Some(other) => other.block == found.block && other.page == found.page,
        None => false,
    }
}

/// Notes a valid page: the newest of its key as current, any other as stale.
fn note_at(
    pages: &mut [SurveyedPage],
    block_pages: u32,
    valid: &[Found],
    newest: &BTreeMap<(u64, u64), Found>,
    i: usize,
)
    requires i { i < length valid.now }
    requires within { AreWithin block_pages valid.now pages.old }
    ensures { (flash : Flash) → AreValid flash valid.now → HasEachNewest flash newest.now → Notes flash block_pages valid.now i pages.old
        → Notes flash block_pages valid.now (i + 1) pages.new }
{
    let state = if is_newest(valid, newest, i) {
        PageState::Current
    } else {
        PageState::Stale
    };
    let found = valid[i];
    let place = found.block as usize * block_pages as usize + found.page as usize;
    pages[place] = SurveyedPage {
        state,
        tag: Some(found.tag),
    };
}

/// Notes the valid pages of a flash in the pages that were read.
pub(crate) fn note_valid(
    pages: &mut [SurveyedPage],
    block_pages: u32,
    valid: &[Found],
    newest: &BTreeMap<(u64, u64), Found>,
)
    requires within_limit { block_pages ≤ 256 }
    requires within { AreWithin block_pages valid.now pages.old }
    ensures { (flash : Flash) → AreValid flash valid.now → HasEachNewest flash newest.now → AreNoted flash block_pages pages.old
        → AreSurveyed flash block_pages pages.new }
{
    for i in 0..valid.len() {
        note_at(pages, block_pages, valid, newest, i);
    }
}
