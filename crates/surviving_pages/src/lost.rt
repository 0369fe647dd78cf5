// The pages of a block that are lost, by its tags.
ghost use Rattle.std.specs.Prelude.{◌≤◌, OnOk, length};
ghost use Rattle.surviving_pages.specs.Tagged.{AddsLost};

use crate::block::end_of_tags;
use crate::survivors::LostPlace;
use page_tags::Tag;
use std::alloc::AllocError;

/// Adds the places of the pages of a block that are lost: those without a tag that lie before the last page with one.
pub(crate) fn list_lost(
    block: u32,
    tags: &[Option<Tag>],
    lost: &mut Vec<LostPlace>,
) -> Result<(), AllocError>
    requires { length tags.now ≤ 256 }
    ensures { OnOk result (AddsLost block tags.now lost.old.items lost.new.items) }
{
    for page in 0..end_of_tags(tags) {
        if tags[page].is_none() {
            let page = page as u32;
            lost.push(LostPlace { block, page })?;
        }
    }
    Ok(())
}
