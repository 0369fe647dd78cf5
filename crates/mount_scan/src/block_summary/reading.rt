// The read of the summary that a block may begin with.
ghost use Rattle.std.specs.Prelude.{◌≡◌, ◌↔◌, ◌<◌, false, IsTrue, IfOk, IfSome, IfNone};
ghost use Rattle.page_tags.specs.Tags.{IsTag};
ghost use Rattle.mount_scan.specs.FoundSummary.{ReadsAtMost, FindsNone, HasForm, IsOf, IsWholeOn, HasNoSummary};
ghost use Rattle.mount_scan.specs.SummaryGroups.{MayBegin};

use crate::block_summary::contents::contents_of;
use crate::block_summary::pages::{SUMMARY_CHUNK, read_pages};
use crate::{FoundSummary, SummaryFault};
use flash_tree::CHECK_OBJECT;
use nand_model::Nand;
use page_tags::Tag;
use std::alloc::Global;

/// Whether a tag may be that of the first page of a summary.
fn may_begin<N: Nand>(device: &N, first: &Tag) -> bool
    ensures { IsTrue result ↔ MayBegin (N.state device.now).geometry.pages first.now }
{
    first.object == CHECK_OBJECT
        && first.chunk == SUMMARY_CHUNK
        && first.index == 0
        && first.version == first.group
        && first.count <= device.geometry().pages()
}

/// Reads the summary that may begin in a block, whose page 0 has this tag, up to where it is no whole summary.
pub fn read_summary<N: Nand>(
    alloc: Global,
    device: &mut N,
    block: u32,
    first: &Tag,
) -> Result<Option<FoundSummary>, SummaryFault>
    requires block { block < (N.state device.old).geometry.blocks }
    requires good { (N.state device.old).flash.bad block ≡ false }
    requires tag { IsTag first.now }
    ensures reads { ReadsAtMost first.now.count (N.state device.old) (N.state device.new) result }
    ensures other { (MayBegin (N.state device.old).geometry.pages first.now → ⊥) → FindsNone (N.state device.old) (N.state device.new) result }
    ensures form { IfOk result (λ found. IfSome found (HasForm (N.state device.old))) }
    ensures of { IfOk result (λ found. IfSome found (IsOf block first.now)) }
    ensures found { IfOk result (λ found. IfSome found (IsWholeOn (N.state device.old))) }
    ensures none { IfOk result (λ found. IfNone found (HasNoSummary (N.state device.old) block first.now)) }
{
    if !may_begin(device, first) {
        return Ok(None);
    }
    let geometry = device.geometry();
    let size = geometry.bytes() as usize;
    let mut bytes = vec![in alloc; 0u8; first.count as usize * size]?;
    if !read_pages(device, block, first, &mut bytes)? {
        return Ok(None);
    }
    let Some(contents) = contents_of(alloc, &geometry, first.count, &bytes)? else {
        return Ok(None);
    };
    Ok(Some(FoundSummary {
        block,
        size: first.count,
        number: first.group,
        seq: first.seq,
        head: contents.head,
        entries: contents.entries,
    }))
}
