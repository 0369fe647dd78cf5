// The pages of a summary, one after the other.
ghost use Rattle.std.specs.Prelude.{◌≡◌, ◌<◌, ◌≤◌, ◌+◌, ◌*◌, true, false, IsTrue, IfOk, OnOk, OnErr, length};
ghost use Rattle.nand_model.specs.Changes.{OnlyReads};
ghost use Rattle.mount_scan.specs.FoundSummary.{ReadsAtMost};
ghost use Rattle.mount_scan.specs.SummaryGroups.{page_tag, IsTagged, IsUntagged, HasPage, HasPages, KeepsPages, LacksPage};

use crate::SummaryFault;
use flash_tree::CHECK_OBJECT;
use nand_model::{Gone, Nand, PageKind};
use page_tags::Tag;

/// The chunk of a summary's first page, which is of the object of checkpoints.
pub const SUMMARY_CHUNK: u64 = 1 << 31;

/// The tag of page i of a summary, by that of its first page.
fn tag_of_page(first: &Tag, i: u32) -> Tag
    ensures { result ≡ page_tag first.now i }
{
    Tag {
        index: i,
        count: first.count,
        object: CHECK_OBJECT,
        chunk: SUMMARY_CHUNK + i as u64,
        version: first.group,
        group: first.group,
        seq: first.seq,
    }
}

/// Reads page i of the block. The result is whether it has the tag that page i of the summary has.
fn read_tagged<N: Nand>(
    device: &mut N,
    block: u32,
    first: &Tag,
    i: u32,
    page: &mut [u8],
) -> Result<bool, Gone>
    requires block { block < (N.state device.old).geometry.blocks }
    requires page { i < (N.state device.old).geometry.pages }
    requires size { length page.old ≡ (N.state device.old).geometry.bytes }
    ensures reads { OnlyReads (N.state device.old) (N.state device.new) }
    ensures issued { (N.state device.new).reads ≤ (N.state device.old).reads + 1 }
    ensures powered { OnOk result ((N.state device.new).gone ≡ false) }
    ensures gone { OnErr result ((N.state device.new).gone ≡ true) }
    ensures yes { (N.state device.old).honest ≡ true → IfOk result (λ is. IsTrue is → IsTagged (N.state device.old).flash block first.now i page.new) }
    ensures no { (N.state device.old).honest ≡ true → IfOk result (λ is. is ≡ false → IsUntagged (N.state device.old).flash block first.now i) }
{
    let mut tag = [0; 48];
    match device.read_page(block, i, page, &mut tag)? {
        PageKind::Written => Ok(tag == tag_of_page(first, i).encode()),
        PageKind::Erased => Ok(false),
        PageKind::Uncorrectable => Ok(false),
    }
}

/// Reads the page that comes behind the i pages that were read. The result is whether it has the tag that page i of the
/// summary has.
fn read_next<N: Nand>(
    device: &mut N,
    block: u32,
    first: &Tag,
    i: u32,
    bytes: &mut [u8],
) -> Result<bool, SummaryFault>
    requires block { block < (N.state device.old).geometry.blocks }
    requires page { i < first.now.count }
    requires room { first.now.count ≤ (N.state device.old).geometry.pages }
    requires size { length bytes.old ≡ first.now.count * (N.state device.old).geometry.bytes }
    ensures reads { ReadsAtMost 1 (N.state device.old) (N.state device.new) result }
    ensures committed { OnOk result (KeepsPages (N.state device.old).geometry.bytes i bytes.old bytes.new) }
    ensures yes { IfOk result (λ is. IsTrue is → HasPage (N.state device.old) block first.now i bytes.new) }
    ensures no { IfOk result (λ is. is ≡ false → LacksPage (N.state device.old) block first.now) }
{
    let size = device.geometry().bytes() as usize;
    let at = i as usize * size;
    let is = read_tagged(device, block, first, i, &mut bytes[at..at + size])?;
    Ok(is)
}

/// Reads the pages of a summary. The result is whether each has its tag.
pub(crate) fn read_pages<N: Nand>(
    device: &mut N,
    block: u32,
    first: &Tag,
    bytes: &mut [u8],
) -> Result<bool, SummaryFault>
    requires block { block < (N.state device.old).geometry.blocks }
    requires room { first.now.count ≤ (N.state device.old).geometry.pages }
    requires size { length bytes.old ≡ first.now.count * (N.state device.old).geometry.bytes }
    ensures reads { ReadsAtMost first.now.count (N.state device.old) (N.state device.new) result }
    ensures yes { IfOk result (λ is. IsTrue is → HasPages (N.state device.old) block first.now first.now.count bytes.new) }
    ensures no { IfOk result (λ is. is ≡ false → LacksPage (N.state device.old) block first.now) }
{
    for i in 0..first.count {
        if !read_next(device, block, first, i, bytes)? {
            return Ok(false);
        }
    }
    Ok(true)
}
