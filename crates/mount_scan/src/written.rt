// The pages of a block up to its first erased page.
ghost use Rattle.std.specs.Prelude.{◌≡◌, ◌<◌, ◌≤◌, ◌+◌, true, false, OnOk, OnErr, IfOk, length};
ghost use Rattle.nand_model.specs.Changes.{OnlyReads};
ghost use Rattle.flash_tree.specs.Places.{numbers_of};
ghost use Rattle.mount_scan.specs.FoundCheckpoint.{ReadsAtMost};
ghost use Rattle.mount_scan.specs.Listed.{listed};
ghost use Rattle.mount_scan.specs.WrittenBlocks.{AddsWritten, IsTagRead, PushesTag, RaisesNumbersWithin, ReadsUpToErased, ReadsWritten};

use crate::FoundPages;
use crate::fault::ScanFault;
use crate::group::add_counted;
use crate::raise::raised_by;
use crate::whole::Seen;
use nand_model::{Gone, Nand, PageKind};
use page_tags::Tag;

/// What the tag of a page is read as.
#[derive(Clone, Copy, Debug, PartialEq, Eq)]
enum TagRead {
    /// The page is erased.
    Erased,
    /// It is not, and has this tag, if it has a valid one.
    Written(Option<Tag>),
}

/// Reads the tag of a page.
fn read_tag<N: Nand>(device: &mut N, block: u32, page: u32) -> Result<TagRead, Gone>
    requires block { block < (N.state device.old).geometry.blocks }
    requires page { page < (N.state device.old).geometry.pages }
    ensures reads { OnlyReads (N.state device.old) (N.state device.new) }
    ensures issued { (N.state device.new).reads ≤ (N.state device.old).reads + 1 }
    ensures powered { OnOk result ((N.state device.old).gone ≡ false → (N.state device.new).gone ≡ false) }
    ensures gone { OnErr result ((N.state device.new).gone ≡ true) }
    ensures tag { (N.state device.old).honest ≡ true → IfOk result (IsTagRead (N.state device.old).flash block page) }
{
    let mut tag = [0; 48];
    match device.read_tag(block, page, &mut tag)? {
        PageKind::Erased => Ok(TagRead::Erased),
        PageKind::Uncorrectable => Ok(TagRead::Written(None)),
        PageKind::Written => Ok(TagRead::Written(Tag::decode(&tag))),
    }
}

/// Adds the tag of a page to a list, or none where the page is erased or has no valid one, and returns whether it is erased.
fn push_tag<N: Nand>(
    device: &mut N,
    block: u32,
    page: u32,
    tags: &mut Vec<Option<Tag>>,
) -> Result<bool, ScanFault>
    requires block { block < (N.state device.old).geometry.blocks }
    requires page { page < (N.state device.old).geometry.pages }
    ensures reads { ReadsAtMost 1 (N.state device.old) (N.state device.new) result }
    ensures pushes { IfOk result (PushesTag (N.state device.old) block page tags.old.items tags.new.items) }
{
    match read_tag(device, block, page)? {
        TagRead::Erased => {
            tags.push(None)?;
            Ok(true)
        }
        TagRead::Written(tag) => {
            tags.push(tag)?;
            Ok(false)
        }
    }
}

/// Reads the tags of a block, page by page up to the first that is erased, into a list that is emptied first. It has none of the pages
/// from that one on.
pub(crate) fn read_written_tags<N: Nand>(
    device: &mut N,
    block: u32,
    tags: &mut Vec<Option<Tag>>,
) -> Result<(), ScanFault>
    requires { block < (N.state device.old).geometry.blocks }
    ensures reads { ReadsAtMost (N.state device.old).geometry.pages (N.state device.old) (N.state device.new) result }
    ensures written { (N.state device.old).honest ≡ true → ReadsUpToErased block (N.state device.old) (N.state device.new) }
    ensures len { OnOk result (length tags.new.items ≡ (N.state device.old).geometry.pages) }
    ensures within_limit { OnOk result (length tags.new.items ≤ 256) }
    ensures tags { ReadsWritten (N.state device.old) block tags.new.items result }
{
    tags.clear();
    let mut end = false;
    for page in 0..device.geometry().pages() {
        if end {
            tags.push(None)?;
        } else {
            end = push_tag(device, block, page, tags)?;
        }
    }
    Ok(())
}

/// Adds the pages of a block to those that were found, but those before which a page of it is erased, of which no tag is read. Its tags
/// are read into `tags`, and its pages into `seen`.
pub(crate) fn find_written<N: Nand>(
    device: &mut N,
    block: u32,
    tags: &mut Vec<Option<Tag>>,
    seen: &mut Seen,
    found: &mut FoundPages,
) -> Result<(), ScanFault>
    requires { block < (N.state device.old).geometry.blocks }
    ensures reads { ReadsAtMost (N.state device.old).geometry.pages (N.state device.old) (N.state device.new) result }
    ensures written { (N.state device.old).honest ≡ true → ReadsUpToErased block (N.state device.old) (N.state device.new) }
    ensures adds { OnOk result (AddsWritten (N.state device.old) block (listed found.old) (listed found.new)) }
    ensures raised { RaisesNumbersWithin (N.state device.old) block (numbers_of seen.old.numbers) (numbers_of seen.new.numbers) result }
{
    seen.valid_pages.clear();
    read_written_tags(device, block, tags)?;
    seen.numbers = raised_by(seen.numbers, tags);
    add_counted(block, tags, &mut seen.valid_pages)?;
    found.add_all(&seen.valid_pages)?;
    Ok(())
}
