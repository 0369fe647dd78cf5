// The tags of a block.
ghost use Rattle.std.specs.Prelude.{◌≡◌, ◌<◌, ◌≤◌, true, OnOk, length};
ghost use Rattle.mount_scan.specs.Scanned.{ReadsEach};
ghost use Rattle.mount_scan.specs.Blocks.{AreTags};

use crate::fault::ScanFault;
use flash_tree::tag_at;
use nand_model::Nand;
use page_tags::Tag;

/// Reads the tags of a block, page by page, into a list that is emptied first.
pub(crate) fn read_tags<N: Nand>(
    device: &mut N,
    block: u32,
    tags: &mut Vec<Option<Tag>>,
) -> Result<(), ScanFault>
    requires { block < (N.state device.old).geometry.blocks }
    ensures reads { ReadsEach (N.state device.old).geometry.pages (N.state device.old) (N.state device.new) result }
    ensures len { OnOk result (length tags.new.items ≡ (N.state device.old).geometry.pages) }
    ensures within_limit { OnOk result (length tags.new.items ≤ 256) }
    ensures tags { (N.state device.old).honest ≡ true → OnOk result (AreTags (N.state device.old).flash block tags.new.items) }
{
    tags.clear();
    for page in 0..device.geometry().pages() {
        let tag = tag_at(device, block, page)?;
        tags.push(tag)?;
    }
    Ok(())
}
