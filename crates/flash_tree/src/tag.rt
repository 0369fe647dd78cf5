// The tag of one page.
ghost use Rattle.std.specs.Prelude.{◌≡◌, ◌<◌, ◌+◌, true, false, IfOk, IfSome, OnOk, OnErr};
ghost use Rattle.nand_model.specs.Changes.{OnlyReads};
ghost use Rattle.page_tags.specs.Tags.{IsTag};
ghost use Rattle.flash_tree.specs.Places.{TagIs};

use nand_model::{Gone, Nand, PageKind};
use page_tags::Tag;

/// The tag of a page, if it has a valid one.
pub fn tag_at<N: Nand>(device: &mut N, block: u32, page: u32) -> Result<Option<Tag>, Gone>
    requires block { block < (N.state device.old).geometry.blocks }
    requires page { page < (N.state device.old).geometry.pages }
    ensures reads { OnlyReads (N.state device.old) (N.state device.new) }
    ensures issued { (N.state device.old).gone ≡ false → (N.state device.new).reads ≡ (N.state device.old).reads + 1 }
    ensures powered { OnOk result ((N.state device.new).gone ≡ false) }
    ensures gone { OnErr result ((N.state device.new).gone ≡ true) }
    ensures valid { IfOk result (λ reported. IfSome reported IsTag) }
    ensures tag { (N.state device.old).honest ≡ true → IfOk result (TagIs (N.state device.old).flash block page) }
{
    let mut tag = [0; 48];
    match device.read_tag(block, page, &mut tag)? {
        PageKind::Written => Ok(Tag::decode(&tag)),
        PageKind::Erased => Ok(None),
        PageKind::Uncorrectable => Ok(None),
    }
}
