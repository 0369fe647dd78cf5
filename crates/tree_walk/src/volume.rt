// The root's header, which makes pages a volume.
ghost use Rattle.std.specs.Prelude.{◌≡◌, ◌⊎◌, ◌<◌, ◌≤◌, ◌+◌, OnOk, IfOk, IfErr, IfSome, IfNone, length};
ghost use Rattle.page_tags.specs.declared.header.ObjectKind.TheVariants as kinds;
ghost use Rattle.flash_tree.specs.Mount.{IsVolume, IsDamaged, HasWrongRoot, sizes_of};
ghost use Rattle.pages.specs.Maps.{PageMap, has};
ghost use Rattle.pages.specs.State.{OnlyFinds, KeepsPower};
ghost use Rattle.tree_walk.specs.Faults.{RootFailsBy, ReportsRoot};
ghost use Rattle.tree_walk.specs.Pages.{OfSized};
ghost use Rattle.tree_walk.specs.Roots.{SpareReported, NoSpareReported};
ghost use Rattle.tree_walk.specs.Trees.{IsTreeThrough};

use crate::fault::RootFault;
use crate::head::Head;
use crate::tree::Tree;
use flash_tree::Key;
use nand_model::Geometry;
use page_tags::{HeaderFault, ObjectKind, decode_header};
use pages::{Pages, Presence};
use volume_terms::{ROOT, StoreFault};

/// Reads how many blocks the volume keeps spare, on a device of these sizes. One page is looked up.
pub fn root<P: Pages>(pages: &mut P, geometry: Geometry) -> Result<u16, RootFault>
    ensures lookups { OnlyFinds (P.state pages.old) (P.state pages.new) }
    ensures issued { (P.state pages.new).issued ≤ (P.state pages.old).issued + 1 }
    ensures power { OnOk result (KeepsPower (P.state pages.old) (P.state pages.new)) }
    ensures volume { OfSized geometry (P.state pages.old) (IfOk result (IsVolume geometry (has (P.state pages.old).present))) }
    ensures fault { OfSized geometry (P.state pages.old) (IfErr result (ReportsRoot geometry (has (P.state pages.old).present))) }
    ensures why { IfErr result (RootFailsBy (P.state pages.old) (P.state pages.new)) }
{
    let key = Key {
        object: ROOT,
        chunk: 0,
    };
    match pages.find(key) {
        Ok(Presence::Present) => spare_in(pages.page(), geometry.blocks()),
        Ok(Presence::Absent) => Err(RootFault::NotAVolume),
        Err(StoreFault::NoMemory) => Err(RootFault::NoMemory),
        Err(_) => Err(RootFault::Device),
    }
}

/// The spare blocks that a page says as the header of a root on so many blocks.
fn spare_in(page: &[u8], blocks: u32) -> Result<u16, RootFault>
    requires least { 32 ≤ length page.now }
    requires most { length page.now ≤ 4096 }
    ensures reported { IfOk result (SpareReported page.now blocks) }
    ensures fault { IfErr result (NoSpareReported page.now blocks) }
{
    match decode_header(page) {
        Ok(header) => {
            if header.kind == ObjectKind::Directory && u32::from(header.spare) + 4 <= blocks {
                Ok(header.spare)
            } else {
                Err(RootFault::Damaged)
            }
        }
        Err(HeaderFault::Magic) => Err(RootFault::NotAVolume),
        Err(HeaderFault::Newer(format)) => Err(RootFault::Newer(format)),
        Err(HeaderFault::Kind) => Err(RootFault::Damaged),
        Err(HeaderFault::Length) => Err(RootFault::Damaged),
        Err(HeaderFault::Pad) => Err(RootFault::Damaged),
    }
}

/// How many blocks a volume keeps spare whose tree was gone through on a device of these sizes, by what is reported of the root's
/// header. There are none where that is not the header of a root. No page is looked up.
pub fn spare_of(tree: &Tree, geometry: Geometry) -> Option<u16>
    ensures volume { (m : PageMap) → IsTreeThrough (sizes_of geometry 0) (has m) tree.now → IfSome result (IsVolume geometry (has m)) }
    ensures none { (m : PageMap) → IsTreeThrough (sizes_of geometry 0) (has m) tree.now → IfNone result (HasWrongRoot geometry (has m) IsDamaged) }
{
    match tree.head(ROOT) {
        Some(head) => spare_reported(head, geometry.blocks()),
        None => None,
    }
}

/// The spare blocks that a header says, if it is that of a root on so many blocks.
fn spare_reported(head: &Head, blocks: u32) -> Option<u16>
    ensures reported { IfSome result (λ spare. (head.now.kind ≡ kinds.Directory) × (head.now.spare ≡ spare) × (spare + 4 ≤ blocks)) }
    ensures none { IfNone result ((head.now.kind ≡ kinds.File) ⊎ (blocks < head.now.spare + 4)) }
{
    if head.kind == ObjectKind::Directory && u32::from(head.spare) + 4 <= blocks {
        Some(head.spare)
    } else {
        None
    }
}
