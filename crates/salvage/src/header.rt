// What the header of an object says.
ghost use Rattle.std.specs.Prelude.{◌≡◌, ◌<◌, ◌≤◌, ◌^◌, length, IfOk, IfErr, IfSome, IfNone};
ghost use Rattle.page_tags.specs.Headers.{Fields, IsHeaderOf};
ghost use Rattle.page_tags.specs.declared.header.ObjectKind.TheVariants as kinds;
ghost use Rattle.pages.specs.Maps.{has};
ghost use Rattle.pages.specs.State.{OnlyFinds};
ghost use Rattle.volume_terms.specs.Sizes.{Sizes};
ghost use Rattle.tree_walk.specs.Visits.{IsSeen};
ghost use Rattle.salvage.specs.SeenBy.{seen_by};
ghost use Rattle.salvage.specs.Reported.{IsInfoOf, SaysInfo, LacksPower};

use crate::fault::SalvageFault;
use crate::looking::look;
use crate::reported::ObjectInfo;
use flash_tree::Key;
use nand_model::Nand;
use page_store::NewestPages;
use page_tags::decode_header;
use pages::{Pages, Presence};

/// What the header of an object says; none where no header of it reads.
pub(crate) fn read_info<N: Nand>(
    pages: &mut NewestPages<N>,
    object: u64,
) -> Result<Option<ObjectInfo>, SalvageFault>
    ensures lookups { OnlyFinds (seen_by pages.old) (seen_by pages.new) }
    ensures info { (z : Sizes) → IsSeen z (seen_by pages.old) → IfOk result (SaysInfo z (has (seen_by pages.old).present) object) }
    ensures entries { IfOk result (λ reported. IfSome reported (λ info. info.kind ≡ kinds.Directory → info.length < 2 ^ 32)) }
    ensures fault { IfErr result (LacksPower (seen_by pages.new)) }
{
    match look(pages, Key { object, chunk: 0 })? {
        Presence::Present => Ok(info_of(pages.page())),
        Presence::Absent => Ok(None),
    }
}

/// What a page says as a header, if it is one.
fn info_of(page: &[u8]) -> Option<ObjectInfo>
    requires least { 32 ≤ length page.now }
    requires most { length page.now ≤ 4096 }
    ensures reported { IfSome result (λ info. (f : Fields) × IsHeaderOf page.now f × IsInfoOf info f) }
    ensures none { IfNone result ((f : Fields) → IsHeaderOf page.now f → ⊥) }
    ensures entries { IfSome result (λ info. info.kind ≡ kinds.Directory → info.length < 2 ^ 32) }
{
    match decode_header(page) {
        Ok(header) => Some(ObjectInfo {
            kind: header.kind,
            length: header.length,
            moment: header.moment,
        }),
        Err(_) => None,
    }
}
