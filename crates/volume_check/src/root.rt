// The rule that the header of the root breaks.
ghost use Rattle.std.specs.Prelude.{◌≡◌, ◌≤◌, true, IfErr, IfOk, IfNone, IfSome, length};
ghost use Rattle.flash_tree.specs.Mount.{sizes_of};
ghost use Rattle.pages.specs.Maps.{has};
ghost use Rattle.pages.specs.State.{OnlyFinds};
ghost use Rattle.volume_check.specs.Faults.{WhyNoVerdict};
ghost use Rattle.tree_walk.specs.Visits.{IsSeen};
ghost use Rattle.volume_check.specs.Found.{HasVolume, HeaderBreaks, IsRootOn, RootBreaks};

use crate::fault::CheckFault;
use flash_tree::Key;
use nand_model::Geometry;
use page_tags::{ObjectKind, decode_header};
use pages::{Pages, Presence};
use tree_walk::Rule;
use volume_terms::{ROOT, StoreFault};

/// The key of the root's header.
pub(crate) const ROOT_HEADER: Key = Key {
    object: ROOT,
    chunk: 0,
};

/// The rule of a volume on a device of these sizes that the root's header breaks, if any.
pub(crate) fn root_rule<P: Pages>(
    pages: &mut P,
    geometry: Geometry,
) -> Result<Option<Rule>, CheckFault>
    ensures lookups { OnlyFinds (P.state pages.old) (P.state pages.new) }
    ensures none { IsSeen (sizes_of geometry 0) (P.state pages.old)
        → IfOk result (λ rule. IfNone rule (HasVolume geometry (has (P.state pages.old).present))) }
    ensures breaks { IsSeen (sizes_of geometry 0) (P.state pages.old)
        → IfOk result (λ rule. IfSome rule (RootBreaks geometry (has (P.state pages.old).present))) }
    ensures fault { IfErr result (WhyNoVerdict (P.state pages.new)) }
{
    match pages.find(ROOT_HEADER) {
        Ok(Presence::Present) => Ok(header_rule(pages.page(), geometry.blocks())),
        Ok(Presence::Absent) => Ok(Some(Rule::HeaderMissing)),
        Err(StoreFault::NoMemory) => Err(CheckFault::NoMemory),
        Err(_) => Err(why_failed(pages)),
    }
}

/// The rule that a page breaks as the header of a root on so many blocks, if any.
fn header_rule(page: &[u8], blocks: u32) -> Option<Rule>
    requires least { 32 ≤ length page.now }
    requires most { length page.now ≤ 4096 }
    ensures none { IfNone result (IsRootOn page.now blocks) }
    ensures breaks { IfSome result (HeaderBreaks page.now blocks) }
{
    let header = match decode_header(page) {
        Ok(header) => header,
        Err(fault) => return Some(Rule::NoHeader(fault)),
    };
    match header.kind {
        ObjectKind::File => Some(Rule::RootIsFile),
        ObjectKind::Directory => {
            if u32::from(header.spare) + 4 <= blocks {
                None
            } else {
                Some(Rule::TooManySpare(header.spare))
            }
        }
    }
}

/// Why pages were not read of a device that has failed.
pub(crate) fn why_failed<P: Pages>(pages: &mut P) -> CheckFault
    requires failed { (P.state pages.old).failed ≡ true }
    ensures lookups { OnlyFinds (P.state pages.old) (P.state pages.new) }
    ensures why { WhyNoVerdict (P.state pages.new) result }
{
    if pages.has_power() {
        CheckFault::Lost
    } else {
        CheckFault::Gone
    }
}
