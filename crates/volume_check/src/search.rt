// The search for the first rule that is broken.
ghost use Rattle.std.specs.Prelude.{IfErr, IfOk, IfSome};
ghost use Rattle.flash_tree.specs.Mount.{sizes_of};
ghost use Rattle.pages.specs.Maps.{has};
ghost use Rattle.pages.specs.State.{OnlyFinds};
ghost use Rattle.tree_walk.specs.Visits.{IsSeen};
ghost use Rattle.volume_check.specs.Faults.{WhyNoVerdict};
ghost use Rattle.volume_check.specs.Found.{IsFoundFirst};
ghost use Rattle.volume_check.specs.Verdicts.{ReportsVerdict, verdict_of};

use crate::fault::CheckFault;
use crate::root::{ROOT_HEADER, root_rule, why_failed};
use name_index::NameIndex;
use nand_model::Geometry;
use pages::Pages;
use std::alloc::Global;
use tree_walk::{Broken, WalkFault, walk};

/// The first rule that is broken in the tree of a volume on a device of these sizes, in the order in which a mount meets them; none
/// where the tree is whole.
pub(crate) fn find_broken<P: Pages>(
    alloc: Global,
    pages: &mut P,
    geometry: Geometry,
) -> Result<Option<Broken>, CheckFault>
    ensures lookups { OnlyFinds (P.state pages.old) (P.state pages.new) }
    ensures verdict { IsSeen (sizes_of geometry 0) (P.state pages.old)
        → IfOk result (λ found. ReportsVerdict geometry (has (P.state pages.old).present) (verdict_of found)) }
    ensures first { IsSeen (sizes_of geometry 0) (P.state pages.old)
        → IfOk result (λ found. IfSome found (IsFoundFirst geometry (has (P.state pages.old).present))) }
    ensures fault { IfErr result (WhyNoVerdict (P.state pages.new)) }
{
    if let Some(rule) = root_rule(pages, geometry)? {
        return Ok(Some(Broken {
            rule,
            key: ROOT_HEADER,
        }));
    }
    let mut names = NameIndex::new(alloc);
    match walk(alloc, pages, &mut names) {
        Ok(_) => Ok(None),
        Err(WalkFault::Broken(broken)) => Ok(Some(broken)),
        Err(WalkFault::NoMemory) => Err(CheckFault::NoMemory),
        Err(WalkFault::Device) => Err(why_failed(pages)),
    }
}
