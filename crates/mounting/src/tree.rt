// The tree of a volume, read from pages.
ghost use Rattle.std.specs.Prelude.{◌≡◌, ◌≤◌, ◌+◌, OnOk, IfOk, IfErr};
ghost use Rattle.pages.specs.State.{OnlyFinds, KeepsPower};
ghost use Rattle.mounting.specs.TreeAnswers.{FailsTree};
ghost use Rattle.mounting.specs.FoundTrees.{IssuesForTree, HasNamesIn, IsFoundIn, OfSized, WhyNoneIn};

use crate::first_fault;
use name_index::NameIndex;
use nand_model::Geometry;
use pages::Pages;
use std::alloc::Global;
use tree_walk::{RootFault, Tree, spare_of, walk};

/// A tree that was gone through, of a volume with so many spare blocks, and the hashes of its names.
#[derive(Drop)]
pub(crate) struct FoundTree {
    pub(crate) spare: u16,
    pub(crate) tree: Tree,
    pub(crate) names: NameIndex,
}

/// Goes through the tree of a volume on a device of these sizes. Each header is looked up once, and so is each page of a
/// directory's slots.
pub(crate) fn find_tree<P: Pages>(
    alloc: Global,
    pages: &mut P,
    geometry: Geometry,
) -> Result<FoundTree, RootFault>
    ensures lookups { OnlyFinds (P.state pages.old) (P.state pages.new) }
    ensures power { OnOk result (KeepsPower (P.state pages.old) (P.state pages.new)) }
    ensures issued { OfSized geometry (P.state pages.old) (IfOk result (IssuesForTree geometry (P.state pages.old) (P.state pages.new))) }
    ensures tree { OfSized geometry (P.state pages.old) (IfOk result (λ found. IsFoundIn geometry (P.state pages.old).present found)) }
    ensures names { OfSized geometry (P.state pages.old) (IfOk result (λ found. HasNamesIn geometry (P.state pages.old).present found)) }
    ensures fault { OfSized geometry (P.state pages.old) (IfErr result (WhyNoneIn geometry (P.state pages.old).present)) }
    ensures why { IfErr result (FailsTree (P.state pages.new)) }
{
    let mut names = NameIndex::new(alloc);
    match walk(alloc, pages, &mut names) {
        Ok(tree) => match spare_of(&tree, geometry) {
            Some(spare) => Ok(FoundTree { spare, tree, names }),
            None => Err(RootFault::Damaged),
        },
        Err(fault) => Err(first_fault(pages, geometry, fault)),
    }
}
