// Why a tree was not gone through.
ghost use Rattle.std.specs.Prelude.{◌≡◌};
ghost use Rattle.pages.specs.State.{OnlyFinds};
ghost use Rattle.mounting.specs.TreeAnswers.{FailsTree, of_walk};
ghost use Rattle.mounting.specs.FoundTrees.{IsWhyBelow, OfSized, WhyNoneIn};

use nand_model::Geometry;
use pages::Pages;
use tree_walk::{RootFault, WalkFault, root};

/// The fault of a walk, as one of the root.
fn root_fault(fault: WalkFault) -> RootFault
    ensures { result ≡ of_walk fault }
{
    match fault {
        WalkFault::NoMemory => RootFault::NoMemory,
        WalkFault::Device => RootFault::Device,
        WalkFault::Broken(broken) => match broken.rule.newer() {
            Some(format) => RootFault::Newer(format),
            None => RootFault::Damaged,
        },
    }
}

/// The first fault of a tree that a walk did not go through: that of the root's header, which is read again, or else the one that
/// the walk found below it.
pub fn first_fault<P: Pages>(pages: &mut P, geometry: Geometry, below: WalkFault) -> RootFault
    ensures lookups { OnlyFinds (P.state pages.old) (P.state pages.new) }
    ensures reason { let m = (P.state pages.old).present in
        OfSized geometry (P.state pages.old) (IsWhyBelow geometry m (of_walk below) → WhyNoneIn geometry m result) }
    ensures device { FailsTree (P.state pages.old) (of_walk below) → FailsTree (P.state pages.new) result }
{
    match root(pages, geometry) {
        Ok(_) => root_fault(below),
        Err(fault) => fault,
    }
}
