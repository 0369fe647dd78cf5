// The page of a key that must be there.
ghost use Rattle.std.specs.Prelude.{◌≡◌, ◌≤◌, ◌+◌, true, Some, OnOk, IfErr};
ghost use Rattle.pages.specs.State.{OnlyFinds, KeepsPower};
ghost use Rattle.pages.specs.Faults.{MayLackPage, SaysWhy};

use crate::fault::PageFault;
use crate::store::{Pages, Presence};
use flash_tree::Key;

/// Finds the page of a key, which `page` lends then. Without one the object is `Damaged`.
pub fn load<P: Pages>(pages: &mut P, key: Key) -> Result<(), PageFault>
    ensures lookups { OnlyFinds (P.state pages.old) (P.state pages.new) }
    ensures issued { (P.state pages.new).issued ≤ (P.state pages.old).issued + 1 }
    ensures page { (P.state pages.old).sound ≡ true → OnOk result ((P.state pages.old).present key.object key.chunk ≡ Some (P.state pages.new).lent) }
    ensures power { OnOk result (KeepsPower (P.state pages.old) (P.state pages.new)) }
    ensures reported { IfErr result (SaysWhy (P.state pages.old) (P.state pages.new)) }
    ensures fault { MayLackPage (P.state pages.old) key (P.state pages.old) (P.state pages.new) result }
{
    match pages.find(key)? {
        Presence::Present => Ok(()),
        Presence::Absent => Err(PageFault::Damaged),
    }
}
