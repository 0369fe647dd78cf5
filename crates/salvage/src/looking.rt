// A look-up that no lost page ends.
ghost use Rattle.std.specs.Prelude.{◌≡◌, true, IfOk, IfErr};
ghost use Rattle.pages.specs.State.{OnlyFinds, FindsPage};
ghost use Rattle.salvage.specs.SeenBy.{seen_by};
ghost use Rattle.salvage.specs.Reported.{LacksPower};

use crate::fault::SalvageFault;
use flash_tree::Key;
use nand_model::Nand;
use page_store::NewestPages;
use pages::{Pages, Presence};

/// Returns whether there is a page of the key. One that a device with power does not give back counts as absent, so that only a loss
/// of power ends a look-up.
pub(crate) fn look<N: Nand>(pages: &mut NewestPages<N>, key: Key) -> Result<Presence, SalvageFault>
    ensures lookups { OnlyFinds (seen_by pages.old) (seen_by pages.new) }
    ensures page { (seen_by pages.old).sound ≡ true
        → IfOk result (FindsPage (seen_by pages.old).present key.object key.chunk (seen_by pages.new).lent) }
    ensures fault { IfErr result (LacksPower (seen_by pages.new)) }
{
    match pages.find(key) {
        Ok(presence) => Ok(presence),
        Err(_) => {
            if pages.has_power() {
                Ok(Presence::Absent)
            } else {
                Err(SalvageFault::Gone)
            }
        }
    }
}
