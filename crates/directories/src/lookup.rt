// What slots say of a name.
ghost use Rattle.std.specs.Prelude.{◌≡◌, ◌<◌, ◌≤◌, ◌+◌, ◌/◌, OnOk, IfOk, IfErr, IsOk, length};
ghost use Rattle.page_tags.specs.Slots.{Entry, slot_bytes};
ghost use Rattle.flash_tree.specs.Slots.{IsTreeSlot};
ghost use Rattle.volume_terms.specs.Sizes.{slot_length};
ghost use Rattle.pages.specs.Faults.{MayLack, SaysWhy};
ghost use Rattle.pages.specs.State.{OnlyFinds, KeepsPower};
ghost use Rattle.pages.specs.declared.fault.PageFault.TheVariants as faults;
ghost use Rattle.directories.specs.Directories.{ReportsSlot};
ghost use Rattle.directories.specs.Slots.{NamedBy, OfEntry};
ghost use Rattle.directories.specs.Stores.{OfPages, OfSlotAt};

use crate::page::slot_of;
use flash_tree::{Key, decode_tree_slot};
use pages::{PageFault, Pages, load};
use volume_terms::SLOT_BYTES;

/// A slot that has the name that was looked for: its number, and the object that it leads to.
#[derive(Clone, Copy, Debug, PartialEq, Eq)]
pub(crate) struct Located {
    pub(crate) place: u32,
    pub(crate) object: u64,
}

/// The object that a slot of a directory leads to, if it has this name. One page is looked up.
pub fn find_in_slot<P: Pages>(
    pages: &mut P,
    directory: u64,
    place: u32,
    name: &[u8],
) -> Result<Option<u64>, PageFault>
    ensures lookups { OnlyFinds (P.state pages.old) (P.state pages.new) }
    ensures issued { (P.state pages.new).issued ≤ (P.state pages.old).issued + 1 }
    ensures power { OnOk result (KeepsPower (P.state pages.old) (P.state pages.new)) }
    ensures reported { OfPages (P.state pages.old) (λ z m. IfOk result (ReportsSlot z m directory place name.now)) }
    ensures why { IfErr result (SaysWhy (P.state pages.old) (P.state pages.new)) }
    ensures fault { OfSlotAt (P.state pages.old) directory place (IfErr result (MayLack (P.state pages.old) (P.state pages.new))) }
{
    let slots = pages.page_bytes() / SLOT_BYTES as u32;
    let key = Key {
        object: directory,
        chunk: 1 + u64::from(place / slots),
    };
    load(pages, key)?;
    named_in(slot_of(pages.page(), place % slots), name)
}

/// The object that the bytes of a slot lead to, if they have this name.
fn named_in(bytes: &[u8], name: &[u8]) -> Result<Option<u64>, PageFault>
    requires { length bytes.now ≡ slot_length }
    ensures reported { IfOk result (λ found. (entry : Entry) × IsTreeSlot entry × (bytes.now ≡ slot_bytes entry) × NamedBy entry name.now found) }
    ensures damaged { IfErr result (λ fault. fault ≡ faults.Damaged) }
    ensures ok { OfEntry bytes.now (λ _. IsOk result) }
{
    let Some(slot) = decode_tree_slot(bytes) else {
        return Err(PageFault::Damaged);
    };
    if slot.name == name {
        Ok(Some(slot.object))
    } else {
        Ok(None)
    }
}
