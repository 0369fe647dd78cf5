// The slots of a page.
ghost use Rattle.std.specs.Prelude.{◌≡◌, ◌≢◌, ◌≤◌, ◌+◌, ◌*◌, ◌++◌, ℕ, length, take, drop};
ghost use Rattle.volume_terms.specs.Sizes.{slot_length};
ghost use Rattle.page_tags.specs.SlotEntry.{entry_of};
ghost use Rattle.page_tags.specs.Slots.{IsSlot, slot_bytes};
ghost use Rattle.directories.specs.Slots.{slot_in};

use page_tags::{Slot, encode_slot};
use volume_terms::SLOT_BYTES;

/// The bytes of a slot of a page.
pub(crate) fn slot_of(page: &[u8], place: u32) -> &[u8]
    requires { slot_length * place + slot_length ≤ length page.now }
    ensures bytes { result.now ≡ slot_in page.now place }
    ensures len { length result.now ≡ slot_length }
{
    let at = SLOT_BYTES * place as usize;
    &page[at..at + SLOT_BYTES]
}

/// Writes a slot at its place of a page.
pub(crate) fn write_slot(slot: &Slot, place: u32, page: &mut [u8])
    requires room { slot_length * place + slot_length ≤ length page.old }
    requires valid { IsSlot (entry_of slot.now) }
    ensures size { length page.new ≡ length page.old }
    ensures here { slot_in page.new place ≡ slot_bytes (entry_of slot.now) }
    ensures others { (k : ℕ) → k ≢ place → slot_length * k + slot_length ≤ length page.old → slot_in page.new k ≡ slot_in page.old k }
    ensures past { drop (slot_length * place + slot_length) page.new ≡ drop (slot_length * place + slot_length) page.old }
{
    let at = SLOT_BYTES * place as usize;
    encode_slot(slot, &mut page[at..at + SLOT_BYTES]);
}

/// Copies the first slots of one page to another.
pub(crate) fn copy_slots(from: &[u8], count: u32, page: &mut [u8])
    requires there { slot_length * count ≤ length from.now }
    requires room { slot_length * count ≤ length page.old }
    ensures { page.new ≡ take (slot_length * count) from.now ++ drop (slot_length * count) page.old }
{
    let end = SLOT_BYTES * count as usize;
    page[..end].copy_from_slice(&from[..end]);
}
