// The slots of a tree's directories.
ghost use Rattle.std.specs.Prelude.{◌≡◌, ◌≢◌, IfSome, IfNone, length};
ghost use Rattle.volume_terms.specs.Sizes.{slot_length};
ghost use Rattle.page_tags.specs.SlotEntry.{entry_of};
ghost use Rattle.page_tags.specs.Slots.{Entry, slot_bytes};
ghost use Rattle.flash_tree.specs.Slots.{IsTreeSlot};

use page_tags::{Slot, decode_slot};

/// The number of the object that the pages of a checkpoint are of. No slot of a tree leads to it.
pub const CHECK_OBJECT: u64 = u64::MAX;

/// No tree looks up a page of this chunk, or of a greater one.
pub const CHUNK_END: u64 = 1 << 32;

/// The slot that these `SLOT_BYTES` bytes are, if they are one that a directory of a tree may have: a slot that leads to the
/// object of checkpoints is damage.
pub fn decode_tree_slot(bytes: &[u8]) -> Option<Slot<'_>>
    requires { length bytes.now ≡ slot_length }
    ensures found { IfSome result (λ s. IsTreeSlot (entry_of s) × (bytes.now ≡ slot_bytes (entry_of s))) }
    ensures none { IfNone result ((s : Entry) → IsTreeSlot s → bytes.now ≢ slot_bytes s) }
{
    match decode_slot(bytes) {
        Some(slot) => {
            if slot.object == CHECK_OBJECT {
                None
            } else {
                Some(slot)
            }
        }
        None => None,
    }
}
