// A slot of a directory: a name and the object that it leads to.

ghost use Rattle.std.specs.Prelude.{◌≡◌, ◌≢◌, ◌++◌, IfSome, IfNone, length};
ghost use Rattle.volume_terms.specs.Sizes.{slot_length};
ghost use Rattle.byteorder.specs.Endian.{little_bytes};
ghost use Rattle.page_tags.specs.SlotEntry.{entry_of};
ghost use Rattle.page_tags.specs.Slots.{Entry, IsSlot, slot_bytes};

use crate::numbers::{u16_at, u64_at};
use crate::zeros::are_zero;
use byteorder::{ByteOrder, LittleEndian};
use volume_terms::{NAME_LIMIT, is_name};

/// An entry of a directory.
#[derive(Clone, Copy, Debug, PartialEq, Eq)]
pub struct Slot<'a> {
    pub object: u64,
    pub name: &'a [u8],
}

// The object and the length of the name, which a slot begins with.
fn head_of(object: u64, length: u16) -> [u8; 10]
    ensures { result ≡ little_bytes 8 object ++ little_bytes 2 length }
{
    let mut head = [0; 10];
    LittleEndian::write_u64(&mut head, object);
    LittleEndian::write_u16(&mut head[8..], length);
    head
}

/// Writes the slot over the `SLOT_BYTES` bytes.
pub fn encode_slot(slot: &Slot, bytes: &mut [u8])
    requires room { length bytes.old ≡ slot_length }
    requires valid { IsSlot (entry_of slot.now) }
    ensures { bytes.new ≡ slot_bytes (entry_of slot.now) }
{
    let end = 10 + slot.name.len();
    bytes[..10].copy_from_slice(&head_of(slot.object, slot.name.len() as u16));
    bytes[10..end].copy_from_slice(slot.name);
    bytes[end..].fill(0);
}

/// The slot that these `SLOT_BYTES` bytes are, if they are one.
pub fn decode_slot(bytes: &[u8]) -> Option<Slot<'_>>
    requires { length bytes.now ≡ slot_length }
    ensures found { IfSome result (λ s. IsSlot (entry_of s) × (bytes.now ≡ slot_bytes (entry_of s))) }
    ensures none { IfNone result ((s : Entry) → IsSlot s → bytes.now ≢ slot_bytes s) }
{
    let object = u64_at(bytes, 0);
    let length = usize::from(u16_at(bytes, 8));
    if object < 2 || length > NAME_LIMIT {
        return None;
    }
    let (name, rest) = bytes[10..].split_at(length);
    if is_name(name) && are_zero(rest) {
        Some(Slot { object, name })
    } else {
        None
    }
}
