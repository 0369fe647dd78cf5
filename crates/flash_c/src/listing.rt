// The names of a listing in the caller's buffer, each with the number of its object.
ghost use Rattle.std.specs.Prelude.{◌≡◌, ◌≤◌, ◌<◌, ◌+◌, ◌++◌, ◌∷◌, MatchOption, length, take, drop};
ghost use Rattle.flash_c.specs.Filling.{filled, filled_number};
ghost use Rattle.flash_c.specs.Numbers.{no_room};
ghost use Rattle.flash_c.specs.Salvaged.{entry_bytes, listing_bytes, object_bytes};

use crate::names::copy_name;
use crate::numbers::{NO_ROOM, signed};
use salvage::SalvagedName;

/// How many bytes the number of an object takes.
const OBJECT_BYTES: usize = 8;

/// The number of an object in eight bytes, the lowest first.
#[tactic(auto, unfolding(crate::specs::Salvaged::object_bytes))]
fn object_bytes(object: u64) -> [u8; OBJECT_BYTES]
    ensures { result ≡ object_bytes object }
{
    object.to_le_bytes()
}

/// How many bytes the names take, each with its object before it and a zero after it, if these are no more than `room`.
fn listing_length(names: &[SalvagedName], room: usize) -> Option<usize>
    ensures { MatchOption result (room < length (listing_bytes names.now)) (λ n. (n ≡ length (listing_bytes names.now)) × (n ≤ room)) }
{
    let mut length = 0usize;
    for entry in names {
        let bytes = OBJECT_BYTES + entry.name.len();
        if bytes >= room - length {
            return None;
        }
        length += bytes + 1;
    }
    Some(length)
}

/// Copies a name to a place of the buffer, with its object before it and a zero after it.
fn copy_entry(buffer: &mut [u8], at: usize, entry: &SalvagedName)
    requires { at + length (entry_bytes entry.now) < length buffer.old }
    ensures { buffer.new ≡ take at buffer.old ++ (entry_bytes entry.now ++ (0 ∷ drop (at + length (entry_bytes entry.now) + 1) buffer.old)) }
{
    let name = at + OBJECT_BYTES;
    buffer[at..name].copy_from_slice(&object_bytes(entry.object));
    copy_name(buffer, name, &entry.name);
}

/// Copies the names to the front of the buffer, each with its object before it and a zero after it.
fn copy_entries(buffer: &mut [u8], names: &[SalvagedName])
    requires { length (listing_bytes names.now) ≤ length buffer.old }
    ensures { buffer.new ≡ listing_bytes names.now ++ drop (length (listing_bytes names.now)) buffer.old }
{
    let mut at = 0usize;
    for entry in names {
        copy_entry(buffer, at, entry);
        at += OBJECT_BYTES + entry.name.len() + 1;
    }
}

/// Puts the names of a listing in the buffer, each with its object before it and a zero after it, and returns how many bytes they
/// take. ERANGE: the buffer has no room for them, and stays.
pub(crate) fn put_listing(buffer: &mut [u8], names: &[SalvagedName]) -> i64
    ensures number { result ≡ filled_number (length buffer.old) no_room (listing_bytes names.now) }
    ensures bytes { buffer.new ≡ filled buffer.old (listing_bytes names.now) }
{
    match listing_length(names, buffer.len()) {
        Some(length) => {
            copy_entries(buffer, names);
            signed(length as u64)
        }
        None => NO_ROOM,
    }
}
