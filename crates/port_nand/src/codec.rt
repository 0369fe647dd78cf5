// The tag of a page in 24 bytes.

ghost use Rattle.std.specs.Prelude.{◌≡◌, ◌≤◌, ◌+◌, ℕ, List, length, drop, IfSome, IfNone};
ghost use Rattle.byteorder.specs.Endian.{little_number};
ghost use Rattle.port_nand.specs.Packed.{object_of, packed_tag_in, unpacked, PacksTo, low_bytes as low_bytes_of};

use byteorder::{ByteOrder, LittleEndian};
use page_tags::Tag;

/// The number in five bytes from a place on.
fn u40_at(bytes: &[u8], place: usize) -> u64
    requires { place + 5 ≤ length bytes.now }
    ensures { result ≡ little_number 5 (drop place bytes.now) }
{
    LittleEndian::read_uint(&bytes[place..], 5)
}

/// The greatest two numbers of four bytes are the greatest two objects of eight, held for checkpoints.
#[tactic(auto, unfolding(crate::specs::Packed::object_of))]
fn widen(object: u32) -> u64
    ensures { result ≡ object_of object }
{
    if object >= u32::MAX - 1 {
        object as u64 + (u64::MAX - u32::MAX as u64)
    } else {
        object as u64
    }
}

fn read(packed: &[u8; 24]) -> Tag
    ensures { result ≡ packed_tag_in packed.now }
{
    Tag {
        index: packed[0] as u32,
        count: packed[1] as u32 + 1,
        object: widen(LittleEndian::read_u32(&packed[2..])),
        chunk: LittleEndian::read_u32(&packed[6..]) as u64,
        version: u40_at(packed, 10),
        group: u40_at(packed, 15),
        seq: LittleEndian::read_u32(&packed[20..]) as u64,
    }
}

/// The 48 bytes of the tag that 24 bytes say: index in 1 byte, count - 1 in 1, object and chunk in 4 each, version and group
/// in 5 each, seq in 4, each with its lowest byte first.
#[tactic(auto, unfolding(crate::specs::Packed::unpacked))]
pub fn unpack(packed: &[u8; 24]) -> [u8; 48]
    ensures tag { result ≡ unpacked packed.now }
    ensures only { (other : List ℕ) → PacksTo result other → other ≡ packed.now }
{
    read(packed).encode()
}

/// The lowest bytes of the fields, and one less than the lowest of the count.
#[tactic(auto, unfolding(crate::specs::Packed::low_bytes))]
fn low_bytes(tag: &[u8; 48]) -> [u8; 24]
    ensures { result ≡ low_bytes_of tag.now }
{
    [
        tag[0],
        tag[4].wrapping_sub(1),
        tag[8],
        tag[9],
        tag[10],
        tag[11],
        tag[16],
        tag[17],
        tag[18],
        tag[19],
        tag[24],
        tag[25],
        tag[26],
        tag[27],
        tag[28],
        tag[32],
        tag[33],
        tag[34],
        tag[35],
        tag[36],
        tag[40],
        tag[41],
        tag[42],
        tag[43],
    ]
}

/// The 24 bytes that say the tag, if any do.
pub fn pack(tag: &[u8; 48]) -> Option<[u8; 24]>
    ensures packs { IfSome result (PacksTo tag.now) }
    ensures only { IfSome result (λ packed. (other : List ℕ) → PacksTo tag.now other → other ≡ packed) }
    ensures none { IfNone result ((packed : List ℕ) → PacksTo tag.now packed → ⊥) }
{
    let packed = low_bytes(tag);
    if unpack(&packed) == *tag {
        Some(packed)
    } else {
        None
    }
}
