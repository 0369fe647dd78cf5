// The head and the entries of a checkpoint, which an unmount writes for the next mount.
ghost use Rattle.std.specs.Prelude.{◌≡◌, ◌≢◌, ◌<◌, ◌^◌, ℕ, IfSome, IfNone, length};
ghost use Rattle.page_tags.specs.Checks.{IsCheckEntry, check_entry_bytes, check_entry_in, check_head_bytes};
ghost use Rattle.page_tags.specs.declared.check.CheckEntry.{CheckEntry};

use crate::numbers::{u32_at, u64_at};
use byteorder::{ByteOrder, LittleEndian};

/// A key of the tree, an object and a chunk, with the place of its newest page and the version that the page has.
#[derive(Clone, Copy, Debug, PartialEq, Eq)]
pub struct CheckEntry {
    pub object: u64,
    pub chunk: u64,
    pub version: u64,
    pub block: u32,
    pub page: u32,
}

// The bytes of a head.
#[tactic(auto, unfolding(crate::specs::Checks::check_head_bytes))]
fn head_of(n: u64) -> [u8; 32]
    ensures { result ≡ check_head_bytes n }
{
    let mut head = [0; 32];
    head[..4].copy_from_slice(b"NLFC");
    head[4] = 1;
    LittleEndian::write_u64(&mut head[8..], n);
    head
}

// The bytes of an entry.
#[tactic(auto, unfolding(crate::specs::Checks::check_entry_bytes))]
fn bytes_of(entry: &CheckEntry) -> [u8; 32]
    ensures { result ≡ check_entry_bytes entry.now }
{
    let mut bytes = [0; 32];
    LittleEndian::write_u64(&mut bytes, entry.object);
    LittleEndian::write_u64(&mut bytes[8..], entry.chunk);
    LittleEndian::write_u64(&mut bytes[16..], entry.version);
    LittleEndian::write_u32(&mut bytes[24..], entry.block);
    LittleEndian::write_u32(&mut bytes[28..], entry.page);
    bytes
}

/// Writes the head of a checkpoint of `n` entries over 32 bytes.
pub fn encode_check_head(n: u64, bytes: &mut [u8])
    requires { length bytes.old ≡ 32 }
    ensures { bytes.new ≡ check_head_bytes n }
{
    bytes.copy_from_slice(&head_of(n));
}

/// The number of entries that a checkpoint has, if these 32 bytes are its head.
pub fn decode_check_head(bytes: &[u8]) -> Option<u64>
    requires { length bytes.now ≡ 32 }
    ensures found { IfSome result (λ n. bytes.now ≡ check_head_bytes n) }
    ensures none { IfNone result ((n : ℕ) → n < 2 ^ 64 → bytes.now ≢ check_head_bytes n) }
{
    let n = u64_at(bytes, 8);
    let said = head_of(n);
    if bytes == &said[..] { Some(n) } else { None }
}

/// Writes an entry over 32 bytes.
pub fn encode_check_entry(entry: &CheckEntry, bytes: &mut [u8])
    requires { length bytes.old ≡ 32 }
    ensures { bytes.new ≡ check_entry_bytes entry.now }
{
    bytes.copy_from_slice(&bytes_of(entry));
}

/// The entry that these 32 bytes are; any 32 bytes are one.
pub fn decode_check_entry(bytes: &[u8]) -> CheckEntry
    requires { length bytes.now ≡ 32 }
    ensures is { result ≡ check_entry_in bytes.now }
    ensures valid { IsCheckEntry result }
    ensures said { bytes.now ≡ check_entry_bytes result }
    ensures encoded { (e : CheckEntry) → IsCheckEntry e → bytes.now ≡ check_entry_bytes e → result ≡ e }
{
    CheckEntry {
        object: u64_at(bytes, 0),
        chunk: u64_at(bytes, 8),
        version: u64_at(bytes, 16),
        block: u32_at(bytes, 24),
        page: u32_at(bytes, 28),
    }
}
