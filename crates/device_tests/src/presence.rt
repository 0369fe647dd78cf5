// The presence bits of chunks.

ghost use Rattle.std.specs.Prelude.{◌≤◌};

use page_tags::{is_present, set_present};

/// The bits with one of their chunks present, or not.
fn with_chunk(bits: [u8; 4], chunk: u64, present: bool) -> [u8; 4]
    requires first { 1 ≤ chunk }
    requires last { chunk ≤ 32 }
{
    let mut bits = bits;
    set_present(&mut bits, chunk, present);
    bits
}

/// Chunk 1 is the least bit of the first byte, and chunk 32 the greatest of the fourth.
#[test]
fn chunks_are_bits_from_the_least(rt: HostRuntime) {
    let bits = with_chunk([0; 4], 10, true);
    assert_eq!(rt; bits, [0, 2, 0, 0]);
    assert!(rt; is_present(&bits, 10) && !is_present(&bits, 9) && !is_present(&bits, 11));
    let bits = with_chunk(bits, 32, true);
    assert_eq!(rt; bits, [0, 2, 0, 0x80]);
    let bits = with_chunk(bits, 10, false);
    assert_eq!(rt; bits, [0, 0, 0, 0x80]);
    assert!(rt; !is_present(&bits, 33));
}
