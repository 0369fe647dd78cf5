//! The head and the entries of a checkpoint, in bytes that were worked out by hand.

use page_tags::{
    CheckEntry, decode_check_entry, decode_check_head, encode_check_entry, encode_check_head,
};

/// The head of a checkpoint of three entries: `NLFC`, version 1, the number, and zeros.
const HEAD: [u8; 32] = [
    0x4e, 0x4c, 0x46, 0x43, 1, 0, 0, 0, 3, 0, 0, 0, 0, 0, 0, 0, 0, 0, 0, 0, 0, 0, 0, 0, 0, 0, 0, 0,
    0, 0, 0, 0,
];

/// Object 2, chunk 1, version 7, in page 5 of block 4.
const ENTRY: [u8; 32] = [
    2, 0, 0, 0, 0, 0, 0, 0, 1, 0, 0, 0, 0, 0, 0, 0, 7, 0, 0, 0, 0, 0, 0, 0, 4, 0, 0, 0, 5, 0, 0, 0,
];

/// The bytes of a head of so many entries.
fn written_head(entries: u64) -> [u8; 32] {
    let mut written = [0xff; 32];
    encode_check_head(entries, &mut written);
    written
}

/// What is read of the head where these bits of one byte are turned.
fn read_head(place: usize, turned: u8) -> Option<u64> {
    let mut bytes = HEAD;
    if place < 32 {
        bytes[place] ^= turned;
    }
    decode_check_head(&bytes)
}

/// The head is read from these bytes and written as them, and each byte of it alone makes of it none.
#[test]
fn head_has_32_bytes(rt: HostRuntime) {
    assert!(rt; written_head(3) == HEAD);
    assert_eq!(rt; read_head(0, 0), Some(3));
    for place in [0, 3, 4, 5, 7, 16, 31] {
        assert_eq!(rt; read_head(place, 3), None, "at {place}");
    }
}

/// The bytes of an entry.
fn written_entry(entry: &CheckEntry) -> [u8; 32] {
    let mut written = [0xff; 32];
    encode_check_entry(entry, &mut written);
    written
}

/// The entry is read from these bytes and written as them.
#[test]
fn entry_has_32_bytes(rt: HostRuntime) {
    let entry = CheckEntry {
        object: 2,
        chunk: 1,
        version: 7,
        block: 4,
        page: 5,
    };
    assert!(rt; written_entry(&entry) == ENTRY);
    assert_eq!(rt; decode_check_entry(&ENTRY), entry);
}
