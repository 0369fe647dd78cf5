// The slot of a directory, in bytes that were worked out by hand.

use page_tags::{Slot, decode_slot, encode_slot};
use volume_terms::SLOT_BYTES;

/// How the slot of object 2 under the name `a` begins. The rest is zeros.
const SLOT: [u8; 11] = [2, 0, 0, 0, 0, 0, 0, 0, 1, 0, 0x61];

/// The slot is read from these bytes, and written as them.
#[test]
fn slot_stands_in_272_bytes(rt: HostRuntime) {
    let mut bytes = [0; SLOT_BYTES];
    bytes[..11].copy_from_slice(&SLOT);
    let mut written = [0xff; SLOT_BYTES];
    let read = decode_slot(&bytes);
    assert_eq!(rt;
        read,
        Some(Slot {
            object: 2,
            name: b"a"
        })
    );
    if let Some(slot) = read {
        encode_slot(&slot, &mut written);
    }
    assert!(rt; written == bytes);
}

/// Each byte alone makes of the slot none.
#[test]
fn bytes_out_of_range_are_no_slot(rt: HostRuntime) {
    let edits: [(usize, u8); 8] = [
        (0, 1),
        (8, 0),
        (8, 2),
        (9, 1),
        (10, b'/'),
        (10, b'.'),
        (11, b'a'),
        (271, 1),
    ];
    for (place, byte) in edits {
        let mut bytes = [0; SLOT_BYTES];
        bytes[..11].copy_from_slice(&SLOT);
        if place < SLOT_BYTES {
            bytes[place] = byte;
        }
        assert!(rt; decode_slot(&bytes).is_none(), "at {place}");
    }
}
