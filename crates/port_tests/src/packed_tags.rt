// Packed tags, in bytes that were worked out by hand.

use port_nand::{pack, unpack};

/// Index 0, count 4, object 2, chunk 1, version 7, group 7, seq 3.
const TAG: [u8; 48] = [
    0, 0, 0, 0, 4, 0, 0, 0, //
    2, 0, 0, 0, 0, 0, 0, 0, //
    1, 0, 0, 0, 0, 0, 0, 0, //
    7, 0, 0, 0, 0, 0, 0, 0, //
    7, 0, 0, 0, 0, 0, 0, 0, //
    3, 0, 0, 0, 0, 0, 0, 0,
];

const PACKED: [u8; 24] = [
    0, 3, //
    2, 0, 0, 0, //
    1, 0, 0, 0, //
    7, 0, 0, 0, 0, //
    7, 0, 0, 0, 0, //
    3, 0, 0, 0,
];

/// The tag with other bytes from a place on.
fn with<const N: usize>(place: usize, bytes: [u8; N]) -> [u8; 48] {
    let mut tag = TAG;
    for (i, byte) in bytes.iter().enumerate() {
        if let Some(at) = tag.get_mut(place.saturating_add(i)) {
            *at = *byte;
        }
    }
    tag
}

/// The packed tag with other bytes from a place on.
fn packed_with<const N: usize>(place: usize, bytes: [u8; N]) -> [u8; 24] {
    let mut packed = PACKED;
    for (i, byte) in bytes.iter().enumerate() {
        if let Some(at) = packed.get_mut(place.saturating_add(i)) {
            *at = *byte;
        }
    }
    packed
}

/// The tag is packed to these bytes, and unpacked from them.
#[test]
fn tag_stands_in_24_bytes(rt: HostRuntime) {
    assert_eq!(rt; pack(&TAG), Some(PACKED));
    assert_eq!(rt; unpack(&PACKED), TAG);
}

/// A count of 256 is a byte of 255, and the greatest two objects are the greatest two of four bytes.
#[test]
fn greatest_fields_fit(rt: HostRuntime) {
    let rows: [([u8; 48], [u8; 24]); 4] = [
        (with(4, [0, 1]), packed_with(1, [255])),
        (with(8, [255; 8]), packed_with(2, [255; 4])),
        (
            with(8, [254, 255, 255, 255, 255, 255, 255, 255]),
            packed_with(2, [254, 255, 255, 255]),
        ),
        (with(24, [255; 5]), packed_with(10, [255; 5])),
    ];
    for (tag, packed) in rows {
        assert_eq!(rt; pack(&tag), Some(packed));
        assert_eq!(rt; unpack(&packed), tag);
    }
}

/// Of a tag with a field that is too great there are no 24 bytes.
#[test]
fn fields_out_of_range_do_not_fit(rt: HostRuntime) {
    let tags: [[u8; 48]; 10] = [
        with(0, [0, 1]),
        with(4, [1, 1]),
        with(4, [0]),
        with(8, [254, 255, 255, 255]),
        with(8, [255, 255, 255, 255]),
        with(8, [0, 0, 0, 0, 1]),
        with(16, [0, 0, 0, 0, 1]),
        with(24, [0, 0, 0, 0, 0, 1]),
        with(32, [0, 0, 0, 0, 0, 1]),
        with(40, [0, 0, 0, 0, 1]),
    ];
    for tag in tags {
        assert_eq!(rt; pack(&tag), None);
    }
}
