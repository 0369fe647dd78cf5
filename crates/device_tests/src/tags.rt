// The tag of a page, in bytes that were worked out by hand.

use page_tags::Tag;

/// Index 0, count 4, object 2, chunk 1, version 7, group 7, seq 3.
const TAG: [u8; 48] = [
    0, 0, 0, 0, 4, 0, 0, 0, //
    2, 0, 0, 0, 0, 0, 0, 0, //
    1, 0, 0, 0, 0, 0, 0, 0, //
    7, 0, 0, 0, 0, 0, 0, 0, //
    7, 0, 0, 0, 0, 0, 0, 0, //
    3, 0, 0, 0, 0, 0, 0, 0,
];

/// The tag that these bytes are.
fn worked_tag() -> Tag {
    Tag {
        index: 0,
        count: 4,
        object: 2,
        chunk: 1,
        version: 7,
        group: 7,
        seq: 3,
    }
}

/// The tag is written as these bytes, and read from them.
#[test]
fn tag_stands_in_48_bytes(rt: HostRuntime) {
    assert_eq!(rt; worked_tag().encode(), TAG);
    assert_eq!(rt; Tag::decode(&TAG), Some(worked_tag()));
}

/// What is read of the tag where this byte stands at a place.
fn read_with(place: usize, byte: u8) -> Option<Tag> {
    let mut bytes = TAG;
    if place < 48 {
        bytes[place] = byte;
    }
    Tag::decode(&bytes)
}

/// Each byte alone makes of the tag none.
#[test]
fn bytes_out_of_range_are_no_tag(rt: HostRuntime) {
    let edits: [(usize, u8); 7] = [(0, 4), (4, 0), (5, 1), (8, 0), (24, 0), (24, 8), (40, 0)];
    for (place, byte) in edits {
        assert_eq!(rt; read_with(place, byte), None, "at {place}");
    }
}
