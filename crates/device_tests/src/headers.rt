// The header of an object, in pages that were worked out by hand.

ghost use Rattle.std.specs.Prelude.{◌≡◌, ◌≤◌, length};

use page_tags::{Format, Header, HeaderFault, ObjectKind, decode_header, encode_header};
use std::process::Abort;

/// How a file of 5 bytes with chunk 1 and moment 7 begins. The rest of its page is zeros.
const FILE: [u8; 33] = [
    0x4e, 0x4c, 0x46, 0x53, 2, 1, 0, 0, //
    5, 0, 0, 0, 0, 0, 0, 0, //
    7, 0, 0, 0, 0, 0, 0, 0, //
    0, 0, 0, 0, 0, 0, 0, 0, 1,
];

/// The same with moment 0.
const FILE_AT_0: [u8; 33] = [
    0x4e, 0x4c, 0x46, 0x53, 2, 1, 0, 0, //
    5, 0, 0, 0, 0, 0, 0, 0, //
    0, 0, 0, 0, 0, 0, 0, 0, //
    0, 0, 0, 0, 0, 0, 0, 0, 1,
];

/// How the root of a fresh volume begins, at a spare of 1.
const ROOT: [u8; 8] = [0x4e, 0x4c, 0x46, 0x53, 2, 2, 1, 0];

/// Whether a header was read and is this one, as far as the bits of the other go.
fn is_header(read: Option<Header>, want: Header) -> bool {
    read.is_some_and(|header| {
        header.bits.starts_with(want.bits)
            && Header {
                bits: want.bits,
                ..header
            } == want
    })
}

/// The page reads as this header, and the header is written as this page.
fn header_is(rt: &impl Abort, begins: &[u8], want: Header, page: &mut [u8], written: &mut [u8])
    requires least { 32 ≤ length page.old }
    requires most { length page.old ≤ 4096 }
    requires begins { length begins.now ≤ length page.old }
    requires same { length written.old ≡ length page.old }
{
    page[..begins.len()].copy_from_slice(begins);
    let read = decode_header(page).ok();
    assert!(rt; is_header(read, want));
    if let Some(header) = read {
        encode_header(&header, written);
    }
    assert!(rt; &*written == &*page);
}

/// The header of a file of 5 bytes with chunk 1.
fn file(moment: u64) -> Header<'static> {
    Header {
        format: Format::Two,
        kind: ObjectKind::File,
        spare: 0,
        length: 5,
        moment,
        bits: &[1],
    }
}

/// A file's header, in a page of each size, and with no moment.
#[test]
fn header_of_a_file(rt: HostRuntime) {
    header_is(&rt, &FILE, file(7), &mut [0; 512], &mut [0xff; 512]);
    header_is(&rt, &FILE, file(7), &mut [0; 1024], &mut [0xff; 1024]);
    header_is(&rt, &FILE, file(7), &mut [0; 2048], &mut [0xff; 2048]);
    header_is(&rt, &FILE, file(7), &mut [0; 4096], &mut [0xff; 4096]);
    header_is(&rt, &FILE_AT_0, file(0), &mut [0; 512], &mut [0xff; 512]);
}

/// The root's header has the spare blocks.
#[test]
fn header_of_the_root(rt: HostRuntime) {
    let root = Header {
        format: Format::Two,
        kind: ObjectKind::Directory,
        spare: 1,
        length: 0,
        moment: 0,
        bits: &[0],
    };
    header_is(&rt, &ROOT, root, &mut [0; 512], &mut [0xff; 512]);
}

/// The fault of a page of 512 bytes that begins as a file's, with these bytes written over it.
fn fault_with(begins: &[u8; 33], edits: &[(usize, u8)]) -> Option<HeaderFault> {
    let mut page = [0; 512];
    page[..33].copy_from_slice(begins);
    for (place, byte) in edits {
        if *place < page.len() {
            page[*place] = *byte;
        }
    }
    decode_header(&page).err()
}

/// What a file's header is with these bytes written over it.
const FAULTS: [(&[(usize, u8)], Option<HeaderFault>); 12] = [
    (&[], None),
    (&[(3, 0x54)], Some(HeaderFault::Magic)),
    (&[(4, 0)], Some(HeaderFault::Magic)),
    (&[(4, 3), (5, 9)], Some(HeaderFault::Newer(3))),
    (&[(5, 0), (15, 1)], Some(HeaderFault::Kind)),
    (&[(5, 3)], Some(HeaderFault::Kind)),
    // The greatest length of a file is 8 * 480 * 512, which is hex 1e0000.
    (&[(8, 0), (10, 0x1e)], None),
    (&[(8, 1), (10, 0x1e), (24, 1)], Some(HeaderFault::Length)),
    (&[(24, 1)], Some(HeaderFault::Pad)),
    (&[(32, 3)], Some(HeaderFault::Pad)),
    (&[(511, 0x80)], Some(HeaderFault::Pad)),
    (&[(9, 2), (32, 3)], None),
];

/// Of several faults the first is returned.
#[test]
fn faults_of_a_page(rt: HostRuntime) {
    for (edits, want) in FAULTS {
        assert_eq!(rt; fault_with(&FILE, edits), want, "{edits:?}");
    }
}

/// A directory has no chunk but its header.
#[test]
fn faults_of_a_directory(rt: HostRuntime) {
    assert_eq!(rt; fault_with(&FILE, &[(5, 2), (32, 0)]), None);
    assert_eq!(rt; fault_with(&FILE, &[(5, 2)]), Some(HeaderFault::Pad));
    assert_eq!(rt;
        fault_with(&FILE, &[(5, 2), (12, 1)]),
        Some(HeaderFault::Length)
    );
}

/// Format 1 has no moment.
#[test]
fn faults_of_format_1(rt: HostRuntime) {
    assert_eq!(rt; fault_with(&FILE_AT_0, &[(4, 1)]), None);
    assert_eq!(rt; fault_with(&FILE, &[(4, 1)]), Some(HeaderFault::Pad));
}
