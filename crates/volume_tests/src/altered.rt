// Flashes that were put together byte by byte, and altered in one place.

use crate::devices::{Hit, cut, erased, formatted};
use crate::rows::expect;
use crate::scenarios::Part::Rows;
use crate::scenarios::{Part, tell};
use crate::served::{Served, try_mount};
use flash_tree::Key;
use nand_model::{MemNand, Nand};
use page_tags::Tag;
use posix_calls::MountFault;
use std::alloc::Global;
use std::process::Abort;
use test_devices::newest;

/// The page of an object's chunk: its first bytes. All others are zero.
#[derive(Clone, Copy)]
pub(crate) struct TestPage {
    object: u64,
    chunk: u64,
    bytes: &'static [u8],
}

/// Other bytes from a place of a page on, or of its tag.
#[derive(Clone, Copy)]
pub(crate) enum Patch {
    Bytes(usize, usize, &'static [u8]),
    Tag(usize, usize, &'static [u8]),
}

/// What a mount of a flash answers.
#[derive(Clone, Copy)]
enum Answer {
    Fault(MountFault),
    /// It is mounted, and answers these rows.
    Answered(&'static str),
}

const NOT_A_VOLUME: Answer = Answer::Fault(MountFault::NotAVolume);

const DAMAGED: Answer = Answer::Fault(MountFault::Damaged);

/// The root, which names the object 2, by a page of its own for each name.
const ROOT: TestPage = TestPage {
    object: 1,
    chunk: 0,
    bytes: b"NLFS\x02\x02\x01\0\x01",
};

const ROOT_OF_TWO: TestPage = TestPage {
    object: 1,
    chunk: 0,
    bytes: b"NLFS\x02\x02\x01\0\x02",
};

const SLOT: TestPage = TestPage {
    object: 1,
    chunk: 1,
    bytes: b"\x02\0\0\0\0\0\0\0\x01\0a",
};

/// A file of five bytes.
const FILE: TestPage = TestPage {
    object: 2,
    chunk: 0,
    bytes: b"NLFS\x02\x01\0\0\x05\0\0\0\0\0\0\0\0\0\0\0\0\0\0\0\0\0\0\0\0\0\0\0\x01",
};

pub(crate) const WITH_FILE: [TestPage; 4] = [
    ROOT,
    SLOT,
    FILE,
    TestPage {
        object: 2,
        chunk: 1,
        bytes: b"hello",
    },
];

const HAS_FILE: Answer = Answer::Answered(
    "list / -> names 1 a
open /a r -> fd 0
read 0 10 -> data 5 hello
space -> space 512 144 140",
);

/// The greatest number, which is that of checkpoints.
const LAST_NUMBER: &[u8] = b"\xff\xff\xff\xff\xff\xff\xff\xff";

/// What is altered in the flash of one file.
const FILE_CASES: [(&[Patch], Answer); 21] = [
    (&[], HAS_FILE),
    (&[Patch::Bytes(0, 4, b"\0")], NOT_A_VOLUME),
    (&[Patch::Tag(0, 0, b"\x01")], NOT_A_VOLUME),
    (
        &[Patch::Bytes(0, 4, b"\x03")],
        Answer::Fault(MountFault::Newer(3)),
    ),
    (
        &[Patch::Bytes(0, 4, b"\xff")],
        Answer::Fault(MountFault::Newer(255)),
    ),
    (&[Patch::Bytes(0, 5, b"\x01")], DAMAGED),
    (&[Patch::Bytes(0, 5, b"\x03")], DAMAGED),
    (&[Patch::Bytes(0, 6, b"\x05")], DAMAGED),
    (&[Patch::Bytes(0, 8, b"\x02")], DAMAGED),
    // The slot names the root, and what has no header; it has no name, and bytes after it.
    (&[Patch::Bytes(1, 0, b"\x01")], DAMAGED),
    (&[Patch::Bytes(1, 0, b"\x09")], DAMAGED),
    (&[Patch::Bytes(1, 8, b"\x03\0b/c")], DAMAGED),
    (&[Patch::Bytes(1, 8, b"\x02\0..")], DAMAGED),
    (&[Patch::Bytes(1, 11, b"b")], DAMAGED),
    // The slot names the object of checkpoints, which has no header, and which has one.
    (&[Patch::Bytes(1, 0, LAST_NUMBER)], DAMAGED),
    (
        &[
            Patch::Bytes(1, 0, LAST_NUMBER),
            Patch::Tag(2, 8, LAST_NUMBER),
            Patch::Tag(3, 8, LAST_NUMBER),
        ],
        DAMAGED,
    ),
    // The file is longer than any, has a bit past its end, or lacks its page.
    (&[Patch::Bytes(2, 8, b"\x01\0\x1e")], DAMAGED),
    (&[Patch::Bytes(2, 32, b"\x03")], DAMAGED),
    (&[Patch::Tag(3, 0, b"\x01")], DAMAGED),
    // It has 72,192 bytes, all zero, or 72,704.
    (
        &[
            Patch::Bytes(2, 8, b"\0\x1a\x01"),
            Patch::Bytes(2, 32, b"\0"),
        ],
        Answer::Answered("stat /a -> info file 2 1 72192 0\nspace -> space 512 144 0"),
    ),
    (
        &[
            Patch::Bytes(2, 8, b"\0\x1c\x01"),
            Patch::Bytes(2, 32, b"\0"),
        ],
        DAMAGED,
    ),
];

const EMPTY: &[u8] = b"NLFS\x02\x02";

const ONE_NAME: &[u8] = b"NLFS\x02\x02\0\0\x01";

/// A directory that is named, and two others that name each other.
const LOST_RING: [TestPage; 7] = [
    ROOT,
    SLOT,
    TestPage {
        object: 2,
        chunk: 0,
        bytes: EMPTY,
    },
    TestPage {
        object: 8,
        chunk: 0,
        bytes: ONE_NAME,
    },
    TestPage {
        object: 8,
        chunk: 1,
        bytes: b"\x09\0\0\0\0\0\0\0\x01\0b",
    },
    TestPage {
        object: 9,
        chunk: 0,
        bytes: ONE_NAME,
    },
    TestPage {
        object: 9,
        chunk: 1,
        bytes: b"\x08\0\0\0\0\0\0\0\x01\0c",
    },
];

/// A directory and a subdirectory of it name each other.
const RING: [TestPage; 6] = [
    ROOT,
    SLOT,
    TestPage {
        object: 2,
        chunk: 0,
        bytes: ONE_NAME,
    },
    TestPage {
        object: 2,
        chunk: 1,
        bytes: b"\x03\0\0\0\0\0\0\0\x01\0b",
    },
    TestPage {
        object: 3,
        chunk: 0,
        bytes: ONE_NAME,
    },
    TestPage {
        object: 3,
        chunk: 1,
        bytes: b"\x02\0\0\0\0\0\0\0\x01\0c",
    },
];

/// Two files in the root.
const TWO_NAMES: [TestPage; 5] = [
    ROOT_OF_TWO,
    SLOT,
    TestPage {
        object: 1,
        chunk: 2,
        bytes: b"\x03\0\0\0\0\0\0\0\x01\0b",
    },
    TestPage {
        object: 2,
        chunk: 0,
        bytes: b"NLFS\x02\x01",
    },
    TestPage {
        object: 3,
        chunk: 0,
        bytes: b"NLFS\x02\x01",
    },
];

const OTHER_CASES: [(&[TestPage], &[Patch], Answer); 5] = [
    (&[], &[], NOT_A_VOLUME),
    (&RING, &[], DAMAGED),
    (
        &LOST_RING,
        &[],
        Answer::Answered(
            "list / -> names 1 a
stat / -> info dir 1 3 0 0
list /a -> names 0
space -> space 512 144 141",
        ),
    ),
    (&TWO_NAMES, &[], Answer::Answered("list / -> names 2 a b")),
    (&TWO_NAMES, &[Patch::Bytes(2, 10, b"a")], DAMAGED),
];

/// Puts bytes at a place.
fn put(bytes: &mut [u8], place: usize, part: &[u8]) {
    for (number, byte) in part.iter().enumerate() {
        if let Some(to) = bytes.get_mut(place.saturating_add(number)) {
            *to = *byte;
        }
    }
}

/// The tag of a page that is a group of its own, of this number.
fn tag_of(page: TestPage, number: u64) -> [u8; 48] {
    let tag = Tag {
        index: 0,
        count: 1,
        object: page.object,
        chunk: page.chunk,
        version: number,
        group: number,
        seq: number,
    };
    tag.encode()
}

/// Writes a page as the first one of a block.
fn write_page<N: Nand>(rt: &impl Abort, nand: &mut N, block: u32, bytes: &[u8], tag: &[u8; 48]) {
    let geometry = nand.geometry();
    if block >= geometry.blocks() || nand.is_bad(block) {
        panic!(rt; "no such block");
    }
    if bytes.len() != geometry.bytes() as usize {
        panic!(rt; "no such page");
    }
    nand.erase(block).expect(rt, "an erase");
    nand.program(block, 0, bytes, tag).expect(rt, "a program");
}

/// Alters a page of this number, and its tag.
fn alter(patches: &[Patch], number: usize, bytes: &mut [u8], tag: &mut [u8]) {
    for patch in patches {
        match patch {
            Patch::Bytes(at, place, part) if *at == number => put(bytes, *place, part),
            Patch::Tag(at, place, part) if *at == number => put(tag, *place, part),
            _ => {}
        }
    }
}

/// Writes a page, with a header of this format, into the block of its number.
fn add_page(
    rt: &impl Abort,
    alloc: Global,
    nand: &mut MemNand,
    number: usize,
    page: TestPage,
    format: u8,
    patches: &[Patch],
) {
    let mut bytes = vec![in alloc; 0u8; 512].expect(rt, "memory");
    put(&mut bytes, 0, page.bytes);
    if page.chunk == 0 {
        put(&mut bytes, 4, &[format]);
    }
    let mut tag = tag_of(page, (number as u64).saturating_add(1));
    alter(patches, number, &mut bytes, &mut tag);
    write_page(rt, nand, number.min(8) as u32, &bytes, &tag)
}

/// A device with these pages, each in a block of its own, altered.
pub(crate) fn flash_of(
    rt: &impl Abort,
    alloc: Global,
    pages: &[TestPage],
    format: u8,
    patches: &[Patch],
) -> MemNand {
    let mut nand = erased(rt, alloc);
    for (number, page) in pages.iter().enumerate() {
        add_page(rt, alloc, &mut nand, number, *page, format, patches);
    }
    nand.power_up();
    nand
}

/// That a mount of a device answers this, and changes nothing.
fn expect_answer(rt: &impl Abort, alloc: Global, nand: MemNand, answer: Answer) {
    let nand = match (try_mount(alloc, nand, 16), answer) {
        (Ok(mut served), Answer::Answered(rows)) => {
            expect(rt, alloc, &mut served, rows);
            served.abandon()
        }
        (Err((nand, reported)), Answer::Fault(fault)) => {
            assert_eq!(rt; reported, fault);
            nand
        }
        _ => panic!(rt; "the other answer"),
    };
    assert_eq!(rt; nand.changes(), 0);
}

#[test]
fn an_altered_flash_has_its_fault(rt: HostRuntime) {
    let alloc = rt.alloc();
    for format in [1u8, 2] {
        for (patches, answer) in FILE_CASES {
            let nand = flash_of(&rt, alloc, &WITH_FILE, format, patches);
            expect_answer(&rt, alloc, nand, answer);
        }
        for (pages, patches, answer) in OTHER_CASES {
            let nand = flash_of(&rt, alloc, pages, format, patches);
            expect_answer(&rt, alloc, nand, answer);
        }
    }
}

/// Mounts a device, and once more where memory is refused, and that is noted.
fn mount_again(
    alloc: Global,
    nand: MemNand,
    refused: &mut u32,
) -> Result<Served, (MemNand, MountFault)> {
    match try_mount(alloc, nand, 16) {
        Err((nand, MountFault::NoMemory)) => {
            *refused = refused.saturating_add(1);
            try_mount(alloc, nand, 16)
        }
        mounted => mounted,
    }
}

/// The fault of a mount, which changes nothing, or none.
fn fault_of(
    rt: &impl Abort,
    alloc: Global,
    nand: MemNand,
    refused: &mut u32,
) -> Option<MountFault> {
    let (nand, fault) = match mount_again(alloc, nand, refused) {
        Ok(served) => (served.abandon(), None),
        Err((nand, fault)) => (nand, Some(fault)),
    };
    assert_eq!(rt; nand.changes(), 0);
    fault
}

const FAULTS: [(&[TestPage], &[Patch], Option<MountFault>); 6] = [
    (&[], &[], Some(MountFault::NotAVolume)),
    (
        &WITH_FILE,
        &[Patch::Bytes(0, 4, b"\x03")],
        Some(MountFault::Newer(3)),
    ),
    (
        &WITH_FILE,
        &[Patch::Tag(3, 0, b"\x01")],
        Some(MountFault::Damaged),
    ),
    (&RING, &[], Some(MountFault::Damaged)),
    (
        &TWO_NAMES,
        &[Patch::Bytes(2, 10, b"a")],
        Some(MountFault::Damaged),
    ),
    (&LOST_RING, &[], None),
];

// Run it with each allocation refused in turn.
/// Want of memory is reported by one mount at most, and the next one reports the fault.
#[test]
fn a_mount_that_is_refused_memory_has_its_fault_next(rt: HostRuntime) {
    let alloc = rt.alloc();
    let mut refused = 0;
    for (pages, patches, wanted) in FAULTS {
        let nand = flash_of(&rt, alloc, pages, 2, patches);
        assert_eq!(&rt; fault_of(&rt, alloc, nand, &mut refused), wanted);
    }
    let hit = Hit {
        call: 50,
        left: &[],
    };
    let nand = cut(&rt, alloc, &formatted(&rt, alloc), hit);
    let fault = fault_of(&rt, alloc, nand, &mut refused);
    assert_eq!(&rt; fault, Some(MountFault::Gone));
    assert!(&rt; refused <= 1, "{refused}");
}

/// The newest header of an object.
fn header_of<N: Nand>(rt: &impl Abort, alloc: Global, nand: &mut N, object: u64) -> Vec<u8> {
    let found = newest(nand, Key { object, chunk: 0 })
        .expect(rt, "a search")
        .expect(rt, "no header");
    let geometry = nand.geometry();
    if found.block >= geometry.blocks() || found.page >= geometry.pages() {
        panic!(rt; "no such page");
    }
    let mut bytes = vec![in alloc; 0u8; geometry.bytes() as usize].expect(rt, "memory");
    nand.read_page(found.block, found.page, &mut bytes, &mut [0; 48])
        .expect(rt, "a page");
    bytes
}

/// That the newest header of an object has the bytes of a page, with another byte at a place.
fn expect_header(
    rt: &impl Abort,
    alloc: Global,
    nand: &mut MemNand,
    page: TestPage,
    place: usize,
    byte: u8,
) {
    let mut wanted = vec![in alloc; 0u8; 512].expect(rt, "memory");
    put(&mut wanted, 0, page.bytes);
    put(&mut wanted, place, &[byte]);
    let header = header_of(rt, alloc, nand, page.object);
    assert_eq!(rt; header.as_slice(), wanted.as_slice());
}

const MADE: Part = Rows(
    "now 7 -> ok
open /a wc -> fd 0
write 0 hello -> wrote 5
sync -> ok",
);

const CHANGED: Part = Rows(
    "stat /a -> info file 2 1 5 0
now 4 -> ok
open /a w -> fd 0
write 0 x -> wrote 1
sync -> ok
stat /a -> info file 2 1 5 4",
);

/// A header is written in the newer format, and one of the older format stays until it is written.
#[test]
fn headers_have_their_bytes(rt: HostRuntime) {
    let alloc = rt.alloc();
    let mut nand = tell(&rt, alloc, formatted(&rt, alloc), &[MADE]);
    expect_header(&rt, alloc, &mut nand, FILE, 16, 7);
    let old = flash_of(&rt, alloc, &WITH_FILE, 1, &[]);
    let mut nand = tell(&rt, alloc, old, &[CHANGED]);
    expect_header(&rt, alloc, &mut nand, FILE, 16, 4);
    expect_header(&rt, alloc, &mut nand, ROOT, 4, 1)
}
