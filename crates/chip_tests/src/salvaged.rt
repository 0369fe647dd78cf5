//! A small tree, of which each page is lost in turn: what a salvage shows of it.

use nand_image::open_image;
use nand_model::MemNand;
use page_tags::{ObjectKind, Tag};
use salvage::{LostPart, LostPlace, ObjectInfo, Part, Salvage};
use std::alloc::Global;
use std::io::Cursor;
use std::process::Abort;

/// A page by its object and its chunk, and how its data begin.
type Page = (u64, u64, &'static [u8]);

/// The root with a directory `d` and a file `f` of 5 bytes, in `d` an empty file `g`, and a file that nothing names. A page has one
/// slot. The first eight pages are one group, and the last is another.
const PAGES: [Page; 9] = [
    (1, 0, b"NLFS\x02\x02\x01\0\x02\0\0\0\0\0\0\0"),
    (1, 1, b"\x02\0\0\0\0\0\0\0\x01\0d"),
    (1, 2, b"\x03\0\0\0\0\0\0\0\x01\0f"),
    (2, 0, b"NLFS\x02\x02\0\0\x01\0\0\0\0\0\0\0"),
    (2, 1, b"\x04\0\0\0\0\0\0\0\x01\0g"),
    (
        3,
        0,
        b"NLFS\x02\x01\0\0\x05\0\0\0\0\0\0\0\0\0\0\0\0\0\0\0\0\0\0\0\0\0\0\0\x01",
    ),
    (3, 1, b"hello"),
    (4, 0, b"NLFS\x02\x01\0\0"),
    (5, 0, b"NLFS\x02\x01\0\0"),
];

/// What is left: the objects that are reached from the root, those that nothing names, the names of the root and of `d` where their
/// headers are there, with how many are lost, and the objects without a header.
#[derive(Drop)]
struct Left {
    reached: &'static [u64],
    orphans: &'static [u64],
    root: Option<(&'static [u8], u64)>,
    below: Option<(&'static [u8], u64)>,
    headless: &'static [u64],
}

/// What is left of the tree where one page is lost, from the root's header to that of `g`.
const LOST: [Left; 8] = [
    Left {
        reached: &[1],
        orphans: &[2, 3, 5],
        root: None,
        below: Some((b"g", 0)),
        headless: &[1],
    },
    Left {
        reached: &[1, 3],
        orphans: &[2, 5],
        root: Some((b"f", 1)),
        below: Some((b"g", 0)),
        headless: &[],
    },
    Left {
        reached: &[1, 2, 4],
        orphans: &[3, 5],
        root: Some((b"d", 1)),
        below: Some((b"g", 0)),
        headless: &[],
    },
    Left {
        reached: &[1, 2, 3],
        orphans: &[4, 5],
        root: Some((b"df", 0)),
        below: None,
        headless: &[2],
    },
    Left {
        reached: &[1, 2, 3],
        orphans: &[4, 5],
        root: Some((b"df", 0)),
        below: Some((b"", 1)),
        headless: &[],
    },
    Left {
        reached: &[1, 2, 3, 4],
        orphans: &[5],
        root: Some((b"df", 0)),
        below: Some((b"g", 0)),
        headless: &[3],
    },
    Left {
        reached: &[1, 2, 3, 4],
        orphans: &[5],
        root: Some((b"df", 0)),
        below: Some((b"g", 0)),
        headless: &[],
    },
    Left {
        reached: &[1, 2, 3, 4],
        orphans: &[5],
        root: Some((b"df", 0)),
        below: Some((b"g", 0)),
        headless: &[4],
    },
];

/// The tag of the page at a place.
fn tag_at(page: &Page, place: u32) -> Tag {
    let first = place < 8;
    let group = if first { 1 } else { 2 };
    Tag {
        index: if first { place } else { 0 },
        count: if first { 8 } else { 1 },
        object: page.0,
        chunk: page.1,
        version: group,
        group,
        seq: 1,
    }
}

/// The data of a page.
fn data_of(page: &Page) -> [u8; 512] {
    let mut data = [0; 512];
    for (to, from) in data.iter_mut().zip(page.2) {
        *to = *from;
    }
    data
}

/// Adds a page of an image: its kind, its tag and its data.
fn add_page(rt: &impl Abort, image: &mut Vec<u8>, kind: u8, tag: &[u8; 48], data: &[u8; 512]) {
    image.push(kind).expect(rt, "memory");
    image.extend_from_slice(tag).expect(rt, "memory");
    image.extend_from_slice(data).expect(rt, "memory");
}

/// An image of 5 blocks of 32 pages of 512 bytes, with the tree in block 0. The page at the place `lost` does not read.
fn image_of(rt: &impl Abort, alloc: Global, lost: usize) -> Vec<u8> {
    let mut image = b"NANDIMG1\0\x02\0\0\x20\0\0\0\x05\0\0\0"
        .to_vec(alloc)
        .expect(rt, "memory");
    image.extend_from_slice(&[0; 17]).expect(rt, "memory");
    for place in 0..160usize {
        match PAGES.get(place) {
            Some(page) => {
                let kind = if place == lost { 2 } else { 1 };
                let tag = tag_at(page, place as u32).encode();
                add_page(rt, &mut image, kind, &tag, &data_of(page));
            }
            None => add_page(rt, &mut image, 0, &[0; 48], &[0; 512]),
        }
    }
    image
}

/// A salvage of the device of such an image.
fn opened(rt: &impl Abort, alloc: Global, lost: usize) -> Salvage<MemNand> {
    let file = Cursor::new(image_of(rt, alloc, lost));
    let device = open_image(alloc, file).expect(rt, "an image").into_memory();
    match Salvage::open(alloc, device) {
        Ok(left) => left,
        Err(_) => panic!(rt; "nothing was opened"),
    }
}

/// A directory has these names of one byte, and has lost as many, or it has no header.
fn is_listed(
    rt: &impl Abort,
    alloc: Global,
    left: &mut Salvage<MemNand>,
    directory: u64,
    want: Option<(&[u8], u64)>,
) {
    let listing = left.list(alloc, directory).expect(rt, "a list");
    let Some((names, lost)) = want else {
        assert!(rt; listing.is_none());
        return;
    };
    let listing = listing.expect(rt, "a directory");
    assert_eq!(rt; listing.lost, lost);
    assert_eq!(rt; listing.names.len(), names.len());
    for (slot, name) in listing.names.iter().zip(names) {
        assert_eq!(rt; slot.name.as_slice(), [*name].as_slice());
    }
}

/// What is left is as it is to be.
fn is_left(rt: &impl Abort, alloc: Global, left: &mut Salvage<MemNand>, want: &Left) {
    let reached = left.reach(alloc, 1).expect(rt, "objects");
    assert_eq!(rt; reached.as_slice(), want.reached);
    let orphans = left.orphans(alloc).expect(rt, "objects");
    assert_eq!(rt; orphans.as_slice(), want.orphans);
    is_listed(rt, alloc, left, 1, want.root);
    is_listed(rt, alloc, left, 2, want.below);
    for object in 1..6u64 {
        let info = left.stat(object).expect(rt, "a header");
        assert_eq!(rt; info.is_none(), want.headless.contains(&object), "{object}");
    }
}

#[test]
fn shows_all_but_the_page_that_is_lost(rt: HostRuntime) {
    let alloc = rt.alloc();
    for lost in 0..LOST.len() {
        let mut left = opened(&rt, alloc, lost);
        is_left(&rt, alloc, &mut left, &LOST[lost]);
        let place = LostPlace {
            block: 0,
            page: lost as u32,
        };
        assert_eq!(&rt; left.lost(), [place].as_slice());
    }
}

#[test]
fn shows_a_whole_tree_and_what_nothing_names(rt: HostRuntime) {
    let alloc = rt.alloc();
    let mut left = opened(&rt, alloc, 99);
    is_left(&rt, alloc, &mut left, &LOST_NOTHING);
    assert!(&rt; left.lost().is_empty());
}

/// What is left where no page is lost.
const LOST_NOTHING: Left = Left {
    reached: &[1, 2, 3, 4],
    orphans: &[5],
    root: Some((b"df", 0)),
    below: Some((b"g", 0)),
    headless: &[],
};

#[test]
fn reads_bytes_or_says_which_are_lost(rt: HostRuntime) {
    let alloc = rt.alloc();
    let mut buffer = [7u8; 8];
    let mut left = opened(&rt, alloc, 99);
    let info = ObjectInfo {
        kind: ObjectKind::File,
        length: 5,
        moment: 0,
    };
    assert_eq!(&rt; left.stat(3), Ok(Some(info)));
    assert_eq!(&rt; left.read_at(3, 1, &mut buffer), Ok(Some(Part::Bytes(4))));
    assert_eq!(&rt; buffer, *b"ello\x07\x07\x07\x07");
    assert_eq!(&rt; left.read_at(3, 5, &mut buffer), Ok(Some(Part::Bytes(0))));
    assert_eq!(&rt; left.read_at(2, 0, &mut buffer), Ok(None));
    let mut left = opened(&rt, alloc, 6);
    let lost = LostPart { chunk: 1, bytes: 4 };
    assert_eq!(&rt; left.read_at(3, 1, &mut buffer), Ok(Some(Part::Lost(lost))));
}
