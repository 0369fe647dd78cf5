//! A small tree on a device whose file has lost a page: what a salvage makes a folder of.

use image_tools::Node;
use nand_image::open_image;
use nand_model::MemNand;
use nandfs_program::{ByteRange, Loss, Salvaged, salvage, show_losses};
use page_tags::Tag;
use salvage::Salvage;
use std::alloc::Global;
use std::io::Cursor;
use std::process::Abort;

/// A page by its object and its chunk, and how its data begin.
type Page = (u64, u64, &'static [u8]);

/// The root with a directory `d` and a file `f` of 5 bytes, whose page is lost, in `d` an empty file `g`, and a file that nothing names.
const PAGES: [Page; 9] = [
    (1, 0, b"NLFS\x02\x02\x01\0\x02\0\0\0\0\0\0\0"),
    (1, 1, b"\x02\0\0\0\0\0\0\0\x01\0d"),
    (1, 2, b"\x03\0\0\0\0\0\0\0\x01\0f"),
    (2, 0, b"NLFS\x02\x02\0\0\x01\0\0\0\0\0\0\0"),
    (2, 1, b"\x04\0\0\0\0\0\0\0\x01\0g"),
    (
        3,
        0,
        b"NLFS\x02\x01\0\0\x05\0\0\0\0\0\0\0\0\0\0\0\0\0\0\0\0\0\0\0\0\0\0\0\x01",
    ),
    (3, 1, b"hello"),
    (4, 0, b"NLFS\x02\x01\0\0"),
    (5, 0, b"NLFS\x02\x01\0\0"),
];

/// The place of the page that is lost.
const LOST: usize = 6;

/// The paths of the folder, in their order.
const PATHS: [&[u8]; 6] = [
    b"/",
    b"/d",
    b"/f",
    b"/d/g",
    b"/lost+found",
    b"/lost+found/5",
];

/// The tag of the page at a place: they are one group.
fn tag_at(page: &Page, place: u32) -> Tag {
    Tag {
        index: place,
        count: 9,
        object: page.0,
        chunk: page.1,
        version: 1,
        group: 1,
        seq: 1,
    }
}

/// Adds a page of an image: its kind, its tag and its data, which are zeros from where they are not given.
fn add_page(rt: &impl Abort, image: &mut Vec<u8>, kind: u8, tag: &[u8; 48], data: &[u8]) {
    image.push(kind).expect(rt, "memory");
    image.extend_from_slice(tag).expect(rt, "memory");
    image.extend_from_slice(data).expect(rt, "memory");
    for _rest in data.len()..512 {
        image.push(0).expect(rt, "memory");
    }
}

/// The device of an image of 5 blocks of 32 pages of 512 bytes, with the tree in block 0.
fn device(rt: &impl Abort, alloc: Global) -> MemNand {
    let mut image = b"NANDIMG1\0\x02\0\0\x20\0\0\0\x05\0\0\0"
        .to_vec(alloc)
        .expect(rt, "memory");
    image.extend_from_slice(&[0; 17]).expect(rt, "memory");
    for place in 0..160usize {
        match PAGES.get(place) {
            Some(page) => {
                let kind = if place == LOST { 2 } else { 1 };
                let tag = tag_at(page, place as u32).encode();
                add_page(rt, &mut image, kind, &tag, page.2);
            }
            None => add_page(rt, &mut image, 0, &[0; 48], b""),
        }
    }
    open_image(alloc, Cursor::new(image))
        .expect(rt, "an image")
        .into_memory()
}

/// What is left on it.
fn left(rt: &impl Abort, alloc: Global) -> Salvaged {
    let mut left = match Salvage::open(alloc, device(rt, alloc)) {
        Ok(left) => left,
        Err(_) => panic!(rt; "nothing was opened"),
    };
    salvage(alloc, &mut left).expect(rt, "a salvage")
}

#[test]
fn a_lost_page_leaves_the_rest_and_a_line(rt: HostRuntime) {
    let alloc = rt.alloc();
    let left = left(&rt, alloc);
    assert_eq!(&rt; left.folder.entries.len(), PATHS.len());
    for (entry, path) in left.folder.entries.iter().zip(PATHS) {
        assert_eq!(&rt; entry.path.as_slice(), path);
        if path == b"/f".as_slice() {
            let Node::File(bytes) = &entry.node else {
                panic!(&rt; "no file");
            };
            assert_eq!(&rt; bytes.as_slice(), [0; 5].as_slice());
        }
    }
    assert_eq!(&rt; left.lost.len(), 1);
    let range = ByteRange { from: 0, count: 5 };
    assert!(&rt; left.lost.iter().all(|at| at.loss == Loss::Bytes(range)));
    let mut out = Vec::new(alloc);
    show_losses(alloc, &mut out, &left).expect(&rt, "lines");
    assert_eq!(&rt;
        out.as_slice(),
        b"/f: 5 bytes from 0 on are lost\nlost page: block 0, page 6\n".as_slice()
    );
}
