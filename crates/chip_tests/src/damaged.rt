//! A tree of four objects in block 0 of a flash of 5 blocks of 32 pages of 512 bytes, and its alterations.

use nand_model::{Geometry, MemNand, Nand};
use page_tags::{HeaderFault, Tag};
use std::alloc::Global;
use std::process::Abort;
use volume_check::{Diagnosis, Place, Rule, Verdict, diagnose};

/// A page by its object and its chunk, and how its data begin.
type Page = (u64, u64, &'static [u8]);

/// The root with a directory `d` and a file `f` of 5 bytes, and in `d` an empty file `g`. A page has one slot.
const PAGES: [Page; 8] = [
    (1, 0, b"NLFS\x02\x02\x01\0\x02\0\0\0\0\0\0\0"),
    (1, 1, b"\x02\0\0\0\0\0\0\0\x01\0d"),
    (1, 2, b"\x03\0\0\0\0\0\0\0\x01\0f"),
    (2, 0, b"NLFS\x02\x02\0\0\x01\0\0\0\0\0\0\0"),
    (2, 1, b"\x04\0\0\0\0\0\0\0\x01\0g"),
    (
        3,
        0,
        b"NLFS\x02\x01\0\0\x05\0\0\0\0\0\0\0\0\0\0\0\0\0\0\0\0\0\0\0\0\0\0\0\x01",
    ),
    (3, 1, b"hello"),
    (4, 0, b"NLFS\x02\x01\0\0"),
];

/// What is found: the verdict, the rule, the object, the chunk, the path, and the page of block 0 that breaks the rule.
type Found = (Verdict, Rule, u64, u64, &'static [u8], Option<u32>);

/// A page that is put in place of another, and what is found then. Object 9 is none of the tree.
const ALTERED: [(usize, Page, Found); 11] = [
    (
        0,
        (9, 0, b""),
        (Verdict::NotAVolume, Rule::HeaderMissing, 1, 0, b"/", None),
    ),
    (
        0,
        (1, 0, b"NLFS\x02\x01\x01\0"),
        (Verdict::Damaged, Rule::RootIsFile, 1, 0, b"/", Some(0)),
    ),
    (
        0,
        (1, 0, b"NLFS\x02\x02\x02\0\x02"),
        (Verdict::Damaged, Rule::TooManySpare(2), 1, 0, b"/", Some(0)),
    ),
    (
        2,
        (1, 2, b"\x03\0\0\0\0\0\0\0\x01\0d"),
        (Verdict::Damaged, Rule::NameTwice(0), 1, 2, b"/", Some(2)),
    ),
    (
        2,
        (9, 2, b""),
        (Verdict::Damaged, Rule::ChunkMissing, 1, 2, b"/", None),
    ),
    (
        4,
        (2, 1, b"\x04\0\0\0\0\0\0\0\x01\0/"),
        (Verdict::Damaged, Rule::NoSlot(0), 2, 1, b"/d", Some(4)),
    ),
    (
        4,
        (2, 1, b"\x02\0\0\0\0\0\0\0\x01\0g"),
        (Verdict::Damaged, Rule::DirectoryTwice, 2, 0, b"/d", Some(3)),
    ),
    (
        5,
        (3, 0, b"NLFX"),
        (
            Verdict::Damaged,
            Rule::NoHeader(HeaderFault::Magic),
            3,
            0,
            b"/f",
            Some(5),
        ),
    ),
    (
        6,
        (9, 1, b""),
        (Verdict::Damaged, Rule::ChunkMissing, 3, 1, b"/f", None),
    ),
    (
        7,
        (9, 0, b""),
        (Verdict::Damaged, Rule::HeaderMissing, 4, 0, b"/d/g", None),
    ),
    (
        7,
        (4, 0, b"NLFS\x03\x01\0\0"),
        (
            Verdict::Newer(3),
            Rule::NoHeader(HeaderFault::Newer(3)),
            4,
            0,
            b"/d/g",
            Some(7),
        ),
    ),
];

/// The tag of the page at a place: a group of its own.
fn tag_at(page: &Page, place: u32) -> Tag {
    let group = u64::from(place) + 1;
    Tag {
        index: 0,
        count: 1,
        object: page.0,
        chunk: page.1,
        version: group,
        group,
        seq: 1,
    }
}

/// The data of a page.
fn data_of(page: &Page) -> [u8; 512] {
    let mut data = [0; 512];
    for (to, from) in data.iter_mut().zip(page.2) {
        *to = *from;
    }
    data
}

/// A flash with these pages in block 0.
fn programmed(rt: &impl Abort, alloc: Global, pages: &[Page]) -> MemNand {
    let geometry = Geometry::new(512, 32, 5).expect(rt, "a geometry");
    let mut nand = MemNand::new(alloc, geometry).expect(rt, "memory");
    let geometry = nand.geometry();
    assert!(rt; geometry.bytes() == 512 && geometry.blocks() == 5);
    nand.erase(0).expect(rt, "an erase");
    for place in 0..32u32 {
        let geometry = nand.geometry();
        assert!(rt; geometry.bytes() == 512 && geometry.blocks() == 5 && geometry.pages() == 32);
        assert!(rt; !nand.is_bad(0));
        let Some(page) = pages.get(place as usize) else {
            break;
        };
        nand.program(0, place, &data_of(page), &tag_at(page, place).encode())
            .expect(rt, "a program");
    }
    nand
}

/// What a check of these pages finds.
fn checked(rt: &impl Abort, alloc: Global, pages: &[Page]) -> Diagnosis {
    let nand = programmed(rt, alloc, pages);
    let (_nand, found) = diagnose(alloc, nand);
    match found {
        Ok(found) => found,
        Err(_) => panic!(rt; "nothing was checked"),
    }
}

/// The check found this.
fn is_found(rt: &impl Abort, found: &Diagnosis, want: Found) {
    let (verdict, rule, object, chunk, path, place) = want;
    assert_eq!(rt; found.verdict, verdict, "{rule:?}");
    let Some(finding) = &found.finding else {
        panic!(rt; "no rule is broken");
    };
    assert_eq!(rt; finding.broken.rule, rule);
    assert_eq!(rt; finding.broken.key.object, object, "{rule:?}");
    assert_eq!(rt; finding.broken.key.chunk, chunk, "{rule:?}");
    assert_eq!(rt; finding.path.as_slice(), path, "{rule:?}");
    let place = place.map(|page| Place { block: 0, page });
    assert_eq!(rt; found.place, place, "{rule:?}");
}

#[test]
fn finds_where_a_tree_is_damaged(rt: HostRuntime) {
    let alloc = rt.alloc();
    for (at, page, want) in ALTERED {
        let mut pages = PAGES;
        if at < 8 {
            pages[at] = page;
        }
        let found = checked(&rt, alloc, &pages);
        is_found(&rt, &found, want);
    }
}

#[test]
fn finds_nothing_in_a_whole_tree(rt: HostRuntime) {
    let found = checked(&rt, rt.alloc(), &PAGES);
    assert!(rt; found.verdict == Verdict::Whole && found.finding.is_none());
}
