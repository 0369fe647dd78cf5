// Flashes in memory, and what is to be found on each, worked by hand.

use flash_tree::TagNumbers;
use nand_model::{Geometry, MemNand};
use page_tags::Tag;
use std::alloc::Global;
use std::process::Abort;
use test_devices::TestFlash;

/// Five blocks of 32 pages of 512 bytes.
pub(crate) fn small(rt: &impl Abort, alloc: Global) -> TestFlash {
    let geometry = Geometry::new(512, 32, 5).expect(rt, "a geometry");
    TestFlash::new(alloc, geometry).expect(rt, "memory")
}

/// The device, after a power-up.
pub(crate) fn powered_up(flash: TestFlash) -> MemNand {
    let mut nand = flash.into_nand();
    nand.power_up();
    nand
}

/// Pages that are written, a block that is then marked bad, and what is to be found: blocks and pages.
#[derive(Drop)]
pub(crate) struct WorkedFlash {
    pub what: &'static str,
    pub blocks: Vec<(u32, Vec<Tag>)>,
    pub bad: Option<u32>,
    pub valid: Vec<(u32, u32)>,
    pub newest: Vec<(u32, u32)>,
    pub numbers: TagNumbers,
}

/// A tag with its place in the group, its key and its version, group and seq.
pub(crate) fn tag(place: (u32, u32), key: (u64, u64), numbers: (u64, u64, u64)) -> Tag {
    Tag {
        index: place.0,
        count: place.1,
        object: key.0,
        chunk: key.1,
        version: numbers.0,
        group: numbers.1,
        seq: numbers.2,
    }
}

fn numbers(version: u64, group: u64, seq: u64) -> TagNumbers {
    TagNumbers {
        version,
        group,
        seq,
    }
}

fn empty(alloc: Global) -> WorkedFlash {
    WorkedFlash {
        what: "an empty flash",
        blocks: Vec::new(alloc),
        bad: None,
        valid: Vec::new(alloc),
        newest: Vec::new(alloc),
        numbers: numbers(0, 0, 0),
    }
}

fn cut_group(rt: &impl Abort, alloc: Global) -> WorkedFlash {
    let tags = vec![in alloc;
        tag((0, 1), (1, 0), (1, 1, 1)),
        tag((0, 3), (1, 0), (5, 5, 1)),
        tag((1, 3), (1, 1), (5, 5, 1)),
    ]
    .expect(rt, "memory");
    WorkedFlash {
        what: "a newer group lacks its last page, and has the greatest numbers",
        blocks: vec![in alloc; (2, tags)].expect(rt, "memory"),
        bad: None,
        valid: vec![in alloc; (2, 0)].expect(rt, "memory"),
        newest: vec![in alloc; (2, 0)].expect(rt, "memory"),
        numbers: numbers(5, 5, 1),
    }
}

fn equal_versions(rt: &impl Abort, alloc: Global) -> WorkedFlash {
    let first = vec![in alloc; tag((0, 1), (1, 0), (3, 3, 2))].expect(rt, "memory");
    let copy = vec![in alloc; tag((0, 1), (1, 0), (3, 6, 5))].expect(rt, "memory");
    WorkedFlash {
        what: "a copy of a page, in a block of greater seq",
        blocks: vec![in alloc; (4, first), (3, copy)].expect(rt, "memory"),
        bad: None,
        valid: vec![in alloc; (3, 0), (4, 0)].expect(rt, "memory"),
        newest: vec![in alloc; (3, 0)].expect(rt, "memory"),
        numbers: numbers(3, 6, 5),
    }
}

fn equal_seqs(rt: &impl Abort, alloc: Global) -> WorkedFlash {
    let first = vec![in alloc;
        tag((0, 1), (2, 0), (1, 1, 4)),
        tag((0, 1), (1, 0), (2, 2, 4)),
    ]
    .expect(rt, "memory");
    let other = vec![in alloc;
        tag((0, 1), (1, 0), (2, 3, 4)),
        tag((0, 1), (2, 0), (1, 3, 3)),
    ]
    .expect(rt, "memory");
    WorkedFlash {
        what: "for equal version and seq the later page",
        blocks: vec![in alloc; (1, first), (3, other)].expect(rt, "memory"),
        bad: None,
        valid: vec![in alloc; (1, 0), (1, 1), (3, 0), (3, 1)].expect(rt, "memory"),
        newest: vec![in alloc; (1, 0), (1, 1)].expect(rt, "memory"),
        numbers: numbers(2, 3, 4),
    }
}

fn equal_pages(rt: &impl Abort, alloc: Global) -> WorkedFlash {
    let first = vec![in alloc; tag((0, 1), (1, 0), (2, 5, 4))].expect(rt, "memory");
    let other = vec![in alloc; tag((0, 1), (1, 0), (2, 3, 4))].expect(rt, "memory");
    WorkedFlash {
        what: "for equal version, seq and page the later block",
        blocks: vec![in alloc; (1, first), (3, other)].expect(rt, "memory"),
        bad: None,
        valid: vec![in alloc; (1, 0), (3, 0)].expect(rt, "memory"),
        newest: vec![in alloc; (3, 0)].expect(rt, "memory"),
        numbers: numbers(2, 5, 4),
    }
}

fn bad_block(rt: &impl Abort, alloc: Global) -> WorkedFlash {
    let committed = vec![in alloc; tag((0, 1), (1, 0), (1, 1, 1))].expect(rt, "memory");
    let lost = vec![in alloc; tag((0, 1), (1, 0), (9, 9, 9))].expect(rt, "memory");
    WorkedFlash {
        what: "the newer page stands in a bad block",
        blocks: vec![in alloc; (2, committed), (0, lost)].expect(rt, "memory"),
        bad: Some(0),
        valid: vec![in alloc; (2, 0)].expect(rt, "memory"),
        newest: vec![in alloc; (2, 0)].expect(rt, "memory"),
        numbers: numbers(1, 1, 1),
    }
}

pub(crate) fn broken_off(rt: &impl Abort, alloc: Global) -> WorkedFlash {
    let tags = vec![in alloc;
        tag((1, 2), (1, 0), (1, 1, 1)),
        tag((0, 3), (1, 1), (2, 2, 1)),
        tag((0, 2), (1, 2), (3, 3, 1)),
        tag((1, 2), (1, 1), (3, 3, 1)),
        tag((2, 3), (1, 0), (2, 2, 1)),
        tag((0, 2), (1, 3), (4, 4, 1)),
        tag((1, 2), (1, 4), (5, 5, 1)),
    ]
    .expect(rt, "memory");
    WorkedFlash {
        what: "a group amid another, one with no first page, and pages of different groups",
        blocks: vec![in alloc; (0, tags)].expect(rt, "memory"),
        bad: None,
        valid: vec![in alloc; (0, 2), (0, 3)].expect(rt, "memory"),
        newest: vec![in alloc; (0, 3), (0, 2)].expect(rt, "memory"),
        numbers: numbers(5, 5, 1),
    }
}

fn one_key_twice(rt: &impl Abort, alloc: Global) -> WorkedFlash {
    let tags = vec![in alloc;
        tag((0, 2), (7, 1), (1, 1, 1)),
        tag((1, 2), (7, 1), (1, 1, 1)),
        tag((0, 1), (6, 9), (2, 2, 1)),
    ]
    .expect(rt, "memory");
    WorkedFlash {
        what: "a group that names a key twice",
        blocks: vec![in alloc; (3, tags)].expect(rt, "memory"),
        bad: None,
        valid: vec![in alloc; (3, 0), (3, 1), (3, 2)].expect(rt, "memory"),
        newest: vec![in alloc; (3, 2), (3, 1)].expect(rt, "memory"),
        numbers: numbers(2, 2, 1),
    }
}

pub(crate) fn flashes(rt: &impl Abort, alloc: Global) -> Vec<WorkedFlash> {
    vec![in alloc;
        empty(alloc),
        cut_group(rt, alloc),
        equal_versions(rt, alloc),
        equal_seqs(rt, alloc),
        equal_pages(rt, alloc),
        bad_block(rt, alloc),
        broken_off(rt, alloc),
        one_key_twice(rt, alloc),
    ]
    .expect(rt, "memory")
}

/// A device with the pages of a worked flash, after a power-up.
pub(crate) fn written(rt: &impl Abort, alloc: Global, worked: &WorkedFlash) -> MemNand {
    let mut flash = small(rt, alloc);
    for (block, tags) in &worked.blocks {
        for tag in tags {
            flash.write(*block, tag, 7).expect(rt, "a write");
        }
    }
    if let Some(block) = worked.bad {
        flash.mark_bad(block).expect(rt, "a mark");
    }
    powered_up(flash)
}
