// Three sessions that are cut before anything of them counts, and the numbers of what is written after them.

use crate::devices::{Hit, Left, cut, formatted};
use crate::scenarios::Part::Rows;
use crate::scenarios::{Part, tell};
use crate::served::try_mount;
use crate::sessions::HELLO;
use flash_tree::{TagNumbers, tag_at};
use nand_model::{Fate, MemNand, Nand};
use page_tags::Tag;
use posix_calls::MountFault;
use std::alloc::Global;
use std::process::Abort;
use test_devices::greatest;

/// Each page reads as before.
const OLD: Left = &[Fate::Old];

const MADE: Part = Rows("mkdir /z -> ok");

const STOPPED: Part = Rows("sync -> error EIO");

const COMMITTED: Part = Rows("fsync 0 -> ok");

/// The device after a session whose sync is cut at this call.
fn cut_at(rt: &impl Abort, alloc: Global, nand: &MemNand, call: u64) -> MemNand {
    let nand = cut(rt, alloc, nand, Hit { call, left: OLD });
    let nand = tell(rt, alloc, nand, &[MADE, STOPPED]);
    assert!(rt; nand.gone());
    nand
}

/// The device after a session whose mount is cut at its first call.
fn cut_in_mount(rt: &impl Abort, alloc: Global, nand: &MemNand) -> MemNand {
    match try_mount(alloc, cut(rt, alloc, nand, Hit { call: 1, left: OLD }), 16) {
        Ok(_served) => panic!(rt; "a mount without power"),
        Err((nand, fault)) => {
            assert_eq!(rt; fault, MountFault::Gone);
            nand
        }
    }
}

/// The call of a session at which its sync erases a block: the one after those of its mount and of a command.
fn erase_of(rt: &impl Abort, alloc: Global, nand: &MemNand) -> u64 {
    let mut nand = nand.copy().expect(rt, "memory");
    nand.power_up();
    tell(rt, alloc, nand, &[MADE]).calls().saturating_add(1)
}

/// The device after three sessions on a formatted one: one that is cut in its second program, one in its erase, and one in
/// its mount.
fn cut_three_times(rt: &impl Abort, alloc: Global) -> MemNand {
    let nand = formatted(rt, alloc);
    let program = erase_of(rt, alloc, &nand).saturating_add(2);
    let nand = cut_at(rt, alloc, &nand, program);
    let erase = erase_of(rt, alloc, &nand);
    let nand = cut_at(rt, alloc, &nand, erase);
    let mut nand = cut_in_mount(rt, alloc, &nand);
    nand.power_up();
    nand
}

/// The valid tags of eight blocks of 32 pages.
fn tags_of(rt: &impl Abort, alloc: Global, nand: &mut MemNand) -> Vec<Tag> {
    let mut tags = Vec::new(alloc);
    for place in 0..256u32 {
        let (block, page) = (place / 32, place % 32);
        let geometry = nand.geometry();
        assert!(rt; block < geometry.blocks() && page < geometry.pages());
        if let Some(tag) = tag_at(nand, block, page).expect(rt, "a tag") {
            tags.push(tag).expect(rt, "memory");
        }
    }
    tags
}

/// Whether all numbers of a tag are above these.
fn is_above(tag: &Tag, numbers: TagNumbers) -> bool {
    tag.version > numbers.version && tag.group > numbers.group && tag.seq > numbers.seq
}

/// How many tags have only numbers above these.
fn count_above(tags: &[Tag], numbers: TagNumbers) -> u32 {
    let mut count = 0u32;
    for tag in tags {
        if is_above(tag, numbers) {
            count = count.saturating_add(1);
        }
    }
    count
}

/// Two pages can be read after the three sessions: the header of the root, and the first page of the group that was cut. The
/// four pages of the next group have numbers above those of both.
#[test]
fn cut_sessions_leave_nothing_but_their_numbers(rt: HostRuntime) {
    let alloc = rt.alloc();
    let mut nand = cut_three_times(&rt, alloc);
    assert_eq!(rt; tags_of(&rt, alloc, &mut nand).len(), 2);
    let before = greatest(&mut nand).expect(&rt, "a search");
    let mut nand = tell(&rt, alloc, nand, &[Rows(HELLO), COMMITTED]);
    let tags = tags_of(&rt, alloc, &mut nand);
    assert_eq!(rt; count_above(&tags, before), 4);
}
