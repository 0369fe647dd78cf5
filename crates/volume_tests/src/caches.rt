// How often what is read again calls the device.

use crate::devices::formatted;
use crate::scenarios::Part::{Rows, Turns};
use crate::scenarios::{Part, ask_part, report_part, served_after, tell};
use crate::served::mount_by_itself;
use crate::sessions::HELLO;
use std::alloc::Global;
use std::process::Abort;

const READ: Part = Rows("seek 0 0 set -> at 0\nread 0 10 -> data 5 hello");

const FIRST_PAGE: Part = Rows("seek 0 0 set -> at 0\nread 0 512 -> data 512 [x*512]");

const TWO_PAGES: &str = "open /a rwc -> fd 0
write 0 [x*1024] -> wrote 1024
fsync 0 -> ok
seek 0 0 set -> at 0";

/// A scenario, with rows at its end that read again.
#[derive(Clone, Copy)]
struct Reading {
    scenario: &'static [Part],
    last: Part,
}

/// A file of one page is read twice.
const ONE: Reading = Reading {
    scenario: &[Rows(HELLO), Rows("fsync 0 -> ok"), READ],
    last: READ,
};

/// A file of two pages is read, and its first page once more.
const OTHER: Reading = Reading {
    scenario: &[Rows(TWO_PAGES), Turns(2, "read 0 512 -> data 512 [x*512]")],
    last: FIRST_PAGE,
};

/// Whether the rows at the end call the device, where the cache has so many pages.
const READINGS: [(Reading, usize, bool); 5] = [
    (ONE, 1, false),
    (ONE, 2, false),
    (ONE, 16, false),
    (OTHER, 1, true),
    (OTHER, 2, false),
];

/// The calls of a device in a scenario, which ends with these rows.
fn calls_of(rt: &impl Abort, alloc: Global, reading: Reading, capacity: usize, last: Part) -> u64 {
    let mut served = served_after(rt, alloc, formatted(rt, alloc), capacity, reading.scenario);
    served = report_part(rt, alloc, served, capacity, last);
    served.abandon().calls()
}

#[test]
fn what_is_in_the_cache_is_read_without_a_call(rt: HostRuntime) {
    let alloc = rt.alloc();
    for (reading, capacity, calls) in READINGS {
        let before = calls_of(&rt, alloc, reading, capacity, Rows(""));
        let after = calls_of(&rt, alloc, reading, capacity, reading.last);
        assert_eq!(rt; after > before, calls, "{capacity}");
    }
}

/// The calls of a device on which a file of so many pages is read from its first to its last page, so many times, after a mount.
fn calls_of_turns(rt: &impl Abort, alloc: Global, pages: u32, turns: u32) -> u64 {
    let scenario = [
        Rows("open /a rwc -> fd 0"),
        Turns(pages, "write 0 [x*512] -> wrote 512"),
        Rows("fsync 0 -> ok"),
    ];
    let mut nand = tell(rt, alloc, formatted(rt, alloc), &scenario);
    nand.power_up();
    let mut served = mount_by_itself(rt, alloc, nand);
    ask_part(rt, alloc, &mut served, Rows("open /a r -> fd 0"));
    for _turn in 0..turns {
        ask_part(rt, alloc, &mut served, Rows("seek 0 0 set -> at 0"));
        let read = Turns(pages, "read 0 512 -> data 512 [x*512]");
        ask_part(rt, alloc, &mut served, read);
    }
    served.abandon().calls()
}

/// Sixteen pages stay in the cache of a mount. Of seventeen that are read in turn each one is gone when it is read again.
#[test]
fn a_mount_caches_sixteen_pages(rt: HostRuntime) {
    let alloc = rt.alloc();
    for (pages, calls) in [(16, 0_u64), (17, 17)] {
        let once = calls_of_turns(&rt, alloc, pages, 1);
        let twice = calls_of_turns(&rt, alloc, pages, 2);
        assert_eq!(rt; twice, once.wrapping_add(calls), "{pages}");
    }
}
