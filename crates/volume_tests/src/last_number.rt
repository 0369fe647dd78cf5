// A flash with the last number, which can be written but for what needs a number more: each command is answered, and the first that
// commits something stops the volume.

use crate::altered::{Patch, WITH_FILE, flash_of};
use crate::rows::expect;
use crate::served::{Served, mount};
use nand_model::MemNand;
use std::alloc::Global;
use std::process::Abort;

/// 2^62 - 1.
const LAST: &[u8] = b"\xff\xff\xff\xff\xff\xff\xff\x3f";

/// Which number of the root's tag is the last: its group's, its block's, or its version and its group's.
const TAGS: [&[Patch]; 3] = [
    &[Patch::Tag(0, 32, LAST)],
    &[Patch::Tag(0, 40, LAST)],
    &[Patch::Tag(0, 24, LAST), Patch::Tag(0, 32, LAST)],
];

/// What nothing is committed for: nothing is changed, or the buffer of eight pages takes it.
const ANSWERED: &str = "sync -> ok
list / -> names 1 a
stat /a -> info file 2 1 5 0
open /a rw -> fd 0
fsync 0 -> ok
read 0 10 -> data 5 hello
seek 0 0 set -> at 0
space -> space 512 144 140
sync -> ok
mkdir /a -> error EEXIST
rmdir /a -> error ENOTDIR
link /a /a -> error EEXIST
unlink / -> error EPERM
rename /a /a -> ok
truncate 0 -1 -> error EINVAL
close 0 -> ok
sync -> ok";

/// Commands that change something, each on a volume of its own.
const CHANGES: [&str; 8] = [
    "mkdir /d -> ok",
    "open /b wc -> fd 0",
    "open /a rwt -> fd 0",
    "open /a rw -> fd 0\nwrite 0 x -> wrote 1",
    "open /a rw -> fd 0\ntruncate 0 600 -> ok",
    "link /a /b -> ok",
    "unlink /a -> ok",
    "rename /a /b -> ok",
];

/// The first three directories are seven pages. There is no room for the fourth before they are committed.
const FILLED: &str =
    "mkdir /b -> ok\nmkdir /c -> ok\nmkdir /d -> ok\nmkdir /e -> error EIO\nlist / -> error EIO";

const STOPPED: &str = "sync -> error EIO\nlist / -> error EIO\nspace -> error EIO";

/// What a mount shows before any change, and after a stop.
const COMMITTED: &str =
    "list / -> names 1 a\nopen /a r -> fd 0\nread 0 10 -> data 5 hello\nspace -> space 512 144 140";

/// A volume that can be written, of one file, on a flash with the last number.
fn mounted(rt: &impl Abort, alloc: Global, tag: &[Patch]) -> Served {
    mount(rt, alloc, flash_of(rt, alloc, &WITH_FILE, 2, tag), 16)
}

/// That the file is there as it was.
fn expect_committed(rt: &impl Abort, alloc: Global, mut nand: MemNand) {
    nand.power_up();
    expect(rt, alloc, &mut mount(rt, alloc, nand, 16), COMMITTED)
}

#[test]
fn what_needs_no_number_is_answered(rt: HostRuntime) {
    let alloc = rt.alloc();
    for tag in TAGS {
        let mut served = mounted(&rt, alloc, tag);
        expect(&rt, alloc, &mut served, ANSWERED);
        let (nand, is_done) = served.unmount();
        assert!(&rt; is_done);
        assert_eq!(&rt; nand.changes(), 0);
        expect_committed(&rt, alloc, nand);
    }
}

/// Issues rows of a volume. It does not unmount then, and a mount shows the file.
fn stop(rt: &impl Abort, alloc: Global, tag: &[Patch], rows: &[&str]) {
    let mut served = mounted(rt, alloc, tag);
    for rows in rows {
        expect(rt, alloc, &mut served, rows);
    }
    let (nand, is_done) = served.unmount();
    assert!(rt; !is_done, "{rows:?}");
    expect_committed(rt, alloc, nand)
}

#[test]
fn a_change_is_answered_and_its_commit_stops_the_volume(rt: HostRuntime) {
    let alloc = rt.alloc();
    for tag in TAGS {
        for change in CHANGES {
            stop(&rt, alloc, tag, &[change, STOPPED]);
            stop(&rt, alloc, tag, &[change]);
        }
        stop(&rt, alloc, tag, &[FILLED]);
    }
}
