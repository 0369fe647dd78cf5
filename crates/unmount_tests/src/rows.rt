// What an unmount writes and a mount reads, by hand, and the cuts of both.

use crate::devices::{FATES, cut, formatted};
use crate::lines::{
    Mounted, answers, expect_counts, lost_session, mounted, session, try_mount, unmount,
};
use crate::search::{checkpoint_bytes, checkpoint_of, expect_entries};
use flash_tree::{Found, Key};
use nand_model::{Fate, MemNand};
use posix_calls::MountFault;
use std::alloc::Global;
use std::process::Abort;
use test_devices::newest;

/// A head of three entries begins so.
const HEAD: [u8; 16] = [0x4e, 0x4c, 0x46, 0x43, 1, 0, 0, 0, 3, 0, 0, 0, 0, 0, 0, 0];

/// That the checkpoint is a page with such a head, and three entries.
fn expect_three_entries(rt: &impl Abort, alloc: Global, nand: &mut MemNand) {
    let bytes = checkpoint_bytes(rt, alloc, nand);
    assert_eq!(rt; bytes.len(), 512);
    assert!(rt; bytes.starts_with(&HEAD));
    expect_entries(rt, alloc, nand, 3)
}

/// The device after the first session.
fn checked(rt: &impl Abort, alloc: Global) -> MemNand {
    let mut nand = session(rt, alloc, formatted(rt, alloc, 8, 1), "mkdir /a", "ok\n");
    assert_eq!(rt; nand.changes(), 6);
    expect_three_entries(rt, alloc, &mut nand);
    nand
}

/// The device after a session that only looks.
fn looked_at(rt: &impl Abort, alloc: Global, nand: MemNand) -> MemNand {
    let nand = mounted(rt, alloc, nand);
    expect_counts(rt, &nand, 12, 0);
    let lines = "list /\nmkdir /a\nopen /a r\nsync";
    let replies = "names 1 a\nerror EEXIST\nfd 0\nok\n";
    let nand = session(rt, alloc, nand, lines, replies);
    assert_eq!(rt; nand.changes(), 0);
    nand
}

/// The device after a session that commits a name more, and has no checkpoint then.
fn committed(rt: &impl Abort, alloc: Global, nand: MemNand) -> MemNand {
    let mut nand = lost_session(rt, alloc, nand, "mkdir /b\nsync", "ok\nok\n");
    assert_eq!(rt; nand.changes(), 4);
    assert_eq!(rt; checkpoint_of(rt, &mut nand), None);
    nand
}

/// That the commit is in the block of the checkpoint, with the number after it.
fn expect_next(rt: &impl Abort, nand: &mut MemNand, found: Found) {
    let root = Key {
        object: 1,
        chunk: 0,
    };
    let header = newest(nand, root)
        .expect(rt, "a search")
        .expect(rt, "no root");
    assert_eq!(rt; header.block, found.block);
    assert_eq!(rt; (found.tag.group, found.tag.seq), (3, 3));
    assert_eq!(rt; (header.tag.group, header.tag.seq), (4, 4));
}

/// A commit is the erase of a block and three programs: the header of the directory, the entry of its name and the header of
/// the root. A checkpoint of three entries is an erase and a program. A mount by it reads the tag of page 0 of each of eight
/// blocks, the page of the checkpoint, and three pages of the tree. The format has the numbers 1, the commit 2, the checkpoint
/// 3; the next commit has 4, and takes the block of the checkpoint.
#[test]
fn a_mount_goes_by_the_checkpoint_of_an_unmount(rt: HostRuntime) {
    let alloc = rt.alloc();
    let mut nand = looked_at(&rt, alloc, checked(&rt, alloc));
    let found = checkpoint_of(&rt, &mut nand).expect(&rt, "no checkpoint");
    let mut nand = committed(&rt, alloc, nand);
    expect_next(&rt, &mut nand, found);
    let lines = "list /\nstat /b";
    let _ = lost_session(&rt, alloc, nand, lines, "names 2 a b\ninfo dir 3 2 0 0\n");
}

/// Mounts a copy of a device, of which a call is cut.
fn mount_cut(
    rt: &impl Abort,
    alloc: Global,
    nand: &MemNand,
    call: u64,
    fate: Fate,
) -> Result<Mounted, (MemNand, MountFault)> {
    let mut nand = nand.copy().expect(rt, "memory");
    nand.power_up();
    try_mount(alloc, cut(rt, alloc, nand, call, fate))
}

/// The same, which is to be mounted.
fn mounted_to_be_cut(
    rt: &impl Abort,
    alloc: Global,
    nand: &MemNand,
    call: u64,
    fate: Fate,
) -> Mounted {
    match mount_cut(rt, alloc, nand, call, fate) {
        Ok(volume) => volume,
        Err((_nand, fault)) => panic!(rt; "{fault:?}"),
    }
}

/// The device after a session of a line and an unmount, of which a call is cut. The device has to be gone.
fn cut_session(
    rt: &impl Abort,
    alloc: Global,
    nand: &MemNand,
    line: &str,
    call: u64,
    fate: Fate,
) -> MemNand {
    let mut volume = mounted_to_be_cut(rt, alloc, nand, call, fate);
    let _answers = answers(rt, alloc, &mut volume, line);
    let (nand, is_done) = unmount(volume);
    assert!(rt; nand.gone() && !is_done, "{call} {fate:?}");
    nand
}

/// That a checkpoint is there, or none.
fn expect_checkpoint(rt: &impl Abort, nand: &mut MemNand, is_whole: bool) {
    assert_eq!(rt; checkpoint_of(rt, nand).is_some(), is_whole);
}

/// That the device has the one name, and takes another one.
fn expect_one_name(rt: &impl Abort, alloc: Global, nand: MemNand) {
    let nand = session(rt, alloc, nand, "list /\nmkdir /b", "names 1 a\nok\n");
    let _ = session(rt, alloc, nand, "list /", "names 2 a b\n");
}

/// Looks at a device on which a checkpoint was cut: a mount goes by it where it is whole.
fn look_after_cut(rt: &impl Abort, alloc: Global, nand: MemNand, is_whole: bool) {
    let mut nand = mounted(rt, alloc, nand);
    assert_eq!(rt; nand.calls() == 12, is_whole);
    expect_checkpoint(rt, &mut nand, is_whole);
    expect_one_name(rt, alloc, nand)
}

/// Cuts the erase, or the program, of the first checkpoint: the names stay, and a mount goes by it where its page is there.
fn cut_checkpoint(rt: &impl Abort, alloc: Global, nand: &MemNand, call: u64, is_program: bool) {
    for fate in FATES {
        let left = cut_session(rt, alloc, nand, "mkdir /a", call, fate);
        look_after_cut(rt, alloc, left, is_program && fate == Fate::New);
    }
}

#[test]
fn a_cut_checkpoint_loses_nothing(rt: HostRuntime) {
    let alloc = rt.alloc();
    let nand = formatted(&rt, alloc, 8, 1);
    let committed = lost_session(
        &rt,
        alloc,
        nand.copy().expect(&rt, "memory"),
        "mkdir /a\nsync",
        "ok\nok\n",
    )
    .calls();
    cut_checkpoint(&rt, alloc, &nand, committed.wrapping_add(1), false);
    cut_checkpoint(&rt, alloc, &nand, committed.wrapping_add(2), true)
}

/// The names after a commit of a second one, which was cut, and after one of a third one.
fn names_left(is_there: bool) -> (&'static str, &'static str) {
    if is_there {
        ("names 2 a b\n", "names 3 a b c\n")
    } else {
        ("names 1 a\n", "names 2 a c\n")
    }
}

/// Looks at a device on which the commit of a second name was cut.
fn look_after_commit(
    rt: &impl Abort,
    alloc: Global,
    nand: MemNand,
    is_there: bool,
    is_whole: bool,
) {
    let (names, more) = names_left(is_there);
    let mut nand = lost_session(rt, alloc, nand, "list /", names);
    expect_checkpoint(rt, &mut nand, is_whole);
    let nand = session(rt, alloc, nand, "mkdir /c", "ok\n");
    let _ = session(rt, alloc, nand, "list /", more);
}

/// Cuts a call of the commit after a checkpoint, the last one or another: it is there where the last program is. The erase is the
/// first call, and leaves a whole checkpoint where it leaves its block.
fn cut_commit(
    rt: &impl Abort,
    alloc: Global,
    nand: &MemNand,
    call: u64,
    is_first: bool,
    is_last: bool,
) {
    for fate in FATES {
        let left = cut_session(rt, alloc, nand, "mkdir /b", call, fate);
        let is_there = is_last && fate == Fate::New;
        look_after_commit(rt, alloc, left, is_there, is_first && fate == Fate::Old);
    }
}

/// The commit is an erase and three programs.
#[test]
fn a_cut_commit_after_a_checkpoint_is_whole_or_not_there(rt: HostRuntime) {
    let alloc = rt.alloc();
    let nand = session(&rt, alloc, formatted(&rt, alloc, 8, 1), "mkdir /a", "ok\n");
    let before = lost_session(
        &rt,
        alloc,
        nand.copy().expect(&rt, "memory"),
        "mkdir /b",
        "ok\n",
    )
    .calls();
    for number in 1..=4u64 {
        let call = before.wrapping_add(number);
        cut_commit(&rt, alloc, &nand, call, number == 1, number == 4);
    }
}

/// A mount whose read is cut leaves the device as it was.
#[test]
fn a_mount_by_a_checkpoint_without_power_is_gone(rt: HostRuntime) {
    let alloc = rt.alloc();
    let nand = session(&rt, alloc, formatted(&rt, alloc, 8, 1), "mkdir /a", "ok\n");
    for call in 1..=13u64 {
        match mount_cut(&rt, alloc, &nand, call, Fate::Old) {
            Ok(_volume) => assert_eq!(rt; call, 13),
            Err((left, fault)) => {
                assert_eq!(rt; (fault, left.changes()), (MountFault::Gone, 0), "{call}");
                expect_counts(&rt, &mounted(&rt, alloc, left), 12, 0);
            }
        }
    }
}

/// The pages of a file that is open without a name are not in a checkpoint: the header of the root alone is, though four pages
/// of the file were committed. A mount by it reads eight tags, the checkpoint and the header.
#[test]
fn an_unlinked_open_file_is_not_in_the_checkpoint(rt: HostRuntime) {
    let alloc = rt.alloc();
    let lines =
        "open /f rwc\nwrite 0 hello\nsync\nunlink /f\nseek 0 0 set\nread 0 9\nmkdir /d\nrmdir /d";
    let replies = "fd 0\nwrote 5\nok\nok\nat 0\ndata 5 hello\nok\nok\n";
    let mut nand = session(&rt, alloc, formatted(&rt, alloc, 8, 1), lines, replies);
    expect_entries(&rt, alloc, &mut nand, 1);
    let nand = mounted(&rt, alloc, nand);
    expect_counts(&rt, &nand, 10, 0);
    let replies = "names 0\nspace 512 144 143\n";
    let _ = session(&rt, alloc, nand, "list /\nspace", replies);
}
