// A session that is cut at each of its calls, beside a plain tree.

use crate::devices::{ALL_LEFT, Hit, Left, cut, formatted};
use crate::expected::{Expected, expected_of};
use crate::served::{Served, mount, try_mount};
use nand_model::MemNand;
use plain_volume::Answers;
use posix_calls::{Command, Errno, Reply};
use std::alloc::Global;
use std::process::Abort;

/// Directories and files, syncs, and changes for which the buffer has no room.
pub(crate) const SESSION: &str = "mkdir /a
open /a/f rwc
write 0 hello
sync
now 5
write 0 \\x20world
link /a/f /g
fsync 0
unlink /g
rename /a /b
mkdir /c
mkdir /c/d
open /e wc
write 1 e
mkdir /h
sync
truncate 0 3
unlink /b/f
close 0
rename /e /c/d/e
rmdir /h
list /
mkdir /i
sync";

/// How far a session came: how many commands were answered, and how many of them the last sync covers.
#[derive(Clone, Copy)]
struct Reached {
    covered: usize,
    answered: usize,
}

/// Does the commands of a expected until the volume stops.
fn do_commands(
    rt: &impl Abort,
    alloc: Global,
    served: &mut Served,
    expected: &Expected,
    reached: &mut Reached,
) {
    for stamped in &expected.commands {
        let reply = served.answer(stamped);
        if matches!(reply, Reply::Error(Errno::EIO)) {
            return;
        }
        expected.expect_reply(rt, alloc, reached.answered, &reply);
        reached.answered = reached.answered.saturating_add(1);
        if matches!(stamped.command, Command::Sync | Command::Fsync { .. }) {
            reached.covered = reached.answered;
        }
    }
}

/// Does the session of a expected on a device that may be cut, and gives the device back.
fn do_session(
    rt: &impl Abort,
    alloc: Global,
    nand: MemNand,
    expected: &Expected,
    reached: &mut Reached,
) -> MemNand {
    match try_mount(alloc, nand, 16) {
        Ok(mut served) => {
            do_commands(rt, alloc, &mut served, expected, reached);
            served.abandon()
        }
        Err((nand, _fault)) => nand,
    }
}

/// Whether a mount shows the tree after some of the commands, all that a sync covers among them.
fn shows_tree(
    rt: &impl Abort,
    alloc: Global,
    mut nand: MemNand,
    expected: &Expected,
    reached: Reached,
) -> bool {
    nand.power_up();
    let mut served = mount(rt, alloc, nand, 16);
    expected.has_tree(rt, &mut served, reached.covered, reached.answered)
}

/// Cuts a call of a session, and looks at the tree that is left. Returns whether there is such a call.
fn cut_at(rt: &impl Abort, alloc: Global, nand: &MemNand, expected: &Expected, hit: Hit) -> bool {
    let mut reached = Reached {
        covered: 0,
        answered: 0,
    };
    let nand = cut(rt, alloc, nand, hit);
    let nand = do_session(rt, alloc, nand, expected, &mut reached);
    let is_cut = nand.gone();
    let is_there = shows_tree(rt, alloc, nand, expected, reached);
    assert!(rt; is_there, "{}", hit.call);
    is_cut
}

/// Cuts each call from a number on. Gives the number of the first that is not made.
fn cut_from(
    rt: &impl Abort,
    alloc: Global,
    nand: &MemNand,
    expected: &Expected,
    from: u64,
    left: Left,
) -> u64 {
    for call in from..1000 {
        if !cut_at(rt, alloc, nand, expected, Hit { call, left }) {
            return call;
        }
    }
    panic!(rt; "too many calls")
}

#[test]
fn a_cut_session_leaves_what_was_synced(rt: HostRuntime) {
    let alloc = rt.alloc();
    let nand = formatted(&rt, alloc);
    let expected = expected_of(&rt, alloc, SESSION);
    let mounted = mount(&rt, alloc, nand.copy().expect(&rt, "memory"), 16)
        .abandon()
        .calls();
    // A cut leaves the same of each call that only reads, as those of the mount.
    let mut from = 1;
    for left in ALL_LEFT {
        let end = cut_from(&rt, alloc, &nand, &expected, from, left);
        assert!(rt; mounted < end);
        from = mounted;
    }
}
