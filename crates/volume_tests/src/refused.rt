// Sessions in which memory may be refused: what is refused is not done, and the same call again is answered.

use crate::devices::formatted;
use crate::expected::{Expected, commands_of, expected_of, new_tree, step, text_of};
use crate::power_losses::SESSION;
use crate::served::{Served, mount, try_mount};
use nand_model::MemNand;
use plain_volume::{Answers, PlainTree};
use posix_calls::{Errno, MountFault, Reply, Stamped};
use std::alloc::Global;
use std::process::Abort;

/// A file that is written and read.
pub(crate) const FILE: &str = "open /a rwc
write 0 hello
seek 0 0 set
read 0 10
space";

/// Directories that are moved and taken away, one of them while it is open.
pub(crate) const TREE: &str = "mkdir /a
mkdir /b
mkdir /a/c
stat /a
rename /a/c /b/c
stat /a
stat /b/c/..
rename /b /b/c/x
mkdir /d
rename /b/c /d
stat /d
open /d r
rmdir /d
mkdir /d/x
mkdir /e
stat /e
close 0
mkdir /f
stat /f";

/// Mounts a device, once more where memory is refused.
fn mount_again(rt: &impl Abort, alloc: Global, nand: MemNand) -> Served {
    match try_mount(alloc, nand, 16) {
        Ok(served) => served,
        Err((nand, fault)) => {
            assert_eq!(rt; fault, MountFault::NoMemory);
            mount(rt, alloc, nand, 16)
        }
    }
}

/// Does a command of the expected. Where memory is refused the tree stays, and it is done once more.
fn call_again(
    rt: &impl Abort,
    alloc: Global,
    served: &mut Served,
    expected: &Expected,
    number: usize,
) {
    let stamped = expected.commands.get(number).expect(rt, "no such command");
    let mut reply = served.answer(stamped);
    if matches!(reply, Reply::Error(Errno::ENOMEM)) {
        assert!(rt; expected.has_tree(rt, served, number, number), "{number}");
        reply = served.answer(stamped);
    }
    expected.expect_reply(rt, alloc, number, &reply)
}

/// How a session ends: by an unmount, after which a mount goes by a checkpoint, or without one.
#[derive(Clone, Copy, PartialEq, Eq)]
enum End {
    Unmount,
    Abandon,
}

/// Does a session of these lines, call by call, ends it, and mounts its device again.
fn do_calls(rt: &impl Abort, alloc: Global, lines: &str, end: End) {
    let nand = formatted(rt, alloc);
    let expected = expected_of(rt, alloc, lines);
    let count = expected.commands.len();
    let mut served = mount_again(rt, alloc, nand);
    for number in 0..count {
        call_again(rt, alloc, &mut served, &expected, number);
    }
    let (mut nand, is_done) = match end {
        End::Unmount => served.unmount(),
        End::Abandon => (served.abandon(), true),
    };
    assert!(rt; is_done);
    nand.power_up();
    let mut served = mount_again(rt, alloc, nand);
    assert!(rt; expected.has_tree(rt, &mut served, count, count));
}

// Run these with each allocation refused in turn.
/// The session ends with a sync.
#[test]
fn what_is_refused_memory_is_done_by_the_next_call(rt: HostRuntime) {
    do_calls(&rt, rt.alloc(), SESSION, End::Abandon)
}

#[test]
fn a_file_is_refused_memory(rt: HostRuntime) {
    do_calls(&rt, rt.alloc(), FILE, End::Unmount)
}

#[test]
fn a_tree_is_refused_memory(rt: HostRuntime) {
    do_calls(&rt, rt.alloc(), TREE, End::Unmount)
}

/// Does the commands in a run, and once more those that it did not begin.
fn run_again(rt: &impl Abort, served: &mut Served, replies: &mut Vec<Reply>, commands: &[Stamped]) {
    if served.run(commands, replies).is_ok() {
        return;
    }
    let rest = commands.get(replies.len()..).expect(rt, "too many replies");
    served.run(rest, replies).expect(rt, "memory");
}

/// Looks whether a tree answers the same to each command, but for those that were refused memory, which it leaves out.
fn expect_replies(
    rt: &impl Abort,
    alloc: Global,
    tree: &mut PlainTree,
    commands: &[Stamped],
    replies: &[Reply],
) {
    assert_eq!(rt; replies.len(), commands.len());
    for (stamped, reply) in commands.iter().zip(replies) {
        if !matches!(reply, Reply::Error(Errno::ENOMEM)) {
            let wanted = step(rt, alloc, tree, stamped);
            assert_eq!(rt;
                text_of(rt, alloc, reply).as_str(),
                wanted.as_str(),
                "{stamped:?}"
            );
        }
    }
}

/// The same commands as one list.
#[test]
fn a_run_reports_what_its_commands_do(rt: HostRuntime) {
    let alloc = rt.alloc();
    let mut replies = Vec::new(alloc);
    let mut served = mount(&rt, alloc, formatted(&rt, alloc), 16);
    served
        .run(&commands_of(&rt, alloc, FILE), &mut replies)
        .expect(&rt, "memory");
    let mut answers = String::new(alloc);
    for reply in &replies {
        answers
            .push_str(&text_of(&rt, alloc, reply))
            .expect(&rt, "memory");
    }
    assert_eq!(&rt;
        answers.as_str(),
        "fd 0\nwrote 5\nat 0\ndata 5 hello\nspace 512 144 140\n"
    );
}

#[test]
fn a_run_that_is_refused_memory_goes_on(rt: HostRuntime) {
    let alloc = rt.alloc();
    let commands = commands_of(&rt, alloc, TREE);
    let mut tree = new_tree(&rt, alloc);
    let mut replies = Vec::new(alloc);
    let mut served = mount_again(&rt, alloc, formatted(&rt, alloc));
    run_again(&rt, &mut served, &mut replies, &commands);
    expect_replies(&rt, alloc, &mut tree, &commands, &replies);
    assert!(&rt; tree.same(&mut served).expect(&rt, "a tree"));
}
