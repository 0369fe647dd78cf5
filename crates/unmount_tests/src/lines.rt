// Volumes that answer lines of a shell.

use line_shell::{read_script, write_reply};
use nand_model::MemNand;
use plain_volume::PlainTree;
use posix_calls::{MountFault, Reply, Stamped, Volume};
use std::alloc::Global;
use std::process::Abort;

/// A volume on a device in memory.
pub(crate) type Mounted = Volume<MemNand>;

// What these four call promises much, which is not said again, so that what calls them is checked fast.

/// Mounts a device as it is.
pub(crate) fn try_mount(alloc: Global, nand: MemNand) -> Result<Mounted, (MemNand, MountFault)> {
    Volume::mount(alloc, nand)
}

fn answer(volume: &mut Mounted, stamped: &Stamped) -> Reply {
    volume.call(stamped)
}

/// Gives the device back as it is.
pub(crate) fn abandon(volume: Mounted) -> MemNand {
    volume.abandon()
}

/// Unmounts, and returns whether the reply is Done.
pub(crate) fn unmount(volume: Mounted) -> (MemNand, bool) {
    let (nand, reply) = volume.unmount();
    (nand, matches!(reply, Reply::Done))
}

/// Mounts a device as it is, and fails where it is no volume.
pub(crate) fn mount_as_it_is(rt: &impl Abort, alloc: Global, nand: MemNand) -> Mounted {
    match try_mount(alloc, nand) {
        Ok(volume) => volume,
        Err((_nand, fault)) => panic!(rt; "{fault:?}"),
    }
}

/// Mounts a device after a power-up.
pub(crate) fn mount(rt: &impl Abort, alloc: Global, mut nand: MemNand) -> Mounted {
    nand.power_up();
    mount_as_it_is(rt, alloc, nand)
}

/// The same by all tags.
pub(crate) fn mount_scanned(rt: &impl Abort, alloc: Global, mut nand: MemNand) -> Mounted {
    nand.power_up();
    match Volume::mount_scanned(alloc, nand) {
        Ok(volume) => volume,
        Err((_nand, fault)) => panic!(rt; "{fault:?}"),
    }
}

/// The device after a mount and no command.
pub(crate) fn mounted(rt: &impl Abort, alloc: Global, nand: MemNand) -> MemNand {
    abandon(mount(rt, alloc, nand))
}

/// That a device counts so many calls and changes since its power-up.
pub(crate) fn expect_counts(rt: &impl Abort, nand: &MemNand, calls: u64, changes: u64) {
    assert_eq!(rt; (nand.calls(), nand.changes()), (calls, changes));
}

/// What a volume answers to these lines.
pub(crate) fn answers(
    rt: &impl Abort,
    alloc: Global,
    volume: &mut Mounted,
    lines: &str,
) -> Vec<u8> {
    let mut answers = Vec::new(alloc);
    for stamped in &script(rt, alloc, lines) {
        write_reply(&mut answers, &answer(volume, stamped)).expect(rt, "a reply");
    }
    answers
}

fn expect_answers(rt: &impl Abort, answers: &[u8], replies: &str) {
    assert_eq!(rt; str::from_utf8(answers).expect(rt, "a text"), replies);
}

/// The volume of a device after these lines, which are to be answered by these replies.
pub(crate) fn answered_by(
    rt: &impl Abort,
    alloc: Global,
    nand: MemNand,
    lines: &str,
    replies: &str,
) -> Mounted {
    let mut volume = mount(rt, alloc, nand);
    let answers = answers(rt, alloc, &mut volume, lines);
    expect_answers(rt, &answers, replies);
    volume
}

/// The device after such a session, which ends with an unmount.
pub(crate) fn session(
    rt: &impl Abort,
    alloc: Global,
    nand: MemNand,
    lines: &str,
    replies: &str,
) -> MemNand {
    let (nand, is_done) = unmount(answered_by(rt, alloc, nand, lines, replies));
    assert!(rt; is_done, "{lines}");
    nand
}

/// The device after such a session, which ends as if power were lost.
pub(crate) fn lost_session(
    rt: &impl Abort,
    alloc: Global,
    nand: MemNand,
    lines: &str,
    replies: &str,
) -> MemNand {
    abandon(answered_by(rt, alloc, nand, lines, replies))
}

/// The commands of a text of lines.
fn script(rt: &impl Abort, alloc: Global, lines: &str) -> Vec<Stamped> {
    let mut reader = lines.as_bytes();
    read_script(alloc, &mut reader).expect(rt, "a script")
}

/// Does these lines to a tree.
pub(crate) fn step_all(rt: &impl Abort, alloc: Global, tree: &mut PlainTree, lines: &str) {
    for stamped in &script(rt, alloc, lines) {
        let _reply = tree.step(stamped).expect(rt, "memory");
    }
}

/// The tree after these lines.
pub(crate) fn stepped(rt: &impl Abort, alloc: Global, tree: &PlainTree, lines: &str) -> PlainTree {
    let mut tree = tree.copy().expect(rt, "memory");
    step_all(rt, alloc, &mut tree, lines);
    tree
}
