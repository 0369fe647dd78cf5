// Whether what a session answered and left is a life's.
use crate::living::{device_of, has_tree, live_through, mounted, shown};
use anyhow::{Result, anyhow};
use line_shell::write_reply;
use nand_model::MemNand;
use plain_volume::PlainTree;
use posix_calls::{Errno, MountFault, Reply, Stamped};
use powercut::{Session, SessionEnd};
use std::alloc::{AllocError, Global};

/// A device, and the tree that a mount of it shows.
#[derive(Drop)]
pub(crate) struct Stage {
    pub(crate) device: MemNand,
    pub(crate) tree: PlainTree,
}

impl Stage {
    /// The same once more.
    pub(crate) fn copy(&self) -> Result<Stage, AllocError> {
        Ok(Stage {
            device: self.device.copy()?,
            tree: self.tree.copy()?,
        })
    }
}

/// What came of a session: the stage after it, how many calls of the device it made from its power-up on, how many of its
/// commands survived, and whether power was lost.
#[derive(Drop)]
pub(crate) struct Judged {
    pub(crate) stage: Stage,
    pub(crate) calls: u64,
    pub(crate) committed: u64,
    pub(crate) cut: bool,
}

/// Whether a mount may end so: it fails by a cut alone.
fn is_mount_end(end: &SessionEnd) -> bool {
    match end.mounted {
        Ok(()) => true,
        Err(MountFault::Gone) => end.cut,
        Err(_) => false,
    }
}

/// Whether it ends by an unmount where that was wanted and there was a mount, which is done unless there was a cut.
fn is_unmount_end(wanted: bool, end: &SessionEnd) -> bool {
    match &end.unmounted {
        None => !wanted || end.mounted.is_err(),
        Some(Reply::Done) => wanted,
        Some(_) => wanted && end.cut,
    }
}

/// How a session may end. All commands are begun unless there was a cut.
fn check_end(session: &Session, end: &SessionEnd) -> Result<()> {
    let all_begun = end.cut || end.replies.len() == session.commands.len();
    if all_begun && is_mount_end(end) && is_unmount_end(session.unmount, end) {
        Ok(())
    } else {
        Err(anyhow!("no session of a life ends so: {end:?}"))
    }
}

/// The text of a reply.
fn text_of(alloc: Global, reply: &Reply) -> Result<Vec<u8>> {
    let mut text = Vec::new(alloc);
    write_reply(&mut text, reply)?;
    Ok(text)
}

/// Does the command in the tree, which is to reply the same. EIO is the answer of a cut alone, and the tree stays.
fn follow(
    alloc: Global,
    tree: &mut PlainTree,
    stamped: &Stamped,
    reply: &Reply,
    cut: bool,
) -> Result<()> {
    if matches!(reply, Reply::Error(Errno::EIO)) && cut {
        return Ok(());
    }
    let wanted = tree.step(stamped)?;
    if text_of(alloc, &wanted)?.as_slice() == text_of(alloc, reply)?.as_slice() {
        Ok(())
    } else {
        Err(anyhow!("{stamped:?}: {reply:?}, not {wanted:?}"))
    }
}

/// The tree after the first commands of a session.
fn tree_after(
    alloc: Global,
    before: &PlainTree,
    session: &Session,
    end: &SessionEnd,
    count: u64,
) -> Result<PlainTree> {
    let mut tree = before.copy()?;
    let answers = session.commands.iter().zip(&end.replies);
    for (stamped, reply) in answers.take(count as usize) {
        follow(alloc, &mut tree, stamped, reply, end.cut)?;
    }
    Ok(tree)
}

/// How many commands the next mount shows: all where the session was unmounted, else a prefix that its syncs cover.
fn count_committed(
    before: &PlainTree,
    all: &PlainTree,
    session: &Session,
    end: &SessionEnd,
    device: MemNand,
    alloc: Global,
) -> Result<(u64, MemNand)> {
    let mut volume = mounted(alloc, device)?;
    let committed = if matches!(end.unmounted, Some(Reply::Done)) {
        has_tree(all, &mut volume)?.then_some(end.begun)
    } else {
        shown(alloc, before, session, end, &mut volume)?
    };
    match committed {
        Some(committed) => Ok((committed, device_of(volume))),
        None => Err(anyhow!("the tree is torn: {end:?}")),
    }
}

/// Lives through a session from a stage on, and returns what came of it. No more blocks than are spare may have failed, at the end
/// too.
pub(crate) fn judge(alloc: Global, stage: Stage, session: &Session) -> Result<Judged> {
    let Stage { device, tree } = stage;
    let (device, end) = live_through(alloc, device, session)?;
    check_end(session, &end)?;
    let calls = device.calls();
    let all = tree_after(alloc, &tree, session, &end, end.begun)?;
    let (committed, device) = count_committed(&tree, &all, session, &end, device, alloc)?;
    let mut tree = tree_after(alloc, &tree, session, &end, committed)?;
    tree.settle()?;
    Ok(Judged {
        stage: Stage { device, tree },
        calls,
        committed,
        cut: end.cut,
    })
}
