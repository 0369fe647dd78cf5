// The commands that a cut session held.
ghost use Rattle.std.specs.Prelude.{◌≡◌, ◌≤◌, ℕ, length, take, IfOk, IfSome, OnOk, OnErr};
ghost use Rattle.posix_profile.specs.Losses.{is_synced, Covers};
ghost use Rattle.posix_profile.specs.WellFormed.{IsTree};
ghost use Rattle.plain_volume.specs.Lists.{Lists};
ghost use Rattle.exerciser.specs.Keeping.{after_reported, after_all_reported, shown_after, IsLeast, IsDurable};

use plain_volume::{Answers, PlainTree, TreeFault, TreeList};
use posix_profile::{Command, Errno, Reply, Stamped};
use powercut::SessionEnd;
use std::alloc::{AllocError, Global};

/// Whether it is a sync that is done.
fn is_synced(command: &Command, reply: &Reply) -> bool
    ensures { result ≡ is_synced command.now reply.now }
{
    matches!(
        (command, reply),
        (Command::Fsync { .. } | Command::Sync, Reply::Done)
    )
}

/// How many of the commands are those up to the last sync that is done.
fn covered(script: &[Stamped], replies: &[Reply]) -> usize
    ensures covers { Covers script.now replies.now result }
    ensures least { (k : ℕ) → Covers script.now replies.now k → result ≤ k }
    ensures begun { result ≤ length replies.now }
    ensures within { result ≤ length script.now }
{
    let mut covered = 0;
    for place in 0..script.len().min(replies.len()) {
        if is_synced(&script[place].command, &replies[place]) {
            covered = place + 1;
        }
    }
    covered
}

/// Does a command that was answered in the tree; one that was refused memory, that the stop answered, or that a read-only volume
/// refused, is passed over.
fn follow(tree: &mut PlainTree, stamped: &Stamped, reply: &Reply) -> Result<(), AllocError>
    ensures sizes { tree.new.sizes ≡ tree.old.sizes }
    ensures read_only { tree.new.read_only ≡ tree.old.read_only }
    ensures state { OnOk result (tree.new.state ≡ after_reported tree.old.sizes tree.old.read_only tree.old.state stamped.now reply.now) }
    ensures memory { OnErr result (tree.new.state ≡ tree.old.state) }
{
    match reply {
        Reply::Error(Errno::ENOMEM | Errno::EIO | Errno::EROFS) => Ok(()),
        _ => {
            let _reply = tree.step(stamped)?;
            Ok(())
        }
    }
}

/// Does the first so many commands in the tree, in turn, as they were answered.
fn follow_first(
    tree: &mut PlainTree,
    script: &[Stamped],
    replies: &[Reply],
    count: usize,
) -> Result<(), AllocError>
    requires issued { count ≤ length script.now }
    requires answered { count ≤ length replies.now }
    ensures sizes { tree.new.sizes ≡ tree.old.sizes }
    ensures read_only { tree.new.read_only ≡ tree.old.read_only }
    ensures state { OnOk result (tree.new.state ≡ after_all_reported tree.old.sizes tree.old.read_only tree.old.state script.now (take count replies.now)) }
{
    for place in 0..count {
        follow(tree, &script[place], &replies[place])?;
    }
    Ok(())
}

/// The least number of commands of a session that was answered so after which the list is read of what a mount shows: from those
/// that a done sync covers to those that were answered. `before` is the tree before the session. None where there is no such number.
pub(crate) fn least_committed(
    before: &PlainTree,
    script: &[Stamped],
    replies: &[Reply],
    list: &TreeList,
) -> Result<Option<u64>, TreeFault>
    ensures covers { IfOk result (λ found. IfSome found (λ k. Covers script.now replies.now k)) }
    ensures begun { IfOk result (λ found. IfSome found (λ k. k ≤ length replies.now)) }
    ensures within { IfOk result (λ found. IfSome found (λ k. k ≤ length script.now)) }
    ensures least { IfOk result (IsLeast before.now script.now replies.now (Lists list.now)) }
    ensures shows { IfOk result (λ found. IfSome found (λ k. IsTree before.now.sizes (shown_after before.now script.now replies.now k))) }
{
    let mut tree = before.copy()?;
    let covered = covered(script, replies);
    follow_first(&mut tree, script, replies, covered)?;
    let answered = script.len().min(replies.len());
    for done in covered..answered + 1 {
        if tree.has(list)? {
            return Ok(Some(done as u64));
        }
        if done < answered {
            follow(&mut tree, &script[done], &replies[done])?;
        }
    }
    Ok(None)
}

/// The least number of commands of a session after which its tree is that of the volume: from those that a done sync covers
/// to those that were begun. `before` is the tree before the session, and `end` how the session ended of these
/// commands; those answered ENOMEM, EIO or EROFS change nothing. None where there is no such number. The volume, which needs a free
/// descriptor, is read by its commands and not changed.
pub fn committed<V: Answers>(
    alloc: Global,
    before: &PlainTree,
    script: &[Stamped],
    end: &SessionEnd,
    volume: &mut V,
) -> Result<Option<u64>, TreeFault>
    ensures covers { IfOk result (λ found. IfSome found (λ k. Covers script.now end.now.replies.items k)) }
    ensures begun { IfOk result (λ found. IfSome found (λ k. k ≤ length end.now.replies.items)) }
    ensures within { IfOk result (λ found. IfSome found (λ k. k ≤ length script.now)) }
    ensures least { IfOk result (IsDurable V.shows volume.old before.now script.now end.now.replies.items) }
{
    let list = TreeList::read(alloc, volume)?;
    least_committed(before, script, &end.replies, &list)
}
