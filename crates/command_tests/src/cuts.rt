// Runs that are cut off at each of their calls: what was committed is a tree that a loss may leave.
use crate::committed::CommittedObjects;
use crate::fuse::{FusedStore, LastCall};
use crate::lines::{commands_of, reply_text};
use object_commands::Volume;
use plain_volume::PlainObjects;
use posix_profile::{Access, Command, Errno, FilePath, OpenFlags, Reply, Stamped};
use std::alloc::Global;
use std::process::Abort;
use volume_terms::VolumeSizes;

/// The commands, with rising moments.
const SESSION: &str = "now 1
mkdir /a
now 2
open /a/f rwc
now 3
write 0 hello
sync
now 5
write 0 \\x20world
now 6
link /a/f /g
fsync 0
now 8
unlink /g
now 9
rename /a /b
now 10
mkdir /c
sync
now 12
truncate 0 3
now 13
unlink /b/f
read 0 9
close 0
now 16
rmdir /c
list /
sync";

pub(crate) fn no_objects(rt: &impl Abort, alloc: Global) -> PlainObjects {
    PlainObjects::new(alloc, VolumeSizes::new(512, 32, 8, 1)).expect(rt, "memory")
}

/// A volume over these maps, with no descriptor open.
pub(crate) fn volume_over(
    rt: &impl Abort,
    alloc: Global,
    objects: PlainObjects,
    read_only: bool,
) -> Volume<PlainObjects> {
    match Volume::new(alloc, objects, read_only) {
        Ok(volume) => volume,
        Err((_objects, error)) => panic!(rt; "{error:?}"),
    }
}

fn path_of(rt: &impl Abort, alloc: Global, path: &[u8]) -> FilePath {
    FilePath::new(path.to_vec(alloc).expect(rt, "memory"))
}

fn answers(volume: &mut Volume<PlainObjects>, command: Command) -> Reply {
    volume.call(&Stamped { moment: 0, command })
}

/// What is answered of the bytes of a file.
fn bytes_text(
    rt: &impl Abort,
    alloc: Global,
    volume: &mut Volume<PlainObjects>,
    path: &[u8],
) -> String {
    let path = path_of(rt, alloc, path);
    let flags = OpenFlags {
        access: Access::Read,
        create: false,
        excl: false,
        trunc: false,
        append: false,
    };
    let _fd = answers(volume, Command::Open { path, flags });
    let bytes = answers(volume, Command::Read { fd: 0, count: 4096 });
    let _done = answers(volume, Command::Close { fd: 0 });
    reply_text(rt, alloc, &bytes)
}

/// The path of a name in a directory.
fn path_below(rt: &impl Abort, alloc: Global, path: &[u8], name: &[u8]) -> Vec<u8> {
    let mut below = path.to_vec(alloc).expect(rt, "memory");
    below.push(b'/').expect(rt, "memory");
    below.extend_from_slice(name).expect(rt, "memory");
    below
}

/// What is answered of the names of a directory, whose paths are added to these, or of the bytes of a file.
fn contents_text(
    rt: &impl Abort,
    alloc: Global,
    volume: &mut Volume<PlainObjects>,
    path: &[u8],
    paths: &mut Vec<Vec<u8>>,
) -> String {
    let list = Command::List {
        path: path_of(rt, alloc, path),
    };
    match answers(volume, list) {
        Reply::Names(names) => {
            for name in names.as_slice() {
                let below = path_below(rt, alloc, path, name.as_slice());
                paths.push(below).expect(rt, "memory");
            }
            reply_text(rt, alloc, &Reply::Names(names))
        }
        _ => bytes_text(rt, alloc, volume, path),
    }
}

/// What is answered of an object. The paths of what a directory names are added to these.
fn object_text(
    rt: &impl Abort,
    alloc: Global,
    volume: &mut Volume<PlainObjects>,
    path: &[u8],
    paths: &mut Vec<Vec<u8>>,
) -> String {
    let stat = Command::Stat {
        path: path_of(rt, alloc, path),
    };
    let info = reply_text(rt, alloc, &answers(volume, stat));
    let contents = contents_text(rt, alloc, volume, path, paths);
    format!(in alloc; "{info} {contents}\n").expect(rt, "memory")
}

/// What a tree of at most 50 objects holds: what is answered of each.
fn tree_text(rt: &impl Abort, alloc: Global, objects: PlainObjects) -> String {
    let mut volume = volume_over(rt, alloc, objects, true);
    let mut text = String::new(alloc);
    let mut paths = Vec::new(alloc);
    paths
        .push(b"/".to_vec(alloc).expect(rt, "memory"))
        .expect(rt, "memory");
    for _ in 0..50 {
        match paths.pop() {
            Some(path) => {
                let object = object_text(rt, alloc, &mut volume, &path, &mut paths);
                text.push_str(&object).expect(rt, "memory");
            }
            None => return text,
        }
    }
    text
}

/// The tree that a mount of the volume would show.
fn shown_text(rt: &impl Abort, alloc: Global, volume: &Volume<PlainObjects>) -> String {
    let shown = volume.store().settled().expect(rt, "memory");
    tree_text(rt, alloc, shown)
}

/// The trees before the first command and after each one, as a mount would show them.
fn trees_of(rt: &impl Abort, alloc: Global, commands: &[Stamped]) -> Vec<String> {
    let mut volume = volume_over(rt, alloc, no_objects(rt, alloc), false);
    let mut trees = Vec::new(alloc);
    let first = shown_text(rt, alloc, &volume);
    trees.push(first).expect(rt, "memory");
    for command in commands {
        let _reply = volume.call(command);
        let tree = shown_text(rt, alloc, &volume);
        trees.push(tree).expect(rt, "memory");
    }
    trees
}

/// A volume whose device is lost after so many calls.
fn fused_volume(
    rt: &impl Abort,
    alloc: Global,
    calls: u64,
    last: LastCall,
) -> Volume<FusedStore<CommittedObjects>> {
    let inner = CommittedObjects::new(no_objects(rt, alloc)).expect(rt, "memory");
    match Volume::new(alloc, FusedStore { inner, calls, last }, false) {
        Ok(volume) => volume,
        Err((_store, error)) => panic!(rt; "{error:?}"),
    }
}

/// What is left of a run, and what it answered.
fn cut_run(
    rt: &impl Abort,
    alloc: Global,
    commands: &[Stamped],
    calls: u64,
    last: LastCall,
) -> (Vec<Reply>, String) {
    let mut volume = fused_volume(rt, alloc, calls, last);
    let mut replies = Vec::new(alloc);
    volume.run(commands, &mut replies).expect(rt, "memory");
    let FusedStore {
        inner,
        calls: _,
        last: _,
    } = volume.into_store();
    let CommittedObjects { objects: _, shown } = inner;
    (replies, tree_text(rt, alloc, shown))
}

fn is_stop(reply: &Reply) -> bool {
    matches!(reply, Reply::Error(Errno::EIO))
}

fn is_synced(command: &Command, reply: &Reply) -> bool {
    matches!(command, Command::Sync | Command::Fsync { .. }) && matches!(reply, Reply::Done)
}

/// How many commands are covered by a sync that is done.
fn covered(commands: &[Stamped], replies: &[Reply]) -> usize {
    let mut covered = 0;
    for (i, (stamped, reply)) in commands.iter().zip(replies).enumerate() {
        if is_synced(&stamped.command, reply) {
            covered = i + 1;
        }
    }
    covered
}

/// How many commands were answered before the device was lost.
fn answered(replies: &[Reply]) -> usize {
    replies.iter().take_while(|reply| !is_stop(reply)).count()
}

/// Whether a tree is one of those between two places, both with them.
fn is_among(trees: &[String], from: usize, to: usize, left: &str) -> bool {
    let mut is_left = false;
    for (k, tree) in trees.iter().enumerate() {
        if from <= k && k <= to && tree.as_str() == left {
            is_left = true;
        }
    }
    is_left
}

/// Cuts the run off at a call, looks at what is left, and returns whether there was such a call.
fn cut_at(
    rt: &impl Abort,
    alloc: Global,
    commands: &[Stamped],
    trees: &[String],
    calls: u64,
    last: LastCall,
) -> bool {
    let (replies, left) = cut_run(rt, alloc, commands, calls, last);
    let from = covered(commands, &replies);
    let to = answered(&replies);
    assert!(rt; is_among(trees, from, to, &left));
    assert_eq!(rt; replies.len(), commands.len());
    to < commands.len()
}

#[test]
fn what_a_cut_leaves_is_the_tree_after_some_commands(rt: HostRuntime) {
    let alloc = rt.alloc();
    let commands = commands_of(&rt, alloc, SESSION);
    let trees = trees_of(&rt, alloc, &commands);
    let mut cuts = 0u64;
    for calls in 0..100 {
        let before = cut_at(&rt, alloc, &commands, &trees, calls, LastCall::NotDone);
        let after = cut_at(&rt, alloc, &commands, &trees, calls, LastCall::Done);
        assert_eq!(&rt; before, after);
        if before {
            cuts = calls + 1;
        }
    }
    assert_eq!(&rt; cuts, 31);
}
