// Trees that are read, made again and compared.
use crate::cuts::{no_objects, volume_over};
use crate::lines::{command_of, commands_of, reply_text};
use object_commands::Volume;
use plain_volume::{PlainObjects, PlainTree, TreeFault};
use posix_profile::{Errno, Stamped};
use std::alloc::Global;
use std::process::Abort;
use volume_terms::VolumeSizes;

/// A directory in a directory, a file with a hole under two names, an empty file, and a number that is free again.
const SMALL: &str = "now 1
mkdir /a
now 2
mkdir /x
now 3
mkdir /a/b
now 4
open /a/b/f rwc
now 5
write 0 hello
seek 0 3000 set
now 7
write 0 z
close 0
now 9
link /a/b/f /g
now 10
open /e rwc
close 0
now 12
rmdir /x";

/// Each changes one thing: a name, the number of names, the links, a byte, the length, the moment, the number.
const CHANGES: [&str; 7] = [
    "now 12\nrename /g /h",
    "now 12\nmkdir /n",
    "now 12\nunlink /g",
    "now 7\nopen /a/b/f rw\nwrite 0 j",
    "now 7\nopen /a/b/f rw\ntruncate 0 3002",
    "open /a/b/f rw\nnow 8\ntruncate 0 3001",
    "now 12\nunlink /e\nnow 10\nopen /e rwc\nnow 12\nrename /e /t\nrename /t /e",
];

/// What goes on from the small tree.
const MORE: &str = "now 20
space
now 21
open /n rwc
now 22
write 0 more
now 23
unlink /g
now 24
rename /a/b /b
now 25
mkdir /a/c
list /
space";

/// A volume in which these commands were done.
fn volume_of(rt: &impl Abort, alloc: Global, lines: &str) -> Volume<PlainObjects> {
    let mut volume = volume_over(rt, alloc, no_objects(rt, alloc), false);
    for stamped in &commands_of(rt, alloc, lines) {
        let _reply = volume.call(stamped);
    }
    volume
}

fn read_back(alloc: Global, volume: &mut Volume<PlainObjects>) -> Result<PlainTree, TreeFault> {
    PlainTree::read_from(alloc, VolumeSizes::new(512, 32, 8, 1), volume)
}

/// The tree of a volume.
fn tree_of(rt: &impl Abort, alloc: Global, volume: &mut Volume<PlainObjects>) -> PlainTree {
    read_back(alloc, volume).expect(rt, "a tree")
}

/// Whether a tree is that of the volume.
fn is_same(rt: &impl Abort, tree: &PlainTree, volume: &mut Volume<PlainObjects>) -> bool {
    tree.same(volume).expect(rt, "a tree")
}

/// Does the commands in a tree.
fn step_all(rt: &impl Abort, alloc: Global, tree: &mut PlainTree, lines: &str) {
    for stamped in &commands_of(rt, alloc, lines) {
        let _reply = tree.step(stamped).expect(rt, "memory");
    }
}

#[test]
fn a_tree_differs_where_one_thing_does(rt: HostRuntime) {
    let alloc = rt.alloc();
    let mut volume = volume_of(&rt, alloc, SMALL);
    let tree = tree_of(&rt, alloc, &mut volume);
    assert!(&rt; is_same(&rt, &tree, &mut volume));
    for change in CHANGES {
        let mut other = tree.copy().expect(&rt, "memory");
        step_all(&rt, alloc, &mut other, change);
        assert!(&rt; !is_same(&rt, &other, &mut volume));
    }
}

/// Does a command in both, which reply the same.
fn step_both(
    rt: &impl Abort,
    alloc: Global,
    tree: &mut PlainTree,
    volume: &mut Volume<PlainObjects>,
    stamped: &Stamped,
) {
    let reply = reply_text(rt, alloc, &tree.step(stamped).expect(rt, "memory"));
    let other = reply_text(rt, alloc, &volume.call(stamped));
    assert_eq!(rt; reply.as_str(), other.as_str());
}

#[test]
fn a_tree_goes_on_as_its_volume(rt: HostRuntime) {
    let alloc = rt.alloc();
    let mut volume = volume_of(&rt, alloc, SMALL);
    let mut tree = tree_of(&rt, alloc, &mut volume);
    for stamped in &commands_of(&rt, alloc, MORE) {
        step_both(&rt, alloc, &mut tree, &mut volume, stamped);
    }
    assert!(&rt; is_same(&rt, &tree, &mut volume));
}

#[test]
fn a_settled_tree_has_what_names_keep(rt: HostRuntime) {
    let alloc = rt.alloc();
    let mut volume = volume_of(&rt, alloc, "");
    let mut tree = PlainTree::new(alloc, VolumeSizes::new(512, 32, 8, 1)).expect(&rt, "memory");
    assert!(&rt; is_same(&rt, &tree, &mut volume));
    step_all(&rt, alloc, &mut tree, "open /e rwc\nunlink /e");
    tree.settle().expect(&rt, "memory");
    assert!(&rt; is_same(&rt, &tree, &mut volume));
    let again = tree_of(&rt, alloc, &mut volume);
    assert!(&rt; is_same(&rt, &again, &mut volume));
}

#[test]
fn a_tree_needs_a_descriptor(rt: HostRuntime) {
    let alloc = rt.alloc();
    let mut volume = volume_of(&rt, alloc, SMALL);
    let open = command_of(&rt, alloc, "now 13\nopen /e r");
    for _ in 0..64 {
        let _reply = volume.call(&open);
    }
    let fault = read_back(alloc, &mut volume).err();
    assert!(&rt; matches!(fault, Some(TreeFault::Refused(Errno::EMFILE))));
}
