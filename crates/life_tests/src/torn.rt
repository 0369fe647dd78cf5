// Volumes that lose what they must keep, and what is seen of sessions on them.
use crate::lines::script;
use exerciser::{Finding, Seen, compare};
use nand_model::Geometry;
use plain_volume::{Answers, PlainTree};
use posix_calls::{Bytes, Command, Errno, FilePath, NameList, Reply, Stamped};
use powercut::SessionEnd;
use std::alloc::{AllocError, Global};
use std::process::Abort;
use volume_terms::VolumeSizes;

/// The reply of what does commands where memory may be refused.
fn reply_of(replied: Result<Reply, AllocError>) -> Reply {
    match replied {
        Ok(reply) => reply,
        Err(_) => Reply::Error(Errno::ENOMEM),
    }
}

/// Answers Done to a sync and keeps nothing of what it covers: a mount shows the tree `held`.
#[derive(Drop)]
struct Forgetful {
    tree: PlainTree,
    committed: PlainTree,
}

impl Answers for Forgetful {
    ghost serves = { λ old command reply new. Unit {0} };

    ghost shows = { λ _ _ _ _. ⊥ };

    fn answer(&mut self, stamped: &Stamped) -> Reply {
        reply_of(self.tree.step(stamped))
    }

    ghost sound = { λ v z read_only s shown. absurd shown };
}

/// A tree as a volume. Where its page of 512 bytes is lost, the second of each file, that page reads as zeros.
#[derive(Drop)]
struct Shown {
    tree: PlainTree,
    is_lost: bool,
}

/// The bytes with zeros for the second page.
fn without_second_page(bytes: Bytes) -> Bytes {
    let mut bytes = bytes.into_vec();
    for (place, byte) in bytes.iter_mut().enumerate() {
        if place / 512 == 1 {
            *byte = 0;
        }
    }
    Bytes::new(bytes)
}

impl Answers for Shown {
    ghost serves = { λ old command reply new. Unit {0} };

    ghost shows = { λ _ _ _ _. ⊥ };

    fn answer(&mut self, stamped: &Stamped) -> Reply {
        match reply_of(self.tree.step(stamped)) {
            Reply::Data(bytes) if self.is_lost => Reply::Data(without_second_page(bytes)),
            reply => reply,
        }
    }

    ghost sound = { λ v z read_only s shown. absurd shown };
}

/// Of a directory x that was renamed to y, the new name is on the flash, and the old one too.
#[derive(Drop)]
struct HalfRenamed {
    alloc: Global,
    tree: PlainTree,
}

/// The command for y in place of the one for x.
fn for_new_name(alloc: Global, command: &Command) -> Result<Option<Command>, AllocError> {
    Ok(match command {
        Command::Stat { path } if path.as_slice() == b"/x".as_slice() => Some(Command::Stat {
            path: FilePath::new(b"/y".to_vec(alloc)?),
        }),
        Command::List { path } if path.as_slice() == b"/x".as_slice() => Some(Command::List {
            path: FilePath::new(b"/y".to_vec(alloc)?),
        }),
        _ => None,
    })
}

/// Both names.
fn both_names(alloc: Global) -> Result<NameList, AllocError> {
    let mut names = Vec::new(alloc);
    names.push(Bytes::new(b"x".to_vec(alloc)?))?;
    names.push(Bytes::new(b"y".to_vec(alloc)?))?;
    Ok(NameList::new(names))
}

impl HalfRenamed {
    fn step(&mut self, stamped: &Stamped) -> Result<Reply, AllocError> {
        if let Command::List { path } = &stamped.command {
            if path.as_slice() == b"/".as_slice() {
                return Ok(Reply::Names(both_names(self.alloc)?));
            }
        }
        match for_new_name(self.alloc, &stamped.command)? {
            Some(command) => self.tree.step(&Stamped { moment: 0, command }),
            None => self.tree.step(stamped),
        }
    }
}

impl Answers for HalfRenamed {
    ghost serves = { λ old command reply new. Unit {0} };

    ghost shows = { λ _ _ _ _. ⊥ };

    fn answer(&mut self, stamped: &Stamped) -> Reply {
        reply_of(self.step(stamped))
    }

    ghost sound = { λ v z read_only s shown. absurd shown };
}

/// The end of a session of these commands on what answers them, in which power is lost after the last.
fn end_of<V: Answers>(
    rt: &impl Abort,
    alloc: Global,
    volume: &mut V,
    commands: &[Stamped],
) -> SessionEnd {
    let mut replies = Vec::new(alloc);
    for stamped in commands {
        replies.push(volume.answer(stamped)).expect(rt, "memory");
    }
    let begun = replies.len() as u64;
    SessionEnd {
        mounted: Ok(()),
        replies,
        begun,
        unmounted: None,
        cut: true,
    }
}

/// The tree after these lines, from an empty one on.
fn tree_after(rt: &impl Abort, alloc: Global, lines: &str) -> PlainTree {
    let mut tree = PlainTree::new(alloc, VolumeSizes::new(512, 32, 8, 1)).expect(rt, "memory");
    for stamped in &script(rt, alloc, lines) {
        let _reply = tree.step(stamped).expect(rt, "memory");
    }
    tree
}

/// What is seen of a session of these commands on this tree, which ended so, where this is shown.
fn seen_of<V: Answers>(
    rt: &impl Abort,
    alloc: Global,
    before: &PlainTree,
    commands: &[Stamped],
    end: &SessionEnd,
    shown: &mut V,
) -> Seen {
    let geometry = Geometry::new(512, 32, 8).expect(rt, "a geometry");
    match compare(alloc, geometry, before, commands, end, shown) {
        Ok(seen) => seen,
        Err(fault) => panic!(rt; "{fault:?}"),
    }
}

/// The device and the end of a session of these lines that begins with the tree after `first`.
fn forgetful_session(
    rt: &impl Abort,
    alloc: Global,
    first: &str,
    commands: &[Stamped],
) -> (Forgetful, SessionEnd) {
    let mut volume = Forgetful {
        tree: tree_after(rt, alloc, first),
        committed: tree_after(rt, alloc, first),
    };
    let end = end_of(rt, alloc, &mut volume, commands);
    (volume, end)
}

#[test]
fn a_sync_that_is_forgotten_tears_the_tree(rt: HostRuntime) {
    let alloc = rt.alloc();
    let commands = script(&rt, alloc, "mkdir /b\nsync\nmkdir /c\n");
    let (volume, end) = forgetful_session(&rt, alloc, "mkdir /a\n", &commands);
    let before = tree_after(&rt, alloc, "mkdir /a\n");
    let mut shown = Shown {
        tree: volume.committed,
        is_lost: false,
    };
    let seen = seen_of(&rt, alloc, &before, &commands, &end, &mut shown);
    assert_eq!(rt; seen.finding(), Finding::Torn);
    let mut shown = Shown {
        tree: volume.tree,
        is_lost: false,
    };
    let seen = seen_of(&rt, alloc, &before, &commands, &end, &mut shown);
    assert_eq!(rt; seen.finding(), Finding::Committed(3));
}

#[test]
fn a_page_that_is_lost_tears_the_tree(rt: HostRuntime) {
    let alloc = rt.alloc();
    let commands = script(
        &rt,
        alloc,
        "open /a rwc\nseek 0 600 set\nwrite 0 hello\nfsync 0\n",
    );
    let (volume, end) = forgetful_session(&rt, alloc, "", &commands);
    let before = tree_after(&rt, alloc, "");
    let mut shown = Shown {
        tree: volume.tree,
        is_lost: true,
    };
    let seen = seen_of(&rt, alloc, &before, &commands, &end, &mut shown);
    assert_eq!(rt; seen.finding(), Finding::Torn);
    shown.is_lost = false;
    let seen = seen_of(&rt, alloc, &before, &commands, &end, &mut shown);
    assert_eq!(rt; seen.finding(), Finding::Committed(4));
}

/// What is shown cannot be made again: no directory has two names.
#[test]
fn half_of_a_rename_tears_the_tree(rt: HostRuntime) {
    let alloc = rt.alloc();
    let commands = script(&rt, alloc, "rename /x /y\n");
    let (volume, end) = forgetful_session(&rt, alloc, "mkdir /x\n", &commands);
    let before = tree_after(&rt, alloc, "mkdir /x\n");
    let mut shown = HalfRenamed {
        alloc,
        tree: volume.tree,
    };
    let seen = seen_of(&rt, alloc, &before, &commands, &end, &mut shown);
    assert!(rt; matches!(seen, Seen::Torn(None)));
}
