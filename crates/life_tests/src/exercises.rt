// Sessions on eight blocks of 32 pages of 512 bytes, lines by hand, and what a session keeps of a tree.
use crate::lines::{formatted, script};
use exerciser::{CutFault, Finding, committed, cut, mount_fault_name, tell};
use line_shell::read_script;
use nand_model::{Geometry, MemNand};
use plain_volume::{Answers, PlainTree};
use posix_calls::{Errno, MountFault, Reply, Stamped, format};
use powercut::SessionEnd;
use std::alloc::Global;
use std::io::{self, Write};
use std::process::Abort;
use volume_terms::VolumeSizes;

const LINES: &str = "open /a rwc\nwrite 0 hello\nseek 0 0 set\nread 0 10\nspace\nfsync 0\n";

fn blank(rt: &impl Abort, alloc: Global) -> MemNand {
    let geometry = Geometry::new(512, 32, 8).expect(rt, "a geometry");
    MemNand::new(alloc, geometry).expect(rt, "memory")
}

/// What is reported of the sessions, and how they end.
fn answers(
    rt: &impl Abort,
    alloc: Global,
    device: MemNand,
    seed: u64,
    sessions: u32,
) -> (String, Result<(), CutFault>) {
    let commands = script(rt, alloc, LINES);
    let mut writer = Vec::new(alloc);
    let ended = cut(alloc, device, commands, seed, sessions, &mut writer);
    (String::from_utf8(writer).expect(rt, "a text"), ended)
}

#[test]
fn each_session_keeps_a_tree(rt: HostRuntime) {
    let alloc = rt.alloc();
    let (text, ended) = answers(&rt, alloc, formatted(&rt, alloc), 1, 20);
    assert_eq!(rt; ended, Ok(()));
    let mut number = 0_u32;
    for line in text.lines() {
        number = number.wrapping_add(1);
        let front = format!(in alloc; "session {number} op ").expect(&rt, "memory");
        assert!(rt; line.starts_with(front.as_str()), "{line}");
        assert!(rt;
            line.contains(" kept ") && line.ends_with(" of 6"),
            "{line}"
        );
    }
    assert_eq!(rt; number, 20);
    let (again, _) = answers(&rt, alloc, formatted(&rt, alloc), 1, 20);
    assert_eq!(rt; again.as_str(), text.as_str());
    let (other, _) = answers(&rt, alloc, formatted(&rt, alloc), 2, 20);
    assert!(rt; other.as_str() != text.as_str());
}

/// A session of these lines makes 80 calls: its mount reads the tags of the 8 first pages for a checkpoint, those of the 32 pages of the
/// root's block and of the first erased one, and the root's header; that header is read once more for the new name; the sync erases a block and programs three pages; and the
/// unmount erases a block and programs the one page of a checkpoint of three entries. The first three sessions are cut in their mounts, by the words 15492934433077865799, 5092013759793669961 and 16206103987400358024 of the seed 1.
#[test]
fn a_call_is_drawn_among_those_of_the_session(rt: HostRuntime) {
    let alloc = rt.alloc();
    let commands = script(&rt, alloc, "mkdir /a\nsync\n");
    let mut writer = Vec::new(alloc);
    let ended = cut(alloc, formatted(&rt, alloc), commands, 1, 3, &mut writer);
    assert_eq!(rt; ended, Ok(()));
    assert_eq!(rt;
        str::from_utf8(&writer).expect(&rt, "a text"),
        "session 1 op 40 kept 0 of 2\nsession 2 op 42 kept 0 of 2\nsession 3 op 25 kept 0 of 2\n"
    );
}

#[test]
fn a_device_without_a_volume_is_not_cut(rt: HostRuntime) {
    let alloc = rt.alloc();
    let (text, ended) = answers(&rt, alloc, blank(&rt, alloc), 1, 1);
    assert_eq!(rt; ended, Err(CutFault::Mount(MountFault::NotAVolume)));
    assert_eq!(rt; text.as_str(), "");
}

/// The line of session 3, cut at call 17, of 6 commands.
fn line(rt: &impl Abort, alloc: Global, finding: Finding) -> String {
    let mut writer = Vec::new(alloc);
    tell(&mut writer, 3, 17, finding, 6).expect(rt, "a line");
    String::from_utf8(writer).expect(rt, "a text")
}

#[test]
fn each_finding_has_its_line(rt: HostRuntime) {
    let alloc = rt.alloc();
    for (finding, text) in [
        (Finding::Committed(0), "session 3 op 17 kept 0 of 6\n"),
        (Finding::Torn, "session 3 op 17 torn\n"),
        (
            Finding::Mount(MountFault::Newer(9)),
            "session 3 op 17 mount Newer\n",
        ),
    ] {
        assert_eq!(rt; line(&rt, alloc, finding).as_str(), text);
    }
    for (fault, name) in [
        (MountFault::Gone, "Gone"),
        (MountFault::NoMemory, "NoMemory"),
        (MountFault::NotAVolume, "NotAVolume"),
        (MountFault::Damaged, "Damaged"),
    ] {
        assert_eq!(rt; mount_fault_name(fault), name.as_bytes());
    }
}

/// Takes twenty bytes.
#[derive(Drop)]
struct Short {
    bytes: [u8; 20],
    count: usize,
}

impl Write for Short {
    fn write(&mut self, buf: &[u8]) -> io::Result<usize> {
        for (taken, byte) in buf.iter().enumerate() {
            if self.count >= 20 {
                return Ok(taken);
            }
            self.bytes[self.count] = *byte;
            self.count += 1;
        }
        Ok(buf.len())
    }

    fn flush(&mut self) -> io::Result<()> {
        Ok(())
    }
}

#[test]
fn a_writer_that_fails_ends_the_sessions(rt: HostRuntime) {
    let alloc = rt.alloc();
    let (text, _) = answers(&rt, alloc, formatted(&rt, alloc), 1, 1);
    let mut writer = Short {
        bytes: [0; 20],
        count: 0,
    };
    let ended = cut(
        alloc,
        formatted(&rt, alloc),
        script(&rt, alloc, LINES),
        1,
        2,
        &mut writer,
    );
    assert_eq!(rt; ended, Err(CutFault::Write));
    assert!(rt; text.as_bytes().starts_with(&writer.bytes));
}

/// A tree as a volume.
#[derive(Drop)]
struct Shown {
    tree: PlainTree,
}

impl Answers for Shown {
    ghost serves = { λ old command reply new. Unit {0} };

    ghost shows = { λ _ _ _ _. ⊥ };

    fn answer(&mut self, stamped: &Stamped) -> Reply {
        match self.tree.step(stamped) {
            Ok(reply) => reply,
            Err(_) => Reply::Error(Errno::ENOMEM),
        }
    }

    ghost sound = { λ v z read_only s shown. absurd shown };
}

fn tree_after(rt: &impl Abort, alloc: Global, lines: &str) -> PlainTree {
    let mut tree = PlainTree::new(alloc, VolumeSizes::new(512, 32, 8, 1)).expect(rt, "memory");
    for stamped in &script(rt, alloc, lines) {
        let _reply = tree.step(stamped).expect(rt, "memory");
    }
    tree
}

/// Of five commands the second is a sync that is done, the fourth changes nothing, and the last was cut.
#[test]
fn the_least_number_is_committed_from_the_last_sync_on(rt: HostRuntime) {
    let alloc = rt.alloc();
    let commands = script(&rt, alloc, "mkdir /a\nsync\nmkdir /b\nrmdir /x\nmkdir /c\n");
    let end = SessionEnd {
        mounted: Ok(()),
        replies: vec![in alloc;
            Reply::Done,
            Reply::Done,
            Reply::Done,
            Reply::Error(Errno::ENOENT),
            Reply::Error(Errno::EIO),
        ]
        .expect(&rt, "memory"),
        begun: 5,
        unmounted: None,
        cut: true,
    };
    let before = tree_after(&rt, alloc, "");
    for (lines, count) in [
        ("", None),
        ("mkdir /a\n", Some(2)),
        ("mkdir /a\nmkdir /b\n", Some(3)),
        ("mkdir /a\nmkdir /b\nmkdir /c\n", None),
        ("mkdir /b\n", None),
    ] {
        let mut volume = Shown {
            tree: tree_after(&rt, alloc, lines),
        };
        assert_eq!(rt;
            committed(alloc, &before, &commands, &end, &mut volume).expect(&rt, "a tree"),
            count,
            "{lines}"
        );
    }
}

/// How two sessions end, where memory lasts until they begin.
fn two_sessions(alloc: Global) -> Option<Result<(), CutFault>> {
    let geometry = Geometry::new(512, 32, 8).ok()?;
    let nand = MemNand::new(alloc, geometry).ok()?;
    let device = format(alloc, nand, 1).ok()?;
    let mut reader = LINES.as_bytes();
    let commands = read_script(alloc, &mut reader).ok()?;
    let mut writer = Vec::new(alloc);
    Some(cut(alloc, device, commands, 1, 2, &mut writer))
}

/// With the tool that refuses one allocation after another, sessions go on, or end for want of memory: no tree is torn, and no
/// volume is lost.
#[test]
fn a_refused_allocation_tears_no_tree(rt: HostRuntime) {
    let ended = two_sessions(rt.alloc());
    assert!(rt;
        matches!(
            ended,
            None | Some(Ok(()) | Err(CutFault::NoMemory | CutFault::Write))
        ),
        "{ended:?}"
    );
}
