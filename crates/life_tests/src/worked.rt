// Sessions of one file, worked by hand: three of them are cut before it, or one is cut where a block is collected.
use crate::lines::{answers, formatted, live_through, script};
use flash_tree::{Key, TagNumbers};
use nand_model::{Fate, MemNand};
use posix_calls::MountFault;
use powercut::{Session, SessionEnd};
use std::alloc::Global;
use std::process::Abort;
use test_devices::{greatest, newest};

/// A file of five bytes, and what is answered.
const HELLO: &str = "open /a rwc\nwrite 0 hello\nseek 0 0 set\nread 0 10\nspace\nfsync 0\n";

const HELLO_ANSWERS: &str = "fd 0\nwrote 5\nat 0\ndata 5 hello\nspace 512 144 140\nok\n";

/// A session of a text of lines, which is abandoned at its end. Its power may go at a call.
fn session(rt: &impl Abort, alloc: Global, lines: &str, fuse: Option<(u64, &[Fate])>) -> Session {
    let fuse = match fuse {
        Some((call, fates)) => Some((call, fates.to_vec(alloc).expect(rt, "memory"))),
        None => None,
    };
    Session {
        commands: script(rt, alloc, lines),
        fuse,
        failures: Vec::new(alloc),
        unmount: false,
    }
}

/// Lives through one session.
fn live_once(
    rt: &impl Abort,
    alloc: Global,
    nand: MemNand,
    session: Session,
) -> (MemNand, SessionEnd) {
    let sessions = vec![in alloc; session].expect(rt, "memory");
    let (nand, mut ends) = live_through(rt, alloc, nand, &sessions);
    (nand, ends.pop().expect(rt, "no end"))
}

/// The text of what a session was answered.
fn text(rt: &impl Abort, alloc: Global, end: &SessionEnd) -> String {
    String::from_utf8(answers(rt, alloc, end)).expect(rt, "a text")
}

const MADE: &str = "mkdir /z\nsync\n";

/// The sync of a directory that is new erases a block and programs three pages: a mount reads the tags of the 8 first pages for a
/// checkpoint, those of the 32 pages of the root's block and of the first erased one, and the root's header, and that header is read once
/// more for the new name.
const ERASE: u64 = 75;

/// Once a block has a page of a cut sync its 32 tags are read, and of the root's block, which is no longer the newest, that of the header
/// and of the erased page behind it.
const NEXT_ERASE: u64 = ERASE + 2;

/// The device after three sessions on a formatted one, of which each leaves the pages of the call at which it is cut: in its second
/// program, in its erase, and in its mount.
fn cut_three_times(rt: &impl Abort, alloc: Global) -> MemNand {
    let old = [Fate::Old; 32];
    let sessions = vec![in alloc;
        session(rt, alloc, MADE, Some((ERASE + 2, &old))),
        session(rt, alloc, MADE, Some((NEXT_ERASE, &old))),
        session(rt, alloc, MADE, Some((1, &old))),
    ]
    .expect(rt, "memory");
    let (nand, ends) = live_through(rt, alloc, formatted(rt, alloc), &sessions);
    assert_eq!(rt; ends.len(), 3);
    for (number, end) in ends.iter().enumerate() {
        let (mounted, wanted) = if number < 2 {
            (Ok(()), "ok\nerror EIO\n")
        } else {
            (Err(MountFault::Gone), "")
        };
        assert!(rt; end.cut, "{number}");
        assert_eq!(rt; end.mounted, mounted, "{number}");
        assert_eq!(rt; text(rt, alloc, end).as_str(), wanted, "{number}");
    }
    nand
}

/// That the newest page of a key has numbers above these.
fn expect_above(rt: &impl Abort, nand: &mut MemNand, object: u64, chunk: u64, numbers: TagNumbers) {
    let tag = newest(nand, Key { object, chunk })
        .expect(rt, "a search")
        .expect(rt, "no page")
        .tag;
    assert!(rt; tag.version > numbers.version, "{object} {chunk}");
    assert!(rt; tag.group > numbers.group, "{object} {chunk}");
    assert!(rt; tag.seq > numbers.seq, "{object} {chunk}");
}

/// What the cut sessions wrote is not there, and no number of theirs is taken again: the four pages of the next sync, of the root
/// and of the file, have numbers above those of each tag before it.
#[test]
fn sessions_that_were_cut_leave_nothing_but_their_numbers(rt: HostRuntime) {
    let alloc = rt.alloc();
    let mut nand = cut_three_times(&rt, alloc);
    nand.power_up();
    let before = greatest(&mut nand).expect(&rt, "a search");
    let (mut nand, end) = live_once(&rt, alloc, nand, session(&rt, alloc, HELLO, None));
    assert_eq!(rt; text(&rt, alloc, &end).as_str(), HELLO_ANSWERS);
    for (object, chunk) in [(1, 0), (1, 1), (2, 0), (2, 1)] {
        expect_above(&rt, &mut nand, object, chunk, before);
    }
}

/// Lines that keep the file, write another one until there is no room, and write the first page of that anew so many times, the
/// last time without the sync at its end.
fn filling(rt: &impl Abort, alloc: Global, rounds: u32) -> String {
    let mut lines = String::from_str(alloc, HELLO).expect(rt, "memory");
    lines.push_str("open /b rwc\n").expect(rt, "memory");
    let bytes = "y".repeat(alloc, 2560).expect(rt, "memory");
    let write = format!(in alloc; "write 1 {bytes}\n").expect(rt, "memory");
    lines
        .push_str(&write.repeat(alloc, 29).expect(rt, "memory"))
        .expect(rt, "memory");
    lines.push_str("fsync 1\n").expect(rt, "memory");
    let page = "z".repeat(alloc, 512).expect(rt, "memory");
    let round = format!(in alloc; "seek 1 0 set\nwrite 1 {page}\nfsync 1\n").expect(rt, "memory");
    lines
        .push_str(&round.repeat(alloc, rounds as usize).expect(rt, "memory"))
        .expect(rt, "memory");
    let front = lines.strip_suffix("fsync 1\n").expect(rt, "no sync");
    String::from_str(alloc, front).expect(rt, "memory")
}

/// Beside the root, its two slots and the first file there is room for 138 pages: 27 times five, and three.
fn filling_answers(rt: &impl Abort, alloc: Global) -> String {
    let mut answers = String::from_str(alloc, HELLO_ANSWERS).expect(rt, "memory");
    answers.push_str("fd 1\n").expect(rt, "memory");
    answers
        .push_str(&"wrote 2560\n".repeat(alloc, 27).expect(rt, "memory"))
        .expect(rt, "memory");
    answers
        .push_str("wrote 1536\nerror ENOSPC\nok\n")
        .expect(rt, "memory");
    answers
}

/// The calls and the changes that a session of lines makes from its power-up on.
fn counts(rt: &impl Abort, alloc: Global, nand: &MemNand, lines: &str) -> (u64, u64) {
    let (nand, _end) = live_once(
        rt,
        alloc,
        nand.copy().expect(rt, "memory"),
        session(rt, alloc, lines, None),
    );
    (nand.calls(), nand.changes())
}

/// Lines before a sync that collects a block, and the call of its erase, which is its first: its other calls read the pages that are
/// still needed, and program them and those of the file.
fn collecting(rt: &impl Abort, alloc: Global, nand: &MemNand) -> (String, u64) {
    for rounds in 1..40 {
        let mut lines = filling(rt, alloc, rounds);
        let before = counts(rt, alloc, nand, &lines);
        lines.push_str("fsync 1\n").expect(rt, "memory");
        let after = counts(rt, alloc, nand, &lines);
        if after.0.saturating_sub(before.0) > after.1.saturating_sub(before.1) {
            return (lines, before.0.saturating_add(1));
        }
    }
    panic!(rt; "no block is collected")
}

/// The erase of a block that is collected is cut, and leaves its pages as they were, erased and uncorrectable in turn.
#[test]
fn a_collection_that_is_cut_keeps_a_file(rt: HostRuntime) {
    let alloc = rt.alloc();
    let nand = formatted(&rt, alloc);
    let (lines, erase) = collecting(&rt, alloc, &nand);
    let mut fates = [Fate::Old; 32];
    for (page, fate) in fates.iter_mut().enumerate() {
        *fate = match page % 3 {
            0 => Fate::Old,
            1 => Fate::Erased,
            _ => Fate::Uncorrectable,
        };
    }
    let cut = session(&rt, alloc, &lines, Some((erase, &fates)));
    let (nand, end) = live_once(&rt, alloc, nand, cut);
    let answers = text(&rt, alloc, &end);
    assert!(rt; end.cut && answers.ends_with("at 0\nwrote 512\nerror EIO\n"));
    assert!(rt; answers.starts_with(filling_answers(&rt, alloc).as_str()));
    let look = "open /a r\nread 0 10\nspace\n";
    let (_nand, end) = live_once(&rt, alloc, nand, session(&rt, alloc, look, None));
    assert_eq!(rt;
        text(&rt, alloc, &end).as_str(),
        "fd 0\ndata 5 hello\nspace 512 144 0\n"
    );
}
