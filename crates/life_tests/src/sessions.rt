// A life on eight blocks of 32 pages of 512 bytes.
use crate::lines::{formatted, live_through};
use nand_model::MemNand;
use posix_calls::{Command, FilePath, MountFault, Reply, Stamped};
use powercut::{Session, SessionEnd};
use std::alloc::Global;
use std::process::Abort;

fn path(rt: &impl Abort, alloc: Global, text: &str) -> FilePath {
    FilePath::new(Vec::from_slice(alloc, text.as_bytes()).expect(rt, "memory"))
}

fn mkdir(rt: &impl Abort, alloc: Global, text: &str) -> Command {
    Command::Mkdir {
        path: path(rt, alloc, text),
    }
}

fn list(rt: &impl Abort, alloc: Global) -> Command {
    Command::List {
        path: path(rt, alloc, "/"),
    }
}

/// A session of one command, on a device that is not disturbed.
fn session(rt: &impl Abort, alloc: Global, command: Command, unmount: bool) -> Session {
    Session {
        commands: vec![in alloc; Stamped { moment: 0, command }].expect(rt, "memory"),
        fuse: None,
        failures: Vec::new(alloc),
        unmount,
    }
}

/// What a session reports.
#[derive(Clone, Copy, Debug)]
enum Answered {
    /// That power was lost in its mount, before its command.
    Gone,
    /// That its one command is done.
    Done,
    /// That there is no name.
    NoNames,
    /// That this is the only name.
    Name(&'static str),
}

impl Answered {
    fn is_of(self, end: &SessionEnd) -> bool {
        match (self, end.replies.as_slice()) {
            (Answered::Gone, []) => end.mounted == Err(MountFault::Gone)
                && end.cut
                && end.begun == 0,
            (Answered::Done, [Reply::Done]) => is_undisturbed(end),
            (Answered::NoNames, [Reply::Names(list)]) => {
                is_undisturbed(end) && list.as_slice().is_empty()
            }
            (Answered::Name(name), [Reply::Names(list)]) => match list.as_slice() {
                [only] => is_undisturbed(end) && only.as_slice() == name.as_bytes(),
                _ => false,
            },
            _ => false,
        }
    }
}

/// Whether a session of one command was mounted, begun, and not cut.
fn is_undisturbed(end: &SessionEnd) -> bool {
    end.mounted == Ok(()) && end.begun == 1 && !end.cut
}

/// Whether an unmount is answered as it was wanted: it is done, or not made.
fn is_unmounted(end: &SessionEnd, wanted: bool) -> bool {
    match &end.unmounted {
        Some(Reply::Done) => wanted,
        Some(_) => false,
        None => !wanted,
    }
}

/// Lives through the sessions and compares what each reports.
fn expect(
    rt: &impl Abort,
    alloc: Global,
    nand: MemNand,
    sessions: &[Session],
    answers: &[Answered],
) {
    let (_nand, ends) = live_through(rt, alloc, nand, sessions);
    assert_eq!(rt; ends.len(), answers.len());
    for ((end, session), answers) in ends.iter().zip(sessions).zip(answers) {
        assert!(rt; answers.is_of(end), "{answers:?} {end:?}");
        assert!(rt; is_unmounted(end, session.unmount), "{end:?}");
    }
}

#[test]
fn what_was_unmounted_is_there_again(rt: HostRuntime) {
    let alloc = rt.alloc();
    let mut cut = session(&rt, alloc, list(&rt, alloc), false);
    cut.fuse = Some((1, Vec::new(alloc)));
    let sessions = vec![in alloc;
        session(&rt, alloc, mkdir(&rt, alloc, "/a"), false),
        session(&rt, alloc, list(&rt, alloc), true),
        session(&rt, alloc, mkdir(&rt, alloc, "/a"), true),
        session(&rt, alloc, list(&rt, alloc), false),
        cut,
        session(&rt, alloc, list(&rt, alloc), false),
    ]
    .expect(&rt, "memory");
    let answers = [
        Answered::Done,
        Answered::NoNames,
        Answered::Done,
        Answered::Name("a"),
        Answered::Gone,
        Answered::Name("a"),
    ];
    expect(&rt, alloc, formatted(&rt, alloc), &sessions, &answers)
}
