// Sessions of lines, and their answers.
use line_shell::{Line, parse, read_script, write_reply};
use nand_model::{Fate, Geometry, MemNand};
use posix_calls::{Stamped, format};
use powercut::{Session, SessionEnd, live};
use std::alloc::Global;
use std::process::Abort;

/// Eight blocks of 32 pages of 512 bytes, just formatted with one block to spare.
pub(crate) fn formatted(rt: &impl Abort, alloc: Global) -> MemNand {
    let geometry = Geometry::new(512, 32, 8).expect(rt, "a geometry");
    let nand = MemNand::new(alloc, geometry).expect(rt, "memory");
    match format(alloc, nand, 1) {
        Ok(nand) => nand,
        Err((_, fault)) => panic!(rt; "{fault:?}"),
    }
}

/// The commands of lines, at the moment 0.
fn commands(rt: &impl Abort, alloc: Global, lines: &[&str]) -> Vec<Stamped> {
    let mut commands = Vec::new(alloc);
    for line in lines {
        match parse(alloc, line.as_bytes()).expect(rt, "memory") {
            Line::Do(command) => commands
                .push(Stamped { moment: 0, command })
                .expect(rt, "memory"),
            _ => panic!(rt; "a line that is no command"),
        }
    }
    commands
}

/// The commands of a text of lines.
pub(crate) fn script(rt: &impl Abort, alloc: Global, lines: &str) -> Vec<Stamped> {
    let mut reader = lines.as_bytes();
    read_script(alloc, &mut reader).expect(rt, "a script")
}

/// A session of lines that is abandoned at its end, on a device that is not disturbed.
pub(crate) fn session(rt: &impl Abort, alloc: Global, lines: &[&str]) -> Session {
    Session {
        commands: commands(rt, alloc, lines),
        fuse: None,
        failures: Vec::new(alloc),
        unmount: false,
    }
}

/// A session of lines whose power is lost at this call.
pub(crate) fn cut_session(
    rt: &impl Abort,
    alloc: Global,
    lines: &[&str],
    call: u64,
    fates: &[Fate],
) -> Session {
    let mut cut = session(rt, alloc, lines);
    cut.fuse = Some((call, fates.to_vec(alloc).expect(rt, "memory")));
    cut
}

/// A session of lines of whose calls these fail, each of which leaves one page so.
pub(crate) fn failing_session(
    rt: &impl Abort,
    alloc: Global,
    lines: &[&str],
    failures: &[(u64, Fate)],
) -> Session {
    let mut failing = session(rt, alloc, lines);
    for &(call, fate) in failures {
        failing
            .failures
            .push((call, vec![in alloc; fate].expect(rt, "memory")))
            .expect(rt, "memory");
    }
    failing
}

/// Lives through the sessions. It says nothing of what `live` promises, so that what calls it is checked fast.
pub(crate) fn live_through(
    rt: &impl Abort,
    alloc: Global,
    nand: MemNand,
    sessions: &[Session],
) -> (MemNand, Vec<SessionEnd>) {
    live(alloc, nand, sessions).expect(rt, "memory")
}

/// What a session was answered, line by line.
pub(crate) fn answers(rt: &impl Abort, alloc: Global, end: &SessionEnd) -> Vec<u8> {
    let mut text = Vec::new(alloc);
    for reply in &end.replies {
        write_reply(&mut text, reply).expect(rt, "a reply");
    }
    text
}
