// Commands by the lines that ask for them, and replies as text.
use line_shell::{read_script, write_reply};
use posix_profile::{Reply, Stamped};
use std::alloc::Global;
use std::process::Abort;

/// The commands of some lines.
pub(crate) fn commands_of(rt: &impl Abort, alloc: Global, lines: &str) -> Vec<Stamped> {
    let mut reader = lines.as_bytes();
    read_script(alloc, &mut reader).expect(rt, "a script")
}

/// The command of a line.
pub(crate) fn command_of(rt: &impl Abort, alloc: Global, line: &str) -> Stamped {
    commands_of(rt, alloc, line).pop().expect(rt, "no command")
}

/// The text of a reply, without the end of its line.
pub(crate) fn reply_text(rt: &impl Abort, alloc: Global, reply: &Reply) -> String {
    let mut text = Vec::new(alloc);
    write_reply(&mut text, reply).expect(rt, "a reply");
    let text = str::from_utf8(&text).expect(rt, "a text");
    String::from_str(alloc, text.trim_end()).expect(rt, "memory")
}
