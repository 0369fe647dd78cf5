// Rows of a session: a line, an arrow, and what is to be answered. `[x*3]` represents `xxx`.

use crate::served::answers;
use plain_volume::Answers;
use std::alloc::{AllocError, Global};
use std::process::Abort;

/// Lines, and what is to be answered of them.
#[derive(Drop)]
struct Script {
    lines: String,
    replies: String,
}

/// The rows, with each text that is repeated.
fn written_out(rt: &impl Abort, alloc: Global, rows: &str) -> String {
    let mut text = String::new(alloc);
    for piece in rows.split('[') {
        let rest = match piece.split_once(']') {
            Some((run, rest)) => {
                let (unit, count) = run.split_once('*').expect(rt, "no count");
                text.push_str(
                    &unit
                        .repeat(alloc, count.parse().expect(rt, "a line"))
                        .expect(rt, "memory"),
                )
                .expect(rt, "memory");
                rest
            }
            None => piece,
        };
        text.push_str(rest).expect(rt, "memory");
    }
    text
}

fn push_line(text: &mut String, line: &str) -> Result<(), AllocError> {
    text.push_str(line)?;
    text.push_str("\n")
}

/// The lines of rows. One without an arrow is to be answered by nothing.
fn script_of(alloc: Global, rows: &str) -> Result<Script, AllocError> {
    let mut lines = String::new(alloc);
    let mut replies = String::new(alloc);
    for row in rows.lines() {
        match row.split_once(" -> ") {
            Some((line, reply)) => {
                push_line(&mut lines, line)?;
                push_line(&mut replies, reply)?;
            }
            None => push_line(&mut lines, row)?,
        }
    }
    Ok(Script { lines, replies })
}

/// Issues the lines of the rows, which are to be answered by their replies.
pub(crate) fn expect<S: Answers>(rt: &impl Abort, alloc: Global, served: &mut S, rows: &str) {
    let Script { lines, replies } = script_of(alloc, &written_out(rt, alloc, rows)).expect(
        rt,
        "script of",
    );
    let answers = answers(rt, alloc, served, lines.as_bytes());
    assert_eq!(rt;
        str::from_utf8(&answers).expect(rt, "a text"),
        replies.as_str()
    );
}
