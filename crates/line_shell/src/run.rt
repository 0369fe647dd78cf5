// The loop between a reader, a writer and what serves commands.
ghost use Rattle.line_shell.specs.Replies.{reply_text, bad_line_text};
ghost use Rattle.line_shell.specs.Runs.{IsStated, Calls, Obeys, AnswersLine, Shell};

use crate::fault::ShellFault;
use crate::input::{has_more, read_line};
use crate::line::Line;
use crate::meaning::parse;
use crate::reply::{write_bad_line, write_reply};
use posix_profile::{Answers, Reply, Stamped};
use std::alloc::Global;
use std::io::{BufRead, Write};

pub(crate) const MOST_LINES: u32 = 16_777_216;

fn tell<W: Write>(writer: &mut W, reply: &Reply) -> Result<(), ShellFault>
    ensures { IsStated (W.contents writer.old) (W.contents writer.new) (reply_text reply.now) result }
{
    match write_reply(writer, reply) {
        Ok(()) => Ok(()),
        Err(_) => Err(ShellFault::Write),
    }
}

fn report_bad_line<W: Write>(writer: &mut W) -> Result<(), ShellFault>
    ensures { IsStated (W.contents writer.old) (W.contents writer.new) bad_line_text result }
{
    match write_bad_line(writer) {
        Ok(()) => Ok(()),
        Err(_) => Err(ShellFault::Write),
    }
}

/// Calls the one that serves, and writes its reply.
fn call<W: Write, V: Answers>(
    command: &Stamped,
    writer: &mut W,
    volume: &mut V,
) -> Result<(), ShellFault>
    ensures { Calls V.serves command.now volume.old volume.new (W.contents writer.old) (W.contents writer.new) result }
{
    let reply = volume.answer(command);
    tell(writer, &reply)
}

/// Does what a line asks for, writes the answer, and gives the moment of the lines after it.
fn obey<W: Write, V: Answers>(
    line: Line,
    moment: u64,
    writer: &mut W,
    volume: &mut V,
) -> Result<u64, ShellFault>
    ensures { Obeys V.serves line (record { moment = moment; volume = volume.old }) (W.contents writer.old) (W.contents writer.new) volume.new result }
{
    match line {
        Line::Nothing => Ok(moment),
        Line::Now(next) => {
            tell(writer, &Reply::Done)?;
            Ok(next)
        }
        Line::Do(command) => {
            let stamped = Stamped { moment, command };
            call(&stamped, writer, volume)?;
            Ok(moment)
        }
        Line::Bad => {
            report_bad_line(writer)?;
            Ok(moment)
        }
    }
}

/// Answers one line, and gives the moment of the lines after it.
fn answer<W: Write, V: Answers>(
    alloc: Global,
    line: &[u8],
    moment: u64,
    writer: &mut W,
    volume: &mut V,
) -> Result<u64, ShellFault>
    ensures { AnswersLine V.serves line.now (record { moment = moment; volume = volume.old }) (W.contents writer.old) (W.contents writer.new) volume.new result }
{
    match parse(alloc, line) {
        Ok(meant) => obey(meant, moment, writer, volume),
        Err(_) => Err(ShellFault::NoMemory),
    }
}

/// Answers the lines of an input in turn, each reply in the writer before the next line is read. It ends with `Ok` at
/// the end of the input. The writer is not flushed.
pub fn shell<R: BufRead, W: Write, V: Answers>(
    alloc: Global,
    reader: &mut R,
    writer: &mut W,
    volume: &mut V,
) -> Result<(), ShellFault>
    ensures { Shell V.serves (R.remaining reader.old) (R.remaining reader.new) (W.contents writer.old) (W.contents writer.new) volume.old volume.new result }
{
    let mut line = Vec::new(alloc);
    let mut moment = 0;
    for _count in 0..MOST_LINES {
        if !read_line(reader, &mut line)? {
            return Ok(());
        }
        moment = answer(alloc, &line, moment, writer, volume)?;
    }
    if has_more(reader)? {
        Err(ShellFault::TooLong)
    } else {
        Ok(())
    }
}
