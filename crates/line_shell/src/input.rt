// The lines of an input, read one by one.
ghost use Rattle.std.specs.Prelude.{◌≡◌, ◌≤◌, ◌<◌, length, take, slice_index, vec_len};
ghost use Rattle.std.specs.Io.BufRead.{strip_last};
ghost use Rattle.std.specs.Io.KnownBytes.{Keeps};
ghost use Rattle.line_shell.specs.Lines.{carriage_return, longest_line};
ghost use Rattle.line_shell.specs.Reading.{IsWithoutNewline, TakesSome, TakesLine, ReadsLine, ReportsMore};
ghost use Rattle.line_shell.specs.Replies.{newline};

use crate::fault::ShellFault;
use std::io::{BufRead, ErrorKind};

const LONGEST_LINE: usize = 65_536;

const NEWLINE: u8 = b'\n';

const CARRIAGE_RETURN: u8 = b'\r';

/// What ended the bytes that were taken.
#[derive(Clone, Copy)]
enum Stop {
    Newline,
    /// Nothing that is known yet: the line may go on.
    Pause,
    End,
}

/// How many bytes stand before the first newline.
fn count_before_newline(bytes: &[u8]) -> usize
    ensures within { result ≤ length bytes.now }
    ensures before { IsWithoutNewline (take result bytes.now) }
    ensures at { result < length bytes.now → slice_index bytes.now result ≡ newline }
{
    let mut count = 0;
    for byte in bytes {
        if *byte == NEWLINE {
            return count;
        }
        count += 1;
    }
    count
}

/// Takes what the reader has at hand, up to a newline, and adds it to the line.
fn take_some<R: BufRead>(reader: &mut R, line: &mut Vec<u8>) -> Result<Stop, ShellFault>
    requires { vec_len line.old ≤ longest_line }
    ensures room { vec_len line.new ≤ longest_line }
    ensures takes { TakesSome (R.remaining reader.old) (R.remaining reader.new) line.old.items line.new.items result }
{
    let shown = match reader.fill_buf() {
        Ok(shown) => shown,
        Err(e) => {
            return if e.kind() == ErrorKind::Interrupted {
                Ok(Stop::Pause)
            } else {
                Err(ShellFault::Read)
            };
        }
    };
    if shown.is_empty() {
        return Ok(Stop::End);
    }
    let count = count_before_newline(shown);
    if count > LONGEST_LINE - line.len() {
        return Err(ShellFault::TooLong);
    }
    if line.extend_from_slice(&shown[..count]).is_err() {
        return Err(ShellFault::NoMemory);
    }
    if count < shown.len() {
        reader.consume(count + 1);
        Ok(Stop::Newline)
    } else {
        reader.consume(count);
        Ok(Stop::Pause)
    }
}

/// Takes bytes up to a newline or the end of the input.
fn take_line<R: BufRead>(reader: &mut R, line: &mut Vec<u8>) -> Result<bool, ShellFault>
    ensures room { vec_len line.new ≤ longest_line }
    ensures takes { TakesLine (R.remaining reader.old) (R.remaining reader.new) line.new.items result }
{
    line.clear();
    for _turn in 0..u64::MAX {
        match take_some(reader, line)? {
            Stop::Newline => return Ok(true),
            Stop::Pause => {}
            Stop::End => return Ok(false),
        }
    }
    Err(ShellFault::Read)
}

fn drop_carriage_return(line: &mut Vec<u8>)
    ensures { line.new.items ≡ strip_last carriage_return line.old.items }
{
    let count = line.len();
    if count > 0 && line[count - 1] == CARRIAGE_RETURN {
        line.truncate(count - 1);
    }
}

/// Reads the next line, without its end, in place of what `line` holds. `false`: the input is at its end.
pub fn read_line<R: BufRead>(reader: &mut R, line: &mut Vec<u8>) -> Result<bool, ShellFault>
    ensures { ReadsLine (R.remaining reader.old) (R.remaining reader.new) line.new.items result }
{
    if !take_line(reader, line)? {
        return Ok(!line.is_empty());
    }
    drop_carriage_return(line);
    Ok(true)
}

/// Whether the input has more bytes. None is taken.
pub fn has_more<R: BufRead>(reader: &mut R) -> Result<bool, ShellFault>
    ensures reports { ReportsMore (R.remaining reader.old) (R.remaining reader.new) result }
    ensures keeps { Keeps (R.remaining reader.old) (R.remaining reader.new) }
{
    for _turn in 0..u64::MAX {
        match reader.fill_buf() {
            Ok(shown) => return Ok(!shown.is_empty()),
            Err(e) => {
                if e.kind() != ErrorKind::Interrupted {
                    return Err(ShellFault::Read);
                }
            }
        }
    }
    Err(ShellFault::Read)
}
