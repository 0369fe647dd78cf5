// Lines that are repeated, and parts.

use crate::fault::BenchFault;
use std::alloc::{AllocError, Global};

/// Lines that are run so many times.
#[derive(Drop)]
struct Turns {
    count: u64,
    lines: Vec<u8>,
}

/// What was read so far: the parts before this one, the lines of this one, and what is repeated in it.
#[derive(Drop)]
struct Script {
    parts: Vec<Vec<u8>>,
    lines: Vec<u8>,
    turns: Option<Turns>,
}

/// Adds a line, with a number in place of each `#`.
fn push_line(
    alloc: Global,
    lines: &mut Vec<u8>,
    line: &[u8],
    number: u64,
) -> Result<(), AllocError> {
    let number = format!(in alloc; "{number}")?;
    for byte in line {
        if *byte == b'#' {
            lines.extend_from_slice(number.as_bytes())?;
        } else {
            lines.push(*byte)?;
        }
    }
    Ok(())
}

/// Adds the lines of all turns.
fn push_turns(alloc: Global, lines: &mut Vec<u8>, turns: &Turns) -> Result<(), AllocError> {
    for number in 0..turns.count {
        push_line(alloc, lines, &turns.lines, number)?;
    }
    Ok(())
}

/// Adds a line as it is.
fn push_plain(lines: &mut Vec<u8>, line: &str) -> Result<(), AllocError> {
    lines.extend_from_slice(line.as_bytes())?;
    lines.push(b'\n').map_err(|failed| failed.into())
}

impl Script {
    /// Begins to repeat.
    fn repeat(&mut self, alloc: Global, count: &str, number: u64) -> Result<(), BenchFault> {
        if self.turns.is_some() {
            return Err(BenchFault::Unended(number));
        }
        let Ok(count) = count.parse() else {
            return Err(BenchFault::NoCount(number));
        };
        let lines = Vec::new(alloc);
        self.turns = Some(Turns { count, lines });
        Ok(())
    }

    /// Ends what is repeated.
    fn end(&mut self, alloc: Global, number: u64) -> Result<(), BenchFault> {
        let Some(turns) = self.turns.take() else {
            return Err(BenchFault::NoRepeat(number));
        };
        push_turns(alloc, &mut self.lines, &turns)?;
        Ok(())
    }

    /// Ends this part.
    fn mark(&mut self, alloc: Global, number: u64) -> Result<(), BenchFault> {
        if self.turns.is_some() {
            return Err(BenchFault::Unended(number));
        }
        let lines = std::mem::replace(&mut self.lines, Vec::new(alloc));
        self.parts.push(lines)?;
        Ok(())
    }

    /// Takes a line, whose number is for a fault.
    fn take(&mut self, alloc: Global, line: &str, number: u64) -> Result<(), BenchFault> {
        if let Some(count) = line.strip_prefix("repeat ") {
            return self.repeat(alloc, count, number);
        }
        match line {
            "end" => self.end(alloc, number),
            "mark" => self.mark(alloc, number),
            _ => {
                match &mut self.turns {
                    Some(turns) => push_plain(&mut turns.lines, line)?,
                    None => push_plain(&mut self.lines, line)?,
                }
                Ok(())
            }
        }
    }
}

/// The lines of a shell that a text means, by parts. A line `mark` ends a part. The lines from `repeat N` to `end` come N times, with
/// the number of the turn, from 0 on, in place of each `#`.
pub(crate) fn read_parts(alloc: Global, text: &str) -> Result<Vec<Vec<u8>>, BenchFault> {
    let mut script = Script {
        parts: Vec::new(alloc),
        lines: Vec::new(alloc),
        turns: None,
    };
    let mut number = 0u64;
    for line in text.lines() {
        number = number.saturating_add(1);
        script.take(alloc, line, number)?;
    }
    script.mark(alloc, number)?;
    Ok(script.parts)
}
