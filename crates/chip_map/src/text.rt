// A chip as text.

use crate::cell::{CELLS, Cell, Marked, count_cells};
use crate::fault::MapFault;
use crate::page_state::SurveyedPage;
use crate::surveyed::Survey;
use std::alloc::{AllocError, Global};
use std::io::Write;

/// What ends a colour.
const PLAIN: &str = "\x1b[0m";

/// Writes a text.
pub(crate) fn put<W: Write>(out: &mut W, text: &str) -> Result<(), MapFault> {
    match out.write_all(text.as_bytes()) {
        Ok(()) => Ok(()),
        Err(_) => Err(MapFault::Output),
    }
}

/// Adds a character for each page.
fn push_pages(
    line: &mut String,
    pages: &[SurveyedPage],
    marked: Marked,
    colour: bool,
) -> Result<(), AllocError> {
    let mut last = None;
    for page in pages {
        let cell = Cell::of(page, marked);
        if colour && last != Some(cell) {
            line.push_str(cell.escape())?;
            last = Some(cell);
        }
        line.push(cell.letter())?;
    }
    if colour {
        line.push_str(PLAIN)?;
    }
    Ok(())
}

/// Writes what each character is, with its count.
fn write_legend<W: Write>(
    alloc: Global,
    out: &mut W,
    survey: &Survey,
    marked: Marked,
) -> Result<(), MapFault> {
    for cell in CELLS {
        let letter = cell.letter();
        let name = cell.name();
        let count = count_cells(survey, marked, cell);
        let line = format!(in alloc; "{letter} {name:<13} {count:>8}\n")?;
        put(out, &line)?;
    }
    Ok(())
}

/// Writes a line for each block, its number and a character for each page, and below them what each character is and how many
/// there are. `#` is a current page, `@` a current page of the object that is highlighted, `c` a current page of a checkpoint, `-` a
/// stale page, `.` an erased page, `?` an invalid page, `!` an uncorrectable page, `x` a page of a bad block. In colours each line
/// ends without any.
///
/// Errors: NoMemory, Output.
pub fn write_text<W: Write>(
    alloc: Global,
    out: &mut W,
    survey: &Survey,
    marked: Marked,
    colour: bool,
) -> Result<(), MapFault> {
    for block in 0..survey.geometry().blocks() {
        let mut line = format!(in alloc; "{block:>4} ")?;
        push_pages(&mut line, survey.block(block), marked, colour)?;
        line.push('\n')?;
        put(out, &line)?;
    }
    put(out, "\n")?;
    write_legend(alloc, out, survey, marked)
}
