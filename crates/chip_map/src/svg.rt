// A chip as SVG.

use crate::cell::{CELLS, Cell, Marked, count_cells};
use crate::fault::MapFault;
use crate::page_state::SurveyedPage;
use crate::surveyed::Survey;
use crate::text::put;
use nand_model::Geometry;
use std::alloc::Global;
use std::io::Write;

/// The place of the first cell of a row, with the block's number before it.
const LEFT: u64 = 60;

/// The place of the first row, below the legend.
const TOP: u64 = 200;

/// The width of a row of at least 64 pages.
const WIDTH: u64 = 768;

/// The height of a cell, and from row to row.
const CELL_HEIGHT: u64 = 12;

const ROW_HEIGHT: u64 = 14;

/// The width of a cell: 12, and less where a block has more than 64 pages.
fn cell_width(geometry: Geometry) -> u64 {
    WIDTH / u64::from(geometry.pages().max(64))
}

/// The place of the row of a block.
fn row_place(block: u32) -> u64 {
    TOP + u64::from(block) * ROW_HEIGHT
}

/// Writes the head and the lines between cells, which come over these.
fn write_head<W: Write>(alloc: Global, out: &mut W, geometry: Geometry) -> Result<(), MapFault> {
    let blocks = geometry.blocks();
    let pages = geometry.pages();
    let bytes = geometry.bytes();
    let width = LEFT + WIDTH + 12;
    let height = row_place(blocks).saturating_add(12);
    put(
        out,
        &format!(in alloc;
            "<svg xmlns=\"http://www.w3.org/2000/svg\" viewBox=\"0 0 {width} {height}\" width=\"{width}\" height=\"{height}\" font-family=\"sans-serif\" font-size=\"12\">\n"
        )?,
    )?;
    put(
        out,
        &format!(in alloc; "<title>{blocks} blocks of {pages} pages of {bytes} bytes</title>\n")?,
    )?;
    put(
        out,
        &format!(in alloc; "<rect width=\"{width}\" height=\"{height}\" fill=\"#ffffff\"/>\n")?,
    )?;
    let cell = cell_width(geometry);
    put(
        out,
        &format!(in alloc;
            "<defs><pattern id=\"cells\" x=\"{LEFT}\" y=\"{TOP}\" width=\"{cell}\" height=\"{ROW_HEIGHT}\" patternUnits=\"userSpaceOnUse\"><path d=\"M0 0V{ROW_HEIGHT}\" stroke=\"#ffffff\"/></pattern></defs>\n"
        )?,
    )
}

/// Writes what each colour is, with its count.
fn write_legend<W: Write>(
    alloc: Global,
    out: &mut W,
    survey: &Survey,
    marked: Marked,
) -> Result<(), MapFault> {
    let mut place = 16u64;
    for cell in CELLS {
        let fill = cell.fill();
        let name = cell.name();
        let count = count_cells(survey, marked, cell);
        let below = place.saturating_add(10);
        put(
            out,
            &format!(in alloc;
                "<rect x=\"{LEFT}\" y=\"{place}\" width=\"12\" height=\"12\" fill=\"{fill}\"/><text x=\"80\" y=\"{below}\">{name}: {count}</text>\n"
            )?,
        )?;
        place = place.saturating_add(20);
    }
    Ok(())
}

/// Writes the cells of a block, one rectangle for all cells of a kind in a row.
fn write_cells<W: Write>(
    alloc: Global,
    out: &mut W,
    pages: &[SurveyedPage],
    marked: Marked,
    place: u64,
    cell: u64,
) -> Result<(), MapFault> {
    let mut left = LEFT;
    for run in pages.chunk_by(|page, next| Cell::of(page, marked) == Cell::of(next, marked)) {
        let width = cell.saturating_mul(run.len() as u64);
        if let Some(first) = run.first() {
            let fill = Cell::of(first, marked).fill();
            put(
                out,
                &format!(in alloc;
                    "<rect x=\"{left}\" y=\"{place}\" width=\"{width}\" height=\"{CELL_HEIGHT}\" fill=\"{fill}\"/>\n"
                )?,
            )?;
        }
        left = left.saturating_add(width);
    }
    Ok(())
}

/// Draws a row for each block, its number and a cell for each page, below a legend with counts. A cell is narrower where a block
/// has more than 64 pages.
///
/// Errors: NoMemory, Output.
pub fn write_svg<W: Write>(
    alloc: Global,
    out: &mut W,
    survey: &Survey,
    marked: Marked,
) -> Result<(), MapFault> {
    let geometry = survey.geometry();
    write_head(alloc, out, geometry)?;
    write_legend(alloc, out, survey, marked)?;
    let cell = cell_width(geometry);
    for block in 0..geometry.blocks() {
        let place = row_place(block);
        let below = place.saturating_add(10);
        put(
            out,
            &format!(in alloc;
                "<text x=\"54\" y=\"{below}\" text-anchor=\"end\">{block}</text>\n"
            )?,
        )?;
        write_cells(alloc, out, survey.block(block), marked, place, cell)?;
    }
    let height = u64::from(geometry.blocks()) * ROW_HEIGHT;
    let width = cell.saturating_mul(u64::from(geometry.pages()));
    put(
        out,
        &format!(in alloc;
            "<rect x=\"{LEFT}\" y=\"{TOP}\" width=\"{width}\" height=\"{height}\" fill=\"url(#cells)\"/>\n</svg>\n"
        )?,
    )
}
