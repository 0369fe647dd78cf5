// The erases of each block as SVG.

use crate::fault::BenchFault;
use crate::running::Bench;
use crate::text::put;
use std::alloc::Global;
use std::io::Write;

/// The place of the first bar, with the numbers of erases before it, and the place of the top of the greatest.
const LEFT: u64 = 60;

const TOP: u64 = 40;

/// The least width of all bars, and the height of the greatest.
const WIDTH: u64 = 768;

const HEIGHT: u64 = 200;

/// The place below the bars.
const FOOT: u64 = TOP + HEIGHT;

/// How the bars are placed.
#[derive(Clone, Copy)]
struct Scale {
    /// The width of a bar.
    bar: u64,
    /// The width of all bars.
    width: u64,
    /// The greatest number of erases, or 1.
    greatest: u64,
}

/// The scale of so many numbers of erases: a bar has at least one unit.
fn scale_of(erases: &[u64]) -> Scale {
    let blocks = (erases.len() as u64).max(1);
    let bar = (WIDTH / blocks).max(1);
    Scale {
        bar,
        width: bar.saturating_mul(blocks),
        greatest: erases.iter().copied().max().unwrap_or(0).max(1),
    }
}

/// Writes the head, what is shown, and the numbers at the ends of both axes.
fn write_head<W: Write>(
    alloc: Global,
    out: &mut W,
    scale: Scale,
    blocks: u64,
) -> Result<(), BenchFault> {
    let Scale {
        width,
        greatest,
        ..
    } = scale;
    let whole = width.saturating_add(LEFT).saturating_add(12);
    let height = FOOT + 40;
    put(
        out,
        &format!(in alloc;
            "<svg xmlns=\"http://www.w3.org/2000/svg\" viewBox=\"0 0 {whole} {height}\" width=\"{whole}\" height=\"{height}\" font-family=\"sans-serif\" font-size=\"12\">\n"
        )?,
    )?;
    put(
        out,
        &format!(in alloc;
            "<title>Erases of each of {blocks} blocks</title>\n<rect width=\"{whole}\" height=\"{height}\" fill=\"#ffffff\"/>\n"
        )?,
    )?;
    put(
        out,
        &format!(in alloc;
            "<text x=\"{LEFT}\" y=\"24\">Erases of each block</text>\n<text x=\"54\" y=\"50\" text-anchor=\"end\">{greatest}</text>\n<text x=\"54\" y=\"{FOOT}\" text-anchor=\"end\">0</text>\n"
        )?,
    )?;
    let below = FOOT + 18;
    let right = LEFT.saturating_add(width);
    let last = blocks.saturating_sub(1);
    put(
        out,
        &format!(in alloc;
            "<text x=\"{LEFT}\" y=\"{below}\">block 0</text>\n<text x=\"{right}\" y=\"{below}\" text-anchor=\"end\">{last}</text>\n"
        )?,
    )
}

/// Draws a bar for each block, as high as it was erased often.
///
/// Errors: NoMemory, Output.
pub fn write_svg<W: Write>(alloc: Global, out: &mut W, bench: &Bench) -> Result<(), BenchFault> {
    let scale = scale_of(&bench.erases);
    write_head(alloc, out, scale, bench.erases.len() as u64)?;
    let bar = scale.bar;
    let mut left = LEFT;
    for count in &bench.erases {
        let height = count.saturating_mul(HEIGHT) / scale.greatest.max(1);
        let top = FOOT.saturating_sub(height);
        if height > 0 {
            put(
                out,
                &format!(in alloc;
                    "<rect x=\"{left}\" y=\"{top}\" width=\"{bar}\" height=\"{height}\" fill=\"#3b6ea5\"/>\n"
                )?,
            )?;
        }
        left = left.saturating_add(bar);
    }
    let width = scale.width;
    put(
        out,
        &format!(in alloc; "<path d=\"M{LEFT} {FOOT}h{width}\" stroke=\"#000000\"/>\n</svg>\n")?,
    )
}
