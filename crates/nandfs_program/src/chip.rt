// The chip of an image: what its pages are, shown, in numbers and dumped.
ghost use Rattle.nand_model.specs.Changes.{OnlyReads};

use crate::fault::ToolFault;
use crate::json::write_json;
use chip_map::{
    Marked, PageCounts, PageState, Survey, count, survey, write_dump, write_svg, write_text,
};
use nand_model::Nand;
use serde::Serialize;
use std::alloc::Global;
use std::io::Write;

/// How a chip is shown.
#[derive(Clone, Copy)]
pub enum Drawing {
    /// A line of characters for each block.
    Text,
    /// The same in the colours of a terminal.
    Colours,
    Svg,
    /// The numbers of pages of each state alone.
    Json,
}

/// How many pages are of each state.
#[derive(Clone, Copy, Serialize)]
pub(crate) struct StateCounts {
    pub(crate) current: u32,
    pub(crate) stale: u32,
    pub(crate) erased: u32,
    pub(crate) invalid: u32,
    pub(crate) uncorrectable: u32,
    pub(crate) bad: u32,
}

/// How many blocks there are: all, those with erased pages alone, and those that are marked bad.
#[derive(Clone, Copy, Serialize)]
pub struct BlockCounts {
    pub(crate) blocks: u32,
    pub(crate) pages_in_block: u32,
    pub(crate) free_blocks: u32,
    pub(crate) bad_blocks: u32,
}

/// What a chip has, in numbers.
#[derive(Clone, Copy, Serialize)]
struct ChipReport {
    page_bytes: u32,
    #[serde(flatten)]
    blocks: BlockCounts,
    pages: StateCounts,
}

impl From<PageCounts> for StateCounts {
    fn from(counts: PageCounts) -> StateCounts {
        StateCounts {
            current: counts.current,
            stale: counts.stale,
            erased: counts.erased,
            invalid: counts.invalid,
            uncorrectable: counts.uncorrectable,
            bad: counts.bad,
        }
    }
}

/// How many blocks of a chip are of each kind.
pub(crate) fn count_blocks(survey: &Survey) -> BlockCounts {
    let blocks = survey.geometry().blocks();
    let mut free_blocks = 0u32;
    let mut bad_blocks = 0u32;
    for block in 0..blocks {
        let pages = survey.block(block);
        if pages.iter().all(|page| page.state == PageState::Erased) {
            free_blocks = free_blocks.saturating_add(1);
        } else if pages.iter().all(|page| page.state == PageState::Bad) {
            bad_blocks = bad_blocks.saturating_add(1);
        }
    }
    BlockCounts {
        blocks,
        pages_in_block: survey.geometry().pages(),
        free_blocks,
        bad_blocks,
    }
}

/// How many blocks of a device are of each kind.
pub fn blocks_of<N: Nand>(alloc: Global, device: &mut N) -> Result<BlockCounts, ToolFault>
    ensures { OnlyReads (N.state device.old) (N.state device.new) }
{
    let survey = survey(alloc, device)?;
    Ok(count_blocks(&survey))
}

/// Draws what the pages of a device are, or counts them. The current pages of an object may be marked.
pub fn show_map<N: Nand, W: Write>(
    alloc: Global,
    device: &mut N,
    out: &mut W,
    marked: Marked,
    drawing: Drawing,
) -> Result<(), ToolFault>
    ensures { OnlyReads (N.state device.old) (N.state device.new) }
{
    let survey = survey(alloc, device)?;
    match drawing {
        Drawing::Text => write_text(alloc, out, &survey, marked, false)?,
        Drawing::Colours => write_text(alloc, out, &survey, marked, true)?,
        Drawing::Svg => write_svg(alloc, out, &survey, marked)?,
        Drawing::Json => {
            let report = ChipReport {
                page_bytes: survey.geometry().bytes(),
                blocks: count_blocks(&survey),
                pages: StateCounts::from(count(&survey)),
            };
            write_json(alloc, out, &report)?;
        }
    }
    Ok(())
}

/// Writes what a page of a block holds, or the tags of all its pages.
pub fn show_dump<N: Nand, W: Write>(
    alloc: Global,
    device: &mut N,
    out: &mut W,
    block: u32,
    page: Option<u32>,
) -> Result<(), ToolFault>
    ensures { OnlyReads (N.state device.old) (N.state device.new) }
{
    write_dump(alloc, out, device, block, page)?;
    Ok(())
}
