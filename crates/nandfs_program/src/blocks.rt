// How many blocks a folder needs.

use crate::fault::ToolFault;
use crate::session::ImageSizes;
use image_tools::{Folder, Node};
use volume_terms::{SLOT_BYTES, most_file_bytes};

/// Blocks of the largest device.
const MOST_BLOCKS: u32 = 4096;

/// How many units of so many bytes these are.
pub(crate) fn ceiling(count: u64, unit: u64) -> u64 {
    if unit == 0 { 0 } else { count.div_ceil(unit) }
}

/// The units of a page's bytes that an entry costs.
fn cost(node: &Node, page_bytes: u64) -> u64 {
    match node {
        Node::File(bytes) => ceiling(bytes.len() as u64, page_bytes).saturating_add(1),
        Node::Directory(names) => {
            ceiling(names.len() as u64, page_bytes / SLOT_BYTES as u64).saturating_add(1)
        }
        Node::Link(_) => 0,
    }
}

/// Most bytes of a file of a volume with these sizes.
pub fn greatest_file(sizes: ImageSizes) -> Result<u64, ToolFault> {
    if sizes.data < 512 || sizes.data > 4096 {
        return Err(ToolFault::BadGeometry);
    }
    Ok(most_file_bytes(u64::from(sizes.data)))
}

/// The units of a page's bytes that a folder costs.
pub fn units_of(folder: &Folder, page_bytes: u32) -> u64 {
    let mut units = 0u64;
    for entry in &folder.entries {
        units = units.saturating_add(cost(&entry.node, u64::from(page_bytes)));
    }
    units
}

/// The least number of blocks whose room is so many units and 20 percent more.
pub fn least_blocks(units: u64, sizes: ImageSizes) -> Result<u32, ToolFault> {
    let pages = u64::from(sizes.pages - sizes.pages / 4);
    let needed = units.saturating_add(ceiling(units, 5));
    let holding = ceiling(needed, pages);
    let blocks = holding
        .saturating_add(u64::from(sizes.reserve))
        .saturating_add(1);
    let least = u64::from(sizes.reserve).saturating_add(4).max(5);
    match u32::try_from(blocks.max(least)) {
        Ok(blocks) if blocks <= MOST_BLOCKS => Ok(blocks),
        _ => Err(ToolFault::TooMuch),
    }
}
