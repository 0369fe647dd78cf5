// How many blocks were erased how often.

use std::alloc::{AllocError, Global};

/// Most bins of a histogram.
const MOST_BINS: u64 = 16;

/// The blocks that were erased at least `least` and at most `most` times.
#[derive(Clone, Copy, Debug, PartialEq, Eq)]
pub struct Bin {
    pub least: u64,
    pub most: u64,
    pub blocks: u64,
}

/// How far the least and the greatest number are apart, and the least.
fn range_of(erases: &[u64]) -> (u64, u64) {
    let mut least = u64::MAX;
    let mut most = 0u64;
    for count in erases {
        least = least.min(*count);
        most = most.max(*count);
    }
    (least, most.saturating_sub(least))
}

/// A histogram of how often each block was erased: at most 16 bins of one width, from the least number on.
///
/// Errors: want of memory.
pub fn bins(alloc: Global, erases: &[u64]) -> Result<Vec<Bin>, AllocError> {
    let (least, range) = range_of(erases);
    let width = range / MOST_BINS + 1;
    let mut bins = Vec::new(alloc);
    for number in 0..range / width + 1 {
        let least = least.saturating_add(number.saturating_mul(width));
        bins.push(Bin {
            least,
            most: least.saturating_add(width - 1),
            blocks: 0,
        })?;
    }
    for count in erases {
        let number = count.saturating_sub(least) / width;
        if let Some(bin) = bins.get_mut(number as usize) {
            bin.blocks = bin.blocks.saturating_add(1);
        }
    }
    Ok(bins)
}
