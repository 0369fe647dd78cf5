// Whether a checkpoint is due, and how long it is.
ghost use Rattle.std.specs.Prelude.{◌≡◌, ◌<◌, ◌≤◌, ◌+◌, ◌*◌, ◌^◌, IfSome, IfNone};
ghost use Rattle.volume_terms.specs.Rounding.{ceiling};
ghost use Rattle.block_state.specs.Committed.{committed_count};
ghost use Rattle.block_state.specs.TableOf.{table};
ghost use Rattle.flash_log.specs.CheckpointDue.{IsDue, IsExtent, check_pages};

use block_state::Blocks;
use volume_terms::NUMBER_END;

/// How long a checkpoint is.
#[derive(Clone, Copy, Debug, PartialEq, Eq)]
pub(crate) struct Extent {
    pub entries: u64,
    pub pages: u32,
}

/// How many keys are committed, in one pass over the blocks.
fn committed_count(blocks: &Blocks) -> u64
    ensures is { result ≡ committed_count (table blocks.now) }
    ensures within_limit { result ≤ 2 ^ 44 }
{
    let mut count = 0;
    for block in 0..blocks.geometry().blocks() {
        count += u64::from(blocks.entry(block).committed);
    }
    count
}

/// How many pages of so many bytes a head and so many entries take.
fn pages_for(entries: u64, bytes: u32) -> u64
    requires within_limit { entries ≤ 2 ^ 44 }
    requires not_empty { 1 ≤ bytes }
    ensures { result ≡ ceiling (32 * (1 + entries)) bytes }
{
    (32 * (1 + entries)).div_ceil(u64::from(bytes))
}

/// How long the checkpoint is, if it has room in a block.
fn measure(blocks: &Blocks) -> Option<Extent>
    ensures extent { IfSome result (IsExtent (table blocks.now)) }
    ensures room { IfSome result (λ e. e.pages ≤ (table blocks.now).geometry.pages) }
    ensures none { IfNone result ((table blocks.now).geometry.pages < check_pages (table blocks.now)) }
{
    let entries = committed_count(blocks);
    let pages = pages_for(entries, blocks.geometry().bytes());
    if pages > u64::from(blocks.geometry().pages()) {
        return None;
    }
    Some(Extent {
        entries,
        pages: pages as u32,
    })
}

/// How long the checkpoint is, if one is due.
pub(crate) fn due(blocks: &Blocks, spare: u32) -> Option<Extent>
    ensures due { IfSome result (λ e. IsDue spare (table blocks.now)) }
    ensures extent { IfSome result (IsExtent (table blocks.now)) }
    ensures none { IfNone result (IsDue spare (table blocks.now) → ⊥) }
{
    if blocks.checkpoint().is_some() {
        return None;
    }
    let (free, bad) = (blocks.free_count(), blocks.bad_count());
    if bad > spare || u64::from(free) + u64::from(bad) <= 1 + u64::from(spare) {
        return None;
    }
    if blocks.next_group() >= NUMBER_END || blocks.next_seq() >= NUMBER_END {
        return None;
    }
    measure(blocks)
}
