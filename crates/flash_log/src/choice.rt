// Whether a block can be taken, and which is to be collected else.
ghost use Rattle.std.specs.Prelude.{◌≡◌, ◌≤◌, ◌↔◌, ℕ, IsTrue, IfSome, IfNone};
ghost use Rattle.block_state.specs.Committed.{uncommitted_count, IsScarce};
ghost use Rattle.block_state.specs.TableOf.{table};
ghost use Rattle.flash_log.specs.RoomMaking.{HasMore, IsVictim, LeavesRoom};

use block_state::Blocks;

/// How many good blocks are without a committed page, the open one too.
fn uncommitted_count(blocks: &Blocks) -> u32
    ensures { result ≡ uncommitted_count (table blocks.now) }
{
    let free = blocks.free_count();
    match blocks.open_block() {
        Some(block) if blocks.entry(block).committed == 0 => free + 1,
        _ => free,
    }
}

/// Whether more blocks are without a committed page than may be needed for retirements, and one for a collection.
pub(crate) fn has_uncommitted(blocks: &Blocks, spare: u32) -> bool
    ensures { IsTrue result ↔ HasMore (table blocks.now) spare }
{
    let (uncommitted, bad) = (uncommitted_count(blocks), blocks.bad_count());
    u64::from(uncommitted) + u64::from(bad) > 1 + u64::from(spare)
}

/// The block to be collected for so many pages, no more than a block has: the one with the fewest committed pages, if these
/// leave room for them.
pub(crate) fn victim(blocks: &Blocks, count: u32) -> Option<u32>
    requires { count ≤ (table blocks.now).geometry.pages }
    ensures found { IfSome result (IsVictim count (table blocks.now)) }
    ensures none { IfNone result ((spare : ℕ) → IsScarce (table blocks.now) spare → LeavesRoom (table blocks.now) spare count → ⊥) }
{
    let block = blocks.fewest_committed()?;
    let committed = blocks.entry(block).committed;
    if committed <= blocks.geometry().pages() - count {
        Some(block)
    } else {
        None
    }
}
