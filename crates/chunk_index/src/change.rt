// The counts of committed pages, where the committed page of a key becomes another.
ghost use Rattle.std.specs.Prelude.{◌≡◌, ◌<◌, ℕ, None, IfSome};
ghost use Rattle.block_state.specs.TableOf.{table};
ghost use Rattle.chunk_index.specs.Entries.{one_at};
ghost use Rattle.chunk_index.specs.Counts.{Recounts, HasRoom, HasCounted};

use crate::form::CommittedPage;
use block_state::Blocks;

/// Counts a page no longer as committed.
pub fn release(page: Option<CommittedPage>, blocks: &mut Blocks)
    requires totaled { HasCounted (table blocks.old) (one_at page) }
    ensures { Recounts (one_at page) (one_at None) (table blocks.old) (table blocks.new) }
{
    if let Some(page) = page {
        blocks.release(page.block);
    }
}

/// Counts a page as committed.
fn keep(page: Option<CommittedPage>, blocks: &mut Blocks)
    requires within { IfSome page (λ p. p.block < (table blocks.old).geometry.blocks) }
    requires room { HasRoom (table blocks.old) (one_at None) 1 }
    ensures { Recounts (one_at None) (one_at page) (table blocks.old) (table blocks.new) }
{
    if let Some(page) = page {
        blocks.keep(page.block);
    }
}

/// Counts another page as committed in place of one.
#[tactic(auto, using(crate::proofs::Counting::room_after))]
pub fn recount(old: Option<CommittedPage>, new: Option<CommittedPage>, blocks: &mut Blocks)
    requires within { IfSome new (λ p. p.block < (table blocks.old).geometry.blocks) }
    requires room { HasRoom (table blocks.old) (one_at old) 1 }
    ensures { Recounts (one_at old) (one_at new) (table blocks.old) (table blocks.new) }
{
    release(old, blocks);
    keep(new, blocks);
}
