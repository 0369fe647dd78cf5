// The tables of a tree, without the pages of anything else.
ghost use Rattle.std.specs.Prelude.{◌≡◌, ◌↔◌, ◌<◌, ◌≤◌, ◌+◌, ℕ, IsTrue};
ghost use Rattle.block_state.specs.TableOf.{table};
ghost use Rattle.chunk_index.specs.Counts.{Recounts};
ghost use Rattle.chunk_index.specs.Maps.{CountsAgree, count_committed_in};
ghost use Rattle.tree_walk.specs.Trees.{keeps_key};
ghost use Rattle.mounting.specs.Tables.{KeepsOnly, StaysOpened};
ghost use Rattle.mounting.specs.Mounted.{HasRoomOn};

use crate::keys::TreeKeys;
use crate::marks::count_uncommitted;
use block_state::Blocks;
use chunk_index::{Index, the_counts_are_of_the_keys};
use flash_tree::count_bad;
use nand_model::Nand;
use tree_walk::Tree;

/// Forgets all pages but those that a tree looks up.
pub(crate) fn prune(tree: &Tree, index: &mut Index, blocks: &mut Blocks)
    requires { CountsAgree (table blocks.old) index.old }
    ensures opened { StaysOpened (table blocks.old) index.old (table blocks.new) index.new }
    ensures only { KeepsOnly (keeps_key tree.now) index.old index.new }
    ensures counts { Recounts (count_committed_in index.old) (count_committed_in index.new) (table blocks.old) (table blocks.new) }
{
    the_counts_are_of_the_keys();
    index.retain(&TreeKeys { tree }, blocks);
}

/// Whether no block has more committed pages than it has pages.
pub(crate) fn are_fitting(blocks: &Blocks) -> bool
    ensures { IsTrue result ↔ ((b : ℕ) → b < (table blocks.now).geometry.blocks → ((table blocks.now).entry b).committed ≤ (table blocks.now).geometry.pages) }
{
    for block in 0..blocks.geometry().blocks() {
        if blocks.entry(block).committed > blocks.geometry().pages() {
            return false;
        }
    }
    true
}

/// Whether there are blocks enough to go on with: unless more are bad than there are to spare, so many as may still be needed
/// for retirements, and one for a collection, are bad or without a committed page.
pub(crate) fn has_room<N: Nand>(device: &N, blocks: &Blocks, spare: u16) -> bool
    requires { (table blocks.now).geometry ≡ (N.state device.now).geometry }
    ensures { IsTrue result ↔ (HasRoomOn (N.state device.now) (table blocks.now) spare) }
{
    let bad = count_bad(device);
    let spare = u32::from(spare);
    bad > spare || u64::from(count_uncommitted(device, blocks)) + u64::from(bad) > u64::from(spare)
}
