// The blocks of a device, by their marks.
ghost use Rattle.std.specs.Prelude.{◌≡◌, ◌↔◌};
ghost use Rattle.block_state.specs.Committed.{uncommitted_count};
ghost use Rattle.block_state.specs.TableOf.{table};
ghost use Rattle.mounting.specs.Marked.{marked};
ghost use Rattle.block_state.specs.laws.Counting.{counts_one, counts_none, counts_most};

use block_state::Blocks;
use nand_model::Nand;

/// How many good blocks of a device are without a committed page.
#[tactic(auto, using(block_state::specs::laws::Counting::counts_one, block_state::specs::laws::Counting::counts_none, block_state::specs::laws::Counting::counts_most))]
pub(crate) fn count_uncommitted<N: Nand>(device: &N, blocks: &Blocks) -> u32
    requires { (table blocks.now).geometry ≡ (N.state device.now).geometry }
    ensures { result ≡ uncommitted_count (marked (N.state device.now).flash (table blocks.now)) }
{
    let mut count = 0;
    for block in 0..blocks.geometry().blocks() {
        if !device.is_bad(block) && blocks.entry(block).committed == 0 {
            count += 1;
        }
    }
    count
}
