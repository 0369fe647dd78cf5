// Whether a device has power.
ghost use Rattle.std.specs.Prelude.{◌≡◌, ◌≤◌, ◌+◌, not};
ghost use Rattle.nand_model.specs.Changes.{OnlyReads};

use flash_tree::tag_at;
use nand_model::Nand;

/// Whether a device has power still: it answers for its first tag.
pub fn has_power<N: Nand>(device: &mut N) -> bool
    ensures reads { OnlyReads (N.state device.old) (N.state device.new) }
    ensures issued { (N.state device.new).reads ≤ (N.state device.old).reads + 1 }
    ensures power { result ≡ not (N.state device.new).gone }
{
    tag_at(device, 0, 0).is_ok()
}
