// The blocks of a device that are marked bad.
ghost use Rattle.std.specs.Prelude.{◌≡◌};
ghost use Rattle.flash_tree.specs.Mount.{bad_blocks};

use nand_model::Nand;

/// How many blocks of the device are marked bad.
pub fn count_bad<N: Nand>(device: &N) -> u32
    ensures { result ≡ bad_blocks (N.state device.now).geometry (N.state device.now).flash }
{
    let mut bad = 0;
    for block in 0..device.geometry().blocks() {
        if device.is_bad(block) {
            bad += 1;
        }
    }
    bad
}
