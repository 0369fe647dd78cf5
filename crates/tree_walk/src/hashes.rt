// The hashes of a directory's names.
ghost use Rattle.std.specs.Prelude.{OnOk};
ghost use Rattle.tree_walk.specs.Hashes.{Keeps, HoldsEach};

use name_index::NameIndex;
use std::alloc::AllocError;

/// Adds the hashes of the names of a directory's first slots, slot by slot.
pub(crate) fn add_hashes(
    names: &mut NameIndex,
    directory: u64,
    hashes: &[u32],
    count: u32,
) -> Result<(), AllocError>
    ensures keeps { Keeps names.old names.new }
    ensures there { OnOk result (HoldsEach names.new directory count hashes.now) }
{
    for place in 0..hashes.len().min(count as usize) {
        names.add(directory, hashes[place], place as u32)?;
    }
    Ok(())
}
