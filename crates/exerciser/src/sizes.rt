// The sizes of a volume, from what it reports on its space.
ghost use Rattle.std.specs.Prelude.{◌≡◌, ◌≤◌, ◌+◌, ℕ, IfSome, IfNone};
ghost use Rattle.flash_tree.specs.Mount.{sizes_of};
ghost use Rattle.volume_terms.specs.Sizes.{IsSizes, capacity};
ghost use Rattle.volume_terms.specs.VolumeSizes as volume;

use nand_model::Geometry;
use volume_terms::VolumeSizes;

/// The sizes of a volume with so many spare blocks on a device of these sizes.
#[tactic(auto, using(formatting::specs::laws::SizesOf::sizes_are))]
fn sizes_of(geometry: Geometry, spare: u32) -> VolumeSizes
    requires { spare + 4 ≤ geometry.blocks }
    ensures { volume.sizes_of result ≡ sizes_of geometry spare }
{
    VolumeSizes::new(
        u64::from(geometry.bytes()),
        u64::from(geometry.pages()),
        u64::from(geometry.blocks()),
        u64::from(spare),
    )
}

/// The sizes of a volume that may cost so many units, on a device of these sizes: they tell how many blocks are spare.
#[tactic(auto, using(formatting::specs::laws::SizesOf::sizes_are))]
pub(crate) fn sizes_with(geometry: Geometry, total: u64) -> Option<VolumeSizes>
    ensures sizes { IfSome result (λ sizes. (spare : ℕ) × (volume.sizes_of sizes ≡ sizes_of geometry spare) × IsSizes (volume.sizes_of sizes)) }
    ensures total { IfSome result (λ sizes. capacity (volume.sizes_of sizes) ≡ total) }
    ensures none { IfNone result ((spare : ℕ) → spare + 4 ≤ geometry.blocks → capacity (sizes_of geometry spare) ≡ total → ⊥) }
{
    for spare in 0..geometry.blocks() - 3 {
        let sizes = sizes_of(geometry, spare);
        if sizes.capacity() == total {
            return Some(sizes);
        }
    }
    None
}
