// What objects cost.
ghost use Rattle.std.specs.Prelude.{◌≡◌, ◌-◌, ◌^◌, min};
ghost use Rattle.posix_profile.specs.Charge.{cost, charge, fits};
ghost use Rattle.plain_volume.specs.PlainState.{object_of, objects_in};
ghost use Rattle.volume_terms.specs.VolumeSizes.{sizes_of};

use crate::state::object::{ObjectMap, PlainObject};
use volume_terms::VolumeSizes;

/// The units that an object costs.
pub(crate) fn cost(sizes: VolumeSizes, object: &PlainObject) -> u64
    ensures { result ≡ cost (sizes_of sizes) (object_of object.now) }
{
    match object {
        PlainObject::File { bytes, .. } => 1 + (bytes.len() as u64).div_ceil(sizes.page_bytes()),
        PlainObject::Directory { entries, .. } => {
            1 + (entries.len() as u64).div_ceil(sizes.page_slots())
        }
    }
}

/// The units that all objects cost, or the greatest number where they cost more.
pub fn charge(sizes: VolumeSizes, objects: &ObjectMap) -> u64
    ensures { result ≡ min (charge (sizes_of sizes) (objects_in objects.now)) (2 ^ 64 - 1) }
{
    let mut total: u64 = 0;
    for object in objects.values() {
        total = total.saturating_add(cost(sizes, object));
    }
    total
}

/// Whether there is room for the objects.
pub fn fits(sizes: VolumeSizes, objects: &ObjectMap) -> bool
    ensures { result ≡ fits (sizes_of sizes) (objects_in objects.now) }
{
    charge(sizes, objects) <= sizes.capacity()
}
