// What the objects of a tree cost.
ghost use Rattle.std.specs.Prelude.{◌≡◌, ◌<◌, ◌+◌, ◌-◌, ◌^◌, min};
ghost use Rattle.volume_terms.specs.Rounding.{ceiling};
ghost use Rattle.volume_terms.specs.VolumeSizes.{sizes_of};
ghost use Rattle.posix_profile.specs.Charge as costs;
ghost use Rattle.tree_walk.specs.Building.{OfThrough};
ghost use Rattle.tree_walk.specs.Units.{head_cost, reported_cost};

use crate::{Head, Tree};
use page_tags::ObjectKind;
use volume_terms::VolumeSizes;

/// The units that the objects of a tree cost, or the greatest number of 64 bits where they cost more.
pub fn charge(tree: &Tree, sizes: VolumeSizes) -> u64
    ensures { OfThrough (sizes_of sizes) tree.now (λ objects. result ≡ min (costs.charge (sizes_of sizes) objects) (2 ^ 64 - 1)) }
{
    let objects = tree.objects();
    let mut units: u64 = 0;
    for place in 0..objects.len() {
        units = units.saturating_add(reported_units(tree, objects[place], sizes));
    }
    units
}

/// The units that an object costs, as far as numbers of 64 bits go, and none where no header is reported.
fn reported_units(tree: &Tree, object: u64, sizes: VolumeSizes) -> u64
    ensures { result ≡ min (reported_cost (sizes_of sizes) tree.now object) (2 ^ 64 - 1) }
{
    match tree.head(object) {
        Some(head) => head_units(head, sizes),
        None => 0,
    }
}

/// The units that an object with this header costs, as far as numbers of 64 bits go.
fn head_units(head: &Head, sizes: VolumeSizes) -> u64
    ensures { result ≡ min (head_cost (sizes_of sizes) head.now) (2 ^ 64 - 1) }
{
    match head.kind {
        ObjectKind::File => units(head.length, sizes.page_bytes()),
        ObjectKind::Directory => units(head.length, sizes.page_slots()),
    }
}

/// One and the units that hold so much, or the greatest number where there are more.
fn units(length: u64, unit: u64) -> u64
    requires { 0 < unit }
    ensures { result ≡ min (1 + ceiling length unit) (2 ^ 64 - 1) }
{
    length.div_ceil(unit).saturating_add(1)
}
