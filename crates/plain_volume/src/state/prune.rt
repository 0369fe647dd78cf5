// Which objects names keep.
ghost use Rattle.std.specs.Prelude.{◌≡◌, ◌||◌, IfOk, nat_eq};
ghost use Rattle.std.specs.FinMap as map;
ghost use Rattle.volume_terms.specs.Sizes.{root_number};
ghost use Rattle.posix_profile.specs.Names.{is_named, settle};
ghost use Rattle.plain_volume.specs.PlainState.{objects_in};

use crate::state::links::is_named;
use crate::state::object::ObjectMap;
use crate::state::table::copy_objects;
use std::alloc::AllocError;
use volume_terms::ROOT;

/// Whether the object is the root, or some directory names it.
fn is_retained(objects: &ObjectMap, number: u64) -> bool
    ensures { result ≡ (nat_eq number root_number || is_named (objects_in objects.now) number) }
{
    number == ROOT || is_named(objects, number)
}

/// The objects that names keep: what a mount shows.
pub fn settled(objects: &ObjectMap) -> Result<ObjectMap, AllocError>
    ensures { IfOk result (λ committed. objects_in committed ≡ (settle (record { objects = objects_in objects.now; handles = map.empty })).objects) }
{
    let mut committed = copy_objects(objects)?;
    committed.retain(|number, _object| is_retained(objects, *number));
    Ok(committed)
}
