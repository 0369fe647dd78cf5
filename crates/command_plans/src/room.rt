// Whether there is room for a change.
ghost use Rattle.std.specs.Prelude.{◌≡◌, ◌<◌, ◌≤◌, ◌-◌, ◌+◌, length};
ghost use Rattle.std.specs.FinMap as map;
ghost use Rattle.volume_terms.specs.Sizes.{page_slots, capacity};
ghost use Rattle.posix_profile.specs.Charge.{charge};
ghost use Rattle.volume_terms.specs.Rounding.{ceiling};
ghost use Rattle.volume_terms.specs.VolumeSizes.{sizes_of};
ghost use Rattle.object_store.specs.Facts.{bytes_of};
ghost use Rattle.object_store.specs.Stores.{OfDirectory, OfFile, OfTree, OfAnyFile};
ghost use Rattle.command_plans.specs.Rooms.{entry_units, IsRoomForObject, IsRoomForName, IsRoomForBytes, IsRoomOf};

use crate::facts::length;
use object_store::ObjectStore;
use volume_terms::VolumeSizes;

/// The units that one entry more takes.
fn entry_units(count: u64, slots: u64) -> u64
    requires { 0 < slots }
    ensures units { result ≡ entry_units count slots }
    ensures within_limit { result ≤ 1 }
{
    if count % slots == 0 { 1 } else { 0 }
}

/// Entries of a directory in one page.
fn slots_of(sizes: VolumeSizes) -> u64
    ensures slots { result ≡ page_slots (sizes_of sizes) }
    ensures positive { 0 < result }
{
    sizes.page_slots()
}

/// The units that a further entry of a directory of so many takes.
pub fn units_past<S: ObjectStore>(store: &S, count: u64) -> u64
    ensures units { OfTree S.meaning store.now (λ z objects. result ≡ entry_units count (page_slots z)) }
    ensures within_limit { result ≤ 1 }
{
    entry_units(count, slots_of(store.sizes()))
}

/// The units that are free.
pub fn free_units<S: ObjectStore>(store: &S) -> u64
    ensures { OfTree S.meaning store.now (λ z objects. result ≡ capacity z - charge z objects) }
{
    store.sizes().capacity().saturating_sub(store.charge())
}

/// Whether there is room for a new object and its name.
pub fn has_object_room<S: ObjectStore>(store: &S, directory: u64) -> bool
    ensures { OfDirectory S.meaning store.now directory (λ z objects. IsRoomForObject z objects directory result) }
{
    let units = units_past(store, store.entry_count(directory));
    1 + units <= free_units(store)
}

/// Whether there is room for a further name.
pub fn has_name_room<S: ObjectStore>(store: &S, directory: u64) -> bool
    ensures { OfDirectory S.meaning store.now directory (λ z objects. IsRoomForName z objects directory result) }
{
    units_past(store, store.entry_count(directory)) <= free_units(store)
}

/// The units of so many bytes.
pub fn units_of(sizes: VolumeSizes, size: u64) -> u64
    ensures { result ≡ ceiling size (sizes_of sizes).page_bytes }
{
    size.div_ceil(sizes.page_bytes())
}

/// The units that there are for a file of so many bytes, with those that it has.
pub fn units_for<S: ObjectStore>(store: &S, size: u64) -> u64
    ensures { OfAnyFile S.meaning store.now (λ z objects file. size ≡ length (bytes_of (map.get objects file)) → IsRoomOf z objects file result) }
{
    free_units(store).saturating_add(units_of(store.sizes(), size))
}

/// Whether there is room for so many bytes in place of those of a file.
pub fn has_bytes_room<S: ObjectStore>(store: &S, file: u64, size: u64) -> bool
    ensures { OfFile S.meaning store.now file (λ z objects. IsRoomForBytes z objects file size result) }
{
    units_of(store.sizes(), size) <= units_for(store, length(store, file))
}
