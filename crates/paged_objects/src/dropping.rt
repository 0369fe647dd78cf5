// Names that left their slots, in the index of names.
ghost use Rattle.std.specs.Prelude.{◌≡◌, ◌-◌, ◌≤◌, ◌<◌, ◌^◌};
ghost use Rattle.volume_terms.specs.Sizes.{Sizes};
ghost use Rattle.posix_profile.specs.State.{Objects};
ghost use Rattle.object_store.specs.Changes.{without};
ghost use Rattle.pages.specs.Maps.{PageMap};
ghost use Rattle.paged_objects.specs.Naming.{HasNames};
ghost use Rattle.paged_objects.specs.Changing.{HasLeftBy};
ghost use Rattle.paged_objects.specs.Making.{HasLeftName, OfNames, OfNamesMade};

use directories::LeftSlot;
use name_index::{NameIndex, name_hash};
use object_store::{DirectoryEntry, ObjectChange, ObjectTable};

/// Drops what the index holds under the names that a change took from their slots, and under those of a directory that went.
/// It takes no memory.
pub(crate) fn drop_names(
    names: &mut NameIndex,
    table: &ObjectTable,
    change: &ObjectChange<'_>,
    left: Option<LeftSlot>,
)
    ensures { OfNamesMade names.old table.now change.now (λ z m new. HasLeftBy z m new change.now left → HasNames names.new z m new) }
{
    match change {
        ObjectChange::Create { .. } => {}
        ObjectChange::Name { .. } => {}
        ObjectChange::Remove { entry, dropped, .. } => {
            drop_name(names, table, *entry, left);
            drop_object(names, *dropped);
        }
        ObjectChange::Move { from, dropped, .. } => {
            drop_name(names, table, *from, left);
            drop_object(names, *dropped);
        }
        ObjectChange::Write { .. } => {}
        ObjectChange::Resize { .. } => {}
        ObjectChange::Forget { .. } => {}
    }
}

/// Drops a name from the slot that it left, and from behind the last slot of its directory; and from there also the name that
/// is in the slot now, which was the last one's.
fn drop_name(
    names: &mut NameIndex,
    table: &ObjectTable,
    entry: DirectoryEntry<'_>,
    left: Option<LeftSlot>,
)
    ensures { OfNames names.old table.now (λ z m objects. HasLeftName z m objects entry.entry left → HasNames names.new z m objects) }
{
    let hash = name_hash(entry.name);
    drop_behind(names, table, entry.directory, hash);
    if let Some(left) = left {
        names.remove(entry.directory, hash, left.slot);
        drop_behind(names, table, entry.directory, left.hash);
    }
}

/// Drops a hash from the slot behind the last one of a directory.
fn drop_behind(names: &mut NameIndex, table: &ObjectTable, directory: u64, hash: u32)
    ensures { OfNames names.old table.now (λ z m objects. HasNames names.new z m objects) }
{
    if let Ok(slot) = u32::try_from(table.entry_count(directory)) {
        names.remove(directory, hash, slot);
    }
}

/// Drops the names of a directory that is gone.
fn drop_object(names: &mut NameIndex, dropped: Option<u64>)
    ensures { (z : Sizes) (m : PageMap) (objects : Objects) → HasNames names.old z m (without dropped objects) → HasNames names.new z m (without dropped objects) }
{
    if let Some(number) = dropped {
        names.drop_directory(number);
    }
}
