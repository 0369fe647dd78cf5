// A store in memory that takes changes, with an index of its names, and slots that a directory takes.
ghost use Rattle.std.specs.Prelude.{◌≡◌, ◌≤◌, length};
ghost use Rattle.page_tags.specs.SlotEntry.{entry_of};
ghost use Rattle.flash_tree.specs.Slots.{IsTreeSlot};

use directories::{DirectoryHead, head_page, left_slot};
use flash_tree::CHECK_OBJECT;
use name_index::{NameIndex, name_hash};
use object_store::{DirectoryEntry, ObjectChange};
use page_tags::Slot;
use paged_objects::{hash_names, plan};
use pages::{Change, MemPages, Pages, are_sized};
use std::alloc::Global;
use std::process::Abort;
use volume_terms::is_name;

/// The two directories of a store.
pub(crate) const HOME: u64 = 1;

pub(crate) const AWAY: u64 = 2;

/// Pages in memory, and an index of the names in their directories.
#[derive(Drop)]
pub(crate) struct Store {
    pub(crate) names: NameIndex,
    pub(crate) pages: MemPages,
}

impl Store {
    /// A store without pages.
    fn new(rt: &impl Abort, alloc: Global, page_bytes: u32) -> Store
        requires least { 512 ≤ page_bytes }
        requires most { page_bytes ≤ 4096 }
    {
        Store {
            names: NameIndex::new(alloc),
            pages: MemPages::new(alloc, page_bytes).expect(rt, "memory"),
        }
    }
}

/// The store after a change.
pub(crate) fn taken(rt: &impl Abort, alloc: Global, store: Store, change: Change) -> Store {
    let Store { mut names, pages } = store;
    if !are_sized(&change.pages, pages.page_bytes()) {
        panic!(rt; "a page of another size");
    }
    hash_names(&mut names, &pages, &change, None).expect(rt, "memory");
    let pages = pages.apply(alloc, change).expect(rt, "memory");
    Store { names, pages }
}

/// The store after a change that takes a name from a directory. Where its slot has a name with another hash then, the
/// index does not hold the slot under the first one's any more.
pub(crate) fn taken_from(
    rt: &impl Abort,
    alloc: Global,
    store: Store,
    change: Change,
    directory: u64,
    name: &[u8],
) -> Store {
    let page_bytes = store.pages.page_bytes();
    if !are_sized(&change.pages, page_bytes) {
        panic!(rt; "a page of another size");
    }
    let left = left_slot(&store.names, page_bytes, &change, directory, name);
    let Store { mut names, pages } = taken(rt, alloc, store, change);
    if let Some(left) = left {
        names.remove(directory, name_hash(name), left.slot);
    }
    Store { names, pages }
}

/// A frame of zeros.
fn frame(rt: &impl Abort, alloc: Global, page_bytes: u32) -> Vec<u8>
    ensures { length result.items ≡ page_bytes }
{
    vec![in alloc; 0u8; page_bytes as usize].expect(rt, "memory")
}

/// A store with the two directories, without names.
pub(crate) fn two_directories(rt: &impl Abort, alloc: Global, page_bytes: u32) -> Store {
    if !(512..=4096).contains(&page_bytes) {
        panic!(rt; "no such page");
    }
    let head = DirectoryHead {
        spare: 0,
        length: 0,
        moment: 0,
    };
    let home = head_page(frame(rt, alloc, page_bytes), HOME, head);
    let away = head_page(frame(rt, alloc, page_bytes), AWAY, head);
    let change = Change {
        pages: vec![in alloc; home, away].expect(rt, "memory"),
        cuts: Vec::new(alloc),
    };
    taken(rt, alloc, Store::new(rt, alloc, page_bytes), change)
}

/// The root of a volume.
pub(crate) const ROOT: u64 = 1;

/// A name in a directory.
pub(crate) fn entry(directory: u64, name: &[u8]) -> DirectoryEntry<'_> {
    DirectoryEntry { directory, name }
}

/// A volume with a root without names, whose header says three spare blocks.
pub(crate) fn empty_volume(rt: &impl Abort, alloc: Global) -> Store {
    let head = DirectoryHead {
        spare: 3,
        length: 0,
        moment: 0,
    };
    let root = head_page(frame(rt, alloc, 512), ROOT, head);
    let change = Change {
        pages: vec![in alloc; root].expect(rt, "memory"),
        cuts: Vec::new(alloc),
    };
    taken(rt, alloc, Store::new(rt, alloc, 512), change)
}

/// The store after a change of objects.
pub(crate) fn after_change(
    rt: &impl Abort,
    alloc: Global,
    mut store: Store,
    change: ObjectChange<'_>,
    new: u64,
) -> Store {
    let change = plan(&store.names, &mut store.pages, alloc, &change, new).expect(rt, "a change");
    taken(rt, alloc, store, change)
}

/// A slot with this name, which leads to the object.
pub(crate) fn slot_of<'a>(rt: &impl Abort, name: &'a [u8], object: u64) -> Slot<'a>
    ensures { IsTreeSlot (entry_of result) }
{
    if object < 2 || object == CHECK_OBJECT || !is_name(name) {
        panic!(rt; "no such slot");
    }
    Slot { object, name }
}
