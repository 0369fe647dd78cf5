// The slot that a name leaves by a change.
ghost use Rattle.std.specs.Prelude.{◌≡◌, ◌≢◌, ℕ, IfSome, IfNone, length};
ghost use Rattle.name_index.specs.Hashes.{fnv1a};
ghost use Rattle.name_index.specs.Names.{Holds};
ghost use Rattle.page_tags.specs.Slots.{Entry, slot_bytes};
ghost use Rattle.flash_tree.specs.Slots.{IsTreeSlot};
ghost use Rattle.volume_terms.specs.Sizes.{slot_length};
ghost use Rattle.pages.specs.Changes.{AreSized};
ghost use Rattle.pages.specs.Maps.{IsPageOf};
ghost use Rattle.directories.specs.Leaving.{IsFirstPage, WritesHash, WritesNoName, LeavesName, KeepsHash};
ghost use Rattle.directories.specs.Stores.{OfSize};
ghost use Rattle.directories.specs.Slots.{OfEntry};

use crate::page::slot_of;
use flash_tree::{FreshPage, Key, decode_tree_slot};
use name_index::{NameIndex, name_hash};
use pages::Change;
use volume_terms::SLOT_BYTES;

/// A slot that a name leaves by a change, and the hash of the name that is in it then.
#[derive(Clone, Copy, Debug, PartialEq, Eq)]
pub struct LeftSlot {
    pub slot: u32,
    pub hash: u32,
}

/// The slot that is held under the hash of a name, and into which a page of the change writes a name with another hash, if
/// there is one.
pub fn left_slot(
    names: &NameIndex,
    page_bytes: u32,
    change: &Change,
    directory: u64,
    name: &[u8],
) -> Option<LeftSlot>
    requires { AreSized change.now.pages.items page_bytes }
    ensures left { IfSome result (λ left. OfSize page_bytes (λ z. LeavesName z change.now directory (fnv1a name.now) left)) }
    ensures none { let hash = fnv1a name.now in IfNone result (OfSize page_bytes (λ z. KeepsHash (Holds names.now directory hash) z change.now directory hash)) }
{
    let hash = name_hash(name);
    let mut from: u32 = 0;
    loop {
        let slot = names.next_slot(directory, hash, from)?;
        if let Some(written) = hash_in(&change.pages, page_bytes, directory, slot) {
            if written != hash {
                return Some(LeftSlot {
                    slot,
                    hash: written,
                });
            }
        }
        from = slot.checked_add(1)?;
    }
}

/// The hash of the name that one of these pages has in a slot of a directory, if one does.
fn hash_in(pages: &[FreshPage], page_bytes: u32, directory: u64, slot: u32) -> Option<u32>
    requires { AreSized pages.now page_bytes }
    ensures hash { IfSome result (λ hash. OfSize page_bytes (λ z. WritesHash z pages.now directory slot hash)) }
    ensures none { IfNone result (OfSize page_bytes (λ z. WritesNoName z pages.now directory slot)) }
{
    let slots = page_bytes / SLOT_BYTES as u32;
    if slots == 0 {
        return None;
    }
    let key = Key {
        object: directory,
        chunk: 1 + u64::from(slot / slots),
    };
    let page = page_of(pages, page_bytes, key)?;
    hash_of_slot(slot_of(page, slot % slots))
}

/// The first of these pages that is of a key.
fn page_of(pages: &[FreshPage], page_bytes: u32, key: Key) -> Option<&[u8]>
    requires { AreSized pages.now page_bytes }
    ensures first { IfSome result (λ page. IsFirstPage pages.now key.object key.chunk page.now) }
    ensures size { IfSome result (λ page. length page.now ≡ page_bytes) }
    ensures none { IfNone result ((i : ℕ) → IsPageOf pages.now key.object key.chunk i → ⊥) }
{
    for page in pages {
        if page.key == key {
            return Some(&page.bytes);
        }
    }
    None
}

/// The hash of the name that the bytes of a slot have, if they are one.
fn hash_of_slot(bytes: &[u8]) -> Option<u32>
    requires { length bytes.now ≡ slot_length }
    ensures hash { IfSome result (λ hash. OfEntry bytes.now (λ e. fnv1a e.name ≡ hash)) }
    ensures none { IfNone result ((e : Entry) → IsTreeSlot e → bytes.now ≢ slot_bytes e) }
{
    let slot = decode_tree_slot(bytes)?;
    Some(name_hash(slot.name))
}
