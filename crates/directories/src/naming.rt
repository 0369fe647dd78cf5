// The hashes of the names that a change writes, in an index.
ghost use Rattle.std.specs.Prelude.{◌≡◌, ◌<◌, ◌≤◌, ◌*◌, ◌/◌, ◌^◌, true, OnOk, length};
ghost use Rattle.name_index.specs.Covering.{HasHashes};
ghost use Rattle.name_index.specs.Hashes.{fnv1a};
ghost use Rattle.name_index.specs.Names.{Holds};
ghost use Rattle.page_tags.specs.Headers.{Fields, IsHeaderOf};
ghost use Rattle.page_tags.specs.declared.header.ObjectKind.TheVariants as kinds;
ghost use Rattle.volume_terms.specs.Sizes.{slot_length};
ghost use Rattle.pages.specs.Changes.{AreSized};
ghost use Rattle.directories.specs.Hashing.{HoldsMore, HoldsPage, SaysNoDirectory, HashesPage, HashesPages, OfNewSlots, kept_count};
ghost use Rattle.directories.specs.Slots.{OfEntry};

use crate::page::slot_of;
use flash_tree::{FreshPage, Key, decode_tree_slot};
use name_index::{NameIndex, name_hash};
use pages::Change;
use std::alloc::AllocError;
use volume_terms::SLOT_BYTES;

/// The byte of a header that has the object's kind, and what it is of a directory.
const KIND_AT: usize = 5;

const DIRECTORY: u8 = 2;

/// The first slots of a directory, which a change leaves as they are.
#[derive(Clone, Copy, Debug, PartialEq, Eq)]
pub struct KeptSlots {
    pub directory: u64,
    pub count: u32,
}

/// Adds the hash of each name in the pages of directories' slots that a change writes, but for those of slots that are kept.
/// Of the names that were there before none is dropped.
pub fn hash_change(
    names: &mut NameIndex,
    page_bytes: u32,
    change: &Change,
    kept: Option<KeptSlots>,
) -> Result<(), AllocError>
    requires least { 512 ≤ page_bytes }
    requires most { page_bytes ≤ 4096 }
    requires sized { AreSized change.now.pages.items page_bytes }
    ensures committed { HoldsMore names.old names.new }
    ensures hashes { OfNewSlots page_bytes change.now kept names.old (λ z m d count. OnOk result (HasHashes names.new z m d count)) }
{
    hash_pages(names, page_bytes, &change.pages, kept)
}

/// The same for the pages of a change.
fn hash_pages(
    names: &mut NameIndex,
    page_bytes: u32,
    pages: &[FreshPage],
    kept: Option<KeptSlots>,
) -> Result<(), AllocError>
    requires least { 512 ≤ page_bytes }
    requires most { page_bytes ≤ 4096 }
    requires sized { AreSized pages.now page_bytes }
    ensures committed { HoldsMore names.old names.new }
    ensures all { OnOk result (HashesPages names.new pages.now (page_bytes / slot_length) kept) }
{
    for page in pages {
        hash_one(names, page_bytes, pages, kept, page)?;
    }
    Ok(())
}

/// The same for one of these pages.
fn hash_one(
    names: &mut NameIndex,
    page_bytes: u32,
    pages: &[FreshPage],
    kept: Option<KeptSlots>,
    page: &FreshPage,
) -> Result<(), AllocError>
    requires least { 512 ≤ page_bytes }
    requires most { page_bytes ≤ 4096 }
    requires sized { AreSized pages.now page_bytes }
    requires here { length page.now.bytes.items ≡ page_bytes }
    ensures committed { HoldsMore names.old names.new }
    ensures all { OnOk result (HashesPage names.new pages.now (page_bytes / slot_length) kept page.now) }
{
    if page.key.chunk == 0 {
        return Ok(());
    }
    if is_no_directory(pages, page_bytes, page.key.object) {
        return Ok(());
    }
    let from = kept_of(kept, page.key.object);
    hash_page(names, page_bytes / SLOT_BYTES as u32, from, page)
}

/// How many first slots of a directory are kept.
fn kept_of(kept: Option<KeptSlots>, directory: u64) -> u32
    ensures { result ≡ kept_count kept directory }
{
    let Some(kept) = kept else {
        return 0;
    };
    if kept.directory != directory {
        return 0;
    }
    kept.count
}

/// Whether the page of an object's header among these is not that of a directory. Where there is none it is not reported.
fn is_no_directory(pages: &[FreshPage], page_bytes: u32, object: u64) -> bool
    requires least { 512 ≤ page_bytes }
    requires most { page_bytes ≤ 4096 }
    requires sized { AreSized pages.now page_bytes }
    ensures { result ≡ true → SaysNoDirectory pages.now object }
{
    let key = Key { object, chunk: 0 };
    for page in pages {
        if page.key == key {
            return !is_directory_page(&page.bytes);
        }
    }
    false
}

/// Whether a page may be the header of a directory, by the byte of the kind alone: this is wanted for each page of a change.
fn is_directory_page(page: &[u8]) -> bool
    requires { 32 ≤ length page.now }
    ensures { (f : Fields) → IsHeaderOf page.now f → f.kind ≡ kinds.Directory → result ≡ true }
{
    page[KIND_AT] == DIRECTORY
}

/// Adds the hash of each name in the first slots of a page, but for the directory's slots before slot `from`.
fn hash_page(
    names: &mut NameIndex,
    slots: u32,
    from: u32,
    page: &FreshPage,
) -> Result<(), AllocError>
    requires slots { 1 ≤ page.now.key.chunk }
    requires room { slot_length * slots ≤ length page.now.bytes.items }
    ensures committed { HoldsMore names.old names.new }
    ensures all { OnOk result (HoldsPage names.new slots from page.now) }
{
    let Some(first) = (page.key.chunk - 1).checked_mul(u64::from(slots)) else {
        return Ok(());
    };
    if first > u64::from(u32::MAX) {
        return Ok(());
    }
    let start = from.saturating_sub(first as u32);
    for place in start..slots {
        let bytes = slot_of(&page.bytes, place);
        hash_slot(names, page.key.object, first + u64::from(place), bytes)?;
    }
    Ok(())
}

/// Adds the hash of the name that the bytes of a slot have, if they are one and a directory can have its number.
fn hash_slot(
    names: &mut NameIndex,
    directory: u64,
    number: u64,
    bytes: &[u8],
) -> Result<(), AllocError>
    requires { length bytes.now ≡ slot_length }
    ensures committed { HoldsMore names.old names.new }
    ensures here { OnOk result (OfEntry bytes.now (λ e. number < 2 ^ 32 → Holds names.new directory (fnv1a e.name) number)) }
{
    let Some(slot) = decode_tree_slot(bytes) else {
        return Ok(());
    };
    if number > u64::from(u32::MAX) {
        return Ok(());
    }
    names.add(directory, name_hash(slot.name), number as u32)
}
