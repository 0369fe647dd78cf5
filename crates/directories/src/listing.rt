// The entries of a directory.
ghost use Rattle.std.specs.Prelude.{◌≡◌, ◌≤◌, ◌*◌, ◌+◌, ◌/◌, ℕ, Some, None, OnOk, IfOk, IfErr, length};
ghost use Rattle.std.specs.FinMap as map;
ghost use Rattle.page_tags.specs.Slots.{Entry, slot_bytes};
ghost use Rattle.flash_tree.specs.Slots.{IsTreeSlot};
ghost use Rattle.flash_tree.specs.Tree.{ReadsDir};
ghost use Rattle.volume_terms.specs.Sizes.{slot_length};
ghost use Rattle.pages.specs.Faults.{MayLackMemory, SaysWhyMaking};
ghost use Rattle.pages.specs.Maps.{has};
ghost use Rattle.pages.specs.State.{PagesState, OnlyFinds, KeepsPower};
ghost use Rattle.directories.specs.Listings.{TakesEntry, ReportsNames, ReadsBefore, ReadsPast, OfPage, OfDirPage, OfChunk};
ghost use Rattle.directories.specs.Stores.{OfPages, OfObject};
ghost use Rattle.directories.specs.Changing.{OfDir, pages_of};
ghost use Rattle.directories.specs.Slots.{OfEntry};

use crate::head::read_head;
use crate::page::slot_of;
use flash_tree::{Key, decode_tree_slot};
use name_map::NameMap;
use pages::{PageFault, Pages, load};
use posix_profile::NameList;
use std::alloc::Global;
use volume_terms::SLOT_BYTES;

/// The names of a directory, in the order of their bytes.
pub fn names<P: Pages>(alloc: Global, pages: &mut P, directory: u64) -> Result<NameList, PageFault>
    ensures lookups { OnlyFinds (P.state pages.old) (P.state pages.new) }
    ensures issued { OfDir (P.state pages.old) directory (λ d. (P.state pages.new).issued ≤ (P.state pages.old).issued + 1 + pages_of d) }
    ensures power { OnOk result (KeepsPower (P.state pages.old) (P.state pages.new)) }
    ensures reported { OfPages (P.state pages.old) (λ z m. IfOk result (ReportsNames z m directory)) }
    ensures found { OfDir (P.state pages.old) directory (λ d. IfOk result (λ names. names ≡ map.keys d.entries)) }
    ensures why { IfErr result (SaysWhyMaking (P.state pages.new)) }
    ensures fault { OfDir (P.state pages.old) directory (λ d. IfErr result (MayLackMemory (P.state pages.new))) }
{
    let entries = entries(alloc, pages, directory)?;
    let names = entries.into_names(alloc)?;
    Ok(names)
}

/// The names of a directory, with the objects that they lead to. Each page is looked up once.
pub fn entries<P: Pages>(alloc: Global, pages: &mut P, directory: u64) -> Result<NameMap, PageFault>
    ensures lookups { OnlyFinds (P.state pages.old) (P.state pages.new) }
    ensures issued { OfDir (P.state pages.old) directory (λ d. (P.state pages.new).issued ≤ (P.state pages.old).issued + 1 + pages_of d) }
    ensures power { OnOk result (KeepsPower (P.state pages.old) (P.state pages.new)) }
    ensures reported { OfPages (P.state pages.old) (λ z m. IfOk result (λ entries. (moment : ℕ) × ReadsDir z (has m) directory moment entries)) }
    ensures found { OfDir (P.state pages.old) directory (λ d. IfOk result (λ found. found ≡ d.entries)) }
    ensures why { IfErr result (SaysWhyMaking (P.state pages.new)) }
    ensures fault { OfDir (P.state pages.old) directory (λ d. IfErr result (MayLackMemory (P.state pages.new))) }
{
    let head = read_head(pages, directory)?;
    let slots = pages.page_bytes() / SLOT_BYTES as u32;
    let mut entries = NameMap::new(alloc);
    for chunk in 0..head.length.div_ceil(slots) {
        let count = slots.min(head.length - chunk * slots);
        take_chunk(alloc, pages, directory, chunk, count, &mut entries)?;
    }
    Ok(entries)
}

/// Puts the first slots of a chunk of a directory's slots into a map. A name that is there already is `Damaged`.
fn take_chunk<P: Pages>(
    alloc: Global,
    pages: &mut P,
    directory: u64,
    chunk: u32,
    count: u32,
    entries: &mut NameMap,
) -> Result<(), PageFault>
    requires { slot_length * count ≤ (P.state pages.old).page_bytes }
    ensures lookups { OnlyFinds (P.state pages.old) (P.state pages.new) }
    ensures issued { (P.state pages.new).issued ≤ (P.state pages.old).issued + 1 }
    ensures power { OnOk result (KeepsPower (P.state pages.old) (P.state pages.new)) }
    ensures reported { OfObject (P.state pages.old) directory (λ it. ReadsBefore it chunk entries.old → IfOk result (λ _. ReadsPast it chunk count entries.new)) }
    ensures why { IfErr result (SaysWhyMaking (P.state pages.new)) }
    ensures fault { OfDir (P.state pages.old) directory (λ d. 1 ≤ count → OfChunk d chunk count entries.old (IfErr result (MayLackMemory (P.state pages.new)))) }
{
    let key = Key {
        object: directory,
        chunk: 1 + u64::from(chunk),
    };
    load(pages, key)?;
    take_page(alloc, pages.page(), chunk, count, entries)
}

/// Puts the first slots of a page, which is of this chunk, into a map. A name that is there already is `Damaged`.
fn take_page(
    alloc: Global,
    page: &[u8],
    chunk: u32,
    count: u32,
    entries: &mut NameMap,
) -> Result<(), PageFault>
    requires room { slot_length * count ≤ length page.now }
    requires within_limit { length page.now ≤ 4096 }
    ensures reported { OfPage page.now chunk (λ it. ReadsBefore it chunk entries.old → IfOk result (λ _. ReadsPast it chunk count entries.new)) }
    ensures why { (new : PagesState) → IfErr result (SaysWhyMaking new) }
    ensures fault { (new : PagesState) → OfDirPage page.now chunk (λ d. OfChunk d chunk count entries.old (IfErr result (MayLackMemory new))) }
{
    for place in 0..count {
        take_entry(alloc, slot_of(page, place), entries)?;
    }
    Ok(())
}

/// Puts the entry that the bytes of a slot say into a map. A name that is there already is `Damaged`.
fn take_entry(alloc: Global, bytes: &[u8], entries: &mut NameMap) -> Result<(), PageFault>
    requires { length bytes.now ≡ slot_length }
    ensures reported { IfOk result (λ _. (entry : Entry) × IsTreeSlot entry × (bytes.now ≡ slot_bytes entry) × TakesEntry entry entries.old entries.new) }
    ensures why { (new : PagesState) → IfErr result (SaysWhyMaking new) }
    ensures fault { (new : PagesState) → OfEntry bytes.now (λ e. map.get entries.old e.name ≡ None → IfErr result (MayLackMemory new)) }
{
    let Some(slot) = decode_tree_slot(bytes) else {
        return Err(PageFault::Damaged);
    };
    match entries.insert(slot.name.to_vec(alloc)?, slot.object)? {
        Some(_) => Err(PageFault::Damaged),
        None => Ok(()),
    }
}
