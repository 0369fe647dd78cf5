// The names of a directory whose slots read.
ghost use Rattle.std.specs.Prelude.{◌≡◌, ◌<◌, ◌≤◌, ◌+◌, ◌*◌, ◌^◌, length, take, drop, IfOk, IfErr, OnOk};
ghost use Rattle.pages.specs.Maps.{has};
ghost use Rattle.pages.specs.State.{OnlyFinds};
ghost use Rattle.volume_terms.specs.Sizes.{page_slots};
ghost use Rattle.tree_walk.specs.Visits.{OfSeen};
ghost use Rattle.salvage.specs.SeenBy.{seen_by};
ghost use Rattle.salvage.specs.Slots.{OfSlotPage, TakesSlot};
ghost use Rattle.salvage.specs.Steps.{ExtendsBy};
ghost use Rattle.salvage.specs.Reported.{ListsDirectory, ListsSlots, WhyNotRead};

use crate::fault::SalvageFault;
use crate::header::read_info;
use crate::looking::look;
use crate::reported::{Listing, SalvagedName};
use flash_tree::{Key, decode_tree_slot};
use nand_model::Nand;
use page_store::NewestPages;
use page_tags::ObjectKind;
use pages::{Pages, Presence};
use std::alloc::{AllocError, Global};
use volume_terms::SLOT_BYTES;

/// The names of a directory whose slots read; none where no header of a directory reads.
pub(crate) fn read_names<N: Nand>(
    alloc: Global,
    pages: &mut NewestPages<N>,
    directory: u64,
) -> Result<Option<Listing>, SalvageFault>
    ensures lookups { OnlyFinds (seen_by pages.old) (seen_by pages.new) }
    ensures lists { OfSeen (seen_by pages.old) (λ z m. IfOk result (ListsDirectory z (has m) directory)) }
    ensures fault { IfErr result (WhyNotRead (seen_by pages.new)) }
{
    let Some(info) = read_info(pages, directory)? else {
        return Ok(None);
    };
    match info.kind {
        ObjectKind::File => Ok(None),
        ObjectKind::Directory => {
            let listing = read_slots(alloc, pages, directory, info.length)?;
            Ok(Some(listing))
        }
    }
}

/// The names of those of so many slots of a directory that read.
fn read_slots<N: Nand>(
    alloc: Global,
    pages: &mut NewestPages<N>,
    directory: u64,
    length: u64,
) -> Result<Listing, SalvageFault>
    requires within_limit { length < 2 ^ 32 }
    ensures lookups { OnlyFinds (seen_by pages.old) (seen_by pages.new) }
    ensures lists { OfSeen (seen_by pages.old) (λ z m. IfOk result (ListsSlots z (has m) directory length)) }
    ensures fault { IfErr result (WhyNotRead (seen_by pages.new)) }
{
    let slots = u64::from(pages.page_bytes() / SLOT_BYTES as u32);
    let mut listing = Listing {
        names: Vec::new(alloc),
        lost: 0,
    };
    for chunk in 0..length.div_ceil(slots) {
        let count = slots.min(length - chunk * slots);
        read_chunk(alloc, pages, directory, chunk, count, &mut listing)?;
    }
    Ok(listing)
}

/// Goes through the first slots of a chunk of a directory's slots. Where it has no page, all of them are lost.
fn read_chunk<N: Nand>(
    alloc: Global,
    pages: &mut NewestPages<N>,
    directory: u64,
    chunk: u64,
    count: u64,
    listing: &mut Listing,
) -> Result<(), SalvageFault>
    requires room { 272 * count ≤ (seen_by pages.old).page_bytes }
    requires within_limit { chunk < 2 ^ 32 }
    requires fits { listing.old.lost + count < 2 ^ 64 }
    ensures lookups { OnlyFinds (seen_by pages.old) (seen_by pages.new) }
    ensures lists { OfSeen (seen_by pages.old) (λ z m. ExtendsBy count (ListsSlots z (has m) directory) (chunk * page_slots z) listing.old listing.new result) }
    ensures lost { OnOk result (listing.new.lost ≤ listing.old.lost + count) }
    ensures fault { IfErr result (WhyNotRead (seen_by pages.new)) }
{
    let key = Key {
        object: directory,
        chunk: 1 + chunk,
    };
    match look(pages, key)? {
        Presence::Present => {
            read_page(alloc, pages.page(), count, listing)?;
            Ok(())
        }
        Presence::Absent => {
            listing.lost += count;
            Ok(())
        }
    }
}

/// Goes through the first slots of a page.
fn read_page(
    alloc: Global,
    page: &[u8],
    count: u64,
    listing: &mut Listing,
) -> Result<(), AllocError>
    requires room { 272 * count ≤ length page.now }
    requires within_limit { length page.now ≤ 4096 }
    requires fits { listing.old.lost + count < 2 ^ 64 }
    ensures lists { OfSlotPage page.now (λ z m d chunk. ExtendsBy count (ListsSlots z (has m) d) (chunk * page_slots z) listing.old listing.new result) }
    ensures lost { OnOk result (listing.new.lost ≤ listing.old.lost + count) }
{
    for place in 0..count {
        read_slot(alloc, slot_of(page, place), listing)?;
    }
    Ok(())
}

/// The bytes of a slot of a page.
fn slot_of(page: &[u8], place: u64) -> &[u8]
    requires room { 272 * place + 272 ≤ length page.now }
    requires within_limit { length page.now ≤ 4096 }
    ensures bytes { result.now ≡ take 272 (drop (272 * place) page.now) }
    ensures len { length result.now ≡ 272 }
{
    let at = SLOT_BYTES * place as usize;
    &page[at..at + SLOT_BYTES]
}

/// Goes through the slot that these bytes are. Where they are none, it is lost.
fn read_slot(alloc: Global, bytes: &[u8], listing: &mut Listing) -> Result<(), AllocError>
    requires size { length bytes.now ≡ 272 }
    requires fits { listing.old.lost + 1 < 2 ^ 64 }
    ensures { OnOk result (TakesSlot bytes.now listing.old listing.new) }
{
    match decode_tree_slot(bytes) {
        Some(slot) => {
            let name = slot.name.to_vec(alloc)?;
            let object = slot.object;
            listing.names.push(SalvagedName { name, object })?;
            Ok(())
        }
        None => {
            listing.lost += 1;
            Ok(())
        }
    }
}
