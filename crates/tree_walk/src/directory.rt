// The slots of a directory.
ghost use Rattle.std.specs.Prelude.{◌≡◌, ◌<◌, ◌≤◌, ◌+◌, ◌*◌, ◌^◌, [], IfOk, IfErr, OnOk, Some, length, take, drop};
ghost use Rattle.std.specs.FinMap as map;
ghost use Rattle.std.specs.Int.{div_ceil};
ghost use Rattle.page_tags.specs.Slots.{Entry, slot_bytes};
ghost use Rattle.flash_tree.specs.Slots.{IsTreeSlot};
ghost use Rattle.pages.specs.State.{PagesState, OnlyFinds, KeepsPower};
ghost use Rattle.volume_terms.specs.Sizes.{page_slots};
ghost use Rattle.name_index.specs.Covering.{HasHashes};
ghost use Rattle.tree_walk.specs.Faults.{IfFault, ReportsWhy};
ghost use Rattle.tree_walk.specs.Hashes.{Keeps};
ghost use Rattle.tree_walk.specs.Broken.{IsBrokenIn};
ghost use Rattle.tree_walk.specs.Pages.{OfPageBytes, OfPages};
ghost use Rattle.tree_walk.specs.SlotLists.{BreaksUpTo, NamesFrom, OfSlotPage, SlotsBefore, SlotsUpTo, TakesEntry, TakesNone, broken_at};

use crate::broken::{Broken, Rule};
use crate::fault::WalkFault;
use crate::hashes::add_hashes;
use flash_tree::{Key, decode_tree_slot};
use name_index::{NameIndex, name_hash};
use name_map::NameMap;
use pages::{Pages, Presence};
use std::alloc::Global;
use volume_terms::SLOT_BYTES;

/// The names of the slots that were gone through; and slot by slot the objects that these name, and the hashes of the names.
#[derive(Drop)]
pub(crate) struct Slots {
    names: NameMap,
    objects: Vec<u64>,
    hashes: Vec<u32>,
}

/// No slot was gone through yet.
fn no_slots(alloc: Global) -> Slots
    ensures names { result.names ≡ map.empty }
    ensures objects { result.objects.items ≡ [] }
    ensures hashes { result.hashes.items ≡ [] }
{
    Slots {
        names: NameMap::new(alloc),
        objects: Vec::new(alloc),
        hashes: Vec::new(alloc),
    }
}

/// The objects that the slots of a directory name, in their order. The hashes of their names are added to the index. Each
/// page is looked up once.
pub(crate) fn read_slots<P: Pages>(
    alloc: Global,
    pages: &mut P,
    directory: u64,
    length: u64,
    names: &mut NameIndex,
) -> Result<Vec<u64>, WalkFault>
    requires within_limit { length < 2 ^ 32 }
    ensures lookups { OnlyFinds (P.state pages.old) (P.state pages.new) }
    ensures issued { OfPageBytes (P.state pages.old) (λ z. (P.state pages.new).issued ≤ (P.state pages.old).issued + div_ceil length (page_slots z)) }
    ensures power { OnOk result (KeepsPower (P.state pages.old) (P.state pages.new)) }
    ensures reported { OfPages (P.state pages.old) (λ z m. IfOk result (λ objects. NamesFrom z m directory length objects.items)) }
    ensures fault { OfPages (P.state pages.old) (λ z m. IfFault result (IsBrokenIn z m directory length) (P.state pages.new)) }
    ensures why { IfErr result (ReportsWhy (P.state pages.new)) }
    ensures keeps { Keeps names.old names.new }
    ensures hashes { OfPages (P.state pages.old) (λ z m. OnOk result (HasHashes names.new z m directory length)) }
{
    let slots = u64::from(pages.page_bytes() / SLOT_BYTES as u32);
    let mut seen = no_slots(alloc);
    for chunk in 0..length.div_ceil(slots) {
        let count = slots.min(length - chunk * slots);
        let at = SlotPage {
            directory,
            number: chunk,
        };
        take_chunk(alloc, pages, at, count, &mut seen)?;
    }
    add_hashes(names, directory, &seen.hashes, length as u32)?;
    Ok(seen.objects)
}

/// A page of a directory's slots, by its number among them from 0 on.
#[derive(Clone, Copy)]
struct SlotPage {
    directory: u64,
    number: u64,
}

impl SlotPage {
    /// The key of the page.
    fn key(self) -> Key
        requires within_limit { self.number < 2 ^ 32 }
        ensures key { result ≡ record { object = self.directory; chunk = 1 + self.number } }
    {
        Key {
            object: self.directory,
            chunk: 1 + self.number,
        }
    }

    /// The rule is broken by this page.
    fn breaks(self, rule: Rule) -> WalkFault
        requires within_limit { self.number < 2 ^ 32 }
        ensures broken { result ≡ broken_at self rule }
    {
        WalkFault::Broken(Broken {
            rule,
            key: self.key(),
        })
    }
}

/// Goes through the first slots of a page of a directory's slots. A name that was seen already breaks a rule.
fn take_chunk<P: Pages>(
    alloc: Global,
    pages: &mut P,
    at: SlotPage,
    count: u64,
    seen: &mut Slots,
) -> Result<(), WalkFault>
    requires room { 272 * count ≤ (P.state pages.old).page_bytes }
    requires within_limit { at.number < 2 ^ 32 }
    ensures lookups { OnlyFinds (P.state pages.old) (P.state pages.new) }
    ensures issued { (P.state pages.new).issued ≤ (P.state pages.old).issued + 1 }
    ensures power { OnOk result (KeepsPower (P.state pages.old) (P.state pages.new)) }
    ensures reported { OfPages (P.state pages.old) (λ z m. SlotsBefore z m at seen.old → OnOk result (SlotsUpTo z m at count seen.new)) }
    ensures fault { OfPages (P.state pages.old) (λ z m. 1 ≤ count → SlotsBefore z m at seen.old → IfFault result (BreaksUpTo z m at count) (P.state pages.new)) }
    ensures why { IfErr result (ReportsWhy (P.state pages.new)) }
{
    match pages.find(at.key())? {
        Presence::Present => take_page(alloc, pages.page(), at, count, seen),
        Presence::Absent => Err(at.breaks(Rule::ChunkMissing)),
    }
}

/// Goes through the first slots of a page of a directory's slots. A name that was seen already breaks a rule.
fn take_page(
    alloc: Global,
    page: &[u8],
    at: SlotPage,
    count: u64,
    seen: &mut Slots,
) -> Result<(), WalkFault>
    requires room { 272 * count ≤ length page.now }
    requires within_limit { length page.now ≤ 4096 }
    requires number { at.number < 2 ^ 32 }
    ensures reported { OfSlotPage at page.now (λ z m. SlotsBefore z m at seen.old → OnOk result (SlotsUpTo z m at count seen.new)) }
    ensures fault { (new : PagesState) → OfSlotPage at page.now (λ z m. SlotsBefore z m at seen.old → IfFault result (BreaksUpTo z m at count) new) }
    ensures why { (new : PagesState) → IfErr result (ReportsWhy new) }
{
    for place in 0..count {
        take_entry(alloc, slot_of(page, place), at, place, seen)?;
    }
    Ok(())
}

/// The bytes of a slot of a page.
fn slot_of(page: &[u8], place: u64) -> &[u8]
    requires room { 272 * place + 272 ≤ length page.now }
    requires within_limit { length page.now ≤ 4096 }
    ensures bytes { result.now ≡ take 272 (drop (272 * place) page.now) }
    ensures len { length result.now ≡ 272 }
{
    let at = SLOT_BYTES * place as usize;
    &page[at..at + SLOT_BYTES]
}

/// Goes through the slot that these bytes are, which is in this place of the page. A name that was seen already breaks a rule.
fn take_entry(
    alloc: Global,
    bytes: &[u8],
    at: SlotPage,
    place: u64,
    seen: &mut Slots,
) -> Result<(), WalkFault>
    requires size { length bytes.now ≡ 272 }
    requires number { at.number < 2 ^ 32 }
    ensures reported { OnOk result ((entry : Entry) × IsTreeSlot entry × (bytes.now ≡ slot_bytes entry) × TakesEntry entry seen.old seen.new) }
    ensures fault { (new : PagesState) → IfFault result (TakesNone bytes.now at place seen.old) new }
{
    let Some(slot) = decode_tree_slot(bytes) else {
        return Err(at.breaks(Rule::NoSlot(place)));
    };
    let led = seen.names.insert(slot.name.to_vec(alloc)?, slot.object)?;
    if led.is_some() {
        return Err(at.breaks(Rule::NameTwice(place)));
    }
    seen.objects.push(slot.object)?;
    seen.hashes.push(name_hash(slot.name))?;
    Ok(())
}
