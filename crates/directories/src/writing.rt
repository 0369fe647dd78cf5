// Slots of a directory that are written, with the directory's header.
ghost use Rattle.std.specs.Prelude.{◌≡◌, ◌<◌, ◌≤◌, ◌+◌, ◌-◌, ◌*◌, ◌/◌, ◌%◌, ℕ, min, true, IfOk, OnOk, IfErr, IfSome, IfNone, length, slice_index};
ghost use Rattle.page_tags.specs.SlotEntry.{entry_of};
ghost use Rattle.page_tags.specs.Slots.{Entry, slot_bytes};
ghost use Rattle.flash_tree.specs.Slots.{IsTreeSlot};
ghost use Rattle.volume_terms.specs.Sizes.{page_slots, slot_length};
ghost use Rattle.pages.specs.Faults.{MayLackMemory, SaysWhyMaking, LooksUp};
ghost use Rattle.directories.specs.Slots.{SlotAt, slot_in};
ghost use Rattle.directories.specs.Writes.{IsSlotsPage, IsSlotPage, IsAt, IsNotAt, EndsWithin, IsWritten, IsNotWritten, CanFollow, IsOnOther, AreOnOne, OnlyWrites, HasFirstSlots, WritesIn, WritesPages, HasPageOf, pages_of_slots};
ghost use Rattle.directories.specs.Stores.{OfPages, OfSlotted, OfSource, OfObject};

use crate::head::{DirectoryHead, head_page};
use crate::page::{copy_slots, write_slot};
use flash_tree::{FreshPage, Key};
use page_tags::Slot;
use pages::{Change, PageFault, Pages, blank_page, load, spare_page};
use std::alloc::Global;
use volume_terms::SLOT_BYTES;

/// A slot that is written: its number, and what is in it then.
#[derive(Clone, Copy)]
pub(crate) struct Written<'a> {
    pub(crate) number: u32,
    pub(crate) slot: Slot<'a>,
}

/// One or two slots that are written, and how many the directory has before and afterwards.
#[derive(Clone, Copy)]
pub(crate) struct Writing<'a> {
    pub(crate) first: Written<'a>,
    pub(crate) second: Option<Written<'a>>,
    pub(crate) before: u32,
    pub(crate) afterwards: u32,
}

/// The number of the second slot, if it is on another page than the first.
fn on_other_page(writing: Writing, slots: u32) -> Option<u32>
    requires { 1 ≤ slots }
    ensures other { IfSome result (IsOnOther slots writing.entry) }
    ensures one { IfNone result (AreOnOne slots writing.entry) }
{
    let Some(second) = writing.second else {
        return None;
    };
    if second.number / slots == writing.first.number / slots {
        return None;
    }
    Some(second.number)
}

/// Writes a slot, if there is one and it is of this chunk, over the chunk's page.
fn put_slot(written: Option<Written>, chunk: u32, slots: u32, page: &mut [u8])
    requires some { 1 ≤ slots }
    requires room { slot_length * slots ≤ length page.old }
    requires valid { IfSome written (λ it. IsTreeSlot (entry_of it.slot)) }
    ensures size { length page.new ≡ length page.old }
    ensures here { (k : ℕ) (e : Entry) → IsAt written.entry k e → k / slots ≡ chunk → slot_in page.new (k % slots) ≡ slot_bytes e }
    ensures others { (k : ℕ) → IsNotAt written.entry (chunk * slots + k) → k < slots → slot_in page.new k ≡ slot_in page.old k }
    ensures past { (m j : ℕ) → EndsWithin written.entry slots chunk m → slot_length * m ≤ j → slice_index page.new j ≡ slice_index page.old j }
{
    let Some(written) = written else {
        return;
    };
    if written.number / slots != chunk {
        return;
    }
    write_slot(&written.slot, written.number % slots, page);
}

/// Writes those of the slots that are of this chunk over its page.
fn put_slots(writing: Writing, chunk: u32, slots: u32, page: &mut [u8])
    requires some { 1 ≤ slots }
    requires room { slot_length * slots ≤ length page.old }
    requires valid { IsTreeSlot (entry_of writing.first.slot) }
    requires within { writing.first.number < writing.afterwards }
    requires second { IfSome writing.second (CanFollow writing) }
    ensures size { length page.new ≡ length page.old }
    ensures written { (k : ℕ) (e : Entry) → IsWritten writing.entry k e → k / slots ≡ chunk → SlotAt page.new (k % slots) e }
    ensures others { (k : ℕ) → IsNotWritten writing.entry (chunk * slots + k) → k < slots → slot_in page.new k ≡ slot_in page.old k }
    ensures past { (j : ℕ) → slot_length * min (writing.entry.afterwards - chunk * slots) slots ≤ j → slice_index page.new j ≡ slice_index page.old j }
{
    put_slot(Some(writing.first), chunk, slots, page);
    put_slot(writing.second, chunk, slots, page);
}

/// A page that has the first slots of the key's page, and zeros behind them.
fn page_with<P: Pages>(
    alloc: Global,
    pages: &mut P,
    key: Key,
    count: u32,
) -> Result<Vec<u8>, PageFault>
    requires { slot_length * count ≤ (P.state pages.old).page_bytes }
    ensures looks { LooksUp SaysWhyMaking (P.state pages.old) (P.state pages.new) result }
    ensures issued { (P.state pages.new).issued ≤ (P.state pages.old).issued + 1 }
    ensures size { IfOk result (λ page. length page.items ≡ (P.state pages.old).page_bytes) }
    ensures page { (P.state pages.old).sound ≡ true → IfOk result (λ page. HasFirstSlots (P.state pages.old) key count page.items) }
    ensures fault { OfSource (P.state pages.old) key count (IfErr result (MayLackMemory (P.state pages.new))) }
{
    let mut page = blank_page(alloc, pages)?;
    if count == 0 {
        return Ok(page);
    }
    load(pages, key)?;
    copy_slots(pages.page(), count, &mut page);
    Ok(page)
}

/// The page that slot `number` of a directory is on, with what is written there and the other slots that stay.
fn slot_page<P: Pages>(
    alloc: Global,
    pages: &mut P,
    directory: u64,
    writing: Writing,
    number: u32,
) -> Result<FreshPage, PageFault>
    requires valid { IsTreeSlot (entry_of writing.first.slot) }
    requires within { writing.first.number < writing.afterwards }
    requires second { IfSome writing.second (CanFollow writing) }
    ensures looks { LooksUp SaysWhyMaking (P.state pages.old) (P.state pages.new) result }
    ensures issued { (P.state pages.new).issued ≤ (P.state pages.old).issued + 1 }
    ensures sized { IfOk result (IsSlotsPage directory (P.state pages.old).page_bytes number) }
    ensures page { OfObject (P.state pages.old) directory (λ it. IfOk result (IsSlotPage it writing.entry (number / page_slots it.sizes))) }
    ensures beside { OfPages (P.state pages.old) (λ z old. OnOk result (HasPageOf z old directory writing.entry number)) }
    ensures fault { OfSlotted (P.state pages.old) directory writing.entry.before (IfErr result (MayLackMemory (P.state pages.new))) }
{
    let slots = pages.page_bytes() / SLOT_BYTES as u32;
    let chunk = number / slots;
    let key = Key {
        object: directory,
        chunk: 1 + u64::from(chunk),
    };
    let stay = writing.before.min(writing.afterwards);
    let count = stay.saturating_sub(chunk * slots).min(slots);
    let mut bytes = page_with(alloc, pages, key, count)?;
    put_slots(writing, chunk, slots, &mut bytes);
    Ok(FreshPage { key, bytes })
}

/// The change that writes one or two slots of a directory and the directory's header. One page is looked up for each that
/// has slots that stay.
pub(crate) fn write<P: Pages>(
    alloc: Global,
    pages: &mut P,
    directory: u64,
    writing: Writing,
    head: DirectoryHead,
) -> Result<Change, PageFault>
    requires valid { IsTreeSlot (entry_of writing.first.slot) }
    requires within { writing.first.number < writing.afterwards }
    requires second { IfSome writing.second (CanFollow writing) }
    ensures looks { LooksUp SaysWhyMaking (P.state pages.old) (P.state pages.new) result }
    ensures issued { (P.state pages.new).issued ≤ (P.state pages.old).issued + pages_of_slots writing.entry.second }
    ensures change { IfOk result (OnlyWrites directory (P.state pages.old).page_bytes (1 + pages_of_slots writing.entry.second)) }
    ensures writes { OfObject (P.state pages.old) directory (λ it. IfOk result (WritesIn it writing.entry head)) }
    ensures pages { OfObject (P.state pages.old) directory (λ it. IfOk result (WritesPages it writing.entry)) }
    ensures beside { OfPages (P.state pages.old) (λ z old. OnOk result (HasPageOf z old directory writing.entry writing.entry.first.number)) }
    ensures fault { OfSlotted (P.state pages.old) directory writing.entry.before (IfErr result (MayLackMemory (P.state pages.new))) }
{
    let slots = pages.page_bytes() / SLOT_BYTES as u32;
    let first = slot_page(alloc, pages, directory, writing, writing.first.number)?;
    let frame = spare_page(alloc, pages)?;
    let head = head_page(frame, directory, head);
    let Some(number) = on_other_page(writing, slots) else {
        let pages = vec![in alloc; first, head]?;
        return Ok(Change {
            pages,
            cuts: Vec::new(alloc),
        });
    };
    let second = slot_page(alloc, pages, directory, writing, number)?;
    let pages = vec![in alloc; first, head, second]?;
    Ok(Change {
        pages,
        cuts: Vec::new(alloc),
    })
}
