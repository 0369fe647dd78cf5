// The pages of a volume on a device whose tree is read.
ghost use Rattle.std.specs.Prelude.{◌≡◌, true, false, IfOk, IfErr};
ghost use Rattle.flash_tree.specs.Places.{numbers_of};
ghost use Rattle.block_state.specs.TableOf.{table};
ghost use Rattle.page_store.specs.FlashParts.{device_in};
ghost use Rattle.page_store.specs.ReadOnly.{IsWorn};
ghost use Rattle.page_store.specs.NewestParts.{device_of, index_of};
ghost use Rattle.flash_log.specs.Consistency.{KeepsOrdinary};
ghost use Rattle.mounting.specs.Made.{ArePagesOn, CanBeWritten, MayWrite};
ghost use Rattle.mounting.specs.Marked.{AreFitting};
ghost use Rattle.mounting.specs.Mounted.{IsTreeRead, HasRoomOn};
ghost use Rattle.mounting.specs.Places.{HasTables};
ghost use Rattle.page_store.specs.PagesOf.{mounted_pages, read_only_pages, store_pages};

use crate::tree_on::TreeOn;
use chunk_index::the_counts_are_of_the_keys;
use flash_log::Log;
use flash_tree::count_bad;
use nand_model::Nand;
use page_store::{FlashPages, NewestPages, ReadOnlyPages, Store, the_opened_pages_are_the_newest};
use std::alloc::{AllocError, Global};
use std::num::NonZeroUsize;
use volume_terms::{BUFFERS_IN_BLOCK, NUMBER_END};

/// Whether nothing can be written any more: a number is at the limit, or more blocks are bad than there are to spare.
pub(crate) fn is_worn<N: Nand>(on: &TreeOn<N>) -> bool
    ensures worn { result ≡ true → IsWorn (N.state on.now.device) (numbers_of on.now.numbers) on.now.spare }
    ensures left { result ≡ false → CanBeWritten (N.state on.now.device) (numbers_of on.now.numbers) on.now.spare }
{
    on.numbers.group >= NUMBER_END
        || on.numbers.seq >= NUMBER_END
        || count_bad(&on.device) > u32::from(on.spare)
}

/// Moves a store to the heap. Where memory is refused the device is given back.
fn boxed_store<N: Nand>(alloc: Global, store: Store<N>) -> Result<Box<Store<N>>, (N, AllocError)>
    ensures store { IfOk result (λ boxed. boxed.value ≡ store) }
    ensures given_back { IfErr result (λ back. back.0 ≡ store.log.device) }
{
    match Box::new(alloc, store) {
        Ok(boxed) => Ok(boxed),
        Err(refused) => Err((refused.value.into_device(), AllocError)),
    }
}

/// Moves pages that are only read to the heap. Where memory is refused the device is given back.
fn boxed_pages<N: Nand>(
    alloc: Global,
    pages: ReadOnlyPages<N>,
) -> Result<Box<ReadOnlyPages<N>>, (N, AllocError)>
    ensures pages { IfOk result (λ boxed. boxed.value ≡ pages) }
    ensures given_back { IfErr result (λ back. back.0 ≡ device_of pages.pages) }
{
    match Box::new(alloc, pages) {
        Ok(boxed) => Ok(boxed),
        Err(refused) => Err((refused.value.into_device(), AllocError)),
    }
}

/// The pages of a device on which groups can be written. The log remembers the flash with which it begins.
fn store_pages<N: Nand>(
    alloc: Global,
    on: TreeOn<N>,
    capacity: NonZeroUsize,
) -> Result<Box<Store<N>>, (N, AllocError)>
    requires read { IsTreeRead (N.state on.device) (table on.blocks) on.index (numbers_of on.numbers) on.spare on.tree }
    requires fitting { AreFitting (table on.blocks) }
    requires room { HasRoomOn (N.state on.device) (table on.blocks) on.spare }
    requires ordinary { (N.state on.device).honest ≡ true → KeepsOrdinary on.index }
    requires can { MayWrite (N.state on.device) (table on.blocks) on.index (numbers_of on.numbers) on.spare }
    ensures made { IfOk result (λ store. ArePagesOn (N.state on.device) on.index (numbers_of on.numbers) on.spare (store_pages store.value)) }
    ensures worn { IfOk result (λ store. (store_pages store.value).worn ≡ false) }
    ensures device { IfOk result (λ store. store.value.log.device ≡ on.device) }
    ensures checkpoint { IfOk result (λ store. (store_pages store.value).checkpoint ≡ (table on.blocks).checkpoint) }
    ensures tables { IfOk result (λ store. (store.value.log.index ≡ on.index) × (table store.value.log.blocks ≡ table on.blocks)) }
    ensures given_back { IfErr result (λ back. back.0 ≡ on.device) }
{
    the_counts_are_of_the_keys();
    let TreeOn {
        device,
        blocks,
        index,
        spare,
        ..
    } = on;
    let log = match Log::new(alloc, device, blocks, index, u32::from(spare)) {
        Ok(log) => log,
        Err(refused) => return Err(refused),
    };
    match Store::new(alloc, log, capacity) {
        Ok(store) => boxed_store(alloc, store),
        Err(refused) => Err(refused),
    }
}

/// The pages of a device that can only be read.
fn read_pages<N: Nand>(
    alloc: Global,
    on: TreeOn<N>,
) -> Result<Box<ReadOnlyPages<N>>, (N, AllocError)>
    requires read { IsTreeRead (N.state on.device) (table on.blocks) on.index (numbers_of on.numbers) on.spare on.tree }
    requires worn { IsWorn (N.state on.device) (numbers_of on.numbers) on.spare }
    ensures made { IfOk result (λ pages. ArePagesOn (N.state on.device) on.index (numbers_of on.numbers) on.spare (read_only_pages pages.value)) }
    ensures worn { IfOk result (λ pages. (read_only_pages pages.value).worn ≡ true) }
    ensures device { IfOk result (λ pages. device_of pages.value.pages ≡ on.device) }
    ensures checkpoint { IfOk result (λ pages. (read_only_pages pages.value).checkpoint ≡ (table on.blocks).checkpoint) }
    ensures index { IfOk result (λ pages. index_of pages.value.pages ≡ on.index) }
    ensures given_back { IfErr result (λ back. back.0 ≡ on.device) }
{
    the_opened_pages_are_the_newest();
    let TreeOn {
        device,
        blocks,
        index,
        numbers,
        spare,
        ..
    } = on;
    let checkpoint = blocks.checkpoint();
    let most = device.geometry().pages() / BUFFERS_IN_BLOCK;
    let pages = NewestPages::new(alloc, device, index)?;
    let pages = ReadOnlyPages::new(pages, numbers, u32::from(spare), most, checkpoint);
    boxed_pages(alloc, pages)
}

/// The pages of a device, which are only read where it is worn. Where memory is refused the device is given back.
pub(crate) fn make_pages<N: Nand>(
    alloc: Global,
    on: TreeOn<N>,
    capacity: NonZeroUsize,
    worn: bool,
) -> Result<FlashPages<N>, (N, AllocError)>
    requires read { IsTreeRead (N.state on.device) (table on.blocks) on.index (numbers_of on.numbers) on.spare on.tree }
    requires fitting { AreFitting (table on.blocks) }
    requires room { HasRoomOn (N.state on.device) (table on.blocks) on.spare }
    requires worn { worn ≡ true → IsWorn (N.state on.device) (numbers_of on.numbers) on.spare }
    requires ordinary { (N.state on.device).honest ≡ true → KeepsOrdinary on.index }
    requires can { worn ≡ false → MayWrite (N.state on.device) (table on.blocks) on.index (numbers_of on.numbers) on.spare }
    ensures made { IfOk result (λ pages. ArePagesOn (N.state on.device) on.index (numbers_of on.numbers) on.spare (mounted_pages pages)) }
    ensures worn { IfOk result (λ pages. (mounted_pages pages).worn ≡ worn) }
    ensures device { IfOk result (λ pages. device_in pages ≡ on.device) }
    ensures checkpoint { IfOk result (λ pages. (mounted_pages pages).checkpoint ≡ (table on.blocks).checkpoint) }
    ensures tables { IfOk result (HasTables (N.state on.device).flash on.index) }
    ensures given_back { IfErr result (λ back. back.0 ≡ on.device) }
{
    if worn {
        let pages = read_pages(alloc, on)?;
        return Ok(FlashPages::ReadOnly(pages));
    }
    let store = store_pages(alloc, on, capacity)?;
    Ok(FlashPages::Store(store))
}
