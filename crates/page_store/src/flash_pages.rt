// The pages of a mounted volume.
ghost use Rattle.std.specs.Prelude.{◌≡◌, ◌≤◌, ◌+◌, true, Ok};
ghost use Rattle.nand_model.specs.Counts.{Costs};
ghost use Rattle.page_store.specs.Sealing.{IsSealed};
ghost use Rattle.page_store.specs.declared.flash_pages.FlashPages.TheVariants as kinds;
ghost use Rattle.page_store.specs.PagesOf.{mounted_pages, read_only_pages, store_pages};

use crate::Store;
use crate::read_only::ReadOnlyPages;
use flash_tree::Key;
use nand_model::Nand;
use pages::{Change, Cut, PageStore, Pages, Presence};
use volume_terms::StoreFault;

/// The pages of a mounted volume: a store, or pages that are only read. They are on the heap, so that a volume is moved in few bytes.
#[derive(Drop)]
pub enum FlashPages<N: Nand> {
    Store(Box<Store<N>>),
    ReadOnly(Box<ReadOnlyPages<N>>),
}

impl<N: Nand> FlashPages<N> {
    ghost use Rattle.page_store.specs.FlashParts.{device_in};
    ghost use Rattle.page_store.specs.FlashSealing.{IsDueOf, check_pages_of};

    /// The device, as it is.
    pub fn into_device(self) -> N
        ensures state { N.state result ≡ (mounted_pages self).device }
        ensures device { result ≡ device_in self }
    {
        match self {
            FlashPages::Store(store) => Box::into_inner(store).into_device(),
            FlashPages::ReadOnly(pages) => Box::into_inner(pages).into_device(),
        }
    }

    /// Writes a checkpoint of the pages that are committed, where one is due, and gives the device back. Of pages that are only
    /// read it makes no call.
    pub fn seal(self) -> (N, Result<(), StoreFault>)
        ensures seals { IsSealed (IsDueOf self) (mounted_pages self) (N.state result.0) result.1 }
        // The erase of a block and the pages of the checkpoint, and for each failure an erase or a mark, and what failed.
        ensures costs { let d = (mounted_pages self).device in Costs (check_pages_of self + 1) 2 0 d (N.state result.0) }
        // No page is read but one whose program is said to have failed.
        ensures reads { let d = (mounted_pages self).device in (N.state result.0).reads + d.failures ≤ d.reads + (N.state result.0).failures }
        ensures worn { (mounted_pages self).worn ≡ true → (N.state result.0 ≡ (mounted_pages self).device) × (result.1 ≡ Ok tt) }
    {
        match self {
            FlashPages::Store(store) => Box::into_inner(store).seal(),
            FlashPages::ReadOnly(pages) => (Box::into_inner(pages).into_device(), Ok(())),
        }
    }
}

impl<N: Nand> Pages for FlashPages<N> {
    ghost state = { mounted_pages };

    ghost sized = { elim [
      | kinds.Store s ↦ ((store_pages s.value).device.geometry.least_bytes, (store_pages s.value).device.geometry.most_bytes)
      | kinds.ReadOnly s ↦ ((read_only_pages s.value).device.geometry.least_bytes, (read_only_pages s.value).device.geometry.most_bytes)
    ] };

    fn page_bytes(&self) -> u32 {
        match self {
            FlashPages::Store(store) => store.page_bytes(),
            FlashPages::ReadOnly(pages) => pages.page_bytes(),
        }
    }

    fn find(&mut self, key: Key) -> Result<Presence, StoreFault> {
        match self {
            FlashPages::Store(store) => store.find(key),
            FlashPages::ReadOnly(pages) => pages.find(key),
        }
    }

    fn has(&self, key: Key) -> bool {
        match self {
            FlashPages::Store(store) => store.has(key),
            FlashPages::ReadOnly(pages) => pages.has(key),
        }
    }

    fn has_power(&mut self) -> bool {
        match self {
            FlashPages::Store(store) => store.has_power(),
            FlashPages::ReadOnly(pages) => pages.has_power(),
        }
    }

    fn page(&self) -> &[u8] {
        match self {
            FlashPages::Store(store) => store.page(),
            FlashPages::ReadOnly(pages) => pages.page(),
        }
    }

    fn take_frame(&mut self) -> Option<Vec<u8>> {
        match self {
            FlashPages::Store(store) => store.take_frame(),
            FlashPages::ReadOnly(pages) => pages.take_frame(),
        }
    }

    fn return_frame(&mut self, frame: Vec<u8>) {
        match self {
            FlashPages::Store(store) => store.return_frame(frame),
            FlashPages::ReadOnly(pages) => pages.return_frame(frame),
        }
    }
}

impl<N: Nand> PageStore for FlashPages<N> {
    ghost use Rattle.block_state.specs.TableOf.{table};
    ghost use Rattle.page_store.specs.laws.Sound.{lost_alone, few_bad};
    ghost use Rattle.page_store.specs.laws.ReadOnlySound.{lost_reading, only_worn};

    ghost lost = { elim [
      | kinds.Store s ↦ λ sound failed. lost_alone (store_pages s.value).device.gone (store_pages s.value).device.honest s.value.broken sound failed
      | kinds.ReadOnly s ↦ λ sound failed. lost_reading (read_only_pages s.value).device.gone (read_only_pages s.value).device.honest s.value.refused_change sound failed
    ] };

    ghost within_limit = { elim [
      | kinds.Store s ↦ λ sound fresh. few_bad (store_pages s.value).device (table s.value.log.blocks) s.value.log.spare s.value.broken s.value.log.can_write s.value.within_limit sound
      | kinds.ReadOnly s ↦ λ sound fresh. only_worn _ _ fresh
    ] };

    fn most_pages(&self) -> u32 {
        match self {
            FlashPages::Store(store) => PageStore::most_pages(store.as_ref()),
            FlashPages::ReadOnly(pages) => PageStore::most_pages(pages.as_ref()),
        }
    }

    fn apply(&mut self, change: Change) -> Result<(), StoreFault> {
        match self {
            FlashPages::Store(store) => PageStore::apply(store.as_mut(), change),
            FlashPages::ReadOnly(pages) => PageStore::apply(pages.as_mut(), change),
        }
    }

    fn cut(&mut self, cut: Cut) -> Result<(), StoreFault> {
        match self {
            FlashPages::Store(store) => PageStore::cut(store.as_mut(), cut),
            FlashPages::ReadOnly(pages) => PageStore::cut(pages.as_mut(), cut),
        }
    }

    fn commit(&mut self) -> Result<(), StoreFault> {
        match self {
            FlashPages::Store(store) => PageStore::commit(store.as_mut()),
            FlashPages::ReadOnly(pages) => PageStore::commit(pages.as_mut()),
        }
    }

    fn refresh(&mut self, block: u32) -> Result<(), StoreFault> {
        match self {
            FlashPages::Store(store) => PageStore::refresh(store.as_mut(), block),
            FlashPages::ReadOnly(pages) => PageStore::refresh(pages.as_mut(), block),
        }
    }
}
