// The change of a store's pages.
ghost use Rattle.std.specs.Prelude.{◌≡◌, ◌≤◌, ◌+◌, ◌/◌, length, true, false, OnOk, IfErr};
ghost use Rattle.chunk_index.specs.Maps.{SameCommitted, SamePresent};
ghost use Rattle.page_store.specs.Committing.{PaysUpTo};
ghost use Rattle.page_store.specs.BufferOf.{contents};
ghost use Rattle.page_store.specs.Buffering.{ArePrepared, AreReady, AreBuffered, with_new};
ghost use Rattle.page_store.specs.Cached.{held_count, capacity_of};
ghost use Rattle.page_store.specs.Changes.{KeepsSizes};
ghost use Rattle.pages.specs.Changes.{AreApart, AreSized, AreOfTrees};
ghost use Rattle.pages.specs.Maps.{after_change};
ghost use Rattle.pages.specs.Stores.{SamePages};
ghost use Rattle.volume_terms.specs.declared.fault.StoreFault.TheVariants as faults;
ghost use Rattle.page_store.specs.Caching.{HasNoMore, HavePlaces, KeepsUncutKeys, LacksPages};
ghost use Rattle.page_store.specs.Changing.{ChangeEnds, CommitKeeps, CommitsNone, FitsBuffer, Prepares, RoomEnds, SameBeside, SamePlaces, StaysCarried, StoreLasts};
ghost use Rattle.page_store.specs.Counts.{IsRefused};
ghost use Rattle.page_store.specs.StoreState.{committed_in, current_in, waiting};
ghost use Rattle.page_store.specs.StateOf.{state_of};

use crate::cache::SPARE_FRAMES;
use crate::caching::{drop_committed, drop_cuts, make_places};
use crate::store::{Found, Store};
use crate::{PageCache, prepare};
use chunk_index::{Index, the_counts_are_of_the_keys};
use flash_tree::FreshPage;
use nand_model::Nand;
use pages::Change;
use std::alloc::AllocError;
use volume_terms::StoreFault;

impl<N: Nand> Store<N> {
    /// Makes a change of what is present: all of it or, where memory is refused, none. What is buffered is committed before
    /// where there is no room for the change besides; so a change has at most a quarter of the pages of a block, each of a
    /// key of its own.
    ///
    /// After another fault nothing is known of the pages of the store any more. The device has those that were committed, or those
    /// that were present.
    pub fn change(&mut self, change: Change) -> Result<(), StoreFault>
        requires apart { AreApart change.pages.items }
        requires size { AreSized change.pages.items (N.state self.old.log.device).geometry.bytes }
        requires within_limit { length change.pages.items ≤ (N.state self.old.log.device).geometry.pages / 4 }
        requires trees { AreOfTrees change.pages.items }
        ensures lasts { StoreLasts (state_of self.old) (state_of self.new) }
        ensures pays { PaysUpTo (waiting (state_of self.old)) self.old.log.spare (state_of self.old).log (state_of self.new).log result }
        ensures carried { StaysCarried (state_of self.old) (state_of self.new) }
        // Where the buffer has room nothing is committed.
        ensures room { FitsBuffer change.pages.items (state_of self.old) → CommitsNone (state_of self.old) (state_of self.new) }
        ensures ends { ChangeEnds change (state_of self.old) (state_of self.new) result }
    {
        if self.broken {
            return Err(StoreFault::Device);
        }
        the_counts_are_of_the_keys();
        self.prepare(&change.pages)?;
        let is_committed = self.make_room(&change.pages)?;
        self.make(change, is_committed);
        Ok(())
    }

    /// Sees that there is room for pages in the index and in the cache.
    fn prepare(&mut self, pages: &[FreshPage]) -> Result<(), StoreFault>
        requires { AreOfTrees pages.now }
        ensures same { Prepares (state_of self.old) (state_of self.new) }
        ensures has_room { OnOk result (AreReady self.new.log.index pages.now) }
        ensures places { held_count self.old.cache + length pages.now ≤ capacity_of self.old.cache → OnOk result (HavePlaces pages.now self.new.cache) }
        ensures lacks { OnOk result (LacksPages pages.now self.new.cache) }
        ensures fault { IfErr result (λ fault. (fault ≡ faults.NoMemory) × IsRefused self.old.counts self.new.counts) }
    {
        match prepare_all(&mut self.log.index, &mut self.cache, pages) {
            Ok(()) => Ok(()),
            Err(_) => {
                self.counts.refused.rise();
                Err(StoreFault::NoMemory)
            }
        }
    }

    /// Commits what is buffered, where the buffer has no room for the pages besides, and returns whether it did.
    fn make_room(&mut self, pages: &[FreshPage]) -> Result<bool, StoreFault>
        requires whole { self.old.broken ≡ false }
        requires within_limit { length pages.now ≤ (N.state self.old.log.device).geometry.pages / 4 }
        ensures keeps { CommitKeeps (state_of self.old) (state_of self.new) }
        ensures pays { PaysUpTo (waiting (state_of self.old)) self.old.log.spare (state_of self.old).log (state_of self.new).log result }
        ensures carried { StaysCarried (state_of self.old) (state_of self.new) }
        ensures sufficient { FitsBuffer pages.now (state_of self.old) → SamePlaces (state_of self.old) (state_of self.new) }
        ensures ends { RoomEnds pages.now (state_of self.old) (state_of self.new) result }
    {
        the_counts_are_of_the_keys();
        if self.buffer.has_room(&self.log.index, pages) {
            return Ok(false);
        }
        match self.write_out(SPARE_FRAMES) {
            Ok(()) => Ok(true),
            Err(fault) => Err(fault),
        }
    }

    /// Makes a change, for which there is room; `is_committed`: there was a commit since the cache had no page of its keys.
    fn make(&mut self, change: Change, is_committed: bool)
        requires lacks { is_committed ≡ false → LacksPages change.pages.items self.old.cache }
        requires prepared { ArePrepared self.old.log.index change.pages.items }
        requires size { AreSized change.pages.items (N.state self.old.log.device).geometry.bytes }
        requires apart { AreApart change.pages.items }
        requires trees { AreOfTrees change.pages.items }
        requires room { FitsBuffer change.pages.items (state_of self.old) }
        ensures same { SameBeside (state_of self.old) (state_of self.new) }
        ensures committed_map { SamePages (committed_in (state_of self.new)) (committed_in (state_of self.old)) }
        ensures current { (N.state self.old.log.device).honest ≡ true → SamePages (current_in (state_of self.new)) (after_change change (current_in (state_of self.old))) }
        ensures in_buffer { AreBuffered change.pages.items self.new.log.index }
        ensures within_limit { length (contents self.new.buffer) ≤ with_new self.old.log.index (contents self.old.buffer) change.pages.items }
        ensures places { KeepsUncutKeys change.cuts.items self.old.cache self.new.cache }
    {
        self.found = Found::Nowhere;
        drop_cuts(&mut self.cache, &change.cuts);
        drop_committed(&mut self.cache, &change.pages, is_committed);
        self.buffer.apply(&mut self.log.index, change);
    }
}

/// Sees that there is room for pages in an index and in a cache. Where memory is refused the cache may have less.
fn prepare_all(
    index: &mut Index,
    cache: &mut PageCache,
    pages: &[FreshPage],
) -> Result<(), AllocError>
    requires { AreOfTrees pages.now }
    ensures committed { SameCommitted index.old index.new }
    ensures present { SamePresent index.old index.new }
    ensures has_room { OnOk result (AreReady index.new pages.now) }
    ensures places { held_count cache.old + length pages.now ≤ capacity_of cache.old → OnOk result (HavePlaces pages.now cache.new) }
    ensures lacks { OnOk result (LacksPages pages.now cache.new) }
    ensures sizes { KeepsSizes cache.old cache.new }
    ensures fewer { HasNoMore cache.old cache.new }
{
    prepare(index, pages)?;
    make_places(cache, pages)
}
