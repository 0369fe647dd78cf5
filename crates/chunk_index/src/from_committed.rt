// The index of pages whose places are known.
ghost use Rattle.std.specs.Prelude.{◌≡◌, ◌<◌, ◌≤◌, ◌+◌, ◌-◌, ℕ, length, None, Some, IfOk, OnOk, OnErr};
ghost use Rattle.block_state.specs.TableOf.{table};
ghost use Rattle.chunk_index.specs.Adding.{AddsChunks, AddsFirst, AddsRun, AreAbsent, AreAbsentFrom, AreInPages, AreLow, AreNewFrom, ArePagesOf, AreWithin, MayAdd, keys_of};
ghost use Rattle.chunk_index.specs.Counts.{HasRoom, Recounts, RecountsObjects, Tallies};
ghost use Rattle.chunk_index.specs.Entries.{as_committed, chunk, committed_at, counted_at, one_at, weigh, Alters, IsSmall};
ghost use Rattle.chunk_index.specs.Lists.{find_by};
ghost use Rattle.chunk_index.specs.Committed.{IsListOf, KeyRises};
ghost use Rattle.chunk_index.specs.Maps.{count_committed_in, committed_pages, present, CountsAgree};
ghost use Rattle.chunk_index.specs.Shelves.{SameEntries};

use crate::change;
use crate::entry::{KeyEntry, State};
use crate::form::CommittedKey;
use crate::index::Index;
use crate::object::ObjectEntries;
use crate::placed_pages::PlacedPages;
use crate::shelf::Shelf;
use block_state::Blocks;
use std::alloc::{AllocError, Global};

impl Index {
    /// The index of a list of pages in the order of their keys, with the blocks: these pages are committed, and in the counts of their
    /// blocks. It goes over the list twice: every other object gets room first, so that the nodes of the shelf fill up. Where all
    /// objects came in order, a node would stay half full once it was split.
    pub fn from_committed(
        alloc: Global,
        pages: PlacedPages,
        blocks: Blocks,
    ) -> Result<(Index, Blocks), AllocError>
        requires rise { KeyRises (keys_of pages) }
        requires within { AreWithin (table blocks).geometry.blocks (keys_of pages) }
        requires pages { AreInPages (table blocks).geometry.pages (keys_of pages) }
        requires low { AreLow (keys_of pages) }
        requires none { (b : ℕ) → ((table blocks).entry b).committed ≡ 0 }
        ensures list { IfOk result (λ made. IsListOf (committed_pages made.0) (keys_of pages.entry)) }
        ensures shown { IfOk result (λ made. (o c : ℕ) → present made.0 o c ≡ as_committed (committed_pages made.0 o c)) }
        ensures agree { IfOk result (λ made. CountsAgree (table made.1) made.0) }
        ensures counts { IfOk result (λ made. Recounts (λ b. 0) (count_committed_in made.0) (table blocks) (table made.1)) }
    {
        let mut index = Index::bare(alloc);
        let mut blocks = blocks;
        index.reserve_every_other(pages)?;
        index.add_some(pages, &mut blocks)?;
        Ok((index, blocks))
    }

    /// Sees that every other object of a list in the order of keys has room for its pages: the first one, the third and so on.
    fn reserve_every_other(&mut self, pages: PlacedPages) -> Result<(), AllocError>
        ensures { SameEntries self.old.shelf.objects self.new.shelf.objects }
    {
        let mut reserves = false;
        for at in 0..pages.len() {
            reserves = reserves != pages.is_first_of_object(at);
            if reserves {
                self.reserve_at(pages, at)?;
            }
        }
        Ok(())
    }

    /// Adds some pages whose keys have no entries. An object is looked up once for those of its pages that follow each other.
    pub(crate) fn add_some(
        &mut self,
        pages: PlacedPages,
        blocks: &mut Blocks,
    ) -> Result<(), AllocError>
        requires may { MayAdd (keys_of pages) (table blocks.old).geometry }
        requires absent { AreAbsent (keys_of pages) self.old.shelf.objects }
        requires agree { CountsAgree (table blocks.old) self.old }
        ensures adds { OnOk result (AddsFirst (keys_of pages.entry) (length (keys_of pages.entry)) self.old.shelf.objects self.new.shelf.objects) }
        ensures agree { OnOk result (CountsAgree (table blocks.new) self.new) }
        ensures counts { OnOk result (Recounts (count_committed_in self.old) (count_committed_in self.new) (table blocks.old) (table blocks.new)) }
    {
        let mut done = 0;
        while done < pages.len() {
            done = self.add_run(pages, done, blocks)?;
        }
        Ok(())
    }

    /// Sees that an object has room for its pages, if the page at a place is its first one of these.
    fn reserve_at(&mut self, pages: PlacedPages, at: usize) -> Result<(), AllocError>
        requires { at < length (keys_of pages) }
        ensures { SameEntries self.old.shelf.objects self.new.shelf.objects }
    {
        if !pages.is_first_of_object(at) {
            return Ok(());
        }
        self.shelf
            .reserve(pages.at(at).key.object, pages.object_end(at) - at)
    }

    /// Adds the pages of one object that follow each other from a place on, and returns the place behind them.
    fn add_run(
        &mut self,
        pages: PlacedPages,
        from: usize,
        blocks: &mut Blocks,
    ) -> Result<usize, AllocError>
        requires may { MayAdd (keys_of pages) (table blocks.old).geometry }
        requires from { from < length (keys_of pages) }
        requires absent { AreAbsentFrom from (keys_of pages) self.old.shelf.objects }
        requires agree { CountsAgree (table blocks.old) self.old }
        ensures adds { IfOk result (λ end. AddsRun (keys_of pages.entry) from end self.old.shelf.objects self.new.shelf.objects) }
        ensures end { IfOk result (λ end. (from < end) × (end ≤ length (keys_of pages.entry))) }
        ensures agree { OnOk result (CountsAgree (table blocks.new) self.new) }
        ensures counts { OnOk result (Recounts (count_committed_in self.old) (count_committed_in self.new) (table blocks.old) (table blocks.new)) }
    {
        self.reserve_at(pages, from)?;
        let object = pages.at(from).key.object;
        let end = self.shelf.add_run(object, pages, from, blocks);
        if end == from {
            return Err(AllocError);
        }
        Ok(end)
    }
}

impl Shelf {
    /// Puts the entries of the pages of an object that follow each other from a place on, and counts these pages in their blocks.
    /// Returns the place behind them, or that of the first for which memory was refused.
    fn add_run(
        &mut self,
        object: u64,
        pages: PlacedPages,
        from: usize,
        blocks: &mut Blocks,
    ) -> usize
        requires may { MayAdd (keys_of pages) (table blocks.old).geometry }
        requires from { from ≤ length (keys_of pages) }
        requires absent { AreAbsentFrom from (keys_of pages) self.old.objects }
        requires tallies { Tallies (table blocks.old) self.old.objects }
        ensures adds { AddsRun (keys_of pages.entry) from result self.old.objects self.new.objects }
        ensures end { (from ≤ result) × (result ≤ length (keys_of pages.entry)) }
        ensures tallies { Tallies (table blocks.new) self.new.objects }
        ensures counts { RecountsObjects self.old.objects self.new.objects (table blocks.old) (table blocks.new) }
    {
        if pages.len() - from > self.room(true) {
            return from;
        }
        match self.objects.get_mut(&object) {
            Some(entries) => {
                let end = entries.add_run(object, pages, from, blocks);
                self.size += end - from;
                end
            }
            None => from,
        }
    }
}

impl ObjectEntries {
    /// Puts the entries of the pages of this object that follow each other from a place on, and counts these pages in their blocks.
    /// Returns the place behind them, or that of the first for which memory was refused.
    fn add_run(
        &mut self,
        object: u64,
        pages: PlacedPages,
        from: usize,
        blocks: &mut Blocks,
    ) -> usize
        requires may { MayAdd (keys_of pages) (table blocks.old).geometry }
        requires from { from ≤ length (keys_of pages) }
        requires absent { AreNewFrom from (keys_of pages) object self.old.entries.items }
        requires room { HasRoom (table blocks.old) (λ b. weigh (counted_at b) self.old.entries.items) (length self.old.entries.items + (length (keys_of pages) - from)) }
        ensures adds { AddsChunks (keys_of pages.entry) from result self.old.entries.items self.new.entries.items (table blocks.old) (table blocks.new) }
        ensures object { ArePagesOf (keys_of pages.entry) from result object }
        ensures end { (from ≤ result) × (result ≤ length (keys_of pages.entry)) }
    {
        for at in from..pages.len() {
            let page = pages.at(at);
            if page.key.object != object {
                return at;
            }
            match self.add_page(page, blocks) {
                Ok(()) => {}
                Err(AllocError) => return at,
            }
        }
        pages.len()
    }

    /// Puts the entry of a page of whose chunk there is none, and counts the page in its block.
    fn add_page(&mut self, page: CommittedKey, blocks: &mut Blocks) -> Result<(), AllocError>
        requires absent { find_by chunk self.old.entries.items page.key.chunk ≡ None }
        requires small { IsSmall (committed_at page.key.chunk (Some page.at)) }
        requires block { page.at.block < (table blocks.old).geometry.blocks }
        requires room { HasRoom (table blocks.old) (one_at None) 1 }
        ensures ok { OnOk result (Alters page.key.chunk (Some (committed_at page.key.chunk (Some page.at))) self.old.entries.items self.new.entries.items) }
        ensures counts { OnOk result (Recounts (one_at None) (one_at (Some page.at)) (table blocks.old) (table blocks.new)) }
        ensures err { OnErr result (self.new.entries.items ≡ self.old.entries.items) }
        ensures blocks { OnErr result (table blocks.new ≡ table blocks.old) }
    {
        let entry = KeyEntry {
            chunk: page.key.chunk,
            committed: Some(page.at),
            state: State::Same,
        };
        self.insert(entry)?;
        change::recount(None, Some(page.at), blocks);
        Ok(())
    }
}
