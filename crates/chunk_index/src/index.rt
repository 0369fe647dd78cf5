// The index.
ghost use Rattle.std.specs.Prelude.{◌≡◌, ◌≢◌, ◌<◌, ◌≤◌, ◌+◌, ◌^◌, ℕ, true, false, length, vec_capacity, None, Some, OnOk, OnErr, IsSome};
ghost use Rattle.block_state.specs.Table.{Table};
ghost use Rattle.block_state.specs.TableOf.{table};
ghost use Rattle.chunk_index.specs.Entries.{same_of, state_of, IsSmallState};
ghost use Rattle.chunk_index.specs.Noted.{IsNoted};
ghost use Rattle.chunk_index.specs.Shelves.{look, Differs};
ghost use Rattle.chunk_index.specs.Counts.{Recounts};
ghost use Rattle.chunk_index.specs.declared.form.CommittedPage.{CommittedPage};
ghost use Rattle.chunk_index.specs.declared.form.Form.TheVariants as forms;

use crate::changes::ChangeList;
use crate::entry::State;
use crate::form::{CommittedPage, Form, PagePlace, Present, WrittenGroup};
use crate::shelf::Shelf;
use block_state::Blocks;
use flash_tree::Key;
use std::alloc::Global;

/// For each key its committed page on the flash and its present page, and notes of the keys where these may differ. Only
/// `prepare` and the making of an index take memory.
#[derive(Drop)]
pub struct Index {
    pub(crate) shelf: Shelf,
    pub(crate) changes: ChangeList,
    ghost noted: { (o c : ℕ) → same_of (look shelf.objects o c) ≡ false → ∥ IsNoted changes o c ∥₁ },
}

impl Index {
    ghost use Rattle.chunk_index.specs.Maps.{committed_pages, present, count_committed_in, IsPrepared, IsReadyKey, StaysPrepared, IsEmpty, CountsAgree, SameCommitted, Places, buffered_or, Copies, Settles, Fits};

    /// No key is committed or present.
    pub fn new(alloc: Global) -> Index
        ensures empty { IsEmpty result }
        ensures agree { (t : Table) → ((b : ℕ) → (t.entry b).committed ≡ 0) → CountsAgree t result }
    {
        Index::bare(alloc)
    }

    /// There is no entry.
    pub(crate) fn bare(alloc: Global) -> Index
        ensures looks { (o c : ℕ) → look result.shelf.objects o c ≡ None }
        ensures counts { (b : ℕ) → count_committed_in result b ≡ 0 }
        ensures size { result.shelf.size ≡ 0 }
    {
        Index {
            shelf: Shelf::new(alloc),
            changes: ChangeList::new(alloc),
        }
    }

    /// The committed page of a key.
    pub fn committed(&self, key: Key) -> Option<CommittedPage>
        ensures { result ≡ committed_pages self.now key.object key.chunk }
    {
        self.shelf.committed(key)
    }

    /// The present page of a key.
    pub fn present(&self, key: Key) -> Present
        ensures { result ≡ present self.now key.object key.chunk }
    {
        self.shelf.present(key)
    }

    /// Gives a prepared key another present page. One of the buffer has a number below 253.
    pub fn place(&mut self, key: Key, form: Form)
        requires prepared { IsPrepared self.old key.object key.chunk }
        requires number { IsSmallState (state_of form) }
        ensures places { Places key.object key.chunk form self.old self.new }
        ensures committed { SameCommitted self.old self.new }
        ensures prepared { StaysPrepared self.old self.new }
        ensures has_room { (o c : ℕ) → Differs key.object key.chunk o c → IsReadyKey self.old o c → IsReadyKey self.new o c }
    {
        if self.shelf.place(key, form.state()) {
            self.changes.note(key);
        }
    }

    /// Makes a page of the buffer the present one of a prepared key: the page that it has there stays, and else the one of this
    /// number, which is below 253, is it. Returns the number of the page.
    pub fn place_in_buffer(&mut self, key: Key, number: u32) -> u32
        requires prepared { IsPrepared self.old key.object key.chunk }
        requires number { number < 253 }
        ensures number { result ≡ buffered_or number (present self.old key.object key.chunk) }
        ensures places { Places key.object key.chunk (forms.Buffered result) self.old self.new }
        ensures committed { SameCommitted self.old self.new }
        ensures prepared { StaysPrepared self.old self.new }
        ensures has_room { (o c : ℕ) → Differs key.object key.chunk o c → IsReadyKey self.old o c → IsReadyKey self.new o c }
    {
        match self.shelf.place_in_buffer(key, number) {
            State::Buffered(i) => i,
            State::Same => {
                self.changes.note(key);
                number
            }
            State::Dropped => number,
            State::Vacant => number,
        }
    }

    /// Notes that the committed page of a key was copied to another place, in the same version.
    pub fn copied(&mut self, key: Key, place: PagePlace, blocks: &mut Blocks)
        requires committed { IsSome (committed_pages self.old key.object key.chunk) }
        requires block { place.block < (table blocks.old).geometry.blocks }
        requires page { place.page < (table blocks.old).geometry.pages }
        requires agree { CountsAgree (table blocks.old) self.old }
        ensures copies { (was : CommittedPage) → committed_pages self.old key.object key.chunk ≡ Some was → Copies key.object key.chunk place was self.old self.new }
        ensures prepared { StaysPrepared self.old self.new }
        ensures has_room { (o c : ℕ) → IsReadyKey self.old o c → IsReadyKey self.new o c }
        ensures agree { CountsAgree (table blocks.new) self.new }
        ensures counts { Recounts (count_committed_in self.old) (count_committed_in self.new) (table blocks.old) (table blocks.new) }
    {
        self.shelf.copied(key, place, blocks);
    }

    /// Settles all keys: the pages of the buffer were written as this group. Only keys that changed are touched.
    pub fn settle_group(&mut self, group: WrittenGroup, blocks: &mut Blocks)
        requires block { group.block < (table blocks.old).geometry.blocks }
        requires fits { Fits (table blocks.old).geometry.pages group self.old }
        requires agree { CountsAgree (table blocks.old) self.old }
        ensures settles { Settles group self.old self.new }
        ensures agree { CountsAgree (table blocks.new) self.new }
        ensures counts { Recounts (count_committed_in self.old) (count_committed_in self.new) (table blocks.old) (table blocks.new) }
    {
        self.shelf.settle(&self.changes, group, blocks);
        self.changes.clear();
    }
}
