// The change of present pages.
ghost use Rattle.std.specs.Prelude.{◌≡◌, ◌≤◌, ◌<◌, ◌+◌, ◌↔◌, ℕ, length, IsTrue, OnOk};
ghost use Rattle.chunk_index.specs.Maps.{present, IsReadyKey, IsPrepared, SameCommitted, SamePresent, StaysPrepared};
ghost use Rattle.pages.specs.Changes.{AreApart, AreSized, AreOfTrees};
ghost use Rattle.pages.specs.Maps.{with_pages};
ghost use Rattle.nand_model.specs.Flash.{Flash};
ghost use Rattle.page_store.specs.Shown.{present_data};
ghost use Rattle.page_store.specs.Buffering.{Buffers, with_new, new_keys, lacks, ArePrepared, AreReady, PutsPage, ChangesPages, AreBuffered, CanPut};

use crate::buffer::Buffer;
use chunk_index::{Index, Present};
use flash_tree::{FreshPage, Key};
use pages::Change;
use std::alloc::AllocError;

/// Sees that there is room in an index for pages, also once the changes are settled. No committed and no present page changes,
/// also where memory is refused.
pub fn prepare(index: &mut Index, pages: &[FreshPage]) -> Result<(), AllocError>
    requires { AreOfTrees pages.now }
    ensures committed { SameCommitted index.old index.new }
    ensures present { SamePresent index.old index.new }
    ensures has_room { OnOk result (AreReady index.new pages.now) }
    ensures stays { (o c : ℕ) → IsReadyKey index.old o c → IsReadyKey index.new o c }
    ensures prepared { StaysPrepared index.old index.new }
{
    for page in pages {
        index.prepare(page.key)?;
    }
    Ok(())
}

/// How many pages the buffer lacks of a key: none where it is present there, and else one.
fn lacking(index: &Index, key: Key) -> usize
    ensures value { result ≡ lacks (present index.now key.object key.chunk) }
    ensures within_limit { result ≤ 1 }
{
    match index.present(key) {
        Present::InBuffer(_) => 0,
        Present::Absent => 1,
        Present::OnFlash(_) => 1,
    }
}

/// How many of the pages are of keys that are not present in the buffer.
fn count_new(index: &Index, pages: &[FreshPage]) -> usize
    ensures count { result ≡ new_keys index.now pages.now }
    ensures within_limit { result ≤ length pages.now }
{
    let mut count: usize = 0;
    for page in pages {
        count += lacking(index, page.key);
    }
    count
}

impl Buffer {
    ghost use Rattle.page_store.specs.BufferOf.{contents, most_pages, bytes_of_page};

    /// Whether the buffer holds these pages with those that it has, each key once. No key is looked up where it
    /// has room for as many pages more.
    pub fn has_room(&self, index: &Index, pages: &[FreshPage]) -> bool
        ensures { IsTrue result ↔ (with_new index.now (contents self.now) pages.now ≤ most_pages self.now) }
    {
        let most = self.most() as usize;
        if pages.len() <= most && self.pages.len() <= most - pages.len() {
            return true;
        }
        let count = count_new(index, pages);
        count <= most && self.pages.len() <= most - count
    }

    /// A page becomes the present one of its key.
    fn put(&mut self, index: &mut Index, page: FreshPage)
        requires buffers { Buffers index.old (contents self.old) }
        requires prepared { IsPrepared index.old page.key.object page.key.chunk }
        requires size { length page.bytes.items ≡ bytes_of_page self.old }
        requires room { length (contents self.old) + lacks (present index.old page.key.object page.key.chunk) ≤ most_pages self.old }
        ensures buffers { Buffers index.new (contents self.new) }
        ensures committed { SameCommitted index.old index.new }
        ensures prepared { StaysPrepared index.old index.new }
        ensures puts { PutsPage page index.old index.new (contents self.old) (contents self.new) }
        ensures sizes { (most_pages self.new ≡ most_pages self.old) × (bytes_of_page self.new ≡ bytes_of_page self.old) }
    {
        let count = self.pages.len();
        let slot = index.place_in_buffer(page.key, count as u32) as usize;
        if slot < count {
            self.pages[slot] = page;
        } else {
            self.pages.push_reserved(page);
        }
    }

    /// Each page becomes the present one of its key.
    fn put_all(&mut self, index: &mut Index, pages: Vec<FreshPage>)
        requires buffers { Buffers index.old (contents self.old) }
        requires prepared { ArePrepared index.old pages.items }
        requires size { AreSized pages.items (bytes_of_page self.old) }
        requires apart { AreApart pages.items }
        requires room { with_new index.old (contents self.old) pages.items ≤ most_pages self.old }
        ensures buffers { Buffers index.new (contents self.new) }
        ensures committed { SameCommitted index.old index.new }
        ensures prepared { StaysPrepared index.old index.new }
        ensures puts { (flash : Flash) (o c : ℕ) → present_data index.new (contents self.new) flash o c ≡ with_pages pages.items (present_data index.old (contents self.old) flash) o c }
        ensures within_limit { length (contents self.new) ≤ with_new index.old (contents self.old) pages.items }
        ensures sizes { (most_pages self.new ≡ most_pages self.old) × (bytes_of_page self.new ≡ bytes_of_page self.old) }
    {
        for page in pages {
            self.put(index, page);
        }
    }

    /// Makes a change, for which there is room in the index and in the buffer.
    pub fn apply(&mut self, index: &mut Index, change: Change)
        requires buffers { Buffers index.old (contents self.old) }
        requires pages { CanPut index.old (bytes_of_page self.old) change.pages.items }
        requires room { with_new index.old (contents self.old) change.pages.items ≤ most_pages self.old }
        ensures buffers { Buffers index.new (contents self.new) }
        ensures committed { SameCommitted index.old index.new }
        ensures prepared { StaysPrepared index.old index.new }
        ensures changes { ChangesPages change index.old index.new (contents self.old) (contents self.new) }
        ensures in_buffer { AreBuffered change.pages.items index.new }
        ensures within_limit { length (contents self.new) ≤ with_new index.old (contents self.old) change.pages.items }
        ensures sizes { (most_pages self.new ≡ most_pages self.old) × (bytes_of_page self.new ≡ bytes_of_page self.old) }
    {
        let Change { pages, cuts } = change;
        self.cut_all(index, &cuts);
        self.put_all(index, pages);
    }
}
