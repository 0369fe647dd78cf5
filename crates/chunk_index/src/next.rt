// All committed keys, one after another.
ghost use Rattle.std.specs.Prelude.{◌≡◌, Some};
ghost use Rattle.chunk_index.specs.Entries.{chunk, committed_of};
ghost use Rattle.chunk_index.specs.Shelves.{look};
ghost use Rattle.chunk_index.specs.Committed.{IsNextCommitted};
ghost use Rattle.chunk_index.specs.Following.{IsStartFor, IsNextChunk, IsNextBeyond, committed_chunk};
ghost use Rattle.chunk_index.specs.Maps.{committed_pages};

use crate::form::{CommittedKey, CommittedPage};
use crate::index::Index;
use crate::object::ObjectEntries;
use crate::shelf::Shelf;
use flash_tree::Key;

impl Index {
    /// The first committed key after another, or of all, with its page: by the object, then by the chunk. It finds its place by
    /// halves, and passes those after it that are prepared and not committed.
    pub fn next_committed(&self, after: Option<Key>) -> Option<CommittedKey>
        ensures { IsNextCommitted (committed_pages self.now) after result }
    {
        let Some(Key { object, chunk }) = after else {
            return self.next_beyond(None);
        };
        match self.shelf.next_chunk(object, Some(chunk)) {
            Some((chunk, at)) => {
                let key = Key { object, chunk };
                Some(CommittedKey { key, at })
            }
            None => self.next_beyond(Some(object)),
        }
    }

    /// The first committed key of the objects after one, or of all.
    fn next_beyond(&self, after: Option<u64>) -> Option<CommittedKey>
        ensures { IsNextBeyond (committed_pages self.now) after result }
    {
        let mut last = after;
        while let Some(object) = self.shelf.next_object(last) {
            if let Some((chunk, at)) = self.shelf.next_chunk(object, None) {
                let key = Key { object, chunk };
                return Some(CommittedKey { key, at });
            }
            last = Some(object);
        }
        None
    }
}

impl Shelf {
    /// The first committed chunk of an object after one, or of all, with its page.
    fn next_chunk(&self, object: u64, after: Option<u64>) -> Option<(u64, CommittedPage)>
        ensures { IsNextChunk (λ c. committed_of (look self.now.objects object c)) after result }
    {
        match self.objects.get(&object) {
            Some(entries) => entries.next_chunk(after),
            None => None,
        }
    }
}

impl ObjectEntries {
    /// The first committed chunk after one, or of all, with its page.
    fn next_chunk(&self, after: Option<u64>) -> Option<(u64, CommittedPage)>
        ensures { IsNextChunk (committed_chunk self.now.entries.items) after result }
    {
        for at in self.start_after(after)..self.entries.len() {
            let entry = self.entries[at].unpack();
            if let Some(page) = entry.committed {
                return Some((entry.chunk, page));
            }
        }
        None
    }

    /// Where the entries begin whose chunks come after one, or all.
    fn start_after(&self, after: Option<u64>) -> usize
        ensures { IsStartFor chunk self.now.entries.items after result }
    {
        match after {
            Some(number) => match self.search(number) {
                Ok(at) => at + 1,
                Err(at) => at,
            },
            None => 0,
        }
    }
}
