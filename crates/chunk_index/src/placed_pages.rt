// What becomes committed.
ghost use Rattle.std.specs.Prelude.{◌≡◌, ◌<◌, ◌≤◌, Some, length, map, slice_get};
ghost use Rattle.chunk_index.specs.Adding.{copy_key, entry_key, keys_of};

use crate::form::{CommittedKey, CommittedPage};
use flash_tree::Key;
use mount_scan::PageCopy;
use page_tags::CheckEntry;

/// Pages on the flash, each of a key: those that a scan found, or those that a checkpoint reports.
#[derive(Clone, Copy)]
pub enum PlacedPages<'a> {
    Copies(&'a [PageCopy]),
    Entries(&'a [CheckEntry]),
}

impl PlacedPages<'_> {
    /// How many there are.
    pub(crate) fn len(&self) -> usize
        ensures { result ≡ length (keys_of self.now) }
    {
        match self {
            PlacedPages::Copies(copies) => copies.len(),
            PlacedPages::Entries(entries) => entries.len(),
        }
    }

    /// The page at a place, with its key.
    pub(crate) fn at(&self, at: usize) -> CommittedKey
        requires { at < length (keys_of self.now) }
        ensures { slice_get (keys_of self.now) at ≡ Some result }
    {
        match self {
            PlacedPages::Copies(copies) => found_at(copies, at),
            PlacedPages::Entries(entries) => reported_at(entries, at),
        }
    }

    /// Whether the page before the one at a place, if any, is of another object.
    pub(crate) fn is_first_of_object(&self, at: usize) -> bool
        requires { at < length (keys_of self.now) }
    {
        at == 0 || self.at(at - 1).key.object != self.at(at).key.object
    }

    /// Where the pages end that are of the same object as the one at a place.
    pub(crate) fn object_end(&self, at: usize) -> usize
        requires { at < length (keys_of self.now) }
        ensures { at ≤ result }
    {
        let object = self.at(at).key.object;
        for end in at..self.len() {
            if self.at(end).key.object != object {
                return end;
            }
        }
        self.len()
    }
}

/// The page at a place of those that a scan found, with its key.
fn found_at(copies: &[PageCopy], at: usize) -> CommittedKey
    requires { at < length copies.now }
    ensures { slice_get (map copy_key copies.now) at ≡ Some result }
{
    let copy = &copies[at];
    CommittedKey {
        key: Key {
            object: copy.object,
            chunk: copy.chunk as u64,
        },
        at: CommittedPage {
            block: copy.block as u32,
            page: copy.page as u32,
            version: copy.version,
        },
    }
}

/// The page at a place of those that a checkpoint reports, with its key.
fn reported_at(entries: &[CheckEntry], at: usize) -> CommittedKey
    requires { at < length entries.now }
    ensures { slice_get (map entry_key entries.now) at ≡ Some result }
{
    let entry = &entries[at];
    let key = Key {
        object: entry.object,
        chunk: entry.chunk,
    };
    let at = CommittedPage {
        block: entry.block,
        page: entry.page,
        version: entry.version,
    };
    CommittedKey { key, at }
}
