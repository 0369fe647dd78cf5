// The pages that were found.
ghost use Rattle.std.specs.Prelude.{◌≡◌, ◌<◌, ℕ, [], ◌∷◌, Some, IfOk, OnOk, length, slice_get, Contains};
ghost use Rattle.mount_scan.specs.Keys.{Thins, ThinsFound, AreLatest};
ghost use Rattle.mount_scan.specs.Copies.{page_named, pages_named};
ghost use Rattle.mount_scan.specs.Buckets.{reversed, bucket_of, pages_of, AreApart};

use crate::bucket::Bucket;
use crate::page_copy::PageCopy;
use flash_tree::{Found, Key};
use page_tags::{CheckEntry, Tag};
use std::alloc::{AllocError, Global};
use std::mem;

/// The number of buckets.
pub const BUCKETS: usize = 64;

/// The pages that were found, in buckets by their keys, so that none of many lists is long: none has to be moved whole as it
/// grows, and each can be given up by itself. The greater chunks of an object lie in later buckets.
#[derive(Drop)]
pub struct FoundPages {
    alloc: Global,
    pub(crate) buckets: Vec<Bucket>,
    ghost count: { length buckets.items ≡ 64 },
    ghost apart: { AreApart buckets.items },
}

/// The number whose bits are the lowest five of an object's number in reverse.
fn reversed(object: u64) -> u64
    ensures reversed { result ≡ reversed object }
    ensures within { result < 32 }
{
    let high = object % 2 * 16 + object / 2 % 2 * 8;
    high + object / 4 % 2 * 4 + object / 8 % 2 * 2 + object / 16 % 2
}

/// The bucket of a key: one of the first 32 has the chunks below 1,024 of an object, and one of the others those above.
///
/// The index of the newest pages takes the buckets in turn. Of the objects whose numbers follow each other every sixteenth is in two
/// buckets that stand next to each other, then every eighth in four, and so on: the objects that come later lie between those that
/// came before, and fill the nodes of a B-tree. Where they came in order, a node would stay half full once it was split.
fn bucket_of(key: Key) -> usize
    ensures bucket { result ≡ bucket_of key.object key.chunk }
    ensures within { result < 64 }
{
    if key.chunk < 1024 {
        reversed(key.object) as usize
    } else {
        (32 + key.chunk / 1024 % 32) as usize
    }
}

/// The page that an entry of a summary names, with what its tag is known to be.
fn page_named(entry: &CheckEntry, seq: u64) -> Found
    ensures { result ≡ page_named seq entry.now }
{
    Found {
        block: entry.block,
        page: entry.page,
        tag: Tag {
            index: 0,
            count: 0,
            object: entry.object,
            chunk: entry.chunk,
            version: entry.version,
            group: 0,
            seq,
        },
    }
}

impl FoundPages {
    ghost use Rattle.mount_scan.specs.Listed.{listed, bucket_at, AreOthersSame};

    /// There are none.
    pub fn new(alloc: Global) -> Result<FoundPages, AllocError>
        ensures { IfOk result (λ pages. (f : PageCopy) → Contains (listed pages) f → ⊥) }
    {
        let mut buckets = Vec::with_capacity(alloc, BUCKETS)?;
        for _bucket in 0..BUCKETS {
            buckets.push(Bucket::new(alloc))?;
        }
        Ok(FoundPages { alloc, buckets })
    }

    /// Adds a page. Others may go that are not the newest of their keys.
    pub fn add(&mut self, found: PageCopy) -> Result<(), AllocError>
        ensures { OnOk result (Thins (found ∷ []) (listed self.old) (listed self.new)) }
    {
        let key = Key {
            object: found.object,
            chunk: found.chunk as u64,
        };
        self.buckets[bucket_of(key)].add(found)
    }

    /// Adds some pages, but none of a chunk that no tree looks up.
    pub fn add_all(&mut self, found: &[Found]) -> Result<(), AllocError>
        ensures { OnOk result (ThinsFound found.now (listed self.old) (listed self.new)) }
    {
        for page in found {
            if let Some(copy) = PageCopy::of(page) {
                self.add(copy)?;
            }
        }
        Ok(())
    }

    /// Adds the pages that the entries of a summary name, but none of a chunk that no tree looks up, nor of an object or a version 0.
    /// The block that they lie in was allocated with this number.
    pub(crate) fn add_named(&mut self, entries: &[CheckEntry], seq: u64) -> Result<(), AllocError>
        ensures { OnOk result (ThinsFound (pages_named seq entries.now) (listed self.old) (listed self.new)) }
    {
        for entry in entries {
            if let Some(copy) = PageCopy::of(&page_named(entry, seq)) {
                self.add(copy)?;
            }
        }
        Ok(())
    }

    /// Keeps of the pages of each key the newest. It takes no memory.
    pub fn keep_newest(&mut self)
        ensures { AreLatest (listed self.old) (listed self.new) }
    {
        for at in 0..BUCKETS {
            self.buckets[at].keep_newest();
        }
    }

    /// The pages of a bucket.
    pub fn bucket(&self, at: usize) -> &[PageCopy]
        requires { at < 64 }
        ensures { result.now ≡ bucket_at self.now at }
    {
        self.buckets[at].pages()
    }

    /// Takes a bucket out.
    pub fn take(&mut self, at: usize) -> Bucket
        requires { at < 64 }
        ensures taken { pages_of result ≡ bucket_at self.old at }
        ensures others { AreOthersSame at self.old self.new }
    {
        let none = Bucket::new(self.alloc);
        mem::replace(&mut self.buckets[at], none)
    }
}
