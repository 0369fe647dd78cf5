// A bounded cache of pages.
ghost use Rattle.std.specs.Prelude.{◌≡◌, ◌≤◌, ◌+◌, ◌↔◌, ℕ, [], length, None, Some, IsNone, IsSome, IfSome, IfOk, OnOk, OnErr, IsTrue};
ghost use Rattle.std.specs.Map.{lookup};
ghost use Rattle.std.specs.Option.{option_copied};
ghost use Rattle.std.specs.NonZero.{non_zero_usize_get};
ghost use Rattle.page_store.specs.Slots.{AreFrames, AreSized, HasSize, Page, Reserved, held_in, is_key};

use crate::slot::Slot;
use flash_tree::Key;
use lru::LruCache;
use std::alloc::{AllocError, Global};
use std::mem;
use std::num::NonZeroUsize;

/// Pages of one size under their keys, and places for pages. The number of keys is bounded; the least recently used goes
/// first.
///
/// A frame is a page's room in memory. Those of pages that go are spare, as many as `SPARE_FRAMES`: for pages that are put, and for
/// those of the next changes. A key that is to be written gets a place before, which may want memory, and no frame. The page that was
/// written comes there with its own, which takes none.
#[derive(Drop)]
pub struct PageCache {
    alloc: Global,
    page_bytes: usize,
    // Under an object and a chunk. Keys that collide make a look-up as long as the capacity, and no longer.
    slots: LruCache<(u64, u64), Slot>,
    // Frames that no key has.
    spare: Vec<Vec<u8>>,
    ghost sized: { AreSized page_bytes slots.entries },
    ghost spare_sized: { AreFrames page_bytes spare.items },
}

/// How many spare frames there are at most: as many as the largest change of a volume with blocks of 64 pages has pages.
pub(crate) const SPARE_FRAMES: usize = 16;

/// How many of them stay after a commit that was wanted: as many as an update by a rename has pages.
pub(crate) const SPARE_AT_REST: usize = 3;

impl PageCache {
    ghost use Rattle.page_store.specs.Cached.{held, cached, held_count, capacity_of, page_bytes_of};
    ghost use Rattle.page_store.specs.Changes.{HasTheSame, Changes, KeepsSlots, Puts, DropsFrom};

    /// An empty cache for pages of so many bytes, which has something of at most `capacity` keys.
    pub fn new(
        alloc: Global,
        capacity: NonZeroUsize,
        page_bytes: usize,
    ) -> Result<PageCache, AllocError>
        ensures size { IfOk result (λ cache. page_bytes_of cache ≡ page_bytes) }
        ensures capacity { IfOk result (λ cache. capacity_of cache ≡ non_zero_usize_get capacity) }
        ensures empty { (o c : ℕ) → IfOk result (λ cache. held cache o c ≡ None) }
        ensures count { IfOk result (λ cache. held_count cache ≡ 0) }
    {
        Ok(PageCache {
            alloc,
            page_bytes,
            slots: LruCache::sparse(alloc, capacity)?,
            spare: Vec::with_capacity(alloc, SPARE_FRAMES)?,
        })
    }

    /// Of how many keys there is a page or a place.
    pub fn held_count(&self) -> usize
        ensures count { result ≡ held_count self.now }
        ensures within_limit { result ≤ capacity_of self.now }
    {
        self.slots.len()
    }

    /// Returns whether there is a page of the key, which is a use of it. `page` lends it then.
    pub fn find(&mut self, key: Key) -> bool
        ensures found { IsTrue result ↔ IsSome (cached self.old key.object key.chunk) }
        ensures same { HasTheSame self.old self.new }
    {
        match self.slots.get(&(key.object, key.chunk)) {
            Some(slot) => slot.page().is_some(),
            None => false,
        }
    }

    /// The page of the key, if there is one.
    pub fn page(&self, key: Key) -> Option<&[u8]>
        ensures page { option_copied result ≡ cached self.now key.object key.chunk }
        ensures size { IfSome result (λ page. length page.now ≡ page_bytes_of self.now) }
    {
        match self.slot(key) {
            Some(slot) => slot.page(),
            None => None,
        }
    }

    /// What there is of the key. Most often it is the key that was used last, which is not looked up.
    fn slot(&self, key: Key) -> Option<&Slot>
        ensures { option_copied result ≡ lookup (is_key key.object key.chunk) self.now.slots.entries }
    {
        if let Some((last, slot)) = self.slots.peek_mru() {
            if last.0 == key.object && last.1 == key.chunk {
                return Some(slot);
            }
        }
        self.slots.peek(&(key.object, key.chunk))
    }

    /// Makes the bytes of the frame the page of the key. The frame changes places with one that no key has, so that no
    /// page is copied.
    pub fn put(&mut self, key: Key, frame: &mut Vec<u8>) -> Result<(), AllocError>
        requires { length frame.old.items ≡ page_bytes_of self.old }
        ensures ok { OnOk result (Puts key.object key.chunk (Page frame.old.items) self.old self.new) }
        ensures err { OnErr result (HasTheSame self.old self.new) }
        ensures size { length frame.new.items ≡ page_bytes_of self.old }
    {
        let mut page = self.take_frame()?;
        mem::swap(&mut page, frame);
        self.insert(key, Slot::Page(page))
    }

    /// Makes a place for the page that the key is to get. The page that it has goes.
    pub fn reserve(&mut self, key: Key) -> Result<(), AllocError>
        ensures ok { OnOk result (Puts key.object key.chunk Reserved self.old self.new) }
        ensures err { OnErr result (HasTheSame self.old self.new) }
    {
        self.insert(key, Slot::Reserved)
    }

    /// Makes the frame's bytes the page of a key that has a page or a place. It takes no memory. The frame that is over is spare.
    pub fn fill(&mut self, key: Key, frame: Vec<u8>)
        requires { length frame.items ≡ page_bytes_of self.old }
        ensures filled { IsSome (held self.old key.object key.chunk) → Changes key.object key.chunk (Some (Page frame.items)) self.old self.new }
        ensures nothing { held self.old key.object key.chunk ≡ None → HasTheSame self.old self.new }
    {
        match self.slots.get_mut(&(key.object, key.chunk)) {
            Some(slot) => {
                let over = mem::replace(slot, Slot::Page(frame));
                self.keep_frame(over);
            }
            None => self.keep_frame(Slot::Page(frame)),
        }
    }

    /// The page of the key goes, and leaves a place for the one that the key is to get. It takes no memory.
    pub fn vacate(&mut self, key: Key)
        ensures vacated { IsSome (held self.old key.object key.chunk) → Changes key.object key.chunk (Some Reserved) self.old self.new }
        ensures nothing { held self.old key.object key.chunk ≡ None → HasTheSame self.old self.new }
    {
        if let Some(slot) = self.slots.peek_mut(&(key.object, key.chunk)) {
            let over = mem::replace(slot, Slot::Reserved);
            self.keep_frame(over);
        }
    }

    /// Hands out a frame that no key has, if there is one.
    pub fn take_spare(&mut self) -> Option<Vec<u8>>
        ensures size { IfSome result (λ frame. length frame.items ≡ page_bytes_of self.old) }
        ensures same { KeepsSlots self.old self.new }
    {
        self.spare.pop()
    }

    /// Takes back a frame that no key has, where there is room for it.
    pub fn return_spare(&mut self, frame: Vec<u8>)
        requires { length frame.items ≡ page_bytes_of self.old }
        ensures { KeepsSlots self.old self.new }
    {
        self.keep_frame(Slot::Page(frame))
    }

    /// Frees the spare frames but so many.
    pub fn keep_spares(&mut self, count: usize)
        ensures { KeepsSlots self.old self.new }
    {
        self.spare.truncate(count);
    }

    /// What there is of the key goes. The frame that is over is spare.
    pub fn remove(&mut self, key: Key)
        ensures gone { Changes key.object key.chunk None self.old self.new }
        ensures count { IsSome (held self.old key.object key.chunk) → held_count self.new + 1 ≡ held_count self.old }
    {
        let _places = self.slots.len();
        if let Some(slot) = self.slots.pop(&(key.object, key.chunk)) {
            self.keep_frame(slot);
        }
    }

    /// What there is of the chunks of an object from this one on goes.
    pub fn remove_from(&mut self, object: u64, chunk: u64)
        ensures { DropsFrom object chunk self.old self.new }
    {
        while let Some(key) = self.first_from(object, chunk) {
            self.remove(key);
        }
    }

    /// A key of the object from this chunk on.
    fn first_from(&self, object: u64, chunk: u64) -> Option<Key>
        ensures found { IfSome result (λ key. (key.object ≡ object) × (chunk ≤ key.chunk) × IsSome (held self.now key.object key.chunk)) }
        ensures none { IsNone result → (q : ℕ) → chunk ≤ q → held self.now object q ≡ None }
    {
        for (at, _) in self.slots.iter() {
            if at.0 == object && at.1 >= chunk {
                return Some(Key {
                    object: at.0,
                    chunk: at.1,
                });
            }
        }
        None
    }

    /// A frame that no key has.
    fn take_frame(&mut self) -> Result<Vec<u8>, AllocError>
        ensures size { IfOk result (λ frame. length frame.items ≡ page_bytes_of self.old) }
        ensures same { KeepsSlots self.old self.new }
    {
        match self.take_spare() {
            Some(frame) => Ok(frame),
            None => vec![in self.alloc; 0u8; self.page_bytes],
        }
    }

    /// Puts a slot under a key. The frame that is over is spare.
    fn insert(&mut self, key: Key, slot: Slot) -> Result<(), AllocError>
        requires { HasSize (page_bytes_of self.old) slot }
        ensures ok { OnOk result (Puts key.object key.chunk (held_in slot) self.old self.new) }
        ensures err { OnErr result (HasTheSame self.old self.new) }
    {
        let _places = self.slots.len();
        match self.slots.push((key.object, key.chunk), slot) {
            Ok(None) => Ok(()),
            Ok(Some((_, old))) => {
                self.keep_frame(old);
                Ok(())
            }
            Err(refused) => {
                let (_, unused) = refused.value;
                self.keep_frame(unused);
                Err(AllocError)
            }
        }
    }

    /// Keeps the frame of a slot that no key has any more, where there is room for it.
    fn keep_frame(&mut self, slot: Slot)
        requires { HasSize (page_bytes_of self.old) slot }
        ensures { KeepsSlots self.old self.new }
    {
        if let Slot::Page(frame) = slot {
            if self.spare.len() < self.spare.capacity() {
                self.spare.push_reserved(frame);
            }
        }
    }
}
