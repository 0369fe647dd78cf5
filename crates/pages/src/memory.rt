// Pages in memory, for tests.
ghost use Rattle.std.specs.Prelude.{◌≡◌, ◌≤◌, ◌+◌, ℕ, true, false, Some, None, IfOk, IfErr, OnOk, length};
ghost use Rattle.pages.specs.Maps.{after_change};
ghost use Rattle.pages.specs.Changes.{AreSized};
ghost use Rattle.pages.specs.State.{FailsBy};

use crate::change::{Change, place_of};
use crate::store::{Pages, Presence};
use flash_tree::{FreshPage, Key};
use nand_model::Count;
use std::alloc::{AllocError, Global};
use volume_terms::StoreFault;

/// What a store in memory lacks when it is set to refuse a look-up.
#[derive(Clone, Copy, Debug, PartialEq, Eq)]
pub enum Lack {
    Memory,
    Device,
}

/// The look-up of this number is refused: those of keys that have a page are numbered, from 1 on.
#[derive(Clone, Copy, Debug, PartialEq, Eq)]
pub struct Refusal {
    pub number: u64,
    pub lack: Lack,
}

/// A sound store in memory, which refuses the look-up that it is set to refuse.
#[derive(Drop)]
pub struct MemPages {
    page_bytes: u32,
    pages: Vec<FreshPage>,
    // What is lent before a page was found.
    blank: Vec<u8>,
    found: usize,
    lookups: u64,
    refusal: Option<Refusal>,
    failed: bool,
    refused: Count,
    ghost least: { 512 ≤ page_bytes },
    ghost most: { page_bytes ≤ 4096 },
    ghost sized: { AreSized pages.items page_bytes },
    ghost blank_size: { length blank.items ≡ page_bytes },
}

impl MemPages {
    ghost use Rattle.pages.specs.MemoryState.{committed, refusing};

    /// No key has a page.
    pub fn new(alloc: Global, page_bytes: u32) -> Result<MemPages, AllocError>
        requires least { 512 ≤ page_bytes }
        requires most { page_bytes ≤ 4096 }
        ensures size { IfOk result (λ it. (committed it).page_bytes ≡ page_bytes) }
        ensures sound { IfOk result (λ it. (committed it).sound ≡ true) }
        ensures none { (o c : ℕ) → IfOk result (λ it. (committed it).present o c ≡ None) }
        ensures issued { IfOk result (λ it. (committed it).issued ≡ 0) }
        ensures failed { IfOk result (λ it. (committed it).failed ≡ false) }
        ensures refused { IfOk result (λ it. (committed it).refused ≡ 0) }
        ensures willing { IfOk result (λ it. refusing it ≡ None) }
    {
        Ok(MemPages {
            page_bytes,
            pages: Vec::new(alloc),
            blank: vec![in alloc; 0u8; page_bytes as usize]?,
            found: 0,
            lookups: 0,
            refusal: None,
            failed: false,
            refused: Count::new(),
        })
    }

    /// The pages after a change. Without memory for it the store is gone.
    pub fn apply(self, alloc: Global, change: Change) -> Result<MemPages, AllocError>
        requires { AreSized change.pages.items (committed self).page_bytes }
        ensures size { IfOk result (λ it. (committed it).page_bytes ≡ (committed self).page_bytes) }
        ensures sound { IfOk result (λ it. (committed it).sound ≡ (committed self).sound) }
        ensures pages { (o c : ℕ) → IfOk result (λ it. (committed it).present o c ≡ after_change change (committed self).present o c) }
        ensures issued { IfOk result (λ it. (committed it).issued ≡ (committed self).issued) }
        ensures failed { IfOk result (λ it. (committed it).failed ≡ (committed self).failed) }
        ensures refused { IfOk result (λ it. (committed it).refused ≡ (committed self).refused) }
        ensures refusing { IfOk result (λ it. refusing it ≡ refusing self) }
    {
        let old = Change {
            pages: self.pages,
            cuts: Vec::new(alloc),
        };
        let both = old.then(change)?;
        Ok(MemPages {
            page_bytes: self.page_bytes,
            pages: both.pages,
            blank: self.blank,
            found: 0,
            lookups: self.lookups,
            refusal: self.refusal,
            failed: self.failed,
            refused: self.refused,
        })
    }

    /// One look-up is refused, in place of the one that was reported before.
    pub fn refuse(&mut self, refusal: Refusal)
        ensures state { committed self.new ≡ committed self.old }
        ensures refusing { refusing self.new ≡ Some refusal }
    {
        self.refusal = Some(refusal);
    }

    /// How many look-ups of keys that have a page there were.
    pub fn lookups(&self) -> u64
        ensures { result ≡ (committed self.now).issued }
    {
        self.lookups
    }

    /// What is lacking for a look-up of this number.
    fn lacking(&self) -> Option<Lack> {
        match self.refusal {
            Some(refusal) if refusal.number == self.lookups => Some(refusal.lack),
            _ => None,
        }
    }

    /// Counts a look-up, and lends the page at this place, unless the look-up is refused.
    fn look_up(&mut self, place: usize) -> Result<(), StoreFault>
        ensures sizes { self.new.page_bytes ≡ self.old.page_bytes }
        ensures pages { self.new.pages ≡ self.old.pages }
        ensures blank { self.new.blank ≡ self.old.blank }
        ensures refusal { self.new.refusal ≡ self.old.refusal }
        ensures failed { self.old.failed ≡ true → self.new.failed ≡ true }
        ensures refused { self.old.refused.total ≤ self.new.refused.total }
        ensures rises { self.old.lookups ≤ self.new.lookups }
        ensures issued { self.new.lookups ≤ self.old.lookups + 1 }
        ensures found { OnOk result (self.new.found ≡ place) }
        ensures fault { IfErr result (FailsBy (committed self.old) (committed self.new)) }
    {
        self.lookups = self.lookups.saturating_add(1);
        match self.lacking() {
            Some(Lack::Memory) => {
                self.refused.rise();
                Err(StoreFault::NoMemory)
            }
            Some(Lack::Device) => {
                self.failed = true;
                Err(StoreFault::Device)
            }
            None => {
                self.found = place;
                Ok(())
            }
        }
    }
}

impl Pages for MemPages {
    ghost use Rattle.pages.specs.MemoryState.{committed};

    ghost state = { committed };

    ghost sized = { λ it. (it.least, it.most) };

    fn page_bytes(&self) -> u32 {
        self.page_bytes
    }

    fn find(&mut self, key: Key) -> Result<Presence, StoreFault> {
        match place_of(&self.pages, key) {
            Some(place) => {
                self.look_up(place)?;
                Ok(Presence::Present)
            }
            None => Ok(Presence::Absent),
        }
    }

    fn has(&self, key: Key) -> bool {
        place_of(&self.pages, key).is_some()
    }

    fn has_power(&mut self) -> bool {
        true
    }

    fn page(&self) -> &[u8] {
        match self.pages.get(self.found) {
            Some(page) => &page.bytes,
            None => &self.blank,
        }
    }

    fn take_frame(&mut self) -> Option<Vec<u8>> {
        None
    }

    fn return_frame(&mut self, frame: Vec<u8>) {
        let _frame = frame;
    }
}
