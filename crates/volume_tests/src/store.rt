// Pages that refuse memory once.
ghost use Rattle.std.specs.Prelude.{◌≡◌, ◌<◌, true, false};

use flash_tree::Key;
use nand_model::Count;
use pages::{Change, Cut, PageStore, Pages, Presence};
use volume_terms::StoreFault;

/// A store of pages that answers `NoMemory` once: after so many calls that may take memory. Such calls find a page, or make a change.
/// What its pages are is promised of no store that refuses.
#[derive(Drop)]
pub struct RefusingPages<P> {
    inner: P,
    /// How many calls are left before the one that is refused, and none after it.
    left: Option<u64>,
    refused: Count,
}

impl<P> RefusingPages<P> {
    /// Refuses the call after so many.
    pub fn new(inner: P, calls: u64) -> RefusingPages<P> {
        RefusingPages {
            inner,
            left: Some(calls),
            refused: Count::new(),
        }
    }

    /// The store, and whether a call of it was refused.
    pub fn into_inner(self) -> (P, bool) {
        (self.inner, self.left.is_none())
    }

    /// Counts a call that may take memory, and returns whether it is the one that is refused.
    fn refuses(&mut self) -> bool
        ensures inner { self.new.inner ≡ self.old.inner }
        ensures refuses { result ≡ true → self.old.refused.total < self.new.refused.total }
        ensures counts { result ≡ false → self.new.refused ≡ self.old.refused }
    {
        match self.left {
            None => false,
            Some(0) => {
                self.left = None;
                self.refused.rise();
                true
            }
            Some(left) => {
                self.left = Some(left - 1);
                false
            }
        }
    }
}

impl<P: Pages> Pages for RefusingPages<P> {
    ghost use Rattle.volume_tests.specs.Refusing.{refusing};

    ghost state = { λ it. refusing it.refused.total (P.state it.inner) };

    ghost sized = { λ it. P.sized it.inner };

    fn page_bytes(&self) -> u32 {
        self.inner.page_bytes()
    }

    fn find(&mut self, key: Key) -> Result<Presence, StoreFault> {
        if self.refuses() {
            return Err(StoreFault::NoMemory);
        }
        self.inner.find(key)
    }

    fn has(&self, key: Key) -> bool {
        self.inner.has(key)
    }

    fn has_power(&mut self) -> bool {
        self.inner.has_power()
    }

    fn page(&self) -> &[u8] {
        self.inner.page()
    }

    fn take_frame(&mut self) -> Option<Vec<u8>> {
        self.inner.take_frame()
    }

    fn return_frame(&mut self, frame: Vec<u8>) {
        self.inner.return_frame(frame)
    }
}

impl<P: PageStore> PageStore for RefusingPages<P> {
    ghost use Rattle.volume_tests.specs.laws.Refusing.{nothing_lost, nothing_worn};

    ghost lost = { λ it sound failed. nothing_lost _ sound };

    ghost within_limit = { λ it sound fresh. nothing_worn _ _ sound };

    fn most_pages(&self) -> u32 {
        self.inner.most_pages()
    }

    fn apply(&mut self, change: Change) -> Result<(), StoreFault> {
        if self.refuses() {
            return Err(StoreFault::NoMemory);
        }
        self.inner.apply(change)
    }

    fn cut(&mut self, cut: Cut) -> Result<(), StoreFault> {
        self.inner.cut(cut)
    }

    fn commit(&mut self) -> Result<(), StoreFault> {
        self.inner.commit()
    }

    fn refresh(&mut self, block: u32) -> Result<(), StoreFault> {
        self.inner.refresh(block)
    }
}
