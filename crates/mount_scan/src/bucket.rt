// Some of the pages that were found.
ghost use Rattle.std.specs.Prelude.{◌≡◌, ◌⊎◌, [], ◌∷◌, OnOk, Contains};
ghost use Rattle.mount_scan.specs.Keys.{Thins, AreLatest};

use crate::keeping::keep_newest;
use crate::page_copy::PageCopy;
use std::alloc::{AllocError, Global};

/// The pages of some keys. Of each key they have the newest page that was found, and may have others.
#[derive(Drop)]
pub struct Bucket {
    pub(crate) pages: Vec<PageCopy>,
    // How many pages there were when there was one of each key last.
    committed: usize,
}

impl Bucket {
    ghost use Rattle.mount_scan.specs.Buckets.{pages_of};

    /// There are none.
    pub(crate) fn new(alloc: Global) -> Bucket
        ensures { pages_of result ≡ [] }
    {
        Bucket {
            pages: Vec::new(alloc),
            committed: 0,
        }
    }

    /// The pages.
    pub fn pages(&self) -> &[PageCopy]
        ensures { result.now ≡ pages_of self.now }
    {
        &self.pages
    }

    /// Adds a page. Others may go that are not the newest of their keys.
    pub(crate) fn add(&mut self, found: PageCopy) -> Result<(), AllocError>
        ensures among { (f : PageCopy) → Contains (pages_of self.new) f → Contains (pages_of self.old) f ⊎ (f ≡ found) }
        ensures added { OnOk result (Thins (found ∷ []) (pages_of self.old) (pages_of self.new)) }
    {
        self.make_room()?;
        self.pages.push(found)?;
        Ok(())
    }

    /// Sees that there is room for a page more. Others may go that are not the newest of their keys.
    fn make_room(&mut self) -> Result<(), AllocError>
        ensures { Thins [] (pages_of self.old) (pages_of self.new) }
    {
        if self.pages.len() < self.pages.capacity() {
            return Ok(());
        }
        self.thin_out();
        self.grow()
    }

    /// Where there are half as many pages more than there were of single keys last, those go that are not the newest of their keys.
    /// So all pages are sorted but three times in all.
    fn thin_out(&mut self)
        ensures { Thins [] (pages_of self.old) (pages_of self.new) }
    {
        let count = self.pages.len();
        if count - self.committed.min(count) > count / 3 {
            self.keep_newest();
        }
    }

    /// Sees that there is room for a page more. It grows by an eighth, and by 4 pages at the least.
    fn grow(&mut self) -> Result<(), AllocError>
        ensures { pages_of self.new ≡ pages_of self.old }
    {
        let count = self.pages.len();
        if count < self.pages.capacity() {
            return Ok(());
        }
        self.pages.reserve_exact((count / 8).max(4))
    }

    /// Keeps of the pages of each key the newest. It takes no memory.
    pub(crate) fn keep_newest(&mut self)
        ensures { AreLatest (pages_of self.old) (pages_of self.new) }
    {
        keep_newest(&mut self.pages);
        self.committed = self.pages.len();
    }
}
