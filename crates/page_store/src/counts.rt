// What contracts count of a store.
ghost use Rattle.std.specs.Prelude.{◌≡◌};
ghost use Rattle.page_store.specs.Counts.{CountsCommit, IsRefused, NoneFalls};
ghost use Rattle.volume_terms.specs.declared.fault.StoreFault.TheVariants as faults;

use nand_model::Count;
use volume_terms::StoreFault;

/// The growths that were refused to a store, and the commits of buffered pages that it began. No program reads them.
#[derive(Drop)]
pub struct StoreCounts {
    pub refused: Count,
    pub commits: Count,
}

impl StoreCounts {
    /// every count is 0.
    pub(crate) fn new() -> StoreCounts {
        StoreCounts {
            refused: Count::new(),
            commits: Count::new(),
        }
    }

    /// Counts a refused growth, where the fault is one.
    pub(crate) fn note(&mut self, fault: StoreFault)
        ensures rises { NoneFalls self.old self.new }
        ensures refused { fault ≡ faults.NoMemory → IsRefused self.old self.new }
        ensures commits { self.new.commits.total ≡ self.old.commits.total }
    {
        if fault == StoreFault::NoMemory {
            self.refused.rise();
        }
    }

    /// Counts a commit of so many pages, where there are some.
    pub(crate) fn begin(&mut self, pages: usize)
        ensures { CountsCommit pages self.old self.new }
    {
        if pages > 0 {
            self.commits.rise();
        }
    }
}
