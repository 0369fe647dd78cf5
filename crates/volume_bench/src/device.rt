// A device with counts of its calls by their kind.
ghost use Rattle.std.specs.Prelude.{◌≡◌, ◌<◌, IfOk, Some};

use crate::counts::Counts;
use nand_model::{EraseFault, Geometry, Gone, Nand, PageKind, ProgramFault};
use std::alloc::{AllocError, Global};

/// A device, how many of its calls were made, and how often each block was erased.
#[derive(Drop)]
pub struct CountedNand<N: Nand> {
    inner: N,
    counts: Counts,
    erases: Vec<u64>,
}

impl<N: Nand + Drop> CountedNand<N> {
    ghost use Rattle.volume_bench.specs.Totaled.{counts_of, none};

    /// every count is 0 yet.
    ///
    /// Errors: want of memory.
    pub fn new(alloc: Global, inner: N) -> Result<CountedNand<N>, AllocError>
        ensures state { IfOk result (λ d. ⟦<CountedNand<N> as Nand>⟧.state d ≡ N.state inner) }
        ensures counts { IfOk result (λ d. counts_of d ≡ none) }
    {
        let blocks = inner.geometry().blocks();
        let erases = vec![in alloc; 0u64; blocks as usize]?;
        Ok(CountedNand {
            inner,
            counts: Counts {
                reads: 0,
                tags: 0,
                programs: 0,
                erases: 0,
                marks: 0,
            },
            erases,
        })
    }

    /// The calls since it was made.
    pub fn counts(&self) -> Counts
        ensures { result ≡ counts_of self.now }
    {
        self.counts
    }

    /// How often each block was erased since it was made.
    pub fn erases(&self) -> &[u64] {
        &self.erases
    }
}

/// Counts an erase of a block.
fn count_erase(erases: &mut Vec<u64>, block: u32) {
    if let Some(count) = erases.get_mut(block as usize) {
        *count = count.saturating_add(1);
    }
}

impl<N: Nand> Nand for CountedNand<N> {
    ghost state = { λ d. N.state d.inner };

    ghost clean = { λ d honest. N.clean d.inner honest };

    ghost within = { λ d. N.within d.inner };

    ghost sized = { λ d honest. N.sized d.inner honest };

    fn geometry(&self) -> Geometry {
        self.inner.geometry()
    }

    fn is_bad(&self, block: u32) -> bool {
        self.inner.is_bad(block)
    }

    fn read_tag(&mut self, block: u32, page: u32, tag: &mut [u8; 48]) -> Result<PageKind, Gone> {
        self.counts.reads = self.counts.reads.saturating_add(1);
        self.counts.tags = self.counts.tags.saturating_add(1);
        self.inner.read_tag(block, page, tag)
    }

    fn read_page(
        &mut self,
        block: u32,
        page: u32,
        bytes: &mut [u8],
        tag: &mut [u8; 48],
    ) -> Result<PageKind, Gone> {
        self.counts.reads = self.counts.reads.saturating_add(1);
        self.inner.read_page(block, page, bytes, tag)
    }

    fn read_data(&mut self, block: u32, page: u32, bytes: &mut [u8]) -> Result<PageKind, Gone> {
        self.counts.reads = self.counts.reads.saturating_add(1);
        self.inner.read_data(block, page, bytes)
    }

    fn program(
        &mut self,
        block: u32,
        page: u32,
        bytes: &[u8],
        tag: &[u8; 48],
    ) -> Result<(), ProgramFault> {
        self.counts.programs = self.counts.programs.saturating_add(1);
        self.inner.program(block, page, bytes, tag)
    }

    fn erase(&mut self, block: u32) -> Result<(), EraseFault> {
        self.counts.erases = self.counts.erases.saturating_add(1);
        count_erase(&mut self.erases, block);
        self.inner.erase(block)
    }

    fn mark_bad(&mut self, block: u32) -> Result<(), Gone> {
        self.counts.marks = self.counts.marks.saturating_add(1);
        self.inner.mark_bad(block)
    }
}
