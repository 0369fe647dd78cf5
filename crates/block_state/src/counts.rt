// Counts over the table, and which block is to be taken or to be collected.
ghost use Rattle.std.specs.Prelude.{◌≡◌, ◌<◌, ◌↔◌, IsTrue, IfSome, IfNone};
ghost use Rattle.block_state.specs.Table.{is_free, IsFewest, NoneCommitted, HoldsFewer, IsNextFree, IsNextTaken, NoneFree, GoesBefore};
ghost use Rattle.block_state.specs.Committed.{bad_count, free_count};

use crate::blocks::Blocks;

impl Blocks {
    ghost use Rattle.block_state.specs.TableOf.{table};

    /// Whether a block is free: good, not the open one, and without a committed page.
    pub fn is_free(&self, block: u32) -> bool
        requires { block < (table self.now).geometry.blocks }
        ensures { result ≡ is_free (table self.now) block }
    {
        let entry = self.entry(block);
        !entry.bad && entry.committed == 0 && self.open_block() != Some(block)
    }

    /// How many blocks are free, in one pass over the blocks.
    #[tactic(auto, using(crate::specs::laws::Counting::counts_one, crate::specs::laws::Counting::counts_none, crate::specs::laws::Counting::counts_most))]
    pub fn free_count(&self) -> u32
        ensures { result ≡ free_count (table self.now) }
    {
        let mut count = 0;
        for block in 0..self.geometry().blocks() {
            if self.is_free(block) {
                count += 1;
            }
        }
        count
    }

    /// How many blocks are marked bad, in one pass over the blocks.
    #[tactic(auto, using(crate::specs::laws::Counting::counts_one, crate::specs::laws::Counting::counts_none, crate::specs::laws::Counting::counts_most))]
    pub fn bad_count(&self) -> u32
        ensures { result ≡ bad_count (table self.now) }
    {
        let mut count = 0;
        for block in 0..self.geometry().blocks() {
            if self.entry(block).bad {
                count += 1;
            }
        }
        count
    }

    /// The block to be collected, in one pass over the blocks: a good one with the least committed pages among those that
    /// hold one, and of these one that was taken longest ago.
    pub fn fewest_committed(&self) -> Option<u32>
        ensures found { IfSome result (λ block. IsFewest (table self.now) (table self.now).geometry.blocks block) }
        ensures none { IfNone result (NoneCommitted (table self.now) (table self.now).geometry.blocks) }
    {
        let mut fewest = None;
        for block in 0..self.geometry().blocks() {
            if self.holds_fewer(block, fewest) {
                fewest = Some(block);
            }
        }
        fewest
    }

    /// Whether a block is to be preferred to the one with the fewest committed pages so far.
    fn holds_fewer(&self, block: u32, fewest: Option<u32>) -> bool
        requires block { block < (table self.now).geometry.blocks }
        requires fewest { IfSome fewest (λ k. k < (table self.now).geometry.blocks) }
        ensures { IsTrue result ↔ HoldsFewer (table self.now) block fewest }
    {
        let entry = self.entry(block);
        if entry.bad || entry.committed == 0 {
            return false;
        }
        match fewest {
            None => true,
            Some(best) => {
                let other = self.entry(best);
                entry.committed < other.committed
                    || entry.committed == other.committed && entry.seq < other.seq
            }
        }
    }

    /// The free block to be allocated next, in one pass over the blocks: the one that was allocated longest ago, so that all take
    /// their turn. Blocks in which nothing was programmed since they were erased go first, in their order.
    pub fn next_free(&self) -> Option<u32>
        ensures found { IfSome result (λ block. IsNextFree (table self.now) (table self.now).geometry.blocks block) }
        ensures none { IfNone result (NoneFree (table self.now) (table self.now).geometry.blocks) }
    {
        let mut next = None;
        for block in 0..self.geometry().blocks() {
            if self.goes_before(block, next) {
                next = Some(block);
            }
        }
        next
    }

    /// The free block to be allocated next: the one that may have a whole checkpoint, else the one whose turn it is.
    pub fn next_taken(&self) -> Option<u32>
        ensures found { IfSome result (λ block. IsNextTaken (table self.now) (table self.now).geometry.blocks block) }
        ensures none { IfNone result (NoneFree (table self.now) (table self.now).geometry.blocks) }
    {
        match self.checkpoint() {
            Some(block) if self.is_free(block) => Some(block),
            _ => self.next_free(),
        }
    }

    /// Whether a block is to be taken before the one whose turn it is so far.
    fn goes_before(&self, block: u32, next: Option<u32>) -> bool
        requires block { block < (table self.now).geometry.blocks }
        requires next { IfSome next (λ k. k < (table self.now).geometry.blocks) }
        ensures { IsTrue result ↔ GoesBefore (table self.now) block next }
    {
        if !self.is_free(block) {
            return false;
        }
        match next {
            None => true,
            Some(other) => self.entry(block).turn() < self.entry(other).turn(),
        }
    }
}
