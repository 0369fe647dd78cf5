// What follows from the counts of a table. A function here does nothing: its clauses are the laws.
ghost use Rattle.std.specs.Prelude.{◌≡◌, ◌<◌, ◌≤◌, ◌+◌, ℕ, None, Some, true, false};
ghost use Rattle.block_state.specs.Table.{Table, IsEmptyBlock, MarksEntry, IsFewest, NoneCommitted, NoneFree};
ghost use Rattle.block_state.specs.Committed.{bad_count, free_count, uncommitted_count, committed_count, HasSpare, IsScarce, SameCounts};

/// Where blocks are scarce, a good block holds committed pages, and the one that holds the fewest has at most so many that
/// they can be moved with room to spare.
pub fn a_block_can_be_collected()
    ensures uncommitted { (t : Table) (spare most : ℕ) → HasSpare t spare most → IsScarce t spare → NoneCommitted t t.geometry.blocks → ⊥ }
    ensures within_limit { (t : Table) (spare most b : ℕ) → HasSpare t spare most → IsScarce t spare → IsFewest t t.geometry.blocks b → (t.entry b).committed ≤ most }
{}

/// The free blocks are the good ones without a committed page, but for the open block. None is free where the count is 0.
pub fn free_blocks_are_uncommitted()
    ensures closed { (t : Table) → t.open_block ≡ None → free_count t ≡ uncommitted_count t }
    ensures held { (t : Table) (o : ℕ) → t.open_block ≡ Some o → 1 ≤ (t.entry o).committed → free_count t ≡ uncommitted_count t }
    ensures uncommitted { (t : Table) (o : ℕ) → t.open_block ≡ Some o → IsEmptyBlock o t → uncommitted_count t ≡ free_count t + 1 }
    ensures none { (t : Table) → NoneFree t t.geometry.blocks → free_count t ≡ 0 }
{}

/// The mark of a good block without a committed page makes one bad block more and one without a committed page less.
pub fn a_mark_moves_a_block()
    ensures uncommitted { (old new : Table) (b : ℕ) → IsEmptyBlock b old → MarksEntry b old new → uncommitted_count old ≡ uncommitted_count new + 1 }
    ensures bad { (old new : Table) (b : ℕ) → b < old.geometry.blocks → (old.entry b).bad ≡ false → MarksEntry b old new → bad_count new ≡ bad_count old + 1 }
    ensures committed { (old new : Table) (b : ℕ) → MarksEntry b old new → committed_count new ≡ committed_count old }
{}

/// Where the marks and the committed counts stay, so do the counts of blocks and of committed pages.
pub fn the_same_counts_count_the_same()
    ensures bad { (old new : Table) → SameCounts old new → bad_count new ≡ bad_count old }
    ensures uncommitted { (old new : Table) → SameCounts old new → uncommitted_count new ≡ uncommitted_count old }
    ensures committed { (old new : Table) → SameCounts old new → committed_count new ≡ committed_count old }
{}
