// What follows from what an index reports. A function here does nothing: its clauses are the laws.
ghost use Rattle.std.specs.Prelude.{◌≡◌, ℕ, Some, List, slice_get, length, IsPermutation};
ghost use Rattle.block_state.specs.Table.{Table};
ghost use Rattle.block_state.specs.Committed.{committed_count, bad_count};
ghost use Rattle.nand_model.specs.Flash.{Flash};
ghost use Rattle.volume_terms.specs.Sizes.{Sizes};
ghost use Rattle.posix_profile.specs.State.{Objects};
ghost use Rattle.flash_tree.specs.Mount.{bad_blocks};
ghost use Rattle.chunk_index.specs.declared.form.CommittedPage.{CommittedPage};
ghost use Rattle.chunk_index.specs.declared.form.CommittedKey.{CommittedKey};
ghost use Rattle.chunk_index.specs.declared.index.Index.{Index};
ghost use Rattle.chunk_index.specs.Committed.{HoldsNone, HasCommitted};
ghost use Rattle.chunk_index.specs.Free.{HasMarks, KnowTree, UncommittedAreFree};
ghost use Rattle.chunk_index.specs.Listing.{block_keys, AreCommittedKeys, HasAllKeys, HasKeysOnce, ListsPage};
ghost use Rattle.chunk_index.specs.Maps.{CommittedMap, committed_pages, count_committed_in, CountsAgree};

/// The count of a block is 0 exactly where no key is committed in it.
pub fn the_counts_are_of_the_keys()
    ensures none { (x : Index) (b : ℕ) → count_committed_in x b ≡ 0 → HoldsNone (committed_pages x) b }
    ensures zero { (x : Index) (b : ℕ) → HoldsNone (committed_pages x) b → count_committed_in x b ≡ 0 }
{}

/// The list of the keys that are committed in a block has each of these once, with its page, and no other.
pub fn the_list_of_a_block_is_whole()
    ensures committed { (x : Index) (b i : ℕ) (k : CommittedKey) → slice_get (block_keys x b) i ≡ Some k → committed_pages x k.key.object k.key.chunk ≡ Some k.at }
    ensures here { (x : Index) (b i : ℕ) (k : CommittedKey) → slice_get (block_keys x b) i ≡ Some k → k.at.block ≡ b }
    ensures count { (x : Index) (b : ℕ) → length (block_keys x b) ≡ count_committed_in x b }
    ensures all { (x : Index) (b o c : ℕ) (p : CommittedPage) → committed_pages x o c ≡ Some p → p.block ≡ b → ListsPage (block_keys x b) o c p }
    ensures once { (x : Index) (b : ℕ) → HasKeysOnce (block_keys x b) }
{}

/// A list of the keys that are committed in a block, in whatever order, as in that of their pages, has each of these once, with its
/// page, and no other.
pub fn the_sorted_list_of_a_block_is_whole()
    ensures committed { (x : Index) (b : ℕ) (ks : List CommittedKey) → IsPermutation (block_keys x b) ks → AreCommittedKeys x b ks }
    ensures all { (x : Index) (b : ℕ) (ks : List CommittedKey) → IsPermutation (block_keys x b) ks → HasAllKeys x b ks }
    ensures once { (x : Index) (b : ℕ) (ks : List CommittedKey) → IsPermutation (block_keys x b) ks → HasKeysOnce ks }
    ensures count { (x : Index) (b : ℕ) (ks : List CommittedKey) → IsPermutation (block_keys x b) ks → length ks ≡ count_committed_in x b }
{}

/// A list of keys that are committed in a block, none of them twice, has each if it is as long as the block's count.
pub fn a_list_as_long_as_the_count_is_whole()
    ensures { (x : Index) (b : ℕ) (ks : List CommittedKey) → AreCommittedKeys x b ks → HasKeysOnce ks → length ks ≡ count_committed_in x b → HasAllKeys x b ks }
{}

/// The committed counts of all blocks add up to the number of committed keys, and a map keeps one number of keys.
pub fn the_counts_add_up_to_the_committed_keys()
    ensures all { (t : Table) (x : Index) → CountsAgree t x → HasCommitted (committed_pages x) (committed_count t) }
    ensures one { (m : CommittedMap) (n k : ℕ) → HasCommitted m n → HasCommitted m k → n ≡ k }
{}

/// Where each key that is looked up to see a tree is committed in the block of its newest page, the good blocks without a committed
/// page are free: so many as the table counts of them are free on the flash, and as many are bad.
pub fn blocks_without_committed_pages_are_free()
    ensures free { (x : Index) (t : Table) (flash : Flash) (z : Sizes) (objects : Objects) → KnowTree t x flash z objects → UncommittedAreFree t flash z objects }
    ensures bad { (t : Table) (flash : Flash) → HasMarks flash t → bad_count t ≡ bad_blocks t.geometry flash }
{}
