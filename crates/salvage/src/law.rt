// What a salvage is in the words of slots and of trees. A function here does nothing: its clauses are the laws.
ghost use Rattle.std.specs.Prelude.{◌≤◌, ℕ};
ghost use Rattle.pages.specs.Maps.{PageMap, has};
ghost use Rattle.posix_profile.specs.State.{Objects};
ghost use Rattle.volume_terms.specs.Sizes.{Sizes};
ghost use Rattle.flash_tree.specs.Tree.{Shows};
ghost use Rattle.salvage.specs.Reported.{ListsSlots};
ghost use Rattle.salvage.specs.Whole.{HasSlots, ListsAll, ReachesAll, ReadsAll};
ghost use Rattle.salvage.specs.declared.reported.Listing.{Listing};

/// What is listed of a directory, whole or not, are the names of exactly the slots that read, and with those that are lost they are as
/// many as the slots.
pub fn a_listing_has_the_slots_that_read()
    ensures { (z : Sizes) (m : PageMap) (d count : ℕ) (read : Listing) → z.page_bytes ≤ 4096
        → ListsSlots z (has m) d count read → HasSlots z (has m) d count read }
{}

/// Of pages that show a tree all of it is there: exactly its objects are reached, each directory has exactly its names and no lost
/// slot, and each read of a file returns its bytes.
pub fn a_tree_is_salvaged_whole()
    ensures reached { (z : Sizes) (m : PageMap) (objects : Objects) → z.page_bytes ≤ 4096
        → Shows z (has m) objects → ReachesAll z (has m) objects }
    ensures names { (z : Sizes) (m : PageMap) (objects : Objects) → z.page_bytes ≤ 4096
        → Shows z (has m) objects → ListsAll z (has m) objects }
    ensures bytes { (z : Sizes) (m : PageMap) (objects : Objects) → z.page_bytes ≤ 4096
        → Shows z (has m) objects → ReadsAll z (has m) objects }
{}
