// What follows for a flash from a map of its newest pages. A function here does nothing: its clauses are the laws.
ghost use Rattle.std.specs.Prelude.{◌≡◌, ◌<◌, ◌^◌, ℕ};
ghost use Rattle.nand_model.specs.Flash.{Flash};
ghost use Rattle.nand_model.specs.declared.geometry.Geometry.{Geometry};
ghost use Rattle.volume_terms.specs.Sizes.{Sizes, IsSizes};
ghost use Rattle.posix_profile.specs.State.{Objects};
ghost use Rattle.posix_profile.specs.WellFormed.{IsForest};
ghost use Rattle.object_store.specs.Stores.{settled};
ghost use Rattle.flash_tree.specs.Tree.{Shows};
ghost use Rattle.flash_tree.specs.Mount.{sizes_of, IsVolume, IsNoVolume, NotAVolume, Answers};
ghost use Rattle.pages.specs.Maps.{PageMap, has};
ghost use Rattle.flash_tree.specs.declared.place.Key.{Key};
ghost use Rattle.tree_walk.specs.Broken.{Breaks};
ghost use Rattle.tree_walk.specs.declared.broken.Rule.{Rule};
ghost use Rattle.mounting.specs.NewestMaps.{IsNewestMap};
ghost use Rattle.mounting.specs.TreeLaws.{WrongRootsAreAnswered, WrongObjectsAreAnswered, DoubleNamesAreAnswered, WrongTreesAreAnswered, RulesAreBrokenAlike, FirstBrokenAlike, VolumesAreAlike, WholeListsShow, FootprintsHold, FullTreesAreAnswered, ScarceTreesAreAnswered, RoomyTreesAreAnswered, TreesLookUpFootprints, TestsKeepFootprints, PartsAreFootprints, PlacesAreOfTheTree, IndexesAreOfTheTree};

use chunk_index::{blocks_without_committed_pages_are_free, the_counts_are_of_the_keys};
use flash_tree::a_flash_has_an_answer;

/// What is wrong with a map of the newest pages of a flash is the flash's answer: there is no volume, the root's header
/// is wrong, an object is, or two names lead to one directory. A rule that the map breaks the flash breaks.
pub fn a_map_of_the_newest_pages_answers()
    ensures no_volume { (g : Geometry) (flash : Flash) (m : PageMap) → IsNewestMap flash m → IsNoVolume (has m) → Answers g flash NotAVolume }
    ensures root { WrongRootsAreAnswered }
    ensures object { WrongObjectsAreAnswered }
    ensures names { DoubleNamesAreAnswered }
    ensures tree { WrongTreesAreAnswered }
    ensures breaks { RulesAreBrokenAlike }
    ensures low { (g : Geometry) (m : PageMap) (spare : ℕ) (key : Key) (rule : Rule) → Breaks (sizes_of g spare) (has m) key rule → key.chunk < 2 ^ 32 }
    ensures first { FirstBrokenAlike }
{}

/// The sizes of a device with a volume's spare blocks are those that a volume can have.
pub fn a_volume_has_sizes()
    ensures { (g : Geometry) (m : PageMap) (spare : ℕ) → IsVolume g (has m) spare → IsSizes (sizes_of g spare) }
{}

/// Where all objects were gone through, and no directory is named twice, the map and the flash show one tree. The flash
/// is that of a volume where the map is.
pub fn a_whole_list_shows_a_tree()
    ensures volume { VolumesAreAlike }
    ensures tree { WholeListsShow }
{
    a_flash_has_an_answer();
}

/// The pages that are looked up to see the tree of a volume, without any others, hold the objects of the tree. These hang
/// together, and settle to themselves.
pub fn the_footprint_holds_the_tree()
    ensures holds { FootprintsHold }
    ensures forest { (z : Sizes) (m : PageMap) (objects : Objects) → Shows z (has m) objects → IsForest z objects }
    ensures settled { (z : Sizes) (m : PageMap) (objects : Objects) → Shows z (has m) objects → settled objects ≡ objects }
{}

/// Where an index keeps the pages of a tree that is shown, and no others, the flash's answer is the tree, if it fits and
/// blocks enough are bad or without a committed page; else something is amiss. More bad blocks than spare ones are no fault.
pub fn a_shown_tree_has_room_or_not()
    ensures full { FullTreesAreAnswered }
    ensures scarce { ScarceTreesAreAnswered }
    ensures room { RoomyTreesAreAnswered }
{
    blocks_without_committed_pages_are_free();
    the_counts_are_of_the_keys();
}

/// Where all objects were gone through, the keys that are looked up to see the objects of the list are those that are
/// looked up to see the tree that is shown; a test that keeps the one keeps the other.
pub fn the_tree_looks_up_its_footprint()
    ensures keys { TreesLookUpFootprints }
    ensures test { TestsKeepFootprints }
{}

/// Where a test keeps exactly the keys that are looked up to see a tree, what it leaves of a map are the tree's pages, and
/// what it leaves of the newest pages of all keys, or of an index that keeps these, are the tree's, and no others.
pub fn what_the_tree_looks_up_is_committed()
    ensures part { PartsAreFootprints }
    ensures committed { PlacesAreOfTheTree }
    ensures index { IndexesAreOfTheTree }
{}
