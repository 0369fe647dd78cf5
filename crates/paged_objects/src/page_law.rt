// Laws of pages that hold objects.
ghost use Rattle.std.specs.Prelude.{◌≤◌, ◌+◌, ◌∷◌, []};
ghost use Rattle.std.specs.FinMap as map;
ghost use Rattle.flash_tree.specs.Tree.{Shows};
ghost use Rattle.volume_terms.specs.Sizes.{Sizes};
ghost use Rattle.posix_profile.specs.State.{Objects};
ghost use Rattle.posix_profile.specs.WellFormed.{IsForest};
ghost use Rattle.object_store.specs.Stores.{settled};
ghost use Rattle.pages.specs.Maps.{PageMap, has};
ghost use Rattle.paged_objects.specs.Holding.{HoldsObjects};
ghost use Rattle.paged_objects.specs.PageLaws.{CutObjectsAreHeldNoMore, HeldObjectsAreAVolume, PagesAreCharged};

/// Pages that hold objects show those of them that names keep.
#[tactic(auto, using(crate::specs::laws::Settled::shows_settled))]
pub fn held_objects_are_shown()
    ensures { (z : Sizes) (m : PageMap) (objects : Objects) → HoldsObjects z m objects → IsForest z objects → Shows z (has m) (settled objects) }
{}

/// Pages that hold the objects of a volume are those of a volume with as many spare blocks.
#[tactic(auto, using(crate::specs::laws::Settled::holds_volume))]
pub fn held_objects_are_a_volume()
    ensures { HeldObjectsAreAVolume }
{}

/// Pages that hold objects hold them without the one that is cut whole.
#[tactic(auto, using(crate::specs::laws::Holding::cut_object))]
pub fn a_cut_object_is_held_no_more()
    ensures { CutObjectsAreHeldNoMore }
{}

/// Where pages are those of objects, there are no more of them than units that the objects cost.
pub fn each_page_is_charged()
    ensures { PagesAreCharged }
{}
