// What keeps a flash true: why the next mount may go by a checkpoint. A function here does nothing: its clause is the law.
ghost use Rattle.std.specs.Prelude.{◌≡◌, ℕ, None, Some};
ghost use Rattle.nand_model.specs.Flash.{Flash};
ghost use Rattle.nand_model.specs.Calls.{Device};
ghost use Rattle.nand_model.specs.Changes.{Shrinks};
ghost use Rattle.nand_model.specs.declared.geometry.Geometry.{Geometry};
ghost use Rattle.flash_tree.specs.Groups.{Group};
ghost use Rattle.flash_tree.specs.Checkpoints.{Checkpoint, IsWhole, IsTrueFlash, IsChecked, HasNothing, AddsOrdinary, AddsCheckpoint};
ghost use Rattle.flash_tree.specs.Fading.{Fades, MarksHonest};

/// A true flash has one whole checkpoint at most.
pub fn a_true_flash_has_one_checkpoint()
    ensures { (g : Geometry) (f : Flash) (c d : Checkpoint) → IsTrueFlash g f → IsWhole g f c → IsWhole g f d → c ≡ d }
{}

/// An erase of a block fades it, however it ends, and so does a mark of an honest device.
pub fn an_erase_and_a_mark_fade_a_block()
    ensures erase { (b : ℕ) (old new : Flash) → Shrinks b old new → Fades b old new }
    ensures mark { (b : ℕ) (old new : Device) → MarksHonest b old new → Fades b old.flash new.flash }
{}

/// Where a block fades, a flash stays true: where it is the block of the checkpoint, and where there is no checkpoint. Once
/// nothing is written in the checkpoint's block, or it is bad, there is none.
pub fn a_block_that_fades_leaves_a_flash_true()
    ensures there { (g : Geometry) (b : ℕ) (old new : Flash) → Fades b old new → IsChecked g old (Some b) → IsChecked g new (Some b) }
    ensures none { (g : Geometry) (b : ℕ) (old new : Flash) → Fades b old new → IsChecked g old None → IsChecked g new None }
    ensures gone { (g : Geometry) (b : ℕ) (old new : Flash) → Fades b old new → HasNothing new b → IsChecked g old (Some b) → IsChecked g new None }
{}

/// Where there is no checkpoint, groups of the objects of a tree bring none.
pub fn groups_of_objects_bring_no_checkpoint()
    ensures { (g : Geometry) (old new : Flash) → AddsOrdinary old new → IsChecked g old None → IsChecked g new None }
{}

/// Where there is no checkpoint, the group of one that lists the tree leaves a true flash, of which it is the only one.
pub fn the_group_of_a_checkpoint_leaves_a_flash_true()
    ensures { (g : Geometry) (old new : Flash) (c : Checkpoint) → AddsCheckpoint g old new c → IsChecked g old None → IsChecked g new (Some c.block) }
{}
