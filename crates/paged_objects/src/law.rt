// What a mount finds of the objects. A function here does nothing: its clause is the law.
ghost use Rattle.std.specs.Prelude.{◌≡◌, ◌≤◌};
ghost use Rattle.paged_objects.specs.PageLaws.{ShownTreesAreOnTheFlash};

/// The tree that a mount would show is sound on the flash of an honest device, as long as numbers are left and no more
/// blocks are bad than are to spare.
pub fn a_shown_tree_is_on_the_flash()
    ensures { ShownTreesAreOnTheFlash }
{}
