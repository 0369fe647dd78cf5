// What follows for the objects that a tree shows. A function here does nothing: its clause is the law.
ghost use Rattle.tree_walk.specs.TreeLaws.{IndexesCoverObjects, TreePagesAreLookedUp};

/// An index that has the hashes of a tree's names has those of the objects that are shown.
pub fn the_names_of_a_tree_are_those_of_its_objects()
    ensures { IndexesCoverObjects }
{}

/// The pages that the headers and the slots of a tree take are those that are looked up to see the objects that are shown.
pub fn the_pages_of_a_tree_are_those_of_its_objects()
    ensures { TreePagesAreLookedUp }
{}
