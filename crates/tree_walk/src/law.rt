// What follows for the keys of a tree. A function here does nothing: its clause is the law.
ghost use Rattle.tree_walk.specs.TreeLaws.{TreesLookUpTheirKeys};

/// The keys that a tree looks up, by what is reported of its headers, are those that are looked up to see its objects.
pub fn the_headers_report_the_keys()
    ensures { TreesLookUpTheirKeys }
{}
