// The names of a tree, one after the other.
ghost use Rattle.std.specs.Prelude.{◌≡◌, Some};
ghost use Rattle.object_store.specs.Built.{sizes_built, Builds};
ghost use Rattle.tree_walk.specs.Building.{BuildsNameless, InsertsName, OfShown};

use crate::tree::{NamedObject, Tree};
use object_store::TableBuilder;

/// The objects of a tree, which came without names, get them.
pub(crate) fn insert_names(tree: &Tree, builder: &mut TableBuilder)
    ensures size { sizes_built builder.new ≡ sizes_built builder.old }
    ensures builds { OfShown (sizes_built builder.old) tree.now (λ objects. BuildsNameless builder.old objects → Builds builder.new objects) }
{
    let names = tree.names();
    for place in 0..names.len() {
        insert_name(tree, names[place], builder);
    }
}

/// A directory whose header is reported names an object.
fn insert_name(tree: &Tree, name: NamedObject, builder: &mut TableBuilder)
    ensures size { sizes_built builder.new ≡ sizes_built builder.old }
    ensures names { InsertsName tree.now name builder.old builder.new }
{
    if let Some(head) = tree.head(name.directory) {
        builder.name(name.directory, name.object, head.moment);
    }
}
