// The objects of a tree, one after the other, without their names.
ghost use Rattle.std.specs.Prelude.{◌≡◌, Some, OnOk};
ghost use Rattle.std.specs.FinMap as map;
ghost use Rattle.posix_profile.specs.State.{Objects};
ghost use Rattle.object_store.specs.Built.{sizes_built, Builds};
ghost use Rattle.tree_walk.specs.Building.{kind_as, BuildsNameless, InsertsObject, OfShown};

use crate::tree::Tree;
use object_store::TableBuilder;
use page_tags::ObjectKind;
use posix_profile::Kind;
use std::alloc::AllocError;

/// The objects of a tree come, without their names.
pub(crate) fn insert_objects(tree: &Tree, builder: &mut TableBuilder) -> Result<(), AllocError>
    ensures size { sizes_built builder.new ≡ sizes_built builder.old }
    ensures builds { OfShown (sizes_built builder.old) tree.now (λ objects. Builds builder.old map.empty → OnOk result (BuildsNameless builder.new objects)) }
{
    make_room(tree, builder)?;
    let objects = tree.objects();
    for place in 0..objects.len() {
        insert_object(tree, objects[place], builder)?;
    }
    Ok(())
}

/// Makes room for every other object of a tree. The table's map splits a full node in halves, which stay half full where
/// the objects come in order; here those between fill them.
fn make_room(tree: &Tree, builder: &mut TableBuilder) -> Result<(), AllocError>
    ensures size { sizes_built builder.new ≡ sizes_built builder.old }
    ensures same { (objects : Objects) → Builds builder.old objects → Builds builder.new objects }
{
    let objects = tree.objects();
    for place in (0..objects.len()).step_by(2) {
        builder.make_room(objects[place])?;
    }
    Ok(())
}

/// An object comes as its header says, without its names.
fn insert_object(tree: &Tree, object: u64, builder: &mut TableBuilder) -> Result<(), AllocError>
    ensures size { sizes_built builder.new ≡ sizes_built builder.old }
    ensures inserts { InsertsObject tree.now object builder.old builder.new result }
{
    match tree.head(object) {
        Some(head) => builder.insert(object, kind_of(head.kind), head.moment, head.length),
        None => Ok(()),
    }
}

/// The kind that a header says.
fn kind_of(kind: ObjectKind) -> Kind
    ensures { result ≡ kind_as kind }
{
    match kind {
        ObjectKind::File => Kind::File,
        ObjectKind::Directory => Kind::Directory,
    }
}
