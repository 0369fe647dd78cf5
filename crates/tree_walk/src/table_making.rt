// The table of the objects of a tree.
ghost use Rattle.std.specs.Prelude.{◌≡◌, IfOk};
ghost use Rattle.volume_terms.specs.VolumeSizes as volume;
ghost use Rattle.object_store.specs.Reported.{table_sizes, Reports};
ghost use Rattle.tree_walk.specs.Building.{OfFitting};

use crate::tree::Tree;
use crate::tree_names::insert_names;
use crate::tree_objects::insert_objects;
use object_store::{ObjectTable, TableBuilder};
use std::alloc::{AllocError, Global};
use volume_terms::VolumeSizes;

/// The table of the objects of a tree.
pub fn table(alloc: Global, tree: &Tree, sizes: VolumeSizes) -> Result<ObjectTable, AllocError>
    ensures size { IfOk result (λ table. table_sizes table ≡ volume.sizes_of sizes) }
    ensures reports { OfFitting (volume.sizes_of sizes) tree.now (λ objects. IfOk result (λ table. Reports table objects)) }
{
    let mut builder = TableBuilder::new(alloc, sizes);
    insert_objects(tree, &mut builder)?;
    insert_names(tree, &mut builder);
    builder.finish(alloc)
}
