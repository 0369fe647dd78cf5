// The names of objects after a change, in an index.
ghost use Rattle.std.specs.Prelude.{◌≡◌, OnOk};
ghost use Rattle.pages.specs.Changes.{AreSized};
ghost use Rattle.directories.specs.Hashing.{HoldsMore};
ghost use Rattle.paged_objects.specs.Naming.{HasNames};
ghost use Rattle.paged_objects.specs.Making.{OfHashed};

use directories::{KeptSlots, hash_change};
use name_index::NameIndex;
use pages::{Change, Pages};
use std::alloc::AllocError;

/// Adds the hashes of the names that a change writes, but for those in slots that are kept, before it is made: the index has
/// the names of the objects that the pages hold then. None is dropped.
pub fn hash_names<P: Pages>(
    names: &mut NameIndex,
    pages: &P,
    change: &Change,
    kept: Option<KeptSlots>,
) -> Result<(), AllocError>
    requires { AreSized change.now.pages.items (P.state pages.now).page_bytes }
    ensures committed { HoldsMore names.old names.new }
    ensures hashes { OfHashed names.old (P.state pages.now) change.now kept (λ z m new. OnOk result (HasNames names.new z m new)) }
{
    hash_change(names, pages.page_bytes(), change, kept)
}
