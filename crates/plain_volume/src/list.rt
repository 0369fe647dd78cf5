// A tree as it was read.
ghost use Rattle.std.specs.Prelude.{IfOk};
ghost use Rattle.plain_volume.specs.Lists.{Lists};
ghost use Rattle.plain_volume.specs.Reading.{Reports};

use crate::fault::TreeFault;
use crate::reading::{TreeEntry, read_tree};
use posix_profile::Answers;
use std::alloc::Global;

/// The names of a tree, each directory before what it names, and of each what it leads to.
#[derive(Drop)]
pub struct TreeList {
    pub entries: Vec<TreeEntry>,
}

impl TreeList {
    /// Reads the tree of a volume by its commands. The volume needs a descriptor that is free.
    pub fn read<V: Answers>(alloc: Global, volume: &mut V) -> Result<TreeList, TreeFault>
        ensures { IfOk result (λ list. Reports V.shows volume.old volume.new (Lists list)) }
    {
        let entries = read_tree(alloc, volume)?;
        Ok(TreeList { entries })
    }
}
