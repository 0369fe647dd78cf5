// A device whose tree is read.
ghost use Rattle.std.specs.Prelude.{◌≡◌, IfOk, IfErr};

use block_state::Blocks;
use chunk_index::Index;
use flash_tree::TagNumbers;
use name_index::NameIndex;
use nand_model::Nand;
use std::alloc::Global;
use tree_walk::Tree;
use volume_terms::VolumeSizes;

/// A device whose tree was gone through: the tables of the tree's pages, the greatest numbers, how many blocks are to spare,
/// and the tree.
#[derive(Drop)]
pub(crate) struct TreeOn<N: Nand> {
    pub(crate) device: N,
    pub(crate) blocks: Blocks,
    pub(crate) index: Index,
    pub(crate) numbers: TagNumbers,
    pub(crate) spare: u16,
    pub(crate) tree: Tree,
}

/// A device whose tree was gone through, and the hashes of the tree's names.
#[derive(Drop)]
pub(crate) struct NamedTree<N: Nand> {
    pub(crate) on: TreeOn<N>,
    pub(crate) names: NameIndex,
}

impl<N: Nand> NamedTree<N> {
    /// Moves it to the heap, from where a mount hands it on in a few bytes. Where memory is refused the device is given back.
    pub(crate) fn boxed(self, alloc: Global) -> Result<Box<NamedTree<N>>, N>
        ensures same { IfOk result (λ boxed. boxed.value ≡ self) }
        ensures back { IfErr result (λ device. device ≡ self.on.device) }
    {
        match Box::new(alloc, self) {
            Ok(boxed) => Ok(boxed),
            Err(refused) => Err(refused.value.on.device),
        }
    }
}

/// A tree with which a volume can go on, and the sizes of the volume.
#[derive(Drop)]
pub(crate) struct Going<N: Nand> {
    pub(crate) named: Box<NamedTree<N>>,
    pub(crate) sizes: VolumeSizes,
}
