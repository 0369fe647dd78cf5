// The keys of a tree.
ghost use Rattle.tree_walk.specs.Trees.{keeps_key};

use chunk_index::KeyFilter;
use flash_tree::Key;
use tree_walk::Tree;

/// Keeps the keys that a tree looks up.
#[derive(Drop)]
pub(crate) struct TreeKeys<'a> {
    pub(crate) tree: &'a Tree,
}

impl KeyFilter for TreeKeys<'_> {
    ghost keeps = { λ filter o c. keeps_key filter.tree.now o c };

    fn keeps(&self, key: Key) -> bool {
        self.tree.looks_up(key)
    }

    fn keeps_all_below(&self, object: u64, end: u64) -> bool {
        self.tree.looks_up_below(object, end)
    }
}
