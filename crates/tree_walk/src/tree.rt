// What is known of a tree that was gone through.
ghost use Rattle.std.specs.Prelude.{◌≡◌, ◌<◌, ◌≤◌, ◌↔◌, ℕ, true, IsTrue, option_copied};
ghost use Rattle.pages.specs.Maps.{has};

use crate::head::Head;
use flash_tree::Key;
use std::collections::BTreeMap;

/// A directory, and an object that one of its slots names.
#[derive(Clone, Copy, Debug, PartialEq, Eq)]
pub struct NamedObject {
    pub directory: u64,
    pub object: u64,
}

/// The objects of a tree in the order in which they were gone through, the root first, what their headers say, and which
/// objects their slots name.
#[derive(Drop)]
pub struct Tree {
    pub(crate) page_bytes: u32,
    pub(crate) objects: Vec<u64>,
    pub(crate) heads: BTreeMap<u64, Head>,
    pub(crate) names: Vec<NamedObject>,
    ghost least: { 512 ≤ page_bytes },
    ghost most: { page_bytes ≤ 4096 },
}

impl Tree {
    ghost use Rattle.tree_walk.specs.Trees.{OfHeads, IsLookedUp, head_at, keeps_key, names_of, objects_listed};

    /// The numbers of the objects.
    pub fn objects(&self) -> &[u64]
        ensures { result.now ≡ objects_listed self.now }
    {
        &self.objects
    }

    /// What the header of an object says.
    pub fn head(&self, object: u64) -> Option<&Head>
        ensures { option_copied result ≡ head_at self.now object }
    {
        self.heads.get(&object)
    }

    /// What the slots of each directory name, directory by directory in the order of the objects, and slot by slot.
    pub fn names(&self) -> &[NamedObject]
        ensures { result.now ≡ names_of self.now }
    {
        &self.names
    }

    /// Whether the page of a key is looked up to see the tree: a header, a chunk of a file that is present, or a page of
    /// slots.
    pub fn looks_up(&self, key: Key) -> bool
        ensures reported { result ≡ keeps_key self.now key.object key.chunk }
        ensures keys { OfHeads self.now (λ z m. IsTrue result ↔ IsLookedUp z (has m) (objects_listed self.now) key.object key.chunk) }
    {
        match self.heads.get(&key.object) {
            Some(head) => head.looks_up(self.page_bytes, key.chunk),
            None => false,
        }
    }

    /// Whether the pages of all chunks of an object below one are looked up.
    pub fn looks_up_below(&self, object: u64, end: u64) -> bool
        ensures { IsTrue result → (c : ℕ) → c < end → keeps_key self.now object c ≡ true }
    {
        match self.heads.get(&object) {
            Some(head) => head.looks_up_below(self.page_bytes, end),
            None => false,
        }
    }
}
