// What is wrong with a tree, and where.

use crate::verdict::Verdict;
use tree_walk::Broken;

/// A rule of a tree that is broken, and the path of the object that breaks it.
#[derive(Drop)]
pub struct Finding {
    pub broken: Broken,
    /// The names of the directories that lead to the object, with `?` for one that was not found again. The root's is `/`.
    pub path: Vec<u8>,
}

/// The place of a page.
#[derive(Clone, Copy, Debug, PartialEq, Eq)]
pub struct Place {
    pub block: u32,
    pub page: u32,
}

/// What a check of a volume found.
#[derive(Drop)]
pub struct Diagnosis {
    pub verdict: Verdict,
    /// The first rule that is broken, where the tree is not whole.
    pub finding: Option<Finding>,
    /// Where the newest page of the chunk that breaks it lies, where it has one.
    pub place: Option<Place>,
}
