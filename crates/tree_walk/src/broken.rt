// Which rule of a tree is broken, and where.
ghost use Rattle.std.specs.Prelude.{◌≡◌, IfSome, IfNone};
ghost use Rattle.flash_tree.specs.Mount.{IsNewer, IsDamaged};
ghost use Rattle.tree_walk.specs.Broken.{wrong_of};

use flash_tree::Key;
use page_tags::HeaderFault;

/// A rule of a tree that is broken.
#[derive(Clone, Copy, Debug, PartialEq, Eq)]
pub enum Rule {
    /// An object has a header: it has none.
    HeaderMissing,
    /// The page of chunk 0 is a header: this is wrong with it.
    NoHeader(HeaderFault),
    /// The root is a directory: it is a file.
    RootIsFile,
    /// The root's spare blocks leave four more: there are so many spare blocks.
    TooManySpare(u16),
    /// A chunk that a presence bit or a directory's length names has a page: it has none.
    ChunkMissing,
    /// The bytes of a slot are one: those of the slot of this number in the page are none.
    NoSlot(u64),
    /// A directory has a name once: the slot of this number in the page has a name that an earlier slot has.
    NameTwice(u64),
    /// A directory is named once: it is named again.
    DirectoryTwice,
}

impl Rule {
    /// The format that a header is of, where that is newer than the one that is read here.
    pub fn newer(self) -> Option<u8>
        ensures newer { IfSome result (λ format. wrong_of self ≡ IsNewer format) }
        ensures none { IfNone result (wrong_of self ≡ IsDamaged) }
    {
        match self {
            Rule::NoHeader(HeaderFault::Newer(format)) => Some(format),
            _ => None,
        }
    }
}

/// A rule that is broken, and the object and chunk that break it.
#[derive(Clone, Copy, Debug, PartialEq, Eq)]
pub struct Broken {
    pub rule: Rule,
    pub key: Key,
}
