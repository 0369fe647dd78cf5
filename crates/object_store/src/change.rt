// A change of objects.
use posix_profile::Kind;

/// A name in a directory.
#[derive(Clone, Copy)]
pub struct DirectoryEntry<'a> {
    pub directory: u64,
    pub name: &'a [u8],
}

/// A change of objects, which is made whole or not at all. The moment becomes that of each object that changes.
#[derive(Clone, Copy)]
pub enum ObjectChange<'a> {
    /// A new object without content, under the least number that is free, and its name.
    Create {
        entry: DirectoryEntry<'a>,
        kind: Kind,
        moment: u64,
    },
    /// A further name of a file.
    Name {
        entry: DirectoryEntry<'a>,
        number: u64,
        moment: u64,
    },
    /// A name goes from the object that it leads to, and `dropped` with it.
    Remove {
        entry: DirectoryEntry<'a>,
        removed: u64,
        dropped: Option<u64>,
        moment: u64,
    },
    /// The object gets the second name in place of the first, and of the object that had it, if one did; `dropped` goes.
    Move {
        from: DirectoryEntry<'a>,
        to: DirectoryEntry<'a>,
        number: u64,
        replaced: Option<u64>,
        dropped: Option<u64>,
        moment: u64,
    },
    /// Bytes of a file. A gap reads as zeros.
    Write {
        number: u64,
        offset: u64,
        bytes: &'a [u8],
        moment: u64,
    },
    /// A file is cut to the length, or grown to it with zeros.
    Resize {
        number: u64,
        length: u64,
        moment: u64,
    },
    /// An object that no name leads to goes.
    Forget {
        number: u64,
    },
}
