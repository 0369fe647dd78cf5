// A change of the facts of one object.
use posix_profile::Kind;

/// A change of the facts of one object.
#[derive(Clone, Copy)]
pub(crate) enum Edit {
    /// A directory gets an entry, which leads to an object of this kind.
    EntryAdded { child: Kind, moment: u64 },
    /// A directory loses an entry, which led to an object of this kind.
    EntryRemoved { child: Kind, moment: u64 },
    /// An object gets a name in a directory.
    NameAdded { directory: u64 },
    /// An object loses a name.
    NameRemoved,
    /// An object has another size.
    Resized { size: u64, moment: u64 },
    /// An object has at least this size.
    Lengthened { size: u64, moment: u64 },
}
