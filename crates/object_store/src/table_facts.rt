// What the table keeps of an object.
ghost use Rattle.std.specs.Prelude.{◌≡◌};

use posix_profile::{Info, Kind};

/// What is reported of an object without reading. `size` counts the bytes of a file, or the entries of a directory; a file has
/// as many links as names, a directory 2 and one for each directory in it; `parent` is the directory that names a directory.
#[derive(Clone, Copy, Debug, PartialEq, Eq)]
pub struct ObjectFacts {
    pub kind: Kind,
    pub moment: u64,
    pub links: u64,
    pub size: u64,
    pub parent: Option<u64>,
}

impl ObjectFacts {
    ghost use Rattle.object_store.specs.TableFacts.{fresh_facts, bare_facts, reported_info, resized_facts};

    /// An object without content and without a name.
    pub fn fresh(kind: Kind, moment: u64) -> ObjectFacts
        ensures { result ≡ fresh_facts kind moment }
    {
        ObjectFacts {
            kind,
            moment,
            links: match kind {
                Kind::File => 0,
                Kind::Directory => 2,
            },
            size: 0,
            parent: None,
        }
    }

    /// An object without a name, of so many bytes where it is a file, and else without entries.
    pub(crate) fn bare(kind: Kind, moment: u64, length: u64) -> ObjectFacts
        ensures { result ≡ bare_facts kind moment length }
    {
        match kind {
            Kind::File => ObjectFacts::fresh(kind, moment).with_size(length, moment),
            Kind::Directory => ObjectFacts::fresh(kind, moment),
        }
    }

    /// An object of another size.
    pub(crate) fn with_size(self, size: u64, moment: u64) -> ObjectFacts
        ensures { result ≡ resized_facts size moment self }
    {
        ObjectFacts {
            kind: self.kind,
            moment,
            links: self.links,
            size,
            parent: self.parent,
        }
    }

    pub(crate) fn info(&self, number: u64) -> Info
        ensures { result ≡ reported_info number self.now }
    {
        Info {
            kind: self.kind,
            object: number,
            links: self.links,
            size: match self.kind {
                Kind::File => self.size,
                Kind::Directory => 0,
            },
            moment: self.moment,
        }
    }
}
