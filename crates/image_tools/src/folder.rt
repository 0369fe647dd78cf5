// A tree of files in memory.

use posix_profile::Bytes;

/// What a path leads to.
#[derive(Drop, Debug)]
pub enum Node {
    /// A file, with its bytes.
    File(Vec<u8>),
    /// A directory, with its names in the order of their bytes.
    Directory(Vec<Bytes>),
    /// A further name, a hard link, of the file of an earlier entry, with the path of that entry.
    Link(Vec<u8>),
}

/// A path in the volume, the moment of its object's last change, and what it leads to.
#[derive(Drop, Debug)]
pub struct FolderEntry {
    pub path: Vec<u8>,
    pub moment: u64,
    pub node: Node,
}

/// A tree of files: the root first, each directory before what it names, and the names of one directory in the order of their
/// bytes. Directories come in the order in which they are named.
#[derive(Drop, Debug)]
pub struct Folder {
    pub entries: Vec<FolderEntry>,
}
