// Two trees, compared.
ghost use Rattle.std.specs.Prelude.{◌≡◌, ◌↔◌, IsTrue, map as list_map};
ghost use Rattle.image_tools.specs.Folders.{entry_of, held_of};

use crate::folder::{FolderEntry, Node};
use posix_profile::Bytes;

/// Whether these are the same names.
fn same_names(names: &[Bytes], others: &[Bytes]) -> bool
    ensures { IsTrue result ↔ (names.now ≡ others.now) }
{
    if names.len() != others.len() {
        return false;
    }
    for place in 0..names.len() {
        if names[place].as_slice() != others[place].as_slice() {
            return false;
        }
    }
    true
}

/// Whether both hold the same.
fn same_node(node: &Node, other: &Node) -> bool
    ensures { IsTrue result ↔ (held_of node.now ≡ held_of other.now) }
{
    match (node, other) {
        (Node::File(bytes), Node::File(others)) => bytes.as_slice() == others.as_slice(),
        (Node::Directory(names), Node::Directory(others)) => same_names(names, others),
        (Node::Link(path), Node::Link(other)) => path.as_slice() == other.as_slice(),
        _ => false,
    }
}

/// Whether both are the same path with the same moment, and lead to the same.
fn same_entry(entry: &FolderEntry, other: &FolderEntry) -> bool
    ensures { IsTrue result ↔ (entry_of entry.now ≡ entry_of other.now) }
{
    entry.path.as_slice() == other.path.as_slice()
        && entry.moment == other.moment
        && same_node(&entry.node, &other.node)
}

/// Whether both are the same tree.
pub(crate) fn same_entries(entries: &[FolderEntry], others: &[FolderEntry]) -> bool
    ensures { IsTrue result ↔ (list_map entry_of entries.now ≡ list_map entry_of others.now) }
{
    if entries.len() != others.len() {
        return false;
    }
    for place in 0..entries.len() {
        if !same_entry(&entries[place], &others[place]) {
            return false;
        }
    }
    true
}
