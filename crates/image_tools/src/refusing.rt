// What a volume cannot have of a folder.
ghost use Rattle.std.specs.Prelude.{◌≡◌, [], ◌↔◌, IfOk, OnOk, All, IsTrue, None};
ghost use Rattle.volume_terms.specs.Names.{IsName};
ghost use Rattle.image_tools.specs.Folders.{entry_of, held_of};
ghost use Rattle.image_tools.specs.Refusing.{CanHave, CanHold};

use crate::folder::{Folder, FolderEntry, Node};
use posix_profile::Bytes;
use std::alloc::{AllocError, Global};
use volume_terms::{PATH_LIMIT, is_name};

/// Why a volume cannot have an entry.
#[derive(Clone, Copy, Debug, PartialEq, Eq)]
pub enum RefusalCause {
    /// A path of more than 4,095 bytes.
    LongPath,
    /// A name of more than 255 bytes, of none, `.` or `..`, or with a slash or a zero byte, in the directory.
    BadName,
    /// A file of more bytes than the volume's pages can list.
    LongFile,
}

/// An entry that a volume cannot have, by its path.
#[derive(Drop, Debug)]
pub struct Refusal {
    pub path: Vec<u8>,
    pub cause: RefusalCause,
}

/// Whether all are names that a directory can have.
fn are_names(names: &[Bytes]) -> bool
    ensures { IsTrue result ↔ All IsName names.now }
{
    names.iter().all(|name| is_name(name.as_slice()))
}

/// Why a volume with files of at most `greatest` bytes cannot have what the node holds.
fn node_cause(node: &Node, greatest: u64) -> Option<RefusalCause>
    ensures { (result ≡ None) ↔ CanHold greatest (held_of node.now) }
{
    match node {
        Node::File(bytes) => {
            if bytes.len() as u64 > greatest {
                Some(RefusalCause::LongFile)
            } else {
                None
            }
        }
        Node::Directory(names) => {
            if are_names(names) {
                None
            } else {
                Some(RefusalCause::BadName)
            }
        }
        Node::Link(_) => None,
    }
}

/// Why a volume with files of at most `greatest` bytes cannot have the entry.
fn entry_cause(entry: &FolderEntry, greatest: u64) -> Option<RefusalCause>
    ensures { (result ≡ None) ↔ CanHave greatest (entry_of entry.now) }
{
    if entry.path.len() > PATH_LIMIT {
        return Some(RefusalCause::LongPath);
    }
    node_cause(&entry.node, greatest)
}

/// Those of the entries that a volume with files of at most `greatest` bytes cannot have.
fn refused_among(
    alloc: Global,
    entries: &[FolderEntry],
    greatest: u64,
) -> Result<Vec<Refusal>, AllocError>
    ensures { IfOk result (λ refused. (refused.items ≡ []) ↔ All (λ entry. CanHave greatest (entry_of entry)) entries.now) }
{
    let mut refused = Vec::new(alloc);
    for entry in entries {
        match entry_cause(entry, greatest) {
            Some(cause) => {
                let path = entry.path.as_slice().to_vec(alloc)?;
                refused.push(Refusal { path, cause })?;
            }
            None => {}
        }
    }
    Ok(refused)
}

/// The entries that a volume with files of at most `greatest` bytes cannot have, each with a cause: none exactly where it can have
/// them all.
pub fn refusals(alloc: Global, folder: &Folder, greatest: u64) -> Result<Vec<Refusal>, AllocError>
    ensures { IfOk result (λ refused. (refused.items ≡ []) ↔ All (λ entry. CanHave greatest (entry_of entry)) folder.now.entries.items) }
{
    refused_among(alloc, &folder.entries, greatest)
}
