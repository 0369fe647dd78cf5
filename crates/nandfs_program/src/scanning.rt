// A folder of the host, read.

use crate::asking::below;
use crate::fault::ToolFault;
use crate::host_files::moment_of;
use crate::progress::Meter;
use image_tools::{Folder, FolderEntry, Node};
use posix_calls::Bytes;
use std::alloc::{AllocError, Global};
use std::collections::{BTreeMap, VecDeque};
use std::fs::{self, DirEntry, Metadata};
use std::io::ErrorKind;
use std::os::unix::fs::MetadataExt;
use std::rt::Files;
use volume_terms::{NAME_LIMIT, PATH_LIMIT};

/// A folder of the host as it was read, without what no volume can have, of which these are the paths on the host.
#[derive(Drop)]
pub struct Scan {
    pub folder: Folder,
    pub others: Vec<String>,
}

/// A path of the host that waits to be read, and its path in the volume.
#[derive(Drop)]
struct Waiting {
    host: String,
    path: Vec<u8>,
}

/// The device and the number of a file of the host.
#[derive(Clone, Copy, PartialEq, Eq, PartialOrd, Ord)]
struct HostNumber {
    device: u64,
    number: u64,
}

/// What was found so far.
#[derive(Drop)]
struct Found {
    entries: Vec<FolderEntry>,
    others: Vec<String>,
    waiting: VecDeque<Waiting>,
    links: BTreeMap<HostNumber, Vec<u8>>,
    /// Most bytes of a file.
    greatest: u64,
    meter: Meter,
}

/// The path of a name in a folder of the host.
fn host_below(alloc: Global, folder: &str, name: &str) -> Result<String, AllocError> {
    let mut path = String::from_str(alloc, folder)?;
    if !folder.ends_with('/') {
        path.push('/')?;
    }
    path.push_str(name)?;
    Ok(path)
}

/// Whether a volume can have a file or a directory of this name.
fn can_have(metadata: &Metadata, directory: &[u8], name: &str, greatest: u64) -> bool {
    let fits = metadata.is_dir() || (metadata.is_file() && metadata.len() <= greatest);
    let length = directory.len().saturating_add(name.len());
    fits && name.len() <= NAME_LIMIT && length < PATH_LIMIT
}

/// The name of an entry that a volume can have; another one is noted.
fn committed_name<R: Files + Clone + Drop>(
    alloc: Global,
    found: &mut Found,
    from: &Waiting,
    entry: &DirEntry<R, Global>,
) -> Result<Option<Vec<u8>>, ToolFault> {
    let name = entry.file_name();
    let metadata = entry.metadata()?;
    if can_have(&metadata, &from.path, name, found.greatest) {
        return Ok(Some(name.as_bytes().to_vec(alloc)?));
    }
    let path = host_below(alloc, from.host.as_str(), name)?;
    found.others.push(path)?;
    Ok(None)
}

/// The names in a folder that a volume can have, in the order of their bytes.
fn names_in<R: Files + AllocGlobal + Clone + Drop>(
    rt: &R,
    found: &mut Found,
    from: &Waiting,
) -> Result<Vec<Vec<u8>>, ToolFault> {
    let alloc = rt.alloc();
    let mut names = Vec::new(alloc);
    for entry in fs::read_dir(rt, from.host.as_str())? {
        match entry {
            Ok(entry) => {
                if let Some(name) = committed_name(alloc, found, from, &entry)? {
                    names.push(name)?;
                }
            }
            Err(error) => {
                if error.kind() != ErrorKind::InvalidFilename {
                    return Err(ToolFault::Host);
                }
                let path = host_below(alloc, from.host.as_str(), "(a name that is no UTF-8)")?;
                found.others.push(path)?;
            }
        }
    }
    names.sort()?;
    Ok(names)
}

/// Adds names of a folder to what waits, and returns them as a directory has them.
fn wait_for(
    alloc: Global,
    found: &mut Found,
    from: &Waiting,
    names: &[Vec<u8>],
) -> Result<Vec<Bytes>, ToolFault> {
    let mut all = Vec::new(alloc);
    for name in names {
        let path = below(alloc, &from.path, name)?;
        let text = String::from_utf8_lossy(alloc, name)?;
        let host = host_below(alloc, from.host.as_str(), text.as_str())?;
        found.waiting.push_back(Waiting { host, path })?;
        all.push(Bytes::new(name.as_slice().to_vec(alloc)?))?;
    }
    Ok(all)
}

/// The file at a path of the host: a further name of one that was found, or its bytes.
fn file_node<R: Files + AllocGlobal + Eprint>(
    rt: &R,
    found: &mut Found,
    from: &Waiting,
    metadata: &Metadata,
) -> Result<Node, ToolFault> {
    let alloc = rt.alloc();
    let key = HostNumber {
        device: metadata.dev(),
        number: metadata.ino(),
    };
    if metadata.nlink() > 1 {
        if let Some(first) = found.links.get(&key) {
            return Ok(Node::Link(first.as_slice().to_vec(alloc)?));
        }
        found
            .links
            .insert(key, from.path.as_slice().to_vec(alloc)?)?;
    }
    let bytes = fs::read(rt, from.host.as_str())?;
    found.meter.read(rt, bytes.len());
    Ok(Node::File(bytes))
}

/// What is at a path of the host, at its moment.
fn node_at<R: Files + AllocGlobal + Eprint + Clone + Drop>(
    rt: &R,
    found: &mut Found,
    from: &Waiting,
) -> Result<(u64, Node), ToolFault> {
    let metadata = fs::metadata(rt, from.host.as_str())?;
    let node = if metadata.is_dir() {
        let names = names_in(rt, found, from)?;
        Node::Directory(wait_for(rt.alloc(), found, from, &names)?)
    } else {
        file_node(rt, found, from, &metadata)?
    };
    Ok((moment_of(&metadata), node))
}

/// Reads what waits. Where that fails, its path is written to standard error.
fn read_entry<R: Files + AllocGlobal + Eprint + Clone + Drop>(
    rt: &R,
    found: &mut Found,
    from: Waiting,
) -> Result<(), ToolFault> {
    match node_at(rt, found, &from) {
        Ok((moment, node)) => {
            let path = from.path;
            found.entries.push(FolderEntry { path, moment, node })?;
            Ok(())
        }
        Err(fault) => {
            let host = from.host.as_str();
            found.meter.end(rt);
            eprintln!(rt; "not read: {host}")?;
            Err(fault)
        }
    }
}

/// Reads a folder of the host with all files and directories in it, for a volume with files of at most `greatest` bytes. What no
/// volume can have, as symbolic links, devices and files that are too long, is left out and listed. Files of one device and number
/// are names of one file.
pub fn scan_folder<R: Files + AllocGlobal + Eprint + Clone + Drop>(
    rt: &R,
    folder: &str,
    greatest: u64,
    meter: &mut Meter,
) -> Result<Scan, ToolFault> {
    let alloc = rt.alloc();
    let mut found = Found {
        entries: Vec::new(alloc),
        others: Vec::new(alloc),
        waiting: VecDeque::new(alloc),
        links: BTreeMap::new(alloc),
        greatest,
        meter: *meter,
    };
    let host = String::from_str(alloc, folder)?;
    let path = b"/".to_vec(alloc)?;
    found.waiting.push_back(Waiting { host, path })?;
    for _round in 0..u64::MAX {
        let Some(from) = found.waiting.pop_front() else {
            break;
        };
        read_entry(rt, &mut found, from)?;
    }
    *meter = found.meter;
    Ok(Scan {
        folder: Folder {
            entries: found.entries,
        },
        others: found.others,
    })
}
