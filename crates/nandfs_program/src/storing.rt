// A folder, written to the host.

use crate::fault::ToolFault;
use crate::host_files::{copy_out, set_moment};
use crate::progress::Meter;
use image_tools::{Folder, FolderEntry, Node, host_path};
use std::alloc::{AllocError, Global};
use std::fs;
use std::rt::Files;

/// Where an entry was written on the host.
#[derive(Drop)]
pub struct Stored {
    pub host: String,
    /// Whether the host has another name than the volume.
    pub renamed: bool,
}

/// A folder that is new, or has no files.
fn make_empty<R: Files + AllocGlobal + Clone + Drop>(
    rt: &R,
    folder: &str,
) -> Result<(), ToolFault> {
    if !fs::exists(rt, folder)? {
        fs::create_dir(rt, folder)?;
        return Ok(());
    }
    let mut names = fs::read_dir(rt, folder)?;
    match names.next() {
        None => Ok(()),
        Some(_) => Err(ToolFault::NotEmpty),
    }
}

/// Where an entry goes.
fn place_of(alloc: Global, folder: &str, entry: &FolderEntry) -> Result<Stored, AllocError> {
    let host = host_path(alloc, folder, &entry.path)?;
    let renamed = !host.as_bytes().ends_with(&entry.path)
        && entry.path.as_slice() != b"/".as_slice();
    Ok(Stored { host, renamed })
}

/// Writes an entry. The moment of a directory is given it last.
fn store_entry<R: Files + AllocGlobal>(
    rt: &R,
    folder: &str,
    entry: &FolderEntry,
    host: &str,
) -> Result<(), ToolFault> {
    match &entry.node {
        Node::File(bytes) => copy_out(rt, host, bytes, entry.moment),
        Node::Directory(_) => {
            fs::create_dir(rt, host)?;
            Ok(())
        }
        Node::Link(first) => {
            let first = host_path(rt.alloc(), folder, first)?;
            fs::hard_link(rt, first.as_str(), host)?;
            Ok(())
        }
    }
}

/// The bytes that an entry has of its own.
fn bytes_of(entry: &FolderEntry) -> usize {
    match &entry.node {
        Node::File(bytes) => bytes.len(),
        Node::Directory(_) | Node::Link(_) => 0,
    }
}

/// Writes an entry. Where that fails, its path is written to standard error.
fn store_or_report<R: Files + AllocGlobal + Eprint>(
    rt: &R,
    folder: &str,
    entry: &FolderEntry,
    host: &str,
    meter: &mut Meter,
) -> Result<(), ToolFault> {
    let stored = store_entry(rt, folder, entry, host);
    match stored {
        Ok(()) => meter.write(rt, bytes_of(entry)),
        Err(_) => {
            meter.end(rt);
            eprintln!(rt; "not written: {host}")?;
        }
    }
    stored
}

/// Gives the directories their moments, those below first.
fn set_moments<R: Files>(rt: &R, folder: &Folder, places: &[Stored]) -> Result<(), ToolFault> {
    for number in (0..places.len()).rev() {
        if let (Some(entry), Some(place)) = (folder.entries.get(number), places.get(number)) {
            if let Node::Directory(_) = &entry.node {
                set_moment(rt, place.host.as_str(), entry.moment)?;
            }
        }
    }
    Ok(())
}

/// Writes a folder into one of the host that is new or empty, and returns where its entries are, the root first. Where one cannot be
/// written, as its name is too long there, those before it stay.
pub fn store<R: Files + AllocGlobal + Eprint + Clone + Drop>(
    rt: &R,
    folder: &Folder,
    host: &str,
    meter: &mut Meter,
) -> Result<Vec<Stored>, ToolFault> {
    let alloc = rt.alloc();
    make_empty(rt, host)?;
    let mut places = Vec::new(alloc);
    for entry in &folder.entries {
        let place = place_of(alloc, host, entry)?;
        if !places.is_empty() {
            store_or_report(rt, host, entry, place.host.as_str(), meter)?;
        }
        places.push(place)?;
    }
    set_moments(rt, folder, &places)?;
    Ok(places)
}
