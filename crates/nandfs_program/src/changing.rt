// Changes of a volume.

use crate::asking::{below, change, path_of};
use crate::fault::ToolFault;
use crate::host_files::HostFile;
use image_tools::make_file;
use plain_volume::{TreeFault, info_at, names_at};
use posix_calls::{Command, Errno, Kind};
use posix_profile::Answers;
use std::alloc::Global;

/// What is added to a path for the file that is written beside it.
const BESIDE: &[u8] = b".nandfs-new";

/// Makes a directory.
pub fn make_directory<V: Answers>(
    alloc: Global,
    volume: &mut V,
    moment: u64,
    path: &[u8],
) -> Result<(), ToolFault> {
    let path = path_of(alloc, path)?;
    change(volume, moment, Command::Mkdir { path })?;
    change(volume, moment, Command::Sync)
}

/// Gives a path another name, and replaces a file that has it.
pub fn move_to<V: Answers>(
    alloc: Global,
    volume: &mut V,
    moment: u64,
    old: &[u8],
    new: &[u8],
) -> Result<(), ToolFault> {
    let old = path_of(alloc, old)?;
    let new = path_of(alloc, new)?;
    change(volume, moment, Command::Rename { old, new })?;
    change(volume, moment, Command::Sync)
}

/// Gives a file a further name.
pub fn link<V: Answers>(
    alloc: Global,
    volume: &mut V,
    moment: u64,
    old: &[u8],
    new: &[u8],
) -> Result<(), ToolFault> {
    let old = path_of(alloc, old)?;
    let new = path_of(alloc, new)?;
    change(volume, moment, Command::Link { old, new })?;
    change(volume, moment, Command::Sync)
}

/// Removes a file, or a directory without names.
fn remove_one<V: Answers>(
    alloc: Global,
    volume: &mut V,
    moment: u64,
    path: &[u8],
    kind: Kind,
) -> Result<(), ToolFault> {
    let path = path_of(alloc, path)?;
    match kind {
        Kind::File => change(volume, moment, Command::Unlink { path }),
        Kind::Directory => change(volume, moment, Command::Rmdir { path }),
    }
}

/// A path with the kind of what it leads to.
#[derive(Drop)]
struct Found {
    path: Vec<u8>,
    kind: Kind,
}

/// What a path leads to.
fn find<V: Answers>(alloc: Global, volume: &mut V, path: Vec<u8>) -> Result<Found, TreeFault> {
    let info = info_at(alloc, volume, &path)?;
    Ok(Found {
        path,
        kind: info.kind,
    })
}

/// Adds what is named in a directory.
fn add_names<V: Answers>(
    alloc: Global,
    volume: &mut V,
    directory: &[u8],
    all: &mut Vec<Found>,
) -> Result<(), ToolFault> {
    let names = names_at(alloc, volume, directory)?;
    for name in &names {
        let path = below(alloc, directory, name.as_slice())?;
        let found = find(alloc, volume, path)?;
        all.push(found)?;
    }
    Ok(())
}

/// A path and all that is below it, each directory before what it names.
fn all_below<V: Answers>(
    alloc: Global,
    volume: &mut V,
    path: &[u8],
) -> Result<Vec<Found>, ToolFault> {
    let mut all = Vec::new(alloc);
    let first = find(alloc, volume, path.to_vec(alloc)?)?;
    all.push(first)?;
    for place in 0..usize::MAX {
        let Some(found) = all.get(place) else {
            break;
        };
        if found.kind == Kind::Directory {
            let directory = found.path.as_slice().to_vec(alloc)?;
            add_names(alloc, volume, &directory, &mut all)?;
        }
    }
    Ok(all)
}

/// Removes a path: a directory only where it has no names, or with all that is below it.
pub fn remove<V: Answers>(
    alloc: Global,
    volume: &mut V,
    moment: u64,
    path: &[u8],
    with_all: bool,
) -> Result<(), ToolFault> {
    if with_all {
        let all = all_below(alloc, volume, path)?;
        for found in all.iter().rev() {
            remove_one(alloc, volume, moment, &found.path, found.kind)?;
        }
    } else {
        let info = info_at(alloc, volume, path)?;
        remove_one(alloc, volume, moment, path, info.kind)?;
    }
    change(volume, moment, Command::Sync)
}

/// Removes a new file.
fn take_back<V: Answers>(alloc: Global, volume: &mut V, moment: u64, path: &[u8]) {
    if let Ok(path) = path_of(alloc, path) {
        let _ = change(volume, moment, Command::Unlink { path });
    }
}

/// Writes a file beside a path, and then gives it the path.
fn write_and_move<V: Answers>(
    alloc: Global,
    volume: &mut V,
    now: u64,
    beside: &[u8],
    path: &[u8],
    file: &HostFile,
) -> Result<(), ToolFault> {
    make_file(alloc, volume, now, beside, file.moment, &file.bytes)?;
    move_to(alloc, volume, now, beside, path)
}

/// Writes a file beside the path, and then gives it the path: where that fails, what had the path before has it still. The file
/// has its own moment, and its directory that of the change.
pub fn copy_in<V: Answers>(
    alloc: Global,
    volume: &mut V,
    now: u64,
    path: &[u8],
    file: &HostFile,
) -> Result<(), ToolFault> {
    let mut beside = path.to_vec(alloc)?;
    beside.extend_from_slice(BESIDE)?;
    if info_at(alloc, volume, &beside).is_ok() {
        return Err(ToolFault::Refused(Errno::EEXIST));
    }
    let written = write_and_move(alloc, volume, now, &beside, path, file);
    if written.is_err() {
        take_back(alloc, volume, now, &beside);
    }
    written
}
