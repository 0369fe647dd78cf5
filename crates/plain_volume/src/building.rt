// A tree, made again in a volume over maps.
use crate::PlainVolume;
use crate::asking::{ask, below, path_of};
use crate::fault::TreeFault;
use crate::reading::{Content, TreeEntry};
use posix_profile::{Access, Bytes, Command, FilePath, Kind, OpenFlags, Reply};
use std::alloc::{AllocError, Global};
use std::collections::BTreeMap;

/// How many bytes are written at once: no volume writes fewer.
const PART: usize = 2048;

/// From the numbers of objects to the paths that they have got.
type Places = BTreeMap<u64, Vec<u8>>;

/// The path that an object is made under.
fn first_path(alloc: Global, number: u64) -> Result<Vec<u8>, AllocError> {
    let text = format!(in alloc; "/an object to be named {number}")?;
    text.as_bytes().to_vec(alloc)
}

/// Opens a file for writing.
fn open_to_write(
    alloc: Global,
    volume: &mut PlainVolume,
    moment: u64,
    path: &[u8],
    create: bool,
) -> Result<u32, TreeFault> {
    let path = path_of(alloc, path)?;
    let flags = OpenFlags {
        access: Access::Write,
        create,
        excl: create,
        trunc: false,
        append: false,
    };
    match ask(volume, moment, Command::Open { path, flags })? {
        Reply::Fd(fd) => Ok(fd),
        _ => Err(TreeFault::Unlike),
    }
}

/// Makes an object, which gets the least free number.
fn make_object(
    alloc: Global,
    volume: &mut PlainVolume,
    kind: Kind,
    moment: u64,
    path: &[u8],
) -> Result<(), TreeFault> {
    match kind {
        Kind::File => {
            let fd = open_to_write(alloc, volume, moment, path, true)?;
            ask(volume, moment, Command::Close { fd })?;
        }
        Kind::Directory => {
            let path = path_of(alloc, path)?;
            ask(volume, moment, Command::Mkdir { path })?;
        }
    }
    Ok(())
}

/// What is reported of the object of a number: its kind and its moment.
fn reported_of(entries: &[TreeEntry], number: u64) -> Option<(Kind, u64)> {
    for entry in entries {
        if entry.info.object == number {
            return Some((entry.info.kind, entry.info.moment));
        }
    }
    None
}

/// The greatest number of an object.
fn greatest_number(entries: &[TreeEntry]) -> u64 {
    let mut greatest = 1;
    for entry in entries {
        greatest = entry.info.object.max(greatest);
    }
    greatest
}

/// Makes an object for each number up to the greatest: a directory where the tree has none.
fn make_objects(
    alloc: Global,
    volume: &mut PlainVolume,
    entries: &[TreeEntry],
) -> Result<(), TreeFault> {
    for number in 2..=greatest_number(entries) {
        let (kind, moment) = reported_of(entries, number).unwrap_or((Kind::Directory, 0));
        let path = first_path(alloc, number)?;
        make_object(alloc, volume, kind, moment, &path)?;
    }
    Ok(())
}

/// Takes the objects away that the tree has not.
fn remove_others(
    alloc: Global,
    volume: &mut PlainVolume,
    entries: &[TreeEntry],
) -> Result<(), TreeFault> {
    for number in 2..=greatest_number(entries) {
        if reported_of(entries, number).is_none() {
            let path = FilePath::new(first_path(alloc, number)?);
            ask(volume, 0, Command::Rmdir { path })?;
        }
    }
    Ok(())
}

/// The path that an object has now.
fn place_of(alloc: Global, places: &Places, number: u64) -> Result<Vec<u8>, AllocError> {
    match places.get(&number) {
        Some(path) => path.as_slice().to_vec(alloc),
        None => first_path(alloc, number),
    }
}

/// Gives an object a name: the first in place of the path that it was made under, and further ones beside it.
fn give_name(
    alloc: Global,
    volume: &mut PlainVolume,
    places: &mut Places,
    number: u64,
    moment: u64,
    path: Vec<u8>,
) -> Result<(), TreeFault> {
    let old = FilePath::new(place_of(alloc, places, number)?);
    let new = path_of(alloc, &path)?;
    if places.contains_key(&number) {
        ask(volume, moment, Command::Link { old, new })?;
    } else {
        ask(volume, moment, Command::Rename { old, new })?;
        places.insert(number, path)?;
    }
    Ok(())
}

/// Gives the names that do not are in the root, those of outer directories first.
fn name_below_root(
    alloc: Global,
    volume: &mut PlainVolume,
    places: &mut Places,
    entries: &[TreeEntry],
) -> Result<(), TreeFault> {
    for entry in entries {
        if entry.name.parent > 0 {
            if let Some(parent) = entries.get(entry.name.parent) {
                let directory = place_of(alloc, places, parent.info.object)?;
                let path = below(alloc, &directory, &entry.name.name)?;
                let moment = parent.info.moment;
                give_name(alloc, volume, places, entry.info.object, moment, path)?;
            }
        }
    }
    Ok(())
}

/// Gives the names of this kind that are in the root.
fn name_in_root(
    alloc: Global,
    volume: &mut PlainVolume,
    places: &mut Places,
    entries: &[TreeEntry],
    kind: Kind,
    moment: u64,
) -> Result<(), TreeFault> {
    for entry in entries {
        let is_in_root = entry.name.parent == 0 && !entry.name.name.is_empty();
        if is_in_root && entry.info.kind == kind {
            let path = below(alloc, b"/", &entry.name.name)?;
            give_name(alloc, volume, places, entry.info.object, moment, path)?;
        }
    }
    Ok(())
}

/// Gives the root its moment, where it has no names to give.
fn touch_root(alloc: Global, volume: &mut PlainVolume, moment: u64) -> Result<(), TreeFault> {
    let path = FilePath::new(first_path(alloc, 0)?);
    ask(volume, moment, Command::Mkdir { path })?;
    let path = FilePath::new(first_path(alloc, 0)?);
    ask(volume, moment, Command::Rmdir { path })?;
    Ok(())
}

/// Writes the bytes of a file.
fn write_bytes(
    alloc: Global,
    volume: &mut PlainVolume,
    moment: u64,
    path: &[u8],
    bytes: &[u8],
) -> Result<(), TreeFault> {
    let fd = open_to_write(alloc, volume, moment, path, false)?;
    for part in bytes.chunks(PART) {
        let bytes = Bytes::new(part.to_vec(alloc)?);
        ask(volume, moment, Command::Write { fd, bytes })?;
    }
    ask(volume, moment, Command::Close { fd })?;
    Ok(())
}

/// Writes the bytes of all files, once under each name.
fn write_files(
    alloc: Global,
    volume: &mut PlainVolume,
    entries: &[TreeEntry],
) -> Result<(), TreeFault> {
    for entry in entries {
        if let Content::File(bytes) = &entry.content {
            write_bytes(alloc, volume, entry.info.moment, &entry.name.path, bytes)?;
        }
    }
    Ok(())
}

/// Makes a tree in an empty volume: the objects by their numbers, then their names, with those in the root last, then their
/// bytes. Each command has the moment that is left by it.
pub(crate) fn build(
    alloc: Global,
    volume: &mut PlainVolume,
    entries: &[TreeEntry],
) -> Result<(), TreeFault> {
    let moment = match reported_of(entries, 1) {
        Some((_kind, moment)) => moment,
        None => return Err(TreeFault::Unlike),
    };
    make_objects(alloc, volume, entries)?;
    remove_others(alloc, volume, entries)?;
    let mut places = Places::new(alloc);
    name_below_root(alloc, volume, &mut places, entries)?;
    name_in_root(alloc, volume, &mut places, entries, Kind::File, moment)?;
    name_in_root(alloc, volume, &mut places, entries, Kind::Directory, moment)?;
    if entries.len() < 2 {
        touch_root(alloc, volume, moment)?;
    }
    write_files(alloc, volume, entries)
}
