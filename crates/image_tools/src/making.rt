// A tree, made in a volume by its commands.
#![tactic(auto, using(crate::proofs::Going::goes_then))]

ghost use Rattle.std.specs.Prelude.{OnOk};
ghost use Rattle.image_tools.specs.Leaving.{GoesOn};

use crate::folder::{FolderEntry, Node};
use plain_volume::{TreeFault, ask};
use posix_profile::{Access, Answers, Bytes, Command, Errno, FilePath, OpenFlags, Reply};
use std::alloc::{AllocError, Global};

/// How many bytes are written at once: no volume writes fewer.
const PART: usize = 2048;

/// The name that comes and goes in a directory without names.
const PASSING: &[u8] = b"/a";

/// The reply to a command that is not refused.
fn issued<V: Answers>(volume: &mut V, moment: u64, command: Command) -> Result<Reply, TreeFault>
    ensures { OnOk result (GoesOn V.shows volume.old volume.new) }
{
    let reply = ask(volume, moment, command)?;
    Ok(reply)
}

/// A change that is not refused.
fn change<V: Answers>(volume: &mut V, moment: u64, command: Command) -> Result<(), TreeFault>
    ensures { OnOk result (GoesOn V.shows volume.old volume.new) }
{
    let _done = issued(volume, moment, command)?;
    Ok(())
}

fn path_of(alloc: Global, path: &[u8]) -> Result<FilePath, AllocError> {
    Ok(FilePath::new(path.to_vec(alloc)?))
}

/// The descriptor that is opened.
fn descriptor_of(reply: Reply) -> Result<u32, TreeFault> {
    match reply {
        Reply::Fd(fd) => Ok(fd),
        _ => Err(TreeFault::Unlike),
    }
}

/// Whether so many bytes were written; there was no room for more.
fn wrote_all(reply: Reply, length: usize) -> Result<(), TreeFault> {
    match reply {
        Reply::Wrote(count) => {
            if count as usize == length {
                Ok(())
            } else {
                Err(TreeFault::Refused(Errno::ENOSPC))
            }
        }
        _ => Err(TreeFault::Unlike),
    }
}

/// A new file, opened for writing.
fn open_new<V: Answers>(
    alloc: Global,
    volume: &mut V,
    moment: u64,
    path: &[u8],
) -> Result<u32, TreeFault>
    ensures { OnOk result (GoesOn V.shows volume.old volume.new) }
{
    let path = path_of(alloc, path)?;
    let flags = OpenFlags {
        access: Access::Write,
        create: true,
        excl: true,
        trunc: false,
        append: false,
    };
    let reply = issued(volume, moment, Command::Open { path, flags })?;
    let fd = descriptor_of(reply)?;
    Ok(fd)
}

/// Writes a part whole.
fn write_part<V: Answers>(
    alloc: Global,
    volume: &mut V,
    moment: u64,
    fd: u32,
    part: &[u8],
) -> Result<(), TreeFault>
    ensures { OnOk result (GoesOn V.shows volume.old volume.new) }
{
    let bytes = Bytes::new(part.to_vec(alloc)?);
    let reply = issued(volume, moment, Command::Write { fd, bytes })?;
    wrote_all(reply, part.len())?;
    Ok(())
}

/// Writes the bytes of a file. One of no bytes gets the moment by a truncation.
fn write_bytes<V: Answers>(
    alloc: Global,
    volume: &mut V,
    moment: u64,
    fd: u32,
    bytes: &[u8],
) -> Result<(), TreeFault>
    ensures { OnOk result (GoesOn V.shows volume.old volume.new) }
{
    if bytes.is_empty() {
        change(volume, moment, Command::Truncate { fd, length: 0 })?;
        return Ok(());
    }
    for part in bytes.chunks(PART) {
        write_part(alloc, volume, moment, fd, part)?;
    }
    Ok(())
}

/// Makes a file that is not there: its name at the moment `above`, which its directory gets, its bytes at its own. `Refused` with
/// ENOSPC where there is no room for all of them. A fault may leave a part of the file, and its descriptor open.
pub fn make_file<V: Answers>(
    alloc: Global,
    volume: &mut V,
    above: u64,
    path: &[u8],
    moment: u64,
    bytes: &[u8],
) -> Result<(), TreeFault>
    ensures { OnOk result (GoesOn V.shows volume.old volume.new) }
{
    let fd = open_new(alloc, volume, above, path)?;
    write_bytes(alloc, volume, moment, fd, bytes)?;
    change(volume, above, Command::Close { fd })?;
    Ok(())
}

/// Gives a directory without names its moment, by a name that comes and goes.
fn touch<V: Answers>(
    alloc: Global,
    volume: &mut V,
    moment: u64,
    directory: &[u8],
) -> Result<(), TreeFault>
    ensures { OnOk result (GoesOn V.shows volume.old volume.new) }
{
    let mut path = directory.to_vec(alloc)?;
    path.extend_from_slice(PASSING)?;
    let fd = open_new(alloc, volume, moment, &path)?;
    change(volume, moment, Command::Close { fd })?;
    let path = FilePath::new(path);
    change(volume, moment, Command::Unlink { path })?;
    Ok(())
}

/// Makes a directory, at the moment of the directory above. The names that are made in it give it its own.
fn make_directory<V: Answers>(
    alloc: Global,
    volume: &mut V,
    above: u64,
    entry: &FolderEntry,
    is_empty: bool,
) -> Result<(), TreeFault>
    ensures { OnOk result (GoesOn V.shows volume.old volume.new) }
{
    let path = path_of(alloc, &entry.path)?;
    change(volume, above, Command::Mkdir { path })?;
    if is_empty && above != entry.moment {
        touch(alloc, volume, entry.moment, &entry.path)?;
    }
    Ok(())
}

/// Makes what an entry names, in a directory of this moment.
fn make_entry<V: Answers>(
    alloc: Global,
    volume: &mut V,
    above: u64,
    entry: &FolderEntry,
) -> Result<(), TreeFault>
    ensures { OnOk result (GoesOn V.shows volume.old volume.new) }
{
    match &entry.node {
        Node::File(bytes) => make_file(alloc, volume, above, &entry.path, entry.moment, bytes),
        Node::Directory(names) => make_directory(alloc, volume, above, entry, names.is_empty()),
        Node::Link(first) => {
            let old = path_of(alloc, first)?;
            let new = path_of(alloc, &entry.path)?;
            change(volume, above, Command::Link { old, new })
        }
    }
}

/// Adds a moment so many times.
fn add_moments(moments: &mut Vec<u64>, count: usize, moment: u64) -> Result<(), AllocError> {
    for _name in 0..count {
        moments.push(moment)?;
    }
    Ok(())
}

/// The moment of the directory of each entry but the root, which is none's.
fn moments_above(alloc: Global, entries: &[FolderEntry]) -> Result<Vec<u64>, AllocError> {
    let mut moments = Vec::new(alloc);
    for entry in entries {
        if let Node::Directory(names) = &entry.node {
            add_moments(&mut moments, names.len(), entry.moment)?;
        }
    }
    Ok(moments)
}

/// Makes the entries below the root.
fn make_entries<V: Answers>(
    alloc: Global,
    volume: &mut V,
    entries: &[FolderEntry],
) -> Result<(), TreeFault>
    ensures { OnOk result (GoesOn V.shows volume.old volume.new) }
{
    let moments = moments_above(alloc, entries)?;
    for (entry, above) in entries.iter().skip(1).zip(moments.iter()) {
        make_entry(alloc, volume, *above, entry)?;
    }
    Ok(())
}

/// Gives a root without names its moment.
#[tactic(auto, using(crate::proofs::Going::goes_none))]
fn touch_root<V: Answers>(
    alloc: Global,
    volume: &mut V,
    entries: &[FolderEntry],
) -> Result<(), TreeFault>
    ensures { OnOk result (GoesOn V.shows volume.old volume.new) }
{
    match entries {
        [root] => touch(alloc, volume, root.moment, b""),
        _ => Ok(()),
    }
}

/// Makes a tree in a volume whose root is empty, and syncs it. A name is made at the moment of its directory, so that the last
/// one leaves the directory with it.
pub(crate) fn make<V: Answers>(
    alloc: Global,
    volume: &mut V,
    entries: &[FolderEntry],
) -> Result<(), TreeFault>
    ensures { OnOk result (GoesOn V.shows volume.old volume.new) }
{
    make_entries(alloc, volume, entries)?;
    touch_root(alloc, volume, entries)?;
    change(volume, 0, Command::Sync)?;
    Ok(())
}
