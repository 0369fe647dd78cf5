// A tree as its commands tell it.
ghost use Rattle.std.specs.Prelude.{◌≡◌, ◌++◌, ◌∷◌, [], ◌↔◌, map as list_map, IfOk, OnOk, IsTrue};
ghost use Rattle.posix_profile.specs.declared.reply.Reply.TheVariants as replies;
ghost use Rattle.plain_volume.specs.Items.{IsInfo, AreNames, AreBytesAt, IsRead, AreRead, item_of, reported_of, paths_of, path_below, paths_below, root_path, IsContent};
ghost use Rattle.plain_volume.specs.Reading.{Reports, OpensBy, DrainsBy, ClosesBy};

use crate::asking::{ask, below, path_of};
use crate::fault::TreeFault;
use posix_profile::{Access, Answers, Bytes, Command, Info, Kind, OpenFlags, Reply};
use std::alloc::{AllocError, Global};
use std::collections::VecDeque;

/// How many bytes are read at once.
const PART: u32 = 4096;

/// What an object holds: a file its bytes, a directory its names.
#[derive(Drop)]
pub enum Content {
    File(Vec<u8>),
    Directory(Vec<Bytes>),
}

/// A name that leads to an object: the place of its directory among the names, and its path. The root has the empty name, in
/// itself.
#[derive(Drop)]
pub struct TreeName {
    pub parent: usize,
    pub name: Vec<u8>,
    pub path: Vec<u8>,
}

/// A name, and what is reported of its object.
#[derive(Drop)]
pub struct TreeEntry {
    pub name: TreeName,
    pub info: Info,
    pub content: Content,
}

/// What a reply reports on an object.
fn info_of(reply: Reply) -> Result<Info, TreeFault>
    ensures { IfOk result (λ info. reply ≡ replies.Info info) }
{
    match reply {
        Reply::Info(info) => Ok(info),
        _ => Err(TreeFault::Unlike),
    }
}

/// The names that a reply reports.
fn names_of(reply: Reply) -> Result<Vec<Bytes>, TreeFault>
    ensures { IfOk result (λ names. reply ≡ replies.Names names.items) }
{
    match reply {
        Reply::Names(names) => Ok(names.into_vec()),
        _ => Err(TreeFault::Unlike),
    }
}

/// The descriptor that a reply reports.
fn descriptor_of(reply: Reply) -> Result<u32, TreeFault>
    ensures { IfOk result (λ fd. reply ≡ replies.Fd fd) }
{
    match reply {
        Reply::Fd(fd) => Ok(fd),
        _ => Err(TreeFault::Unlike),
    }
}

/// The bytes that a reply reports.
fn data_of(reply: Reply) -> Result<Vec<u8>, TreeFault>
    ensures { IfOk result (λ bytes. reply ≡ replies.Data bytes.items) }
{
    match reply {
        Reply::Data(bytes) => Ok(bytes.into_vec()),
        _ => Err(TreeFault::Unlike),
    }
}

/// Whether a reply reports that the command is done.
fn done_of(reply: Reply) -> Result<(), TreeFault>
    ensures { OnOk result (reply ≡ replies.Done) }
{
    match reply {
        Reply::Done => Ok(()),
        _ => Err(TreeFault::Unlike),
    }
}

/// What is reported of the object at a path.
pub fn info_at<V: Answers>(alloc: Global, volume: &mut V, path: &[u8]) -> Result<Info, TreeFault>
    ensures { IfOk result (λ info. Reports V.shows volume.old volume.new (λ objects. IsInfo objects path.now info)) }
{
    let path = path_of(alloc, path)?;
    let reply = ask(volume, 0, Command::Stat { path })?;
    info_of(reply)
}

/// The names of the directory at a path.
pub fn names_at<V: Answers>(
    alloc: Global,
    volume: &mut V,
    path: &[u8],
) -> Result<Vec<Bytes>, TreeFault>
    ensures { IfOk result (λ names. Reports V.shows volume.old volume.new (λ objects. AreNames objects path.now names.items)) }
{
    let path = path_of(alloc, path)?;
    let reply = ask(volume, 0, Command::List { path })?;
    names_of(reply)
}

/// Opens the file at a path for reading.
fn open_to_read<V: Answers>(alloc: Global, volume: &mut V, path: &[u8]) -> Result<u32, TreeFault>
    ensures { IfOk result (OpensBy V.shows volume.old volume.new path.now) }
{
    let path = path_of(alloc, path)?;
    let flags = OpenFlags {
        access: Access::Read,
        create: false,
        excl: false,
        trunc: false,
        append: false,
    };
    let reply = ask(volume, 0, Command::Open { path, flags })?;
    descriptor_of(reply)
}

/// The bytes that are left of an open file.
fn bytes_left<V: Answers>(alloc: Global, volume: &mut V, fd: u32) -> Result<Vec<u8>, TreeFault>
    ensures { IfOk result (λ bytes. DrainsBy V.shows volume.old volume.new fd bytes.items) }
{
    let mut bytes = Vec::new(alloc);
    for _round in 0..u64::MAX {
        let reply = ask(volume, 0, Command::Read { fd, count: PART })?;
        let part = data_of(reply)?;
        if part.is_empty() {
            return Ok(bytes);
        }
        bytes.extend_from_slice(&part)?;
    }
    Err(TreeFault::Unlike)
}

/// Closes a descriptor.
fn close<V: Answers>(volume: &mut V, fd: u32) -> Result<(), TreeFault>
    ensures { OnOk result (ClosesBy V.shows volume.old volume.new fd) }
{
    let reply = ask(volume, 0, Command::Close { fd })?;
    done_of(reply)
}

/// The bytes of the file at a path. Its descriptor is closed again.
pub fn bytes_at<V: Answers>(
    alloc: Global,
    volume: &mut V,
    path: &[u8],
) -> Result<Vec<u8>, TreeFault>
    ensures { IfOk result (λ bytes. Reports V.shows volume.old volume.new (λ objects. AreBytesAt objects path.now bytes.items)) }
{
    let fd = open_to_read(alloc, volume, path)?;
    let left = bytes_left(alloc, volume, fd);
    let closed = close(volume, fd);
    let bytes = left?;
    closed?;
    Ok(bytes)
}

/// What the object at a path holds, of this kind.
fn content_at<V: Answers>(
    alloc: Global,
    volume: &mut V,
    path: &[u8],
    kind: Kind,
) -> Result<Content, TreeFault>
    ensures { IfOk result (λ content. Reports V.shows volume.old volume.new (λ objects. IsContent objects path.now (reported_of content))) }
{
    match kind {
        Kind::File => {
            let bytes = bytes_at(alloc, volume, path)?;
            Ok(Content::File(bytes))
        }
        Kind::Directory => {
            let names = names_at(alloc, volume, path)?;
            Ok(Content::Directory(names))
        }
    }
}

/// What a name leads to.
fn read_entry<V: Answers>(
    alloc: Global,
    volume: &mut V,
    name: TreeName,
) -> Result<TreeEntry, TreeFault>
    ensures same { IfOk result (λ entry. entry.name ≡ name) }
    ensures reported { IfOk result (λ entry. Reports V.shows volume.old volume.new (λ objects. IsRead objects (item_of entry))) }
{
    let info = info_at(alloc, volume, &name.path)?;
    let content = content_at(alloc, volume, &name.path, info.kind)?;
    Ok(TreeEntry {
        name,
        info,
        content,
    })
}

/// Adds the names of the directory at a path to those that wait.
fn add_names(
    alloc: Global,
    directory: &[u8],
    names: &[Bytes],
    place: usize,
    waiting: &mut VecDeque<TreeName>,
) -> Result<(), AllocError>
    ensures { OnOk result (paths_of waiting.new.items ≡ paths_of waiting.old.items ++ list_map (path_below directory.now) names.now) }
{
    for number in 0..names.len() {
        let path = below(alloc, directory, names[number].as_slice())?;
        let name = names[number].as_slice().to_vec(alloc)?;
        waiting.push_back(TreeName {
            parent: place,
            name,
            path,
        })?;
    }
    Ok(())
}

/// Adds the names of a directory to those that wait.
fn wait_for_names(
    alloc: Global,
    entry: &TreeEntry,
    place: usize,
    waiting: &mut VecDeque<TreeName>,
) -> Result<(), AllocError>
    ensures { OnOk result (paths_of waiting.new.items ≡ paths_of waiting.old.items ++ paths_below entry.now.name.path.items (reported_of entry.now.content)) }
{
    match &entry.content {
        Content::Directory(names) => add_names(alloc, &entry.name.path, names, place, waiting),
        Content::File(_) => Ok(()),
    }
}

/// The name of the root.
fn root_name(alloc: Global) -> Result<TreeName, AllocError>
    ensures { IfOk result (λ name. name.path.items ≡ root_path) }
{
    Ok(TreeName {
        parent: 0,
        name: Vec::new(alloc),
        path: b"/".to_vec(alloc)?,
    })
}

/// The names of a tree, each directory before what it names, and the names of one directory in the order of their bytes.
pub(crate) fn read_tree<V: Answers>(
    alloc: Global,
    volume: &mut V,
) -> Result<Vec<TreeEntry>, TreeFault>
    ensures { IfOk result (λ entries. Reports V.shows volume.old volume.new (λ objects. AreRead objects (root_path ∷ []) (list_map item_of entries.items))) }
{
    let mut entries = Vec::new(alloc);
    let mut waiting = VecDeque::new(alloc);
    let first = root_name(alloc)?;
    waiting.push_back(first)?;
    for _round in 0..u64::MAX {
        match waiting.pop_front() {
            Some(name) => {
                let entry = read_entry(alloc, volume, name)?;
                wait_for_names(alloc, &entry, entries.len(), &mut waiting)?;
                entries.push(entry)?;
            }
            None => return Ok(entries),
        }
    }
    Err(TreeFault::Unlike)
}

/// Whether these are the same names.
fn same_names(names: &[Bytes], others: &[Bytes]) -> bool
    ensures { IsTrue result ↔ (names.now ≡ others.now) }
{
    if names.len() != others.len() {
        return false;
    }
    for place in 0..names.len() {
        if names[place].as_slice() != others[place].as_slice() {
            return false;
        }
    }
    true
}

/// Whether both hold the same.
fn same_content(content: &Content, other: &Content) -> bool
    ensures { IsTrue result ↔ (reported_of content.now ≡ reported_of other.now) }
{
    match (content, other) {
        (Content::File(bytes), Content::File(others)) => bytes.as_slice() == others.as_slice(),
        (Content::Directory(names), Content::Directory(others)) => same_names(names, others),
        _ => false,
    }
}

/// Whether both are the same but for the places of their directories.
fn same_entry(entry: &TreeEntry, other: &TreeEntry) -> bool
    ensures { IsTrue result ↔ (item_of entry.now ≡ item_of other.now) }
{
    entry.name.path.as_slice() == other.name.path.as_slice()
        && entry.info == other.info
        && same_content(&entry.content, &other.content)
}

/// Whether both are the same tree.
pub(crate) fn same_tree(entries: &[TreeEntry], others: &[TreeEntry]) -> bool
    ensures { IsTrue result ↔ (list_map item_of entries.now ≡ list_map item_of others.now) }
{
    if entries.len() != others.len() {
        return false;
    }
    for place in 0..entries.len() {
        if !same_entry(&entries[place], &others[place]) {
            return false;
        }
    }
    true
}
