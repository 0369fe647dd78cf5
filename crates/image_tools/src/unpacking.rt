// A tree, read out of a volume.
ghost use Rattle.std.specs.Prelude.{◌≡◌, ℕ, [], ◌++◌, ◌∷◌, List, IfOk, OnOk, map as list_map, option_map, nat_eq, if◌then◌else◌, None};
ghost use Rattle.std.specs.Option.{option_or};
ghost use Rattle.plain_volume.specs.Items.{Item, item_of, reported_of};
ghost use Rattle.plain_volume.specs.Reading.{Reports};
ghost use Rattle.image_tools.specs.Folders.{IsFolder, entries_of, entries_after, entry_of, entry_after, held_of, held_by};
ghost use Rattle.image_tools.specs.FirstNames.{Knows, path_noted};

use crate::folder::{Folder, FolderEntry, Node};
use plain_volume::{Content, TreeEntry, TreeFault, TreeList};
use posix_profile::Answers;
use std::alloc::{AllocError, Global};
use std::collections::BTreeMap;

/// The path of the first entry of each object.
#[derive(Drop)]
pub(crate) struct FirstNames {
    pub(crate) paths: BTreeMap<u64, Vec<u8>>,
}

/// The path that was noted for the object; where there is none, this one is noted.
fn first_name(
    alloc: Global,
    names: &mut FirstNames,
    object: u64,
    path: &[u8],
) -> Result<Option<Vec<u8>>, AllocError>
    ensures first { IfOk result (λ first. option_map (λ p. p.items) first ≡ path_noted names.old object) }
    ensures notes { OnOk result ((o : ℕ) → path_noted names.new o ≡ option_or (path_noted names.old o) (if nat_eq object o then Some path.now else None)) }
{
    match names.paths.get(&object) {
        Some(first) => Ok(Some(first.as_slice().to_vec(alloc)?)),
        None => {
            names.paths.insert(object, path.to_vec(alloc)?)?;
            Ok(None)
        }
    }
}

/// What an object holds whose first path is this one, where it has an earlier one.
fn node_of(content: Content, first: Option<Vec<u8>>) -> Node
    ensures { held_of result ≡ held_by (reported_of content) (option_map (λ p. p.items) first) }
{
    match (content, first) {
        (Content::File(_), Some(path)) => Node::Link(path),
        (Content::File(bytes), None) => Node::File(bytes),
        (Content::Directory(names), _) => Node::Directory(names),
    }
}

/// The entry of what was read, after what was read before.
fn entry_after(
    alloc: Global,
    names: &mut FirstNames,
    entry: TreeEntry,
) -> Result<FolderEntry, AllocError>
    ensures { IfOk result (λ next. (items : List Item) → Knows names.old items
        → (entry_of next ≡ entry_after items (item_of entry)) × Knows names.new (items ++ item_of entry ∷ [])) }
{
    let TreeEntry {
        name,
        info,
        content,
    } = entry;
    let first = first_name(alloc, names, info.object, &name.path)?;
    let node = node_of(content, first);
    Ok(FolderEntry {
        path: name.path,
        moment: info.moment,
        node,
    })
}

/// The folder of what was read.
fn folder_of(alloc: Global, list: TreeList) -> Result<Folder, AllocError>
    ensures { IfOk result (λ folder. entries_of folder ≡ entries_after [] (list_map item_of list.entries.items)) }
{
    let mut names = FirstNames {
        paths: BTreeMap::new(alloc),
    };
    let mut entries = Vec::new(alloc);
    for entry in list.entries {
        let next = entry_after(alloc, &mut names, entry)?;
        entries.push(next)?;
    }
    Ok(Folder { entries })
}

/// Reads the tree of a volume by its commands. The volume needs a descriptor that is free.
pub fn unpack<V: Answers>(alloc: Global, volume: &mut V) -> Result<Folder, TreeFault>
    ensures { IfOk result (λ folder. Reports V.shows volume.old volume.new (λ objects. IsFolder objects (entries_of folder))) }
{
    let list = TreeList::read(alloc, volume)?;
    let folder = folder_of(alloc, list)?;
    Ok(folder)
}
