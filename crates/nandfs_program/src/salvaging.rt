// What is left of a damaged volume, as a folder.

use crate::asking::below;
use crate::fault::ToolFault;
use crate::losses::{ByteRange, Loss, LostAt};
use image_tools::{Folder, FolderEntry, Node};
use nand_model::Nand;
use page_tags::ObjectKind;
use posix_calls::Bytes;
use salvage::{Listing, LostPlace, ObjectInfo, Part, Salvage, SalvagedName};
use std::alloc::{AllocError, Global};
use std::collections::{BTreeMap, BTreeSet, VecDeque};
use volume_terms::ROOT;

/// A folder of what is left, what is lost of it, and the places of the pages that were found lost.
#[derive(Drop)]
pub struct Salvaged {
    pub folder: Folder,
    pub lost: Vec<LostAt>,
    pub pages: Vec<LostPlace>,
}

impl Salvaged {
    /// Whether nothing is lost.
    pub fn is_whole(&self) -> bool {
        self.lost.is_empty() && self.pages.is_empty()
    }
}

/// A path that waits to be read, and its object.
#[derive(Drop)]
struct Waiting {
    path: Vec<u8>,
    object: u64,
}

/// Where an object was found first.
#[derive(Drop)]
struct Place {
    path: Vec<u8>,
    kind: ObjectKind,
}

/// What was read so far.
#[derive(Drop)]
struct Reader {
    entries: Vec<FolderEntry>,
    lost: Vec<LostAt>,
    places: BTreeMap<u64, Place>,
    waiting: VecDeque<Waiting>,
}

/// The bytes of a file of this length. Those that are lost are zeros, and their ranges are noted.
fn file_bytes<N: Nand>(
    alloc: Global,
    left: &mut Salvage<N>,
    object: u64,
    length: u64,
    ranges: &mut Vec<ByteRange>,
) -> Result<Vec<u8>, ToolFault> {
    let length = usize::try_from(length).unwrap_or(usize::MAX);
    let mut bytes = vec![in alloc; 0u8; length]?;
    let mut at = 0usize;
    for _round in 0..u64::MAX {
        if at >= bytes.len() {
            break;
        }
        let read = match left.read_at(object, at as u64, &mut bytes[at..])? {
            Some(Part::Bytes(count)) => count,
            Some(Part::Lost(part)) => {
                ByteRange::note(ranges, at as u64, part.bytes)?;
                usize::try_from(part.bytes).unwrap_or(usize::MAX)
            }
            None => 0,
        };
        if read == 0 {
            break;
        }
        at = at.saturating_add(read);
    }
    Ok(bytes)
}

impl Reader {
    /// Nothing was read yet.
    fn new(alloc: Global) -> Reader {
        Reader {
            entries: Vec::new(alloc),
            lost: Vec::new(alloc),
            places: BTreeMap::new(alloc),
            waiting: VecDeque::new(alloc),
        }
    }

    /// Notes what is lost at a path.
    fn lose(&mut self, alloc: Global, path: &[u8], loss: Loss) -> Result<(), AllocError> {
        let path = path.to_vec(alloc)?;
        self.lost.push(LostAt { path, loss })?;
        Ok(())
    }

    /// Adds an entry, whose object has none yet.
    fn add(
        &mut self,
        alloc: Global,
        from: &Waiting,
        info: &ObjectInfo,
        node: Node,
    ) -> Result<(), AllocError> {
        let path = from.path.as_slice().to_vec(alloc)?;
        let kind = info.kind;
        self.places.insert(from.object, Place { path, kind })?;
        let path = from.path.as_slice().to_vec(alloc)?;
        let moment = info.moment;
        self.entries.push(FolderEntry { path, moment, node })?;
        Ok(())
    }

    /// Reads a file.
    fn read_file<N: Nand>(
        &mut self,
        alloc: Global,
        left: &mut Salvage<N>,
        from: &Waiting,
        info: &ObjectInfo,
    ) -> Result<(), ToolFault> {
        let mut ranges = Vec::new(alloc);
        let bytes = file_bytes(alloc, left, from.object, info.length, &mut ranges)?;
        for range in &ranges {
            self.lose(alloc, &from.path, Loss::Bytes(*range))?;
        }
        self.add(alloc, from, info, Node::File(bytes))?;
        Ok(())
    }

    /// Lets the names of a directory wait, each once, and returns them in the order of their bytes.
    fn wait_for(
        &mut self,
        alloc: Global,
        from: &Waiting,
        names: &[SalvagedName],
    ) -> Result<Vec<Bytes>, ToolFault> {
        let mut known = BTreeSet::new(alloc);
        for slot in names {
            let path = below(alloc, &from.path, &slot.name)?;
            if known.insert(slot.name.as_slice().to_vec(alloc)?)? {
                let object = slot.object;
                self.waiting.push_back(Waiting { path, object })?;
            } else {
                self.lost.push(LostAt {
                    path,
                    loss: Loss::NamedTwice,
                })?;
            }
        }
        let mut sorted = Vec::new(alloc);
        for name in known {
            sorted.push(Bytes::new(name))?;
        }
        Ok(sorted)
    }

    /// Reads a directory.
    fn read_directory<N: Nand>(
        &mut self,
        alloc: Global,
        left: &mut Salvage<N>,
        from: &Waiting,
        info: &ObjectInfo,
    ) -> Result<(), ToolFault> {
        let listing = match left.list(alloc, from.object)? {
            Some(listing) => listing,
            None => Listing {
                names: Vec::new(alloc),
                lost: info.length,
            },
        };
        if listing.lost > 0 {
            self.lose(alloc, &from.path, Loss::Names(listing.lost))?;
        }
        let names = self.wait_for(alloc, from, &listing.names)?;
        self.add(alloc, from, info, Node::Directory(names))?;
        Ok(())
    }

    /// Adds a further name of an object that was found: of a file a hard link, while a directory has one name.
    fn add_again(
        &mut self,
        alloc: Global,
        from: &Waiting,
        info: &ObjectInfo,
    ) -> Result<bool, ToolFault> {
        let Some(place) = self.places.get(&from.object) else {
            return Ok(false);
        };
        if place.kind == ObjectKind::Directory {
            self.lose(alloc, &from.path, Loss::DirectoryTwice)?;
            return Ok(true);
        }
        let first = place.path.as_slice().to_vec(alloc)?;
        let path = from.path.as_slice().to_vec(alloc)?;
        self.entries.push(FolderEntry {
            path,
            moment: info.moment,
            node: Node::Link(first),
        })?;
        Ok(true)
    }

    /// Reads what a path leads to.
    fn read<N: Nand>(
        &mut self,
        alloc: Global,
        left: &mut Salvage<N>,
        from: &Waiting,
    ) -> Result<(), ToolFault> {
        let Some(info) = left.stat(from.object)? else {
            self.lose(alloc, &from.path, Loss::Header)?;
            return Ok(());
        };
        if self.add_again(alloc, from, &info)? {
            return Ok(());
        }
        match info.kind {
            ObjectKind::File => self.read_file(alloc, left, from, &info),
            ObjectKind::Directory => self.read_directory(alloc, left, from, &info),
        }
    }

    /// Reads all that waits.
    fn read_all<N: Nand>(&mut self, alloc: Global, left: &mut Salvage<N>) -> Result<(), ToolFault> {
        for _round in 0..u64::MAX {
            let Some(from) = self.waiting.pop_front() else {
                break;
            };
            self.read(alloc, left, &from)?;
        }
        Ok(())
    }

    /// Adds a directory that the volume does not have, empty.
    fn add_folder(&mut self, alloc: Global, path: &[u8]) -> Result<(), AllocError> {
        self.entries.push(FolderEntry {
            path: path.to_vec(alloc)?,
            moment: 0,
            node: Node::Directory(Vec::new(alloc)),
        })?;
        Ok(())
    }

    /// Reads the tree from the root on. Where the header of the root is lost the root is empty.
    fn read_tree<N: Nand>(
        &mut self,
        alloc: Global,
        left: &mut Salvage<N>,
    ) -> Result<(), ToolFault> {
        let root = Waiting {
            path: b"/".to_vec(alloc)?,
            object: ROOT,
        };
        match left.stat(ROOT)? {
            Some(info) if info.kind == ObjectKind::Directory => {
                self.read_directory(alloc, left, &root, &info)?;
            }
            _ => {
                self.lose(alloc, &root.path, Loss::Header)?;
                self.add_folder(alloc, &root.path)?;
            }
        }
        self.read_all(alloc, left)
    }

    /// Whether an entry has the path.
    fn has_path(&self, path: &[u8]) -> bool {
        self.entries
            .iter()
            .any(|entry| entry.path.as_slice() == path)
    }

    /// A path in the root that no entry has, for the objects that nothing names.
    fn path_of_orphans(&self, alloc: Global) -> Result<Vec<u8>, AllocError> {
        let mut path = b"/lost+found".to_vec(alloc)?;
        for _round in 0..256 {
            if !self.has_path(&path) {
                break;
            }
            path.push(b'~')?;
        }
        Ok(path)
    }

    /// Reads the objects that nothing names, each by its number.
    fn read_orphans<N: Nand>(
        &mut self,
        alloc: Global,
        left: &mut Salvage<N>,
    ) -> Result<(), ToolFault> {
        let orphans = left.orphans(alloc)?;
        if orphans.is_empty() {
            return Ok(());
        }
        let above = self.path_of_orphans(alloc)?;
        self.add_folder(alloc, &above)?;
        for object in &orphans {
            let object = *object;
            let name = format!(in alloc; "{object}")?;
            let path = below(alloc, &above, name.as_bytes())?;
            self.waiting.push_back(Waiting { path, object })?;
        }
        self.read_all(alloc, left)
    }
}

/// Reads what is left of a volume: its tree, and below `lost+found` by their numbers the objects that nothing names. Bytes of a file
/// that are lost are zeros. A file with more than one name has links, and a directory that is named again is left out.
pub fn salvage<N: Nand>(alloc: Global, left: &mut Salvage<N>) -> Result<Salvaged, ToolFault> {
    let mut reader = Reader::new(alloc);
    reader.read_tree(alloc, left)?;
    reader.read_orphans(alloc, left)?;
    Ok(Salvaged {
        folder: Folder {
            entries: reader.entries,
        },
        lost: reader.lost,
        pages: left.lost().to_vec(alloc)?,
    })
}
