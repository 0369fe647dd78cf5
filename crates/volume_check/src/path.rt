// The path of an object.
ghost use Rattle.std.specs.Prelude.{◌≡◌, ◌≤◌, ◌+◌, ◌*◌, length, IfErr};
ghost use Rattle.pages.specs.State.{OnlyFinds};
ghost use Rattle.volume_check.specs.declared.fault.CheckFault.TheVariants as faults;

use crate::fault::CheckFault;
use flash_tree::{Key, decode_tree_slot};
use name_index::NameIndex;
use pages::{Pages, Presence};
use std::alloc::{AllocError, Global};
use std::collections::BTreeMap;
use tree_walk::{WalkFault, visit};
use volume_terms::{ROOT, SLOT_BYTES, StoreFault};

/// Objects in the order in which a walk from the root names them, and the directory that named each first.
#[derive(Drop)]
struct Parents {
    objects: Vec<u64>,
    directories: BTreeMap<u64, u64>,
}

impl Parents {
    /// Puts an object that a directory names behind the others, unless it is one of them.
    fn put(&mut self, directory: u64, object: u64) -> Result<(), AllocError> {
        if object == ROOT || self.directories.contains_key(&object) {
            return Ok(());
        }
        self.directories.insert(object, directory)?;
        self.objects.push(object)?;
        Ok(())
    }

    /// Puts what an object names behind the others, where it is a directory that is whole.
    fn put_named<P: Pages>(
        &mut self,
        alloc: Global,
        pages: &mut P,
        object: u64,
    ) -> Result<(), CheckFault>
        ensures lookups { OnlyFinds (P.state pages.old) (P.state pages.new) }
        ensures fault { IfErr result (λ fault. fault ≡ faults.NoMemory) }
    {
        let mut names = NameIndex::new(alloc);
        let named = match visit(alloc, pages, object, &mut names) {
            Ok(visited) => visited.named,
            Err(WalkFault::NoMemory) => return Err(CheckFault::NoMemory),
            Err(_) => return Ok(()),
        };
        for place in 0..named.len() {
            self.put(object, named[place])?;
        }
        Ok(())
    }
}

/// The directories that lead to an object, as far as they are whole.
fn parents_of<P: Pages>(
    alloc: Global,
    pages: &mut P,
    object: u64,
) -> Result<BTreeMap<u64, u64>, CheckFault>
    ensures lookups { OnlyFinds (P.state pages.old) (P.state pages.new) }
    ensures fault { IfErr result (λ fault. fault ≡ faults.NoMemory) }
{
    let mut parents = Parents {
        objects: vec![in alloc; ROOT]?,
        directories: BTreeMap::new(alloc),
    };
    for place in 0..usize::MAX {
        let Some(next) = parents.objects.get(place).copied() else {
            break;
        };
        if parents.directories.contains_key(&object) {
            break;
        }
        parents.put_named(alloc, pages, next)?;
    }
    Ok(parents.directories)
}

/// The bytes of a slot of a page.
fn slot_of(page: &[u8], place: u64) -> &[u8]
    requires room { 272 * place + 272 ≤ length page.now }
    requires within_limit { length page.now ≤ 4096 }
    ensures { length result.now ≡ 272 }
{
    let at = SLOT_BYTES * place as usize;
    &page[at..at + SLOT_BYTES]
}

/// The name that a slot of a page has for an object.
fn name_on(page: &[u8], object: u64) -> Option<&[u8]>
    requires { length page.now ≤ 4096 }
{
    for place in 0..page.len() as u64 / SLOT_BYTES as u64 {
        if let Some(slot) = decode_tree_slot(slot_of(page, place)) {
            if slot.object == object {
                return Some(slot.name);
            }
        }
    }
    None
}

/// The name that a directory has for an object, or `?`.
fn name_of<P: Pages>(
    alloc: Global,
    pages: &mut P,
    directory: u64,
    object: u64,
) -> Result<Vec<u8>, CheckFault>
    ensures lookups { OnlyFinds (P.state pages.old) (P.state pages.new) }
    ensures fault { IfErr result (λ fault. fault ≡ faults.NoMemory) }
{
    for chunk in 1..u64::MAX {
        let key = Key {
            object: directory,
            chunk,
        };
        match pages.find(key) {
            Ok(Presence::Present) => {
                if let Some(name) = name_on(pages.page(), object) {
                    return Ok(name.to_vec(alloc)?);
                }
            }
            Err(StoreFault::NoMemory) => return Err(CheckFault::NoMemory),
            _ => break,
        }
    }
    Ok(b"?".to_vec(alloc)?)
}

/// The path with these names, the last one first.
fn joined(alloc: Global, names: &[Vec<u8>]) -> Result<Vec<u8>, AllocError> {
    let mut path = Vec::new(alloc);
    for name in names.iter().rev() {
        path.push(b'/')?;
        path.extend_from_slice(name)?;
    }
    if path.is_empty() {
        path.push(b'/')?;
    }
    Ok(path)
}

/// The path of an object, by the directories that first named each. The root's is `/`.
pub(crate) fn path_of<P: Pages>(
    alloc: Global,
    pages: &mut P,
    object: u64,
) -> Result<Vec<u8>, CheckFault>
    ensures lookups { OnlyFinds (P.state pages.old) (P.state pages.new) }
    ensures fault { IfErr result (λ fault. fault ≡ faults.NoMemory) }
{
    let parents = parents_of(alloc, pages, object)?;
    let mut names = Vec::new(alloc);
    let mut below = object;
    for _round in 0..u64::MAX {
        let Some(directory) = parents.get(&below).copied() else {
            break;
        };
        names.push(name_of(alloc, pages, directory, below)?)?;
        below = directory;
    }
    Ok(joined(alloc, &names)?)
}
