// The directories of a volume, one after the other.

use crate::asking::below;
use crate::fault::ToolFault;
use plain_volume::{info_at, names_at};
use posix_calls::{Info, Kind};
use posix_profile::Answers;
use std::alloc::{AllocError, Global};

/// A path, and what it leads to.
#[derive(Drop)]
pub(crate) struct Child {
    pub(crate) path: Vec<u8>,
    pub(crate) info: Info,
}

/// A directory, with what its names lead to in the order of their bytes.
#[derive(Drop)]
pub(crate) struct Directory {
    pub(crate) path: Vec<u8>,
    pub(crate) children: Vec<Child>,
}

/// Directories that wait to be read, the next one last.
#[derive(Drop)]
pub(crate) struct Walk {
    waiting: Vec<Vec<u8>>,
    all_below: bool,
}

/// The last name of a path.
pub(crate) fn last_name(path: &[u8]) -> &[u8] {
    match path.iter().rposition(|byte| *byte == b'/') {
        Some(place) if place < path.len() => &path[place + 1..],
        _ => path,
    }
}

/// What the names of a directory lead to.
fn children_of<V: Answers>(
    alloc: Global,
    volume: &mut V,
    directory: &[u8],
) -> Result<Vec<Child>, ToolFault> {
    let mut children = Vec::new(alloc);
    for name in &names_at(alloc, volume, directory)? {
        let path = below(alloc, directory, name.as_slice())?;
        let info = info_at(alloc, volume, &path)?;
        children.push(Child { path, info })?;
    }
    Ok(children)
}

impl Walk {
    /// Begins at a directory, with all those below it or without.
    pub(crate) fn new(alloc: Global, path: &[u8], all_below: bool) -> Result<Walk, AllocError> {
        let mut waiting = Vec::new(alloc);
        waiting.push(path.to_vec(alloc)?)?;
        Ok(Walk { waiting, all_below })
    }

    /// Adds the directories among these, so that the first is read next.
    fn wait_for(&mut self, alloc: Global, children: &[Child]) -> Result<(), AllocError> {
        for child in children.iter().rev() {
            if child.info.kind == Kind::Directory {
                self.waiting.push(child.path.as_slice().to_vec(alloc)?)?;
            }
        }
        Ok(())
    }

    /// The next directory, after which those that it names come before all others.
    pub(crate) fn next_directory<V: Answers>(
        &mut self,
        alloc: Global,
        volume: &mut V,
    ) -> Result<Option<Directory>, ToolFault> {
        let Some(path) = self.waiting.pop() else {
            return Ok(None);
        };
        let children = children_of(alloc, volume, &path)?;
        if self.all_below {
            self.wait_for(alloc, &children)?;
        }
        Ok(Some(Directory { path, children }))
    }
}
