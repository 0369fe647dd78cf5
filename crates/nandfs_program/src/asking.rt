// Commands on a volume.

use crate::fault::ToolFault;
use plain_volume::ask;
use posix_calls::{Command, FilePath};
use posix_profile::Answers;
use std::alloc::{AllocError, Global};

/// A path of its own.
pub(crate) fn path_of(alloc: Global, path: &[u8]) -> Result<FilePath, AllocError> {
    Ok(FilePath::new(path.to_vec(alloc)?))
}

/// A command that is not refused.
pub(crate) fn change<V: Answers>(
    volume: &mut V,
    moment: u64,
    command: Command,
) -> Result<(), ToolFault> {
    ask(volume, moment, command)?;
    Ok(())
}

/// The path of a name in a directory.
pub(crate) fn below(alloc: Global, directory: &[u8], name: &[u8]) -> Result<Vec<u8>, AllocError> {
    let mut path = directory.to_vec(alloc)?;
    if !directory.ends_with(b"/") {
        path.push(b'/')?;
    }
    path.extend_from_slice(name)?;
    Ok(path)
}
