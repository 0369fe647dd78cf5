// Files of the host.

use crate::fault::ToolFault;
use std::alloc::Global;
use std::fs::{self, FileTimes, Metadata, OpenFile};
use std::os::unix::fs::MetadataExt;
use std::rt::Files;
use std::time::{Duration, UNIX_EPOCH};

/// The bytes of a file of the host, and the seconds of its last change.
#[derive(Drop)]
pub struct HostFile {
    pub bytes: Vec<u8>,
    pub moment: u64,
}

/// The seconds of the last change, since 1970.
pub(crate) fn moment_of(metadata: &Metadata) -> u64 {
    u64::try_from(metadata.mtime()).unwrap_or(0)
}

/// Reads a file of the host.
pub fn read_file<R: Files + AllocGlobal>(rt: &R, path: &str) -> Result<HostFile, ToolFault> {
    let metadata = fs::metadata(rt, path)?;
    if !metadata.is_file() {
        return Err(ToolFault::Host);
    }
    let bytes = fs::read(rt, path)?;
    let moment = moment_of(&metadata);
    Ok(HostFile { bytes, moment })
}

/// Gives a file or a folder of the host the moment, as seconds since 1970, where the host has such a time.
pub(crate) fn set_moment<R: Files>(rt: &R, path: &str, moment: u64) -> Result<(), ToolFault> {
    if let Some(time) = UNIX_EPOCH.checked_add(Duration::from_secs(moment)) {
        let file = fs::open(rt, path)?;
        file.set_times(FileTimes::new().set_modified(time))?;
    }
    Ok(())
}

/// Writes a file of the host, with the moment.
pub fn copy_out<R: Files>(rt: &R, path: &str, bytes: &[u8], moment: u64) -> Result<(), ToolFault> {
    fs::write(rt, path, bytes)?;
    set_moment(rt, path, moment)
}
