// The files and images that words name.

use clap::ArgMatches;
use nand_model::MemNand;
use nandfs_program::{ImageSizes, Meter, ToolFault, device_to_read, volume_to_read};
use posix_calls::Volume;
use std::fs::{File, OpenOptions};
use std::io::IsTerminal;
use std::time::{SystemTime, UNIX_EPOCH};

/// A word, which is there.
pub(crate) fn word<'a>(matches: &ArgMatches<'a>, name: &str) -> &'a str {
    matches.get_str(name).unwrap_or("")
}

/// The sizes that the options say.
pub(crate) fn sizes_in(matches: &ArgMatches<'_>) -> ImageSizes {
    ImageSizes {
        data: matches.get_one("data").unwrap_or(2048),
        pages: matches.get_one("pages").unwrap_or(64),
        blocks: matches.get_one("blocks").unwrap_or(64),
        reserve: matches.get_one("reserve").unwrap_or(2),
    }
}

/// An image that is read alone.
fn open_to_read(rt: &HostRuntime, path: &str) -> Result<File, ToolFault> {
    Ok(OpenOptions::new().read(true).open(rt, path)?)
}

/// An image that is changed.
pub(crate) fn open_to_change(rt: &HostRuntime, path: &str) -> Result<File, ToolFault> {
    Ok(OpenOptions::new().read(true).write(true).open(rt, path)?)
}

/// The device of the image that is named, to be read alone.
pub(crate) fn device_in(rt: &HostRuntime, matches: &ArgMatches<'_>) -> Result<MemNand, ToolFault> {
    let file = open_to_read(rt, word(matches, "IMAGE"))?;
    device_to_read(rt.alloc(), file)
}

/// The volume of the image that is named, to be read alone.
pub(crate) fn volume_in(
    rt: &HostRuntime,
    matches: &ArgMatches<'_>,
) -> Result<Volume<MemNand>, ToolFault> {
    let file = open_to_read(rt, word(matches, "IMAGE"))?;
    volume_to_read(rt.alloc(), file)
}

/// How far long work is, which is shown where standard error is a terminal.
pub(crate) fn new_meter(rt: &HostRuntime) -> Meter {
    Meter::new(rt.stderr().is_terminal())
}

/// The seconds since 1970.
pub(crate) fn now(rt: &HostRuntime) -> u64 {
    match SystemTime::now(rt) {
        Ok(time) => match time.duration_since(UNIX_EPOCH) {
            Ok(since) => since.as_secs(),
            Err(_) => 0,
        },
        Err(_) => 0,
    }
}
