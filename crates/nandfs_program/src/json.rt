// What is listed and reported, as JSON.

use crate::fault::ToolFault;
use crate::listing::{shown_path, write_text};
use crate::showing::kind_name;
use crate::walking::{Child, Walk, last_name};
use image_tools::host_name;
use plain_volume::info_at;
use posix_calls::{Info, Kind};
use posix_profile::Answers;
use serde::Serialize;
use std::alloc::{AllocError, Global};
use std::io::Write;
use std::str;

/// A path, its last name, and what it leads to. Both are as in the volume where the path is UTF-8; else they are escaped, as names
/// on a host are.
#[derive(Drop, Serialize)]
struct Entry {
    path: String,
    name: String,
    escaped: bool,
    kind: &'static str,
    object: u64,
    links: u64,
    bytes: u64,
    moment: u64,
}

/// A path and its last name as text, escaped where the path is no UTF-8.
fn texts_of(alloc: Global, path: &[u8]) -> Result<(String, String, bool), ToolFault> {
    let name = last_name(path);
    match (str::from_utf8(path), str::from_utf8(name)) {
        (Ok(path), Ok(name)) => {
            let path = String::from_str(alloc, path)?;
            let name = String::from_str(alloc, name)?;
            Ok((path, name, false))
        }
        _ => Ok((shown_path(alloc, path)?, host_name(alloc, name)?, true)),
    }
}

/// What JSON has of a path.
fn entry_of(alloc: Global, path: &[u8], info: &Info) -> Result<Entry, ToolFault> {
    let (path, name, escaped) = texts_of(alloc, path)?;
    Ok(Entry {
        path,
        name,
        escaped,
        kind: kind_name(info.kind),
        object: info.object,
        links: info.links,
        bytes: info.size,
        moment: info.moment,
    })
}

/// Writes JSON in which no control character is as it is: those that JSON may have in a string are escapes too.
fn printed(alloc: Global, json: &str) -> Result<String, AllocError> {
    let mut text = String::new(alloc);
    for character in json.chars() {
        if character.is_control() {
            let code = u32::from(character);
            write!(text, "\\u{code:04x}")?;
        } else {
            text.push(character)?;
        }
    }
    Ok(text)
}

/// Writes a value as a line of JSON.
pub(crate) fn write_json<T: Serialize, W: Write>(
    alloc: Global,
    out: &mut W,
    value: &T,
) -> Result<(), ToolFault> {
    let json = match serde_json::to_string(alloc, value) {
        Ok(json) => json,
        Err(error) if error.is_memory() => return Err(ToolFault::NoMemory),
        Err(_) => return Err(ToolFault::Output),
    };
    let text = printed(alloc, json.as_str())?;
    write_text(out, &text)?;
    write_text(out, "\n")
}

/// Adds the names of a directory.
fn add_entries(
    alloc: Global,
    entries: &mut Vec<Entry>,
    children: &[Child],
) -> Result<(), ToolFault> {
    for child in children {
        entries.push(entry_of(alloc, &child.path, &child.info)?)?;
    }
    Ok(())
}

/// Writes an array of the names in a directory, or in it and all those below it; of a file, an array of it alone.
pub fn list_as_json<V: Answers, W: Write>(
    alloc: Global,
    volume: &mut V,
    out: &mut W,
    path: &[u8],
    all_below: bool,
) -> Result<(), ToolFault> {
    let info = info_at(alloc, volume, path)?;
    let mut entries = Vec::new(alloc);
    if info.kind == Kind::File {
        entries.push(entry_of(alloc, path, &info)?)?;
        return write_json(alloc, out, &entries);
    }
    let mut walk = Walk::new(alloc, path, all_below)?;
    for _directory in 0..u64::MAX {
        let Some(directory) = walk.next_directory(alloc, volume)? else {
            break;
        };
        add_entries(alloc, &mut entries, &directory.children)?;
    }
    write_json(alloc, out, &entries)
}

/// Writes an object with what a path leads to.
pub fn show_status_as_json<V: Answers, W: Write>(
    alloc: Global,
    volume: &mut V,
    out: &mut W,
    path: &[u8],
) -> Result<(), ToolFault> {
    let info = info_at(alloc, volume, path)?;
    let entry = entry_of(alloc, path, &info)?;
    write_json(alloc, out, &entry)
}
