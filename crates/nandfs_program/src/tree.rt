// All names of a volume, each deeper one further to the right.

use crate::asking::below;
use crate::fault::ToolFault;
use crate::listing::write_text;
use image_tools::host_name;
use plain_volume::{info_at, names_at};
use posix_calls::Kind;
use posix_profile::Answers;
use std::alloc::Global;
use std::io::Write;

/// A name that waits to be shown: its path, how deep it is, and the name as it is shown.
#[derive(Drop)]
struct Branch {
    path: Vec<u8>,
    depth: usize,
    shown: String,
}

/// Adds the names of a directory so that the first is taken next.
fn add_branches<V: Answers>(
    alloc: Global,
    volume: &mut V,
    branch: &Branch,
    waiting: &mut Vec<Branch>,
) -> Result<(), ToolFault> {
    let names = names_at(alloc, volume, &branch.path)?;
    for name in names.iter().rev() {
        let path = below(alloc, &branch.path, name.as_slice())?;
        let shown = host_name(alloc, name.as_slice())?;
        let depth = branch.depth.saturating_add(1);
        waiting.push(Branch { path, depth, shown })?;
    }
    Ok(())
}

/// Writes a name after two spaces for each directory above it but the root.
fn write_branch<W: Write>(out: &mut W, branch: &Branch, kind: Kind) -> Result<(), ToolFault> {
    for _above in 1..branch.depth {
        write_text(out, "  ")?;
    }
    write_text(out, &branch.shown)?;
    match kind {
        Kind::Directory => write_text(out, "/\n"),
        Kind::File => write_text(out, "\n"),
    }
}

/// Shows all names of a volume, each directory before what it names, with a slash after a directory.
pub fn show_tree<V: Answers, W: Write>(
    alloc: Global,
    volume: &mut V,
    out: &mut W,
) -> Result<(), ToolFault> {
    let root = Branch {
        path: b"/".to_vec(alloc)?,
        depth: 0,
        shown: String::new(alloc),
    };
    let mut waiting = Vec::new(alloc);
    waiting.push(root)?;
    for _round in 0..u64::MAX {
        let Some(branch) = waiting.pop() else {
            break;
        };
        let info = info_at(alloc, volume, &branch.path)?;
        write_branch(out, &branch, info.kind)?;
        if info.kind == Kind::Directory {
            add_branches(alloc, volume, &branch, &mut waiting)?;
        }
    }
    Ok(())
}
