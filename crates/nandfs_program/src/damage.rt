// Where a volume is damaged.

use crate::fault::ToolFault;
use crate::listing::{shown_path, write_text};
use nand_model::Nand;
use page_tags::HeaderFault;
use serde::Serialize;
use std::alloc::{AllocError, Global};
use std::io::Write;
use volume_check::{Diagnosis, Rule, diagnose};
use volume_terms::ROOT;

/// The first rule of a tree that is broken, with the object, the chunk and the path that break it, and the place of the page, where
/// there is one.
#[derive(Drop, Serialize)]
pub(crate) struct Damage {
    rule: String,
    object: u64,
    chunk: u64,
    path: String,
    block: Option<u32>,
    page: Option<u32>,
}

/// What is said of a rule that is broken.
fn rule_text(alloc: Global, rule: Rule) -> Result<String, AllocError> {
    let text = match rule {
        Rule::HeaderMissing => "the object has no header",
        Rule::NoHeader(HeaderFault::Newer(_)) => "the header is of a newer format",
        Rule::NoHeader(_) => "the page of chunk 0 is no header",
        Rule::RootIsFile => "the root is a file",
        Rule::TooManySpare(_) => "more blocks are spare than the device can have",
        Rule::ChunkMissing => "the chunk has no page",
        Rule::NoSlot(place) => return format!(in alloc; "slot {place} of the page is none"),
        Rule::NameTwice(place) => {
            return format!(in alloc;
                "slot {place} of the page has a name that an earlier slot has"
            );
        }
        Rule::DirectoryTwice => "the directory is named again",
    };
    String::from_str(alloc, text)
}

/// What a mount refuses of a tree that breaks no rule.
fn want_of_room(alloc: Global) -> Result<Damage, AllocError> {
    Ok(Damage {
        rule: String::from_str(
            alloc,
            "the tree needs more room, or more free blocks, than there are",
        )?,
        object: ROOT,
        chunk: 0,
        path: String::from_str(alloc, "/")?,
        block: None,
        page: None,
    })
}

/// The rule that is broken, or the want of room for a tree that breaks none.
fn damage_of(alloc: Global, found: &Diagnosis) -> Result<Damage, ToolFault> {
    let Some(finding) = &found.finding else {
        return Ok(want_of_room(alloc)?);
    };
    Ok(Damage {
        rule: rule_text(alloc, finding.broken.rule)?,
        object: finding.broken.key.object,
        chunk: finding.broken.key.chunk,
        path: shown_path(alloc, &finding.path)?,
        block: found.place.map(|place| place.block),
        page: found.place.map(|place| place.page),
    })
}

/// Finds what is wrong on a device whose mount finds no sound volume: the first rule of its tree that is broken, or that it has no room.
pub(crate) fn find_damage<N: Nand + Drop>(alloc: Global, device: N) -> Result<Damage, ToolFault> {
    let (_device, found) = diagnose(alloc, device);
    damage_of(alloc, &found?)
}

/// Writes the rule that is broken, and by what, in lines.
pub(crate) fn write_damage<W: Write>(
    alloc: Global,
    out: &mut W,
    damage: &Damage,
) -> Result<(), ToolFault> {
    let rule = damage.rule.as_str();
    let object = damage.object;
    let chunk = damage.chunk;
    let path = damage.path.as_str();
    let text = format!(in alloc; "rule {rule}\nobject {object}\nchunk {chunk}\npath {path}\n")?;
    write_text(out, &text)?;
    if let (Some(block), Some(page)) = (damage.block, damage.page) {
        write_text(out, &format!(in alloc; "block {block}\npage {page}\n")?)?;
    }
    Ok(())
}
