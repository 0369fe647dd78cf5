// Whether there is a volume on a chip.

use crate::chip::{BlockCounts, StateCounts, count_blocks};
use crate::damage::{Damage, find_damage, write_damage};
use crate::fault::ToolFault;
use crate::json::write_json;
use crate::listing::write_text;
use crate::space::{Room, room_of, write_room};
use chip_map::{PageState, Survey, count, survey};
use nand_model::Nand;
use posix_calls::{MountFault, Volume};
use serde::Serialize;
use std::alloc::{AllocError, Global};
use std::io::Write;
use volume_terms::NUMBER_END;

/// How a check is reported.
#[derive(Clone, Copy)]
pub enum CheckForm {
    /// A number a line.
    Short,
    /// With a line for each block that is bad.
    Verbose,
    Json,
}

/// The greatest numbers of all valid tags.
#[derive(Clone, Copy, Serialize)]
struct Greatest {
    version: u64,
    group: u64,
    seq: u64,
}

/// How many groups and blocks can still be numbered, and how often a good block was erased on average since the format, as far as the
/// numbers of blocks say: each block that is allocated is erased, and takes the next number.
#[derive(Clone, Copy, Serialize)]
struct Wear {
    groups_left: u64,
    seqs_left: u64,
    mean_erases: u64,
}

/// What a mount answers, the room of the volume where there is one, where it is damaged, and what is on the chip.
#[derive(Drop, Serialize)]
struct CheckReport {
    answer: &'static str,
    room: Option<Room>,
    damage: Option<Damage>,
    #[serde(flatten)]
    blocks: BlockCounts,
    bad_block_numbers: Vec<u32>,
    pages: StateCounts,
    greatest: Greatest,
    #[serde(flatten)]
    wear: Wear,
}

/// What came of a mount.
#[derive(Drop)]
struct Mounted {
    answer: &'static str,
    room: Option<Room>,
    damage: Option<Damage>,
    ended: Result<(), ToolFault>,
}

/// The word for what a mount answers.
fn answer_of(fault: MountFault) -> &'static str {
    match fault {
        MountFault::NotAVolume => "none",
        MountFault::Newer(_) => "newer",
        MountFault::Damaged => "damaged",
        MountFault::Gone => "gone",
        MountFault::NoMemory => "no_memory",
    }
}

/// The numbers of the blocks that are marked bad.
fn numbers_of_bad(alloc: Global, survey: &Survey) -> Result<Vec<u32>, AllocError> {
    let mut bad = Vec::new(alloc);
    for block in 0..survey.geometry().blocks() {
        if survey
            .block(block)
            .iter()
            .any(|page| page.state == PageState::Bad)
        {
            bad.push(block)?;
        }
    }
    Ok(bad)
}

/// The wear of so many blocks with these greatest numbers.
fn wear_of(greatest: Greatest, blocks: BlockCounts) -> Wear {
    let good = u64::from(blocks.blocks).saturating_sub(u64::from(blocks.bad_blocks));
    Wear {
        groups_left: NUMBER_END.saturating_sub(greatest.group),
        seqs_left: NUMBER_END.saturating_sub(greatest.seq),
        mean_erases: greatest.seq / good.max(1),
    }
}

/// What is on a chip, where a mount answers so.
fn report_of(alloc: Global, survey: &Survey, mounted: Mounted) -> Result<CheckReport, AllocError> {
    let numbers = survey.numbers();
    let greatest = Greatest {
        version: numbers.version,
        group: numbers.group,
        seq: numbers.seq,
    };
    let blocks = count_blocks(survey);
    Ok(CheckReport {
        answer: mounted.answer,
        room: mounted.room,
        damage: mounted.damage,
        blocks,
        bad_block_numbers: numbers_of_bad(alloc, survey)?,
        pages: StateCounts::from(count(survey)),
        greatest,
        wear: wear_of(greatest, blocks),
    })
}

/// Writes how many pages are of each state, the greatest numbers, and the wear.
fn write_numbers<W: Write>(
    alloc: Global,
    out: &mut W,
    report: &CheckReport,
) -> Result<(), ToolFault> {
    let StateCounts {
        current,
        stale,
        erased,
        invalid,
        uncorrectable,
        bad,
    } = report.pages;
    let text = format!(in alloc;
        "current_pages {current}\nstale_pages {stale}\nerased_pages {erased}\ninvalid_pages {invalid}\nuncorrectable_pages {uncorrectable}\nbad_pages {bad}\n"
    )?;
    write_text(out, &text)?;
    let Greatest {
        version,
        group,
        seq,
    } = report.greatest;
    let text = format!(in alloc;
        "greatest_version {version}\ngreatest_group {group}\ngreatest_seq {seq}\n"
    )?;
    write_text(out, &text)?;
    let Wear {
        groups_left,
        seqs_left,
        mean_erases,
    } = report.wear;
    let text = format!(in alloc;
        "groups_left {groups_left}\nseqs_left {seqs_left}\nmean_erases {mean_erases}\n"
    )?;
    write_text(out, &text)
}

/// Writes the numbers of the blocks that are marked bad.
fn write_bad<W: Write>(alloc: Global, out: &mut W, bad: &[u32]) -> Result<(), ToolFault> {
    for block in bad {
        write_text(out, &format!(in alloc; "bad_block {block}\n")?)?;
    }
    Ok(())
}

/// Writes a report in lines.
fn write_report<W: Write>(
    alloc: Global,
    out: &mut W,
    report: &CheckReport,
) -> Result<(), ToolFault> {
    write_text(out, report.answer)?;
    write_text(out, "\n")?;
    if let Some(damage) = &report.damage {
        write_damage(alloc, out, damage)?;
    }
    if let Some(room) = report.room {
        write_room(alloc, out, room, report.blocks)?;
    }
    write_numbers(alloc, out, report)
}

/// Mounts the volume of a device by all tags, and finds where it is damaged.
fn mount_or_find<N: Nand + Drop>(alloc: Global, device: N) -> Result<Mounted, ToolFault> {
    match Volume::mount_scanned(alloc, device) {
        Ok(mut volume) => Ok(Mounted {
            answer: "sound",
            room: Some(room_of(&mut volume)?),
            damage: None,
            ended: Ok(()),
        }),
        Err((device, fault)) => {
            let damage = match fault {
                MountFault::Damaged | MountFault::Newer(_) => Some(find_damage(alloc, device)?),
                _ => None,
            };
            Ok(Mounted {
                answer: answer_of(fault),
                room: None,
                damage,
                ended: Err(ToolFault::Mount(fault)),
            })
        }
    }
}

/// Mounts the volume of a device, and writes what the mount answers, the room of the volume or where it is damaged, and what the
/// pages of the device are. Where there is no volume the fault of the mount comes after that.
pub fn check<N: Nand + Drop, W: Write>(
    alloc: Global,
    device: N,
    out: &mut W,
    form: CheckForm,
) -> Result<(), ToolFault> {
    let mut device = device;
    let survey = survey(alloc, &mut device)?;
    let mounted = mount_or_find(alloc, device)?;
    let ended = mounted.ended;
    let report = report_of(alloc, &survey, mounted)?;
    match form {
        CheckForm::Short => write_report(alloc, out, &report)?,
        CheckForm::Verbose => {
            write_report(alloc, out, &report)?;
            write_bad(alloc, out, &report.bad_block_numbers)?;
        }
        CheckForm::Json => write_json(alloc, out, &report)?,
    }
    ended
}
