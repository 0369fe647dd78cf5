// The subcommands that make or change an image.

use crate::files::{new_meter, now, open_to_change, sizes_in, word};
use clap::ArgMatches;
use image_tools::refusals;
use nand_image::ImageNand;
use nandfs_program::{
    Meter, Scan, ToolFault, copy_in, end_image, greatest_file, least_blocks, link, make_directory,
    make_image, move_to, read_file, remove, scan_folder, units_of, volume_to_change,
};
use posix_calls::Volume;
use std::fs::File;

/// Makes an image with an empty volume.
pub(crate) fn make_empty_image(
    rt: &HostRuntime,
    matches: &ArgMatches<'_>,
) -> Result<(), ToolFault> {
    let mut meter = new_meter(rt);
    make_image(
        rt,
        word(matches, "IMAGE"),
        sizes_in(matches),
        None,
        &mut meter,
    )
}

/// Lists what no volume can have, which is a fault unless it is to be left out.
fn report_others(
    rt: &HostRuntime,
    scan: &Scan,
    greatest: u64,
    skip: bool,
) -> Result<(), ToolFault> {
    for other in &scan.others {
        let path = other.as_str();
        eprintln!(rt; "left out: {path}")?;
    }
    let refused = refusals(rt.alloc(), &scan.folder, greatest)?;
    if !refused.is_empty() || (!skip && !scan.others.is_empty()) {
        return Err(ToolFault::Others);
    }
    Ok(())
}

/// Makes an image of a folder of the host, with a line about how far it is.
fn pack_metered(
    rt: &HostRuntime,
    matches: &ArgMatches<'_>,
    meter: &mut Meter,
) -> Result<(), ToolFault> {
    let mut sizes = sizes_in(matches);
    let greatest = greatest_file(sizes)?;
    let scan = scan_folder(rt, word(matches, "FOLDER"), greatest, meter)?;
    meter.end(rt);
    report_others(rt, &scan, greatest, matches.get_flag("skip-others"))?;
    if matches.get_flag("size-from-content") {
        sizes.blocks = least_blocks(units_of(&scan.folder, sizes.data), sizes)?;
    }
    make_image(rt, word(matches, "IMAGE"), sizes, Some(&scan.folder), meter)
}

/// Makes an image of a folder of the host.
pub(crate) fn pack_folder(rt: &HostRuntime, matches: &ArgMatches<'_>) -> Result<(), ToolFault> {
    let mut meter = new_meter(rt);
    let packed = pack_metered(rt, matches, &mut meter);
    meter.end(rt);
    packed
}

/// Does a change of a volume.
fn change(
    rt: &HostRuntime,
    name: &str,
    matches: &ArgMatches<'_>,
    volume: &mut Volume<ImageNand<File>>,
) -> Result<(), ToolFault> {
    let alloc = rt.alloc();
    let moment = now(rt);
    let path = word(matches, "PATH").as_bytes();
    let old = word(matches, "OLD").as_bytes();
    let new = word(matches, "NEW").as_bytes();
    match name {
        "put" => {
            let file = read_file(rt, word(matches, "FILE"))?;
            copy_in(alloc, volume, moment, path, &file)
        }
        "mkdir" => make_directory(alloc, volume, moment, path),
        "rm" => remove(alloc, volume, moment, path, matches.get_flag("recursive")),
        "mv" => move_to(alloc, volume, moment, old, new),
        _ => link(alloc, volume, moment, old, new),
    }
}

/// Changes the image that is named.
pub(crate) fn change_image(
    rt: &HostRuntime,
    name: &str,
    matches: &ArgMatches<'_>,
) -> Result<(), ToolFault> {
    let file = open_to_change(rt, word(matches, "IMAGE"))?;
    let mut volume = volume_to_change(rt.alloc(), file)?;
    let outcome = change(rt, name, matches, &mut volume);
    end_image(volume)?;
    outcome
}
