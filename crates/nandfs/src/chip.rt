// The subcommands that report the chip of an image, and the room on it.

use crate::files::{device_in, volume_in};
use clap::ArgMatches;
use nandfs_program::{
    CheckForm, Drawing, Marked, ToolFault, blocks_of, check, mount, show_dump, show_map,
    show_space, show_space_as_json,
};
use plain_volume::info_at;
use std::fs;
use std::io::{BufWriter, IsTerminal, Write};

/// Writes the room of the volume.
pub(crate) fn write_space<W: Write>(
    rt: &HostRuntime,
    matches: &ArgMatches<'_>,
    out: &mut W,
) -> Result<(), ToolFault> {
    let alloc = rt.alloc();
    let mut device = device_in(rt, matches)?;
    let blocks = blocks_of(alloc, &mut device)?;
    let mut volume = mount(alloc, device)?;
    if matches.get_flag("json") {
        show_space_as_json(alloc, &mut volume, out, blocks)
    } else {
        show_space(alloc, &mut volume, out, blocks)
    }
}

/// The object whose pages are marked on a map: that of a number or of a path.
fn marked_in(rt: &HostRuntime, matches: &ArgMatches<'_>) -> Result<Marked, ToolFault> {
    if let Some(number) = matches.get_one("object") {
        return Ok(Marked::Object(number));
    }
    let Some(path) = matches.get_str("PATH") else {
        return Ok(Marked::Nothing);
    };
    let mut volume = volume_in(rt, matches)?;
    let info = info_at(rt.alloc(), &mut volume, path.as_bytes())?;
    Ok(Marked::Object(info.object))
}

/// How a map is shown on standard output.
fn drawing_in(rt: &HostRuntime, matches: &ArgMatches<'_>) -> Drawing {
    if matches.get_flag("json") {
        Drawing::Json
    } else if rt.stdout().is_terminal() {
        Drawing::Colours
    } else {
        Drawing::Text
    }
}

/// Draws what the pages of the device are.
pub(crate) fn draw_map<W: Write>(
    rt: &HostRuntime,
    matches: &ArgMatches<'_>,
    out: &mut W,
) -> Result<(), ToolFault> {
    let marked = marked_in(rt, matches)?;
    let mut device = device_in(rt, matches)?;
    let Some(path) = matches.get_str("svg") else {
        return show_map(
            rt.alloc(),
            &mut device,
            out,
            marked,
            drawing_in(rt, matches),
        );
    };
    let mut file = BufWriter::new(rt.alloc(), fs::create(rt, path)?)?;
    show_map(rt.alloc(), &mut device, &mut file, marked, Drawing::Svg)?;
    file.flush()?;
    Ok(())
}

/// Writes a page of a block, or the tags of all its pages.
pub(crate) fn dump_pages<W: Write>(
    rt: &HostRuntime,
    matches: &ArgMatches<'_>,
    out: &mut W,
) -> Result<(), ToolFault> {
    let mut device = device_in(rt, matches)?;
    let block = matches.get_one("BLOCK").unwrap_or(0);
    let page = matches.get_one("PAGE");
    show_dump(rt.alloc(), &mut device, out, block, page)
}

/// How a check is reported.
fn form_in(matches: &ArgMatches<'_>) -> CheckForm {
    if matches.get_flag("json") {
        CheckForm::Json
    } else if matches.get_flag("verbose") {
        CheckForm::Verbose
    } else {
        CheckForm::Short
    }
}

/// Reports whether a volume is on the device.
pub(crate) fn check_image<W: Write>(
    rt: &HostRuntime,
    matches: &ArgMatches<'_>,
    out: &mut W,
) -> Result<(), ToolFault> {
    let device = device_in(rt, matches)?;
    check(rt.alloc(), device, out, form_in(matches))
}
