// The subcommands that write what they find to standard output.

use crate::bench::measure_lines;
use crate::chip::{check_image, draw_map, dump_pages, write_space};
use crate::files::{volume_in, word};
use clap::ArgMatches;
use nandfs_program::{
    Listing, ToolFault, list, list_as_json, show_file, show_status, show_status_as_json, show_tree,
};
use std::io::{BufWriter, Write};

/// How names are listed.
fn listing_in(matches: &ArgMatches<'_>) -> Listing {
    Listing {
        long: matches.get_flag("long"),
        all_below: matches.get_flag("recursive"),
    }
}

/// Writes what a subcommand reports of the volume.
fn write_volume_report<W: Write>(
    rt: &HostRuntime,
    name: &str,
    matches: &ArgMatches<'_>,
    out: &mut W,
) -> Result<(), ToolFault> {
    let alloc = rt.alloc();
    let mut volume = volume_in(rt, matches)?;
    let path = matches.get_str("PATH").unwrap_or("/").as_bytes();
    let listing = listing_in(matches);
    match (name, matches.get_flag("json")) {
        ("ls", false) => list(alloc, &mut volume, out, path, listing),
        ("ls", true) => list_as_json(alloc, &mut volume, out, path, listing.all_below),
        ("tree", _) => show_tree(alloc, &mut volume, out),
        ("cat", _) => show_file(alloc, &mut volume, out, path),
        (_, false) => show_status(alloc, &mut volume, out, path),
        (_, true) => show_status_as_json(alloc, &mut volume, out, path),
    }
}

/// Writes what a subcommand reports.
fn write_report<W: Write>(
    rt: &HostRuntime,
    name: &str,
    matches: &ArgMatches<'_>,
    out: &mut W,
) -> Result<(), ToolFault> {
    match name {
        "df" => write_space(rt, matches, out),
        "map" => draw_map(rt, matches, out),
        "dump" => dump_pages(rt, matches, out),
        "check" => check_image(rt, matches, out),
        "bench" => measure_lines(rt, matches, out),
        _ => write_volume_report(rt, name, matches, out),
    }
}

/// Writes what a subcommand reports to standard output, up to where it fails.
pub(crate) fn show(
    rt: &HostRuntime,
    name: &str,
    matches: &ArgMatches<'_>,
) -> Result<(), ToolFault> {
    let mut out = BufWriter::new(rt.alloc(), rt.stdout())?;
    let written = write_report(rt, name, matches, &mut out);
    match out.flush() {
        Ok(()) => written,
        Err(_) => Err(ToolFault::Output),
    }
}
