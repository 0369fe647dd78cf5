// The subcommand that measures lines over a fresh volume.

use crate::files::sizes_in;
use clap::ArgMatches;
use nandfs_program::{Bench, BenchForm, FlashTimes, ToolFault, bench, nanoseconds_in, show_bench};
use std::fs;
use std::io::{BufWriter, Read, Write};

/// The lines of standard input.
fn lines_in(rt: &HostRuntime) -> Result<String, ToolFault> {
    let mut lines = String::new(rt.alloc());
    rt.stdin().lock().read_to_string(&mut lines)?;
    Ok(lines)
}

/// A time that an option gives, in nanoseconds.
fn time_in(matches: &ArgMatches<'_>, name: &str) -> Result<u64, ToolFault> {
    nanoseconds_in(matches.get_str(name).unwrap_or(""))
}

/// The times of the flash.
fn times_in(matches: &ArgMatches<'_>) -> Result<FlashTimes, ToolFault> {
    Ok(FlashTimes {
        read: time_in(matches, "read-us")?,
        tag: time_in(matches, "tag-us")?,
        program: time_in(matches, "program-us")?,
        erase: time_in(matches, "erase-us")?,
    })
}

/// How a run is reported on standard output.
fn form_in(matches: &ArgMatches<'_>) -> BenchForm {
    if matches.get_flag("json") {
        BenchForm::Json
    } else if matches.get_flag("time") {
        BenchForm::Timed
    } else {
        BenchForm::Text
    }
}

/// Draws the erases of each block in the file that is named, if one is.
fn draw_erases(
    rt: &HostRuntime,
    matches: &ArgMatches<'_>,
    measured: &Bench,
    times: FlashTimes,
) -> Result<(), ToolFault> {
    let Some(path) = matches.get_str("svg") else {
        return Ok(());
    };
    let mut file = BufWriter::new(rt.alloc(), fs::create(rt, path)?)?;
    show_bench(rt.alloc(), &mut file, measured, times, BenchForm::Svg)?;
    file.flush()?;
    Ok(())
}

/// Measures the lines of standard input.
pub(crate) fn measure_lines<W: Write>(
    rt: &HostRuntime,
    matches: &ArgMatches<'_>,
    out: &mut W,
) -> Result<(), ToolFault> {
    let times = times_in(matches)?;
    let lines = lines_in(rt)?;
    let measured = bench(rt, rt.alloc(), sizes_in(matches), &lines)?;
    draw_erases(rt, matches, &measured, times)?;
    show_bench(rt.alloc(), out, &measured, times, form_in(matches))
}
