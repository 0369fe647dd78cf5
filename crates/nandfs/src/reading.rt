// The subcommands that take files out of an image.

use crate::files::{device_in, new_meter, volume_in, word};
use clap::ArgMatches;
use image_tools::unpack;
use nand_model::MemNand;
use nandfs_program::{
    Meter, Metered, Salvaged, Stored, ToolFault, copy_out, salvage, show_losses, store,
};
use plain_volume::{bytes_at, info_at};
use salvage::Salvage;

/// Writes the whole volume to a folder of the host, with a line about how far it is.
fn unpack_metered(
    rt: &HostRuntime,
    matches: &ArgMatches<'_>,
    meter: &mut Meter,
) -> Result<Vec<Stored>, ToolFault> {
    let volume = volume_in(rt, matches)?;
    let mut metered = Metered::new(rt, *meter, volume);
    let folder = unpack(rt.alloc(), &mut metered)?;
    *meter = metered.meter;
    store(rt, &folder, word(matches, "FOLDER"), meter)
}

/// Lists the names that differ on the host.
fn show_renamed(rt: &HostRuntime, places: &[Stored]) -> Result<(), ToolFault> {
    for place in places {
        if place.renamed {
            let host = place.host.as_str();
            println!(rt; "{host}")?;
        }
    }
    Ok(())
}

/// What is left of the volume of a device.
fn left_on(rt: &HostRuntime, device: MemNand) -> Result<Salvaged, ToolFault> {
    let alloc = rt.alloc();
    match Salvage::open(alloc, device) {
        Ok(mut left) => salvage(alloc, &mut left),
        Err((_device, fault)) => Err(ToolFault::from(fault)),
    }
}

/// Writes what is left of a volume to a folder of the host, and lists what is lost, and the names that differ there.
fn salvage_image(rt: &HostRuntime, matches: &ArgMatches<'_>) -> Result<(), ToolFault> {
    let left = left_on(rt, device_in(rt, matches)?)?;
    let mut meter = new_meter(rt);
    let stored = store(rt, &left.folder, word(matches, "FOLDER"), &mut meter);
    meter.end(rt);
    show_renamed(rt, &stored?)?;
    show_losses(rt.alloc(), &mut rt.stdout(), &left)?;
    if left.is_whole() {
        Ok(())
    } else {
        Err(ToolFault::Losses)
    }
}

/// Writes the whole volume to a folder of the host, and lists the names that differ there.
pub(crate) fn unpack_image(rt: &HostRuntime, matches: &ArgMatches<'_>) -> Result<(), ToolFault> {
    if matches.get_flag("salvage") {
        return salvage_image(rt, matches);
    }
    let mut meter = new_meter(rt);
    let unpacked = unpack_metered(rt, matches, &mut meter);
    meter.end(rt);
    show_renamed(rt, &unpacked?)
}

/// Writes a file of the volume to one of the host.
pub(crate) fn get(rt: &HostRuntime, matches: &ArgMatches<'_>) -> Result<(), ToolFault> {
    let mut volume = volume_in(rt, matches)?;
    let path = word(matches, "PATH").as_bytes();
    let info = info_at(rt.alloc(), &mut volume, path)?;
    let bytes = bytes_at(rt.alloc(), &mut volume, path)?;
    copy_out(rt, word(matches, "FILE"), &bytes, info.moment)
}
