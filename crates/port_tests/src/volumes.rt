// A volume over a driver in memory.
use crate::chip::Chip;
use line_shell::{Line, parse, write_reply};
use port_nand::{PortDevice, into_port, open};
use posix_calls::{Stamped, Volume, format};
use std::alloc::Global;
use std::process::Abort;

fn formatted(rt: &impl Abort, alloc: Global, tag_bytes: u8) -> Chip {
    let device = open(alloc, Chip::new(rt, alloc, tag_bytes)).expect(rt, "a device");
    match format(alloc, device, 1) {
        Ok(device) => into_port(device),
        Err((_, fault)) => panic!(rt; "{fault:?}"),
    }
}

fn mounted(rt: &impl Abort, alloc: Global, chip: Chip) -> Volume<PortDevice<Chip>> {
    let device = open(alloc, chip).expect(rt, "a device");
    match Volume::mount(alloc, device) {
        Ok(volume) => volume,
        Err((_, fault)) => panic!(rt; "{fault:?}"),
    }
}

/// Mounts, does the commands of the lines, and unmounts; what is answered, a line each.
fn session(rt: &impl Abort, alloc: Global, chip: Chip, lines: &[&str]) -> (Chip, Vec<u8>) {
    let mut volume = mounted(rt, alloc, chip);
    let mut text = Vec::new(alloc);
    for line in lines {
        if let Line::Do(command) = parse(alloc, line.as_bytes()).expect(rt, "a line") {
            let reply = volume.call(&Stamped { moment: 0, command });
            write_reply(&mut text, &reply).expect(rt, "a reply");
        }
    }
    let (device, reply) = volume.unmount();
    write_reply(&mut text, &reply).expect(rt, "a reply");
    (into_port(device), text)
}

#[test]
fn a_volume_is_committed_by_a_driver(rt: HostRuntime) {
    is_committed(&rt, rt.alloc(), 48)
}

#[test]
fn a_volume_is_committed_with_packed_tags(rt: HostRuntime) {
    is_committed(&rt, rt.alloc(), 24)
}

fn is_committed(rt: &impl Abort, alloc: Global, tag_bytes: u8) {
    let (chip, text) = session(
        rt,
        alloc,
        formatted(rt, alloc, tag_bytes),
        &["mkdir /a", "open /a/b rwc", "write 0 hello", "fsync 0"],
    );
    assert!(rt; text.as_slice() == b"ok\nfd 0\nwrote 5\nok\nok\n".as_slice());
    let (mut chip, text) = session(
        rt,
        alloc,
        chip,
        &["list /a", "open /a/b r", "read 0 9", "open /c r"],
    );
    assert!(rt; text.as_slice() == b"names 1 b\nfd 0\ndata 5 hello\nerror ENOENT\nok\n".as_slice());
    // Power is gone two requests after those of a mount and of the reads of a list.
    chip.memory.left = u32::MAX;
    let (mut chip, _) = session(rt, alloc, chip, &["list /"]);
    chip.memory.left = (u32::MAX - chip.memory.left).saturating_add(2);
    let (mut chip, text) = session(
        rt,
        alloc,
        chip,
        &[
            "list /",
            "mkdir /c",
            "sync",
            "list /",
            "unlink /a/b",
            "sync",
        ],
    );
    assert!(rt;
        text.starts_with(b"names 1 a\nok\nerror EIO\nerror EIO\n"),
        "{text:?}"
    );
    chip.memory.left = u32::MAX;
    let (_, text) = session(rt, alloc, chip, &["list /"]);
    assert!(rt; text.starts_with(b"names 1 a\n"), "{text:?}");
}
