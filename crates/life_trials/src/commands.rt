// Commands over a few paths and descriptors, so that many are done and many are refused.
ghost use Rattle.std.specs.Prelude.{◌≤◌, ◌<◌};

use posix_calls::{Access, Bytes, Command, FilePath, OpenFlags, Stamped, Whence};
use rand_core::Rng;
use rand_pcg::Lcg128Xsl64;
use std::alloc::{AllocError, Global};

/// The root, names in it, and the same names below the first of them.
const PATHS: [&str; 9] = ["/", "/a", "/b", "/c", "/d", "/a/a", "/a/b", "/a/c", "/a/d"];

/// A number below a bound, 0 where that is 0.
pub(crate) fn below(random: &mut Lcg128Xsl64, bound: u32) -> u32
    ensures { 1 ≤ bound → result < bound }
{
    let word = (random.next_u64() % 4_294_967_296) as u32;
    word % bound.max(1)
}

/// Once in so many times.
fn rarely(random: &mut Lcg128Xsl64, times: u32) -> bool {
    below(random, times) == 0
}

fn path(alloc: Global, random: &mut Lcg128Xsl64) -> Result<FilePath, AllocError> {
    let text = match PATHS.get(below(random, 9) as usize) {
        Some(text) => text,
        None => "/",
    };
    Ok(FilePath::new(text.as_bytes().to_vec(alloc)?))
}

fn flags(random: &mut Lcg128Xsl64) -> OpenFlags {
    let access = match below(random, 4) {
        0 => Access::Read,
        1 => Access::Write,
        _ => Access::Both,
    };
    OpenFlags {
        access,
        create: !rarely(random, 3),
        excl: rarely(random, 6),
        trunc: rarely(random, 6),
        append: rarely(random, 5),
    }
}

fn bytes(alloc: Global, random: &mut Lcg128Xsl64) -> Result<Bytes, AllocError> {
    let count = below(random, 3000);
    let first = below(random, 256);
    let mut bytes = Vec::with_capacity(alloc, count as usize)?;
    for place in 0..count {
        bytes.push((first.wrapping_add(place / 7) % 256) as u8)?;
    }
    Ok(Bytes::new(bytes))
}

fn whence(random: &mut Lcg128Xsl64) -> Whence {
    match below(random, 4) {
        0 => Whence::Cur,
        1 => Whence::End,
        _ => Whence::Set,
    }
}

/// A descriptor. Few are open at a time.
fn descriptor(random: &mut Lcg128Xsl64) -> u32 {
    below(random, 5)
}

/// A number from some bytes before 0 on.
fn offset(random: &mut Lcg128Xsl64) -> i64 {
    i64::from(below(random, 9000)).wrapping_sub(500)
}

/// A command of a descriptor.
fn descriptor_command(
    alloc: Global,
    random: &mut Lcg128Xsl64,
    kind: u32,
) -> Result<Command, AllocError> {
    let fd = descriptor(random);
    Ok(match kind {
        0 => Command::Close { fd },
        1 => Command::Read {
            fd,
            count: below(random, 4000),
        },
        2 => Command::Seek {
            fd,
            offset: offset(random),
            whence: whence(random),
        },
        3 => Command::Truncate {
            fd,
            length: offset(random),
        },
        4 => Command::Fsync { fd },
        _ => Command::Write {
            fd,
            bytes: bytes(alloc, random)?,
        },
    })
}

/// A command of one path or of two.
fn path_command(alloc: Global, random: &mut Lcg128Xsl64, kind: u32) -> Result<Command, AllocError> {
    let path = path(alloc, random)?;
    Ok(match kind {
        6 => Command::Stat { path },
        7 => Command::Mkdir { path },
        8 => Command::Rmdir { path },
        9 => Command::Unlink { path },
        10 => Command::List { path },
        11 => Command::Link {
            old: path,
            new: self::path(alloc, random)?,
        },
        12 => Command::Rename {
            old: path,
            new: self::path(alloc, random)?,
        },
        _ => Command::Open {
            path,
            flags: flags(random),
        },
    })
}

/// A command of any kind, at a moment that may go back.
pub(crate) fn draw_command(alloc: Global, random: &mut Lcg128Xsl64) -> Result<Stamped, AllocError> {
    let moment = u64::from(below(random, 100));
    let command = match below(random, 20) {
        18 => Command::Sync,
        19 => Command::Space,
        kind if kind < 6 => descriptor_command(alloc, random, kind)?,
        kind => path_command(alloc, random, kind)?,
    };
    Ok(Stamped { moment, command })
}
