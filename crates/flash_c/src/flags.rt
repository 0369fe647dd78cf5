// The numbers that represent flags, and for where a seek counts from.
ghost use Rattle.std.specs.Prelude.{◌≡◌};
ghost use Rattle.flash_c.specs.Flags.{is_set, access_of, open_flags, whence};

use posix_calls::{Access, OpenFlags, Whence};

const READ: u32 = 1;

const WRITE: u32 = 2;

const CREATE: u32 = 4;

const EXCLUSIVE: u32 = 8;

const TRUNCATE: u32 = 16;

const APPEND: u32 = 32;

fn is_set(flags: u32, flag: u32) -> bool
    ensures { result ≡ is_set flags flag }
{
    flags & flag != 0
}

fn access_of(reads: bool, writes: bool) -> Access
    ensures { result ≡ access_of reads writes }
{
    match (reads, writes) {
        (_, false) => Access::Read,
        (false, true) => Access::Write,
        (true, true) => Access::Both,
    }
}

/// The flags of a path that is opened, from their sum.
pub(crate) fn open_flags(flags: u32) -> OpenFlags
    ensures { result ≡ open_flags flags }
{
    OpenFlags {
        access: access_of(is_set(flags, READ), is_set(flags, WRITE)),
        create: is_set(flags, CREATE),
        excl: is_set(flags, EXCLUSIVE),
        trunc: is_set(flags, TRUNCATE),
        append: is_set(flags, APPEND),
    }
}

/// Where a seek counts from.
pub(crate) fn whence(from: u32) -> Whence
    ensures { result ≡ whence from }
{
    match from {
        0 => Whence::Set,
        1 => Whence::Cur,
        _ => Whence::End,
    }
}
