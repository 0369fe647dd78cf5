// The commands.
use crate::bytes::{Bytes, FilePath};

/// What an open file may be used for.
#[derive(Clone, Copy, Debug, PartialEq, Eq)]
pub enum Access {
    Read,
    Write,
    Both,
}

/// How a path is opened. `excl` without `create` is ignored.
#[derive(Clone, Copy, Debug, PartialEq, Eq)]
pub struct OpenFlags {
    pub access: Access,
    pub create: bool,
    pub excl: bool,
    pub trunc: bool,
    pub append: bool,
}

/// Where a seek counts from: the file's start, the offset, or the file's end.
#[derive(Clone, Copy, Debug, PartialEq, Eq)]
pub enum Whence {
    Set,
    Cur,
    End,
}

/// One call of the file system. Counts, offsets and lengths are in bytes.
#[derive(Drop, Debug)]
pub enum Command {
    Open {
        path: FilePath,
        flags: OpenFlags,
    },
    Close {
        fd: u32,
    },
    Read {
        fd: u32,
        count: u32,
    },
    Write {
        fd: u32,
        bytes: Bytes,
    },
    Seek {
        fd: u32,
        offset: i64,
        whence: Whence,
    },
    Truncate {
        fd: u32,
        length: i64,
    },
    Fsync {
        fd: u32,
    },
    Sync,
    Stat {
        path: FilePath,
    },
    Mkdir {
        path: FilePath,
    },
    Rmdir {
        path: FilePath,
    },
    Link {
        old: FilePath,
        new: FilePath,
    },
    Unlink {
        path: FilePath,
    },
    Rename {
        old: FilePath,
        new: FilePath,
    },
    List {
        path: FilePath,
    },
    Space,
}

/// A command with the moment that its changes get. Moments may go back.
#[derive(Drop, Debug)]
pub struct Stamped {
    pub moment: u64,
    pub command: Command,
}
