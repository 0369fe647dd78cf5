// The replies.
use crate::bytes::{Bytes, NameList};

/// Why a command changed nothing, by the names of POSIX.
#[derive(Clone, Copy, Debug, PartialEq, Eq)]
pub enum Errno {
    EBADF,
    EBUSY,
    EEXIST,
    EFBIG,
    EINVAL,
    EIO,
    EISDIR,
    EMFILE,
    ENAMETOOLONG,
    ENOENT,
    ENOMEM,
    ENOSPC,
    ENOTDIR,
    ENOTEMPTY,
    EOVERFLOW,
    EPERM,
    EROFS,
}

#[derive(Clone, Copy, Debug, PartialEq, Eq)]
pub enum Kind {
    File,
    Directory,
}

/// What is reported of an object. `size` counts the bytes of a file, and is 0 for a directory; `moment` is that of its last change.
#[derive(Clone, Copy, Debug, PartialEq, Eq)]
pub struct Info {
    pub kind: Kind,
    pub object: u64,
    pub links: u64,
    pub size: u64,
    pub moment: u64,
}

/// The room of a volume: `total` and `free` count units of `unit` bytes.
#[derive(Clone, Copy, Debug, PartialEq, Eq)]
pub struct SpaceInfo {
    pub unit: u64,
    pub total: u64,
    pub free: u64,
}

/// The answer to a command.
#[derive(Drop, Debug)]
pub enum Reply {
    Done,
    Fd(u32),
    Data(Bytes),
    Wrote(u32),
    At(u64),
    Info(Info),
    Names(NameList),
    SpaceInfo(SpaceInfo),
    Error(Errno),
}
