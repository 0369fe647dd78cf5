// The commands over bytes that are borrowed.
ghost use Rattle.std.specs.Prelude.{◌≡◌};
ghost use Rattle.posix_profile.specs.Requests.{command_of, stamped_of};

use crate::command::{Command, OpenFlags, Stamped, Whence};

/// One call of the file system, as a `Command`, over paths and bytes of the caller's. It means the command of the same bytes.
#[derive(Clone, Copy, Debug, PartialEq, Eq)]
pub enum Request<'a> {
    Open {
        path: &'a [u8],
        flags: OpenFlags,
    },
    Close {
        fd: u32,
    },
    Read {
        fd: u32,
        count: u32,
    },
    Write {
        fd: u32,
        bytes: &'a [u8],
    },
    Seek {
        fd: u32,
        offset: i64,
        whence: Whence,
    },
    Truncate {
        fd: u32,
        length: i64,
    },
    Fsync {
        fd: u32,
    },
    Sync,
    Stat {
        path: &'a [u8],
    },
    Mkdir {
        path: &'a [u8],
    },
    Rmdir {
        path: &'a [u8],
    },
    Link {
        old: &'a [u8],
        new: &'a [u8],
    },
    Unlink {
        path: &'a [u8],
    },
    Rename {
        old: &'a [u8],
        new: &'a [u8],
    },
    List {
        path: &'a [u8],
    },
    Space,
}

/// A request with the moment that its changes get.
#[derive(Clone, Copy, Debug, PartialEq, Eq)]
pub struct StampedRequest<'a> {
    pub moment: u64,
    pub request: Request<'a>,
}

impl Command {
    /// The request of its bytes.
    pub fn request(&self) -> Request<'_>
        ensures { command_of result ≡ self.now }
    {
        match self {
            Command::Open { path, flags } => Request::Open {
                path: path.as_slice(),
                flags: *flags,
            },
            Command::Close { fd } => Request::Close { fd: *fd },
            Command::Read { fd, count } => Request::Read {
                fd: *fd,
                count: *count,
            },
            Command::Write { fd, bytes } => Request::Write {
                fd: *fd,
                bytes: bytes.as_slice(),
            },
            Command::Seek { fd, offset, whence } => Request::Seek {
                fd: *fd,
                offset: *offset,
                whence: *whence,
            },
            Command::Truncate { fd, length } => Request::Truncate {
                fd: *fd,
                length: *length,
            },
            Command::Fsync { fd } => Request::Fsync { fd: *fd },
            Command::Sync => Request::Sync,
            Command::Stat { path } => Request::Stat {
                path: path.as_slice(),
            },
            Command::Mkdir { path } => Request::Mkdir {
                path: path.as_slice(),
            },
            Command::Rmdir { path } => Request::Rmdir {
                path: path.as_slice(),
            },
            Command::Link { old, new } => Request::Link {
                old: old.as_slice(),
                new: new.as_slice(),
            },
            Command::Unlink { path } => Request::Unlink {
                path: path.as_slice(),
            },
            Command::Rename { old, new } => Request::Rename {
                old: old.as_slice(),
                new: new.as_slice(),
            },
            Command::List { path } => Request::List {
                path: path.as_slice(),
            },
            Command::Space => Request::Space,
        }
    }
}

impl Stamped {
    /// The request of its bytes, with its moment.
    pub fn as_request(&self) -> StampedRequest<'_>
        ensures { stamped_of result ≡ self.now }
    {
        StampedRequest {
            moment: self.moment,
            request: self.command.request(),
        }
    }
}
