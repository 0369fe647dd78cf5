// The commands by their names and words.
ghost use Rattle.std.specs.Prelude.{◌≡◌};
ghost use Rattle.line_shell.specs.Commands.{whence_of, bare_command, command_of_one, command_of_two, command_of_three, command_of};

use crate::flags::flags_of;
use crate::number::{number_32, signed_number};
use posix_profile::{Bytes, Command, FilePath, Whence};

fn whence_of(word: &[u8]) -> Option<Whence>
    ensures { result ≡ whence_of word.now }
{
    if word == b"set".as_slice() {
        Some(Whence::Set)
    } else if word == b"cur".as_slice() {
        Some(Whence::Cur)
    } else if word == b"end".as_slice() {
        Some(Whence::End)
    } else {
        None
    }
}

fn path_of(word: Bytes) -> FilePath
    ensures { result ≡ word }
{
    FilePath::new(word.into_vec())
}

/// The command of a name alone.
fn bare_command(name: &[u8]) -> Option<Command>
    ensures { result ≡ bare_command name.now }
{
    if name == b"sync".as_slice() {
        Some(Command::Sync)
    } else if name == b"space".as_slice() {
        Some(Command::Space)
    } else {
        None
    }
}

/// The command of a name and one word.
fn command_of_one(name: &[u8], word: Bytes) -> Option<Command>
    ensures { result ≡ command_of_one name.now word }
{
    if name == b"close".as_slice() {
        let fd = number_32(word.as_slice())?;
        Some(Command::Close { fd })
    } else if name == b"fsync".as_slice() {
        let fd = number_32(word.as_slice())?;
        Some(Command::Fsync { fd })
    } else if name == b"stat".as_slice() {
        Some(Command::Stat {
            path: path_of(word),
        })
    } else if name == b"mkdir".as_slice() {
        Some(Command::Mkdir {
            path: path_of(word),
        })
    } else if name == b"rmdir".as_slice() {
        Some(Command::Rmdir {
            path: path_of(word),
        })
    } else if name == b"unlink".as_slice() {
        Some(Command::Unlink {
            path: path_of(word),
        })
    } else if name == b"list".as_slice() {
        Some(Command::List {
            path: path_of(word),
        })
    } else {
        None
    }
}

/// The command of a name and two words.
fn command_of_two(name: &[u8], first: Bytes, second: Bytes) -> Option<Command>
    ensures { result ≡ command_of_two name.now first second }
{
    if name == b"open".as_slice() {
        let flags = flags_of(second.as_slice())?;
        Some(Command::Open {
            path: path_of(first),
            flags,
        })
    } else if name == b"read".as_slice() {
        let fd = number_32(first.as_slice())?;
        let count = number_32(second.as_slice())?;
        Some(Command::Read { fd, count })
    } else if name == b"write".as_slice() {
        let fd = number_32(first.as_slice())?;
        Some(Command::Write { fd, bytes: second })
    } else if name == b"truncate".as_slice() {
        let fd = number_32(first.as_slice())?;
        let length = signed_number(second.as_slice())?;
        Some(Command::Truncate { fd, length })
    } else if name == b"link".as_slice() {
        Some(Command::Link {
            old: path_of(first),
            new: path_of(second),
        })
    } else if name == b"rename".as_slice() {
        Some(Command::Rename {
            old: path_of(first),
            new: path_of(second),
        })
    } else {
        None
    }
}

/// The command of a name and three words.
fn command_of_three(name: &[u8], first: &[u8], second: &[u8], third: &[u8]) -> Option<Command>
    ensures { result ≡ command_of_three name.now first.now second.now third.now }
{
    if name != b"seek".as_slice() {
        return None;
    }
    let fd = number_32(first)?;
    let offset = signed_number(second)?;
    let whence = whence_of(third)?;
    Some(Command::Seek { fd, offset, whence })
}

/// The command that words ask for: a name, and what its kind of line has after it.
pub fn command_of(words: Vec<Bytes>) -> Option<Command>
    ensures { result ≡ command_of words.items }
{
    let mut words = words.into_iter();
    let name = words.next()?;
    let name = name.as_slice();
    match (words.next(), words.next(), words.next(), words.next()) {
        (None, _, _, _) => bare_command(name),
        (Some(word), None, _, _) => command_of_one(name, word),
        (Some(first), Some(second), None, _) => command_of_two(name, first, second),
        (Some(first), Some(second), Some(third), None) => {
            command_of_three(name, first.as_slice(), second.as_slice(), third.as_slice())
        }
        _ => None,
    }
}
