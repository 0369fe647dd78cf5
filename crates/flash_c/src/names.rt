// The names of a directory in the caller's buffer.
ghost use Rattle.std.specs.Prelude.{◌≡◌, ◌≤◌, ◌<◌, ◌+◌, ◌++◌, ◌∷◌, MatchOption, length, take, drop};
ghost use Rattle.flash_c.specs.Filling.{names_bytes, names_number, names_filled};

use crate::numbers::{NO_ROOM, error_number, signed};
use posix_calls::{Bytes, Errno, Reply};

/// How many bytes the names take with a zero after each, if these are no more than `room`.
fn names_length(names: &[Bytes], room: usize) -> Option<usize>
    ensures { MatchOption result (room < length (names_bytes names.now)) (λ n. (n ≡ length (names_bytes names.now)) × (n ≤ room)) }
{
    let mut length = 0usize;
    for name in names {
        let bytes = name.as_slice();
        if bytes.len() >= room - length {
            return None;
        }
        length += bytes.len() + 1;
    }
    Some(length)
}

/// Copies a name to a place of the buffer, with a zero after it.
pub(crate) fn copy_name(buffer: &mut [u8], at: usize, name: &[u8])
    requires { at + length name.now < length buffer.old }
    ensures { buffer.new ≡ take at buffer.old ++ (name.now ++ (0 ∷ drop (at + length name.now + 1) buffer.old)) }
{
    let end = at + name.len();
    buffer[at..end].copy_from_slice(name);
    buffer[end] = 0;
}

/// Copies the names to the front of the buffer, each with a zero after it.
fn copy_names(buffer: &mut [u8], names: &[Bytes])
    requires { length (names_bytes names.now) ≤ length buffer.old }
    ensures { buffer.new ≡ names_bytes names.now ++ drop (length (names_bytes names.now)) buffer.old }
{
    let mut at = 0usize;
    for name in names {
        let bytes = name.as_slice();
        copy_name(buffer, at, bytes);
        at += bytes.len() + 1;
    }
}

/// Puts the names of a list in the buffer, each with a zero after it, and returns how many bytes they take. ERANGE: the buffer
/// has no room for them, and stays.
pub(crate) fn put_names(buffer: &mut [u8], reply: &Reply) -> i64
    ensures number { result ≡ names_number (length buffer.old) reply.now }
    ensures bytes { buffer.new ≡ names_filled buffer.old reply.now }
{
    match reply {
        Reply::Names(names) => match names_length(names.as_slice(), buffer.len()) {
            Some(length) => {
                copy_names(buffer, names.as_slice());
                signed(length as u64)
            }
            None => NO_ROOM,
        },
        Reply::Error(error) => i64::from(error_number(*error)),
        _ => i64::from(error_number(Errno::EIO)),
    }
}
