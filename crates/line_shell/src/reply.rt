// The texts of replies.
ghost use Rattle.std.specs.Prelude.{◌≡◌, ◌∷◌, ◌++◌, [], length, codes};
ghost use Rattle.posix_profile.specs.NameSteps.{reported_size};
ghost use Rattle.line_shell.specs.Replies.{error_name, kind_name, numbers_text, names_text, reply_words, reply_text, bad_line_text};
ghost use Rattle.line_shell.specs.Words.{space, spelled};
ghost use Rattle.line_shell.specs.Written.{Writes};

use crate::output::{write_bytes, write_names, write_spaced_word, write_tagged_numbers};
use posix_profile::{Bytes, Errno, Info, Kind, Reply, SpaceInfo};
use std::io::{Result, Write};

/// The name of an error.
fn error_name(error: Errno) -> &'static [u8]
    ensures { result.now ≡ error_name error }
{
    match error {
        Errno::EBADF => b"EBADF",
        Errno::EBUSY => b"EBUSY",
        Errno::EEXIST => b"EEXIST",
        Errno::EFBIG => b"EFBIG",
        Errno::EINVAL => b"EINVAL",
        Errno::EIO => b"EIO",
        Errno::EISDIR => b"EISDIR",
        Errno::EMFILE => b"EMFILE",
        Errno::ENAMETOOLONG => b"ENAMETOOLONG",
        Errno::ENOENT => b"ENOENT",
        Errno::ENOMEM => b"ENOMEM",
        Errno::ENOSPC => b"ENOSPC",
        Errno::ENOTDIR => b"ENOTDIR",
        Errno::ENOTEMPTY => b"ENOTEMPTY",
        Errno::EOVERFLOW => b"EOVERFLOW",
        Errno::EPERM => b"EPERM",
        Errno::EROFS => b"EROFS",
    }
}

fn kind_name(kind: Kind) -> &'static [u8]
    ensures { result.now ≡ kind_name kind }
{
    match kind {
        Kind::File => b"file",
        Kind::Directory => b"dir",
    }
}

/// The size that is reported of an object: 0 of a directory.
fn reported_size(kind: Kind, size: u64) -> u64
    ensures { result ≡ reported_size kind size }
{
    match kind {
        Kind::File => size,
        Kind::Directory => 0,
    }
}

fn write_data<W: Write>(writer: &mut W, bytes: &[u8]) -> Result<()>
    ensures { Writes (W.contents writer.old) (W.contents writer.new) (codes "data" ++ numbers_text (length bytes.now ∷ []) ++ (space ∷ spelled bytes.now)) result }
{
    write_tagged_numbers(writer, b"data", &[bytes.len() as u64])?;
    write_spaced_word(writer, bytes)
}

fn write_info<W: Write>(writer: &mut W, info: Info) -> Result<()>
    ensures { Writes (W.contents writer.old) (W.contents writer.new) (codes "info " ++ kind_name info.kind ++ numbers_text (info.object ∷ info.links ∷ reported_size info.kind info.size ∷ info.moment ∷ [])) result }
{
    write_bytes(writer, b"info ")?;
    let numbers = [
        info.object,
        info.links,
        reported_size(info.kind, info.size),
        info.moment,
    ];
    write_tagged_numbers(writer, kind_name(info.kind), &numbers)
}

fn write_name_list<W: Write>(writer: &mut W, names: &[Bytes]) -> Result<()>
    ensures { Writes (W.contents writer.old) (W.contents writer.new) (codes "names" ++ numbers_text (length names.now ∷ []) ++ names_text names.now) result }
{
    write_tagged_numbers(writer, b"names", &[names.len() as u64])?;
    write_names(writer, names)
}

fn write_space<W: Write>(writer: &mut W, space: SpaceInfo) -> Result<()>
    ensures { Writes (W.contents writer.old) (W.contents writer.new) (codes "space" ++ numbers_text (space.unit ∷ space.total ∷ space.free ∷ [])) result }
{
    write_tagged_numbers(writer, b"space", &[space.unit, space.total, space.free])
}

fn write_error<W: Write>(writer: &mut W, error: Errno) -> Result<()>
    ensures { Writes (W.contents writer.old) (W.contents writer.new) (codes "error " ++ error_name error) result }
{
    write_bytes(writer, b"error ")?;
    write_bytes(writer, error_name(error))
}

/// Writes a reply without the end of its line.
fn write_words<W: Write>(writer: &mut W, reply: &Reply) -> Result<()>
    ensures { Writes (W.contents writer.old) (W.contents writer.new) (reply_words reply.now) result }
{
    match reply {
        Reply::Done => write_bytes(writer, b"ok"),
        Reply::Fd(fd) => write_tagged_numbers(writer, b"fd", &[*fd as u64]),
        Reply::Data(bytes) => write_data(writer, bytes.as_slice()),
        Reply::Wrote(count) => write_tagged_numbers(writer, b"wrote", &[*count as u64]),
        Reply::At(offset) => write_tagged_numbers(writer, b"at", &[*offset]),
        Reply::Info(info) => write_info(writer, *info),
        Reply::Names(names) => write_name_list(writer, names.as_slice()),
        Reply::SpaceInfo(space) => write_space(writer, *space),
        Reply::Error(error) => write_error(writer, *error),
    }
}

/// Writes the text of a reply, a line, and takes no memory. Where the writer fails, a first part of the text is out.
pub fn write_reply<W: Write>(writer: &mut W, reply: &Reply) -> Result<()>
    ensures { Writes (W.contents writer.old) (W.contents writer.new) (reply_text reply.now) result }
{
    write_words(writer, reply)?;
    write_bytes(writer, b"\n")
}

/// Writes the answer to a bad line.
pub fn write_bad_line<W: Write>(writer: &mut W) -> Result<()>
    ensures { Writes (W.contents writer.old) (W.contents writer.new) bad_line_text result }
{
    write_bytes(writer, b"bad line\n")
}
