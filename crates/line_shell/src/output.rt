// Texts as they are written, in pieces and with no memory.
ghost use Rattle.std.specs.Prelude.{◌≡◌, ◌<◌, ◌∷◌, ◌++◌, decimal, false};
ghost use Rattle.std.specs.Fmt.{digit_glyph};
ghost use Rattle.line_shell.specs.Replies.{numbers_text, names_text};
ghost use Rattle.line_shell.specs.Words.{space, spelled, spelled_byte};
ghost use Rattle.line_shell.specs.Written.{Writes};

use itoa::Buffer;
use posix_profile::Bytes;
use std::io::{Error, ErrorKind, Result, Write};

/// Writes all the bytes. An interrupted write is tried again.
pub fn write_bytes<W: Write>(writer: &mut W, bytes: &[u8]) -> Result<()>
    ensures { Writes (W.contents writer.old) (W.contents writer.new) bytes.now result }
{
    let mut rest = bytes;
    for _turn in 0..u64::MAX {
        if rest.is_empty() {
            break;
        }
        match writer.write(rest) {
            Ok(0) => return Err(Error::from(ErrorKind::WriteZero)),
            Ok(n) => rest = &rest[n..],
            Err(e) => {
                if e.kind() != ErrorKind::Interrupted {
                    return Err(e);
                }
            }
        }
    }
    if rest.is_empty() {
        Ok(())
    } else {
        Err(Error::from(ErrorKind::TimedOut))
    }
}

fn write_spaced_number<W: Write>(writer: &mut W, number: u64) -> Result<()>
    ensures { Writes (W.contents writer.old) (W.contents writer.new) (space ∷ decimal number) result }
{
    write_bytes(writer, b" ")?;
    let mut buffer = Buffer::new();
    write_bytes(writer, buffer.format(number).as_bytes())
}

/// Writes each number after a space.
fn write_numbers<W: Write>(writer: &mut W, numbers: &[u64]) -> Result<()>
    ensures { Writes (W.contents writer.old) (W.contents writer.new) (numbers_text numbers.now) result }
{
    for number in numbers {
        write_spaced_number(writer, *number)?;
    }
    Ok(())
}

/// Writes the name, and then each number after a space.
pub fn write_tagged_numbers<W: Write>(writer: &mut W, name: &[u8], numbers: &[u64]) -> Result<()>
    ensures { Writes (W.contents writer.old) (W.contents writer.new) (name.now ++ numbers_text numbers.now) result }
{
    write_bytes(writer, name)?;
    write_numbers(writer, numbers)
}

fn digit_glyph(digit: u8) -> u8
    requires { digit < 16 }
    ensures { result ≡ digit_glyph false digit }
{
    if digit < 10 {
        b'0' + digit
    } else {
        b'a' + (digit - 10)
    }
}

fn write_spelled_byte<W: Write>(writer: &mut W, byte: u8) -> Result<()>
    ensures { Writes (W.contents writer.old) (W.contents writer.new) (spelled_byte byte) result }
{
    match byte {
        b'\\' => write_bytes(writer, b"\\\\"),
        0x21..=0x7e => write_bytes(writer, &[byte]),
        _ => write_bytes(
            writer,
            &[b'\\', b'x', digit_glyph(byte / 16), digit_glyph(byte % 16)],
        ),
    }
}

/// Writes the word for some bytes.
fn write_word<W: Write>(writer: &mut W, bytes: &[u8]) -> Result<()>
    ensures { Writes (W.contents writer.old) (W.contents writer.new) (spelled bytes.now) result }
{
    if bytes.is_empty() {
        return write_bytes(writer, b"\\e");
    }
    for byte in bytes {
        write_spelled_byte(writer, *byte)?;
    }
    Ok(())
}

/// Writes the word for some bytes after a space.
pub fn write_spaced_word<W: Write>(writer: &mut W, bytes: &[u8]) -> Result<()>
    ensures { Writes (W.contents writer.old) (W.contents writer.new) (space ∷ spelled bytes.now) result }
{
    write_bytes(writer, b" ")?;
    write_word(writer, bytes)
}

/// Writes each name after a space.
pub fn write_names<W: Write>(writer: &mut W, names: &[Bytes]) -> Result<()>
    ensures { Writes (W.contents writer.old) (W.contents writer.new) (names_text names.now) result }
{
    for name in names {
        write_spaced_word(writer, name.as_slice())?;
    }
    Ok(())
}
