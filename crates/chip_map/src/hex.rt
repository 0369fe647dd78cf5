// Bytes as hexadecimal numbers.

use crate::fault::MapFault;
use crate::text::put;
use std::alloc::{AllocError, Global};
use std::io::Write;

/// A byte as it is shown beside its number: what is not printable is a dot.
fn shown(byte: u8) -> char {
    if byte == b' ' || byte.is_ascii_graphic() {
        char::from(byte)
    } else {
        '.'
    }
}

/// A line of at most 16 bytes: the place of the first, their numbers, and the bytes that are printable.
fn hex_line(alloc: Global, place: usize, bytes: &[u8]) -> Result<String, AllocError> {
    let mut line = format!(in alloc; "  {place:04x} ")?;
    for i in 0..16 {
        match bytes.get(i) {
            Some(byte) => {
                let number = *byte;
                line.push_str(&format!(in alloc; " {number:02x}")?)?;
            }
            None => line.push_str("   ")?,
        }
    }
    line.push_str("  |")?;
    for byte in bytes {
        line.push(shown(*byte))?;
    }
    line.push_str("|\n")?;
    Ok(line)
}

/// Writes bytes, 16 on a line.
pub(crate) fn write_hex<W: Write>(
    alloc: Global,
    out: &mut W,
    bytes: &[u8],
) -> Result<(), MapFault> {
    let mut place = 0usize;
    for part in bytes.chunks(16) {
        put(out, &hex_line(alloc, place, part)?)?;
        place = place.saturating_add(16);
    }
    Ok(())
}
