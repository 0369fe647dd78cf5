// Names of a volume as names of a host.
ghost use Rattle.std.specs.Prelude.{◌≡◌, ◌≢◌, ◌<◌, ◌++◌, [], ◌∷◌, false, IfOk, OnOk, All};
ghost use Rattle.std.specs.Fmt.{digit_glyph};
ghost use Rattle.std.specs.Str.{IsAscii};
ghost use Rattle.std.specs.String.{string_bytes};
ghost use Rattle.image_tools.specs.HostNames.{IsHostName, IsSafe, escape, is_plain, spelled_byte, unescaped};
ghost use Rattle.image_tools.specs.declared.names.Spelling.TheVariants as spellings;

use std::alloc::{AllocError, Global};
use std::str;

/// Which bytes of a name stay as they are.
#[derive(Clone, Copy, Debug, PartialEq, Eq)]
pub(crate) enum Spelling {
    /// Those that are printed, and all beyond ASCII.
    Text,
    /// Those of ASCII that are printed.
    Ascii,
}

/// Text without a control character keeps its letters.
fn spelling_of(name: &[u8]) -> Spelling {
    match str::from_utf8(name) {
        Ok(text) => {
            if text.chars().any(|c| c.is_control()) {
                Spelling::Ascii
            } else {
                Spelling::Text
            }
        }
        Err(_) => Spelling::Ascii,
    }
}

/// Whether a byte stays as it is.
fn is_plain(byte: u8, spelling: Spelling) -> bool
    ensures { result ≡ is_plain spelling byte }
{
    let is_graphic = byte >= 32 && byte <= 126 && byte != b'/' && byte != b'\\';
    match spelling {
        Spelling::Text => is_graphic || byte >= 128,
        Spelling::Ascii => is_graphic,
    }
}

fn digit_glyph(digit: u8) -> u8
    requires { digit < 16 }
    ensures { result ≡ digit_glyph false digit }
{
    if digit < 10 {
        b'0' + digit
    } else {
        b'a' + (digit - 10)
    }
}

/// Adds a byte as `\xhh`.
fn push_escape(host: &mut Vec<u8>, byte: u8) -> Result<(), AllocError>
    ensures { OnOk result (host.new.items ≡ host.old.items ++ escape byte) }
{
    let text = [b'\\', b'x', digit_glyph(byte / 16), digit_glyph(byte % 16)];
    host.extend_from_slice(&text)
}

/// Adds a byte as a host name has it.
fn push_byte(host: &mut Vec<u8>, byte: u8, spelling: Spelling) -> Result<(), AllocError>
    ensures { OnOk result (host.new.items ≡ host.old.items ++ spelled_byte spelling byte) }
{
    if is_plain(byte, spelling) {
        host.push(byte)?;
        Ok(())
    } else {
        push_escape(host, byte)
    }
}

/// The bytes of a name, with escapes.
fn spelled(alloc: Global, name: &[u8], spelling: Spelling) -> Result<Vec<u8>, AllocError>
    ensures safe { IfOk result (λ host. All IsSafe host.items) }
    ensures reads_back { IfOk result (λ host. unescaped host.items ≡ name.now) }
    ensures ascii { spelling ≡ spellings.Ascii → IfOk result (λ host. IsAscii host.items) }
{
    let mut host = Vec::new(alloc);
    for byte in name {
        push_byte(&mut host, *byte, spelling)?;
    }
    Ok(host)
}

/// The name as text, with escapes.
fn spelled_text(alloc: Global, name: &[u8]) -> Result<String, AllocError>
    ensures safe { IfOk result (λ host. All IsSafe (string_bytes host)) }
    ensures reads_back { IfOk result (λ host. unescaped (string_bytes host) ≡ name.now) }
{
    let bytes = spelled(alloc, name, spelling_of(name))?;
    match str::from_utf8(&bytes) {
        Ok(text) => String::from_str(alloc, text),
        Err(_) => {
            let bytes = spelled(alloc, name, Spelling::Ascii)?;
            String::from_utf8_lossy(alloc, &bytes)
        }
    }
}

/// The name of a file on a host for a name in a volume, which may be of any bytes. What is not printed, a slash and a backslash
/// are `\xhh`; letters beyond ASCII stay where the name is text. `.` is `\x2e`, `..` is `\x2e\x2e`, and no bytes are `\e`.
/// With its escapes undone a host name is the name again, so two names never have one host name.
pub fn host_name(alloc: Global, name: &[u8]) -> Result<String, AllocError>
    ensures host { IfOk result (λ host. IsHostName (string_bytes host)) }
    ensures reads_back { IfOk result (λ host. unescaped (string_bytes host) ≡ name.now) }
{
    if name.is_empty() {
        String::from_str(alloc, "\\e")
    } else if name == b".".as_slice() {
        String::from_str(alloc, "\\x2e")
    } else if name == b"..".as_slice() {
        String::from_str(alloc, "\\x2e\\x2e")
    } else {
        spelled_text(alloc, name)
    }
}
