// The header of an object, in the page of its chunk 0.

ghost use Rattle.std.specs.Prelude.{◌≡◌, ◌≢◌, ◌≤◌, ◌↔◌, length, IfOk, IfErr, IsOkAnd, IsTrue, MatchOption, Err, slice_index, drop};
ghost use Rattle.page_tags.specs.HeaderFields.{fields_of, file_fields};
ghost use Rattle.page_tags.specs.HeaderParts.{HasPast, head_bytes, last_chunk};
ghost use Rattle.page_tags.specs.Headers.{Fields, HasFault, IsFirstFault, IsHeader, IsHeaderOf, format_number, greatest_recorded, header_bytes, kind_number};
ghost use Rattle.page_tags.specs.declared.header.Format.{Format};
ghost use Rattle.page_tags.specs.declared.header.HeaderFault.{HeaderFault};
ghost use Rattle.page_tags.specs.declared.header.ObjectKind.{ObjectKind};

use crate::numbers::{u16_at, u64_at};
use crate::zeros::are_zero;
use byteorder::{ByteOrder, LittleEndian};
use volume_terms::most_file_bytes;

const MAGIC: [u8; 4] = *b"NLFS";

/// The layout that a header is written in. Format 1 has no moment.
#[derive(Clone, Copy, Debug, PartialEq, Eq)]
pub enum Format {
    One,
    Two,
}

/// What an object is.
#[derive(Clone, Copy, Debug, PartialEq, Eq)]
pub enum ObjectKind {
    File,
    Directory,
}

/// What is wrong with a page, in the order in which it is reported.
#[derive(Clone, Copy, Debug, PartialEq, Eq)]
pub enum HeaderFault {
    Magic,
    Newer(u8),
    Kind,
    Length,
    Pad,
}

/// The header of an object. `length` counts the bytes of a file or the entries of a directory; `spare` is looked at
/// in the root's header alone. `bits` has a presence bit for each chunk, and is 32 bytes shorter than a page.
#[derive(Clone, Copy, Debug, PartialEq, Eq)]
pub struct Header<'a> {
    pub format: Format,
    pub kind: ObjectKind,
    pub spare: u16,
    pub length: u64,
    pub moment: u64,
    pub bits: &'a [u8],
}

impl Format {
    fn number(self) -> u8
        ensures { result ≡ format_number self }
    {
        match self {
            Format::One => 1,
            Format::Two => 2,
        }
    }

    // The format of this number.
    fn numbered(number: u8) -> Option<Format>
        ensures { MatchOption result ((f : Format) → number ≢ format_number f)
            (λ f. number ≡ format_number f) }
    {
        match number {
            1 => Some(Format::One),
            2 => Some(Format::Two),
            _ => None,
        }
    }

    // Whether a header may say this moment.
    fn allows(self, moment: u64) -> bool
        ensures { IsTrue result ↔ (self ≡ Format.One → moment ≡ 0) }
    {
        match self {
            Format::One => moment == 0,
            Format::Two => true,
        }
    }
}

impl ObjectKind {
    fn number(self) -> u8
        ensures { result ≡ kind_number self }
    {
        match self {
            ObjectKind::File => 1,
            ObjectKind::Directory => 2,
        }
    }

    // The kind of this number.
    fn numbered(number: u8) -> Option<ObjectKind>
        ensures { MatchOption result ((k : ObjectKind) → number ≢ kind_number k)
            (λ k. number ≡ kind_number k) }
    {
        match number {
            1 => Some(ObjectKind::File),
            2 => Some(ObjectKind::Directory),
            _ => None,
        }
    }

    // The greatest length that a header may say in a page of so many bytes.
    fn greatest_length(self, page_bytes: usize) -> u64
        requires least { 32 ≤ page_bytes }
        requires most { page_bytes ≤ 4096 }
        ensures { result ≡ greatest_recorded page_bytes self }
    {
        match self {
            ObjectKind::File => most_file_bytes(page_bytes as u64),
            ObjectKind::Directory => u64::from(u32::MAX),
        }
    }

    // The last chunk that may be present in an object of this length, or 0.
    fn last_chunk(self, page_bytes: usize, length: u64) -> u64
        requires least { 32 ≤ page_bytes }
        requires most { page_bytes ≤ 4096 }
        ensures { result ≡ last_chunk page_bytes self length }
    {
        match self {
            ObjectKind::File => length.div_ceil(page_bytes as u64),
            ObjectKind::Directory => 0,
        }
    }
}

// The bytes before the presence bits.
fn head_of(header: &Header) -> [u8; 32]
    ensures { result ≡ head_bytes (fields_of header.now) }
{
    let mut head = [0; 32];
    head[..4].copy_from_slice(&MAGIC);
    head[4] = header.format.number();
    head[5] = header.kind.number();
    LittleEndian::write_u16(&mut head[6..], header.spare);
    LittleEndian::write_u64(&mut head[8..], header.length);
    LittleEndian::write_u64(&mut head[16..], header.moment);
    head
}

/// Writes the header over a page of 32 to 4096 bytes.
pub fn encode_header(header: &Header, page: &mut [u8])
    requires least { 32 ≤ length page.old }
    requires most { length page.old ≤ 4096 }
    requires valid { IsHeader (length page.old) (fields_of header.now) }
    ensures { page.new ≡ header_bytes (fields_of header.now) }
{
    page[..32].copy_from_slice(&head_of(header));
    page[32..].copy_from_slice(header.bits);
}

/// Writes the header of a file, in format 2, over the first 32 bytes of a page of 32 to 4096 bytes. The presence bits are
/// those that are in the page.
pub fn write_file_header(len: u64, moment: u64, page: &mut [u8])
    requires least { 32 ≤ length page.old }
    requires most { length page.old ≤ 4096 }
    requires valid { IsHeader (length page.old) (file_fields len moment (drop 32 page.old)) }
    ensures { page.new ≡ header_bytes (file_fields len moment (drop 32 page.old)) }
{
    let header = Header {
        format: Format::Two,
        kind: ObjectKind::File,
        spare: 0,
        length: len,
        moment,
        bits: &[],
    };
    page[..32].copy_from_slice(&head_of(&header));
}

// Whether a bit of a chunk past the last one is set.
fn has_chunk_past(bits: &[u8], last: u64) -> bool
    ensures { IsTrue result ↔ HasPast bits.now last }
{
    let byte = (last / 8) as usize;
    byte < bits.len() && (bits[byte] >> (last % 8) != 0 || !are_zero(&bits[byte + 1..]))
}

// Whether something is set that a header of this format and kind leaves zero.
fn has_wrong_pad(page: &[u8], format: Format, kind: ObjectKind) -> bool
    requires least { 32 ≤ length page.now }
    requires most { length page.now ≤ 4096 }
    requires format { slice_index page.now 4 ≡ format_number format }
    requires kind { slice_index page.now 5 ≡ kind_number kind }
    ensures { IsTrue result ↔ HasFault page.now HeaderFault.Pad }
{
    let last = kind.last_chunk(page.len(), u64_at(page, 8));
    !format.allows(u64_at(page, 16)) || u64_at(page, 24) != 0 || has_chunk_past(&page[32..], last)
}

/// The header that a page of 32 to 4096 bytes is, or the first thing that is wrong with it.
pub fn decode_header(page: &[u8]) -> Result<Header<'_>, HeaderFault>
    requires least { 32 ≤ length page.now }
    requires most { length page.now ≤ 4096 }
    ensures found { IfOk result (λ h. IsHeaderOf page.now (fields_of h)) }
    ensures read { (f : Fields) → IsHeaderOf page.now f → IsOkAnd result (λ h. fields_of h ≡ f) }
    ensures fault { IfErr result (λ f. IsFirstFault page.now f) }
    ensures fault_only { (f : HeaderFault) → IsFirstFault page.now f → result ≡ Err f }
{
    let number = page[4];
    if !page.starts_with(&MAGIC) || number == 0 {
        return Err(HeaderFault::Magic);
    }
    let Some(format) = Format::numbered(number) else {
        return Err(HeaderFault::Newer(number));
    };
    let Some(kind) = ObjectKind::numbered(page[5]) else {
        return Err(HeaderFault::Kind);
    };
    let length = u64_at(page, 8);
    if length > kind.greatest_length(page.len()) {
        return Err(HeaderFault::Length);
    }
    if has_wrong_pad(page, format, kind) {
        return Err(HeaderFault::Pad);
    }
    let spare = u16_at(page, 6);
    let moment = u64_at(page, 16);
    Ok(Header {
        format,
        kind,
        spare,
        length,
        moment,
        bits: &page[32..],
    })
}
