// Images in memory: their bytes, their faults, and files that fail.
use crate::calls::{erase, expect_gone, is_bad, mark_bad};
use nand_image::{ImageFault, ImageNand, create_image, open_image};
use nand_model::{EraseFault, Geometry, Gone, Nand, PageKind, ProgramFault};
use std::alloc::Global;
use std::io::{Cursor, Error, ErrorKind, Read, Result as IoResult, Seek, SeekFrom, Write};
use std::process::Abort;

const DATA: [u8; 512] = [7; 512];

const TAG: [u8; 48] = [9; 48];

const IMAGE_BYTES: usize = 143_656;

/// How an image of eight blocks begins.
const HEAD: &[u8] = b"NANDIMG1\0\x02\0\0\x20\0\0\0\x08\0\0\0";

/// Where the marks of the blocks begin.
const MARKS_PLACE: usize = 32;

/// Where the first page of block 1 begins.
const PAGE_PLACE: usize = 17_992;

/// A page's kind, tag and data.
const SLOT_BYTES: usize = 561;

/// The writes of an image of eight blocks: its head, the marks, and each page.
const CREATION_CALLS: u64 = 258;

/// The calls of the file for an erase, two a page, and a program.
const WRITE_CALLS: u64 = 70;

/// Bytes in memory. The read, write or seek of a number fails so, numbered from 1; at 0 none does.
#[derive(Drop)]
struct TestFile {
    cursor: Cursor<Vec<u8>>,
    calls: u64,
    fails_at: u64,
    kind: ErrorKind,
}

impl TestFile {
    fn new(bytes: Vec<u8>, fails_at: u64, kind: ErrorKind) -> TestFile {
        TestFile {
            cursor: Cursor::new(bytes),
            calls: 0,
            fails_at,
            kind,
        }
    }

    fn begin(&mut self) -> IoResult<()> {
        self.calls = self.calls.saturating_add(1);
        if self.calls == self.fails_at {
            return Err(Error::from(self.kind));
        }
        Ok(())
    }
}

impl Read for TestFile {
    fn read(&mut self, buf: &mut [u8]) -> IoResult<usize> {
        self.begin()?;
        self.cursor.read(buf)
    }
}

impl Write for TestFile {
    fn write(&mut self, buf: &[u8]) -> IoResult<usize> {
        self.begin()?;
        self.cursor.write(buf)
    }

    fn flush(&mut self) -> IoResult<()> {
        Ok(())
    }
}

impl Seek for TestFile {
    fn seek(&mut self, to: SeekFrom) -> IoResult<u64> {
        self.begin()?;
        self.cursor.seek(to)
    }
}

/// Creates an image of so many blocks of 32 pages of 512 bytes.
fn create(
    alloc: Global,
    blocks: u32,
    fails_at: u64,
    kind: ErrorKind,
) -> Result<ImageNand<TestFile>, ImageFault> {
    let Ok(geometry) = Geometry::new(512, 32, blocks) else {
        return Err(ImageFault::BadGeometry);
    };
    let file = TestFile::new(Vec::new(alloc), fails_at, kind);
    create_image(alloc, file, geometry)
}

/// Creates an image of eight blocks.
fn created(rt: &impl Abort, alloc: Global) -> ImageNand<TestFile> {
    create(alloc, 8, 0, ErrorKind::Other).expect(rt, "an image")
}

/// The same, whose file fails at its call of this number, from 1 on, after the creation.
fn created_failing(rt: &impl Abort, alloc: Global, call: u64) -> ImageNand<TestFile> {
    let fails_at = CREATION_CALLS.saturating_add(call);
    create(alloc, 8, fails_at, ErrorKind::Other).expect(rt, "an image")
}

fn open(
    alloc: Global,
    bytes: &[u8],
    fails_at: u64,
    kind: ErrorKind,
) -> Result<ImageNand<TestFile>, ImageFault> {
    let bytes = Vec::from_slice(alloc, bytes)?;
    open_image(alloc, TestFile::new(bytes, fails_at, kind))
}

fn opened(alloc: Global, bytes: &[u8]) -> Result<ImageNand<TestFile>, ImageFault> {
    open(alloc, bytes, 0, ErrorKind::Other)
}

/// The file's bytes, and how many times it was called.
fn file_of(nand: ImageNand<TestFile>) -> (Vec<u8>, u64) {
    let TestFile {
        cursor,
        calls,
        fails_at: _,
        kind: _,
    } = nand.into_file();
    (cursor.into_inner(), calls)
}

fn bytes_of(nand: ImageNand<TestFile>) -> Vec<u8> {
    let (bytes, _) = file_of(nand);
    bytes
}

/// Erases block 1 and programs its first page.
fn write_page(rt: &impl Abort, nand: &mut ImageNand<TestFile>) -> Result<(), ProgramFault> {
    let geometry = nand.geometry();
    assert!(rt; geometry.bytes() == 512);
    if nand.is_bad(1) {
        return Err(ProgramFault::Failed);
    }
    nand.erase(1).expect(rt, "an erase");
    nand.program(1, 0, &DATA, &TAG)
}

fn expect_page<N: Nand>(rt: &impl Abort, nand: &mut N, block: u32, page: u32, want: PageKind) {
    let geometry = nand.geometry();
    assert!(rt; block < geometry.blocks() && page < geometry.pages() && geometry.bytes() == 512);
    let mut bytes = [0; 512];
    let mut tag = [0; 48];
    assert_eq!(rt; nand.read_page(block, page, &mut bytes, &mut tag), Ok(want));
    if want == PageKind::Written {
        assert!(rt; bytes == DATA);
        assert!(rt; tag == TAG);
    }
}

/// The bytes are an image of which the first page and the last are erased, and which keeps its bytes.
fn expect_erased(rt: &impl Abort, alloc: Global, bytes: &[u8]) {
    let mut nand = opened(alloc, bytes).expect(rt, "an image");
    expect_page(rt, &mut nand, 0, 0, PageKind::Erased);
    expect_page(rt, &mut nand, 7, 31, PageKind::Erased);
    assert!(rt; bytes_of(nand).as_slice() == bytes);
}

#[test]
fn a_new_image_has_its_size_and_opens(rt: HostRuntime) {
    let bytes = bytes_of(created(&rt, rt.alloc()));
    assert_eq!(rt; bytes.len(), IMAGE_BYTES);
    assert!(rt; bytes.starts_with(HEAD));
    assert!(rt; bytes.iter().skip(HEAD.len()).all(|byte| *byte == 0));
    expect_erased(&rt, rt.alloc(), &bytes);
}

#[test]
fn a_large_image_has_its_size_and_opens(rt: HostRuntime) {
    let file = TestFile::new(Vec::new(rt.alloc()), 0, ErrorKind::Other);
    let geometry = Geometry::new(2048, 64, 64).expect(&rt, "a geometry");
    let bytes = bytes_of(create_image(rt.alloc(), file, geometry).expect(&rt, "an image"));
    assert_eq!(rt; bytes.len(), 8_589_408);
    let opened = opened(rt.alloc(), &bytes).expect(&rt, "an image");
    assert_eq!(rt; opened.geometry().blocks(), 64);
}

/// The bytes of an image in which the first page of block 1 is written, and block 3 is bad.
fn written_bytes(rt: &impl Abort, alloc: Global) -> Vec<u8> {
    let mut nand = created(rt, alloc);
    write_page(rt, &mut nand).expect(rt, "a program");
    mark_bad(rt, &mut nand, 3).expect(rt, "a mark");
    bytes_of(nand)
}

/// Whether the bytes have these at a place.
fn has_at(bytes: &[u8], place: usize, want: &[u8]) -> bool {
    bytes
        .get(place..)
        .is_some_and(|rest| rest.starts_with(want))
}

#[test]
fn what_is_written_is_in_the_file(rt: HostRuntime) {
    let bytes = written_bytes(&rt, rt.alloc());
    assert_eq!(rt; bytes.len(), IMAGE_BYTES);
    for (place, want) in [
        (MARKS_PLACE, [0, 0, 0, 1, 0, 0, 0, 0].as_slice()),
        (PAGE_PLACE, [1].as_slice()),
        (PAGE_PLACE + 1, TAG.as_slice()),
        (PAGE_PLACE + 49, DATA.as_slice()),
    ] {
        assert!(rt; has_at(&bytes, place, want), "at {place}");
    }
}

/// The image that was written, opened with the second page of block 1 uncorrectable.
fn opened_with_uncorrectable(rt: &impl Abort, alloc: Global) -> ImageNand<TestFile> {
    let mut bytes = written_bytes(rt, alloc);
    assert!(rt; bytes.len() == IMAGE_BYTES);
    bytes[PAGE_PLACE + SLOT_BYTES] = 2;
    opened(alloc, &bytes).expect(rt, "an image")
}

#[test]
fn what_is_written_is_read_from_the_file(rt: HostRuntime) {
    let mut nand = opened_with_uncorrectable(&rt, rt.alloc());
    let mut memory = nand.to_memory().expect(&rt, "memory");
    for block in 0..nand.geometry().blocks() {
        assert_eq!(rt; is_bad(&rt, &nand, block), block == 3);
    }
    for (page, want) in [
        (0, PageKind::Written),
        (1, PageKind::Uncorrectable),
        (2, PageKind::Erased),
    ] {
        expect_page(&rt, &mut nand, 1, page, want);
        expect_page(&rt, &mut memory, 1, page, want);
    }
}

/// The byte at a place of an image of eight blocks.
fn byte_at(rt: &impl Abort, bytes: &[u8], place: usize) -> u8 {
    assert_eq!(rt; bytes.len(), IMAGE_BYTES);
    assert!(rt; place < bytes.len());
    bytes[place]
}

#[test]
fn an_erase_is_in_the_file(rt: HostRuntime) {
    let mut nand = opened_with_uncorrectable(&rt, rt.alloc());
    erase(&rt, &mut nand, 1).expect(&rt, "an erase");
    let bytes = bytes_of(nand);
    assert_eq!(rt; byte_at(&rt, &bytes, PAGE_PLACE), 0);
    assert_eq!(rt; byte_at(&rt, &bytes, PAGE_PLACE + SLOT_BYTES), 0);
}

/// The fault of so many of the first bytes of a file.
fn fault_of_first(
    rt: &impl Abort,
    alloc: Global,
    bytes: &[u8],
    length: usize,
) -> Option<ImageFault> {
    let first = bytes.get(..length).expect(rt, "so many bytes");
    opened(alloc, first).err()
}

#[test]
fn a_part_of_the_head_is_no_image(rt: HostRuntime) {
    let bytes = bytes_of(created(&rt, rt.alloc()));
    for length in 0..32usize {
        let fault = fault_of_first(&rt, rt.alloc(), &bytes, length);
        assert_eq!(rt; fault, Some(ImageFault::Magic), "{length}");
    }
}

#[test]
fn other_lengths_are_no_image(rt: HostRuntime) {
    let mut bytes = bytes_of(created(&rt, rt.alloc()));
    assert_eq!(rt; bytes.len(), IMAGE_BYTES);
    for length in [32usize, 33, 39, 40, 41, 600, 601, 100_000, 143_655] {
        let fault = fault_of_first(&rt, rt.alloc(), &bytes, length);
        assert_eq!(rt; fault, Some(ImageFault::Size), "{length}");
    }
    bytes.push(0).expect(&rt, "memory");
    assert_eq!(rt; opened(rt.alloc(), &bytes).err(), Some(ImageFault::Size));
}

/// The fault of an image of eight blocks with these bytes written over it.
fn fault_with(rt: &impl Abort, alloc: Global, edits: &[(usize, u8)]) -> Option<ImageFault> {
    let mut bytes = bytes_of(created(rt, alloc));
    assert_eq!(rt; bytes.len(), IMAGE_BYTES);
    for (place, byte) in edits {
        assert!(rt; *place < bytes.len());
        bytes[*place] = *byte;
    }
    opened(alloc, &bytes).err()
}

#[test]
fn other_bytes_are_no_image(rt: HostRuntime) {
    for (edits, want) in [
        ([(8, 100), (9, 0)].as_slice(), ImageFault::BadGeometry),
        (&[(8, 100), (9, 0), (0, b'M')], ImageFault::Magic),
    ] {
        assert_eq!(rt; fault_with(&rt, rt.alloc(), edits), Some(want));
    }
}

#[test]
fn a_fault_says_what_to_do(rt: HostRuntime) {
    let text = format!(in rt.alloc(); "{}", ImageFault::Magic).expect(&rt, "memory");
    assert_eq!(rt;
        text.as_str(),
        "the file is not an image: give one that `format` made"
    );
}

/// The fault of a creation of five blocks, whose file fails at a call.
fn creation_fault(alloc: Global, call: u64, kind: ErrorKind) -> Option<ImageFault> {
    create(alloc, 5, call, kind).err()
}

/// The fault of these bytes, where the file fails at a call.
fn opening_fault(alloc: Global, bytes: &[u8], call: u64, kind: ErrorKind) -> Option<ImageFault> {
    open(alloc, bytes, call, kind).err()
}

/// The bytes of an image of five blocks: 162 calls make it, and 163 open it.
fn bytes_of_five(rt: &impl Abort, alloc: Global) -> Vec<u8> {
    bytes_of(create(alloc, 5, 163, ErrorKind::Other).expect(rt, "an image"))
}

#[test]
fn a_file_that_fails_is_no_image(rt: HostRuntime) {
    for call in 1..163u64 {
        let fault = creation_fault(rt.alloc(), call, ErrorKind::Other);
        assert_eq!(rt; fault, Some(ImageFault::Write), "{call}");
    }
    let bytes = bytes_of_five(&rt, rt.alloc());
    for call in 1..164u64 {
        let fault = opening_fault(rt.alloc(), &bytes, call, ErrorKind::Other);
        assert_eq!(rt; fault, Some(ImageFault::Read), "{call}");
    }
    assert_eq!(rt;
        opening_fault(rt.alloc(), &bytes, 164, ErrorKind::Other),
        None
    );
}

#[test]
fn an_interrupted_call_is_made_again(rt: HostRuntime) {
    let bytes = bytes_of_five(&rt, rt.alloc());
    for call in [1u64, 2, 3, 162, 163] {
        let fault = creation_fault(rt.alloc(), call, ErrorKind::Interrupted);
        assert_eq!(rt; fault, None, "{call}");
        let fault = opening_fault(rt.alloc(), &bytes, call, ErrorKind::Interrupted);
        assert_eq!(rt; fault, None, "{call}");
    }
}

/// The first page of block 1 is this in memory.
fn expect_in_memory(rt: &impl Abort, nand: &ImageNand<TestFile>, page: PageKind) {
    let mut memory = nand.to_memory().expect(rt, "memory");
    expect_page(rt, &mut memory, 1, 0, page);
}

/// Nothing is answered any more, the file is not called after that call, and the page is still this in memory; returns the
/// file's bytes.
fn gone_at(rt: &impl Abort, mut nand: ImageNand<TestFile>, call: u64, page: PageKind) -> Vec<u8> {
    expect_gone(rt, &mut nand);
    assert!(rt; !is_bad(rt, &nand, 1));
    expect_in_memory(rt, &nand, page);
    let (bytes, calls) = file_of(nand);
    assert_eq!(rt; calls, CREATION_CALLS.saturating_add(call));
    assert_eq!(rt; bytes.len(), IMAGE_BYTES);
    bytes
}

#[test]
fn a_program_sets_the_kind_last(rt: HostRuntime) {
    for call in 65..71u64 {
        let mut nand = created_failing(&rt, rt.alloc(), call);
        assert_eq!(rt;
            write_page(&rt, &mut nand),
            Err(ProgramFault::Gone),
            "{call}"
        );
        let bytes = gone_at(&rt, nand, call, PageKind::Erased);
        let kind = byte_at(&rt, &bytes, PAGE_PLACE);
        let tag = byte_at(&rt, &bytes, PAGE_PLACE + 1);
        let data = byte_at(&rt, &bytes, PAGE_PLACE + 49);
        assert_eq!(rt; (kind, tag == 9, data == 7), (0, call > 68, call > 66));
    }
}

#[test]
fn an_erase_that_fails_starts_with_the_kinds(rt: HostRuntime) {
    for call in 1..65u64 {
        let fails_at = WRITE_CALLS.saturating_add(call);
        let mut nand = created_failing(&rt, rt.alloc(), fails_at);
        write_page(&rt, &mut nand).expect(&rt, "a program");
        assert_eq!(rt; erase(&rt, &mut nand, 1), Err(EraseFault::Gone), "{call}");
        let bytes = gone_at(&rt, nand, fails_at, PageKind::Written);
        assert_eq!(rt; byte_at(&rt, &bytes, PAGE_PLACE) == 0, call > 2);
    }
}

#[test]
fn a_mark_that_fails_is_not_set(rt: HostRuntime) {
    for call in 1..3u64 {
        let mut nand = created_failing(&rt, rt.alloc(), call);
        assert_eq!(rt; mark_bad(&rt, &mut nand, 1), Err(Gone), "{call}");
        let bytes = gone_at(&rt, nand, call, PageKind::Erased);
        assert_eq!(rt; byte_at(&rt, &bytes, MARKS_PLACE + 1), 0);
    }
}
