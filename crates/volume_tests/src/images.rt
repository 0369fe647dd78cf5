// A volume over an image in memory whose file fails.

use crate::expected::commands_of;
use line_shell::write_reply;
use nand_image::{ImageNand, create_image, open_image};
use nand_model::Geometry;
use posix_calls::{Reply, Stamped, Volume, format};
use std::alloc::Global;
use std::io::{Cursor, Error, ErrorKind, Read, Result as IoResult, Seek, SeekFrom, Write};
use std::process::Abort;

/// What is called of a file.
#[derive(Clone, Copy, Debug, PartialEq, Eq)]
enum FileCall {
    Read,
    Write,
    Seek,
}

/// Bytes in memory that count their calls. The one call of a kind with this number among its kind, from 1 on, fails.
#[derive(Drop)]
struct CountingFile {
    cursor: Cursor<Vec<u8>>,
    fails: (FileCall, u64),
    of_kind: u64,
    calls: u64,
    /// How many calls were made up to the one that failed.
    failed: Option<u64>,
}

impl CountingFile {
    fn new(bytes: Vec<u8>, fails: (FileCall, u64)) -> CountingFile {
        CountingFile {
            cursor: Cursor::new(bytes),
            fails,
            of_kind: 0,
            calls: 0,
            failed: None,
        }
    }

    fn begin(&mut self, call: FileCall) -> IoResult<()> {
        self.calls = self.calls.saturating_add(1);
        let (kind, number) = self.fails;
        if call != kind {
            return Ok(());
        }
        self.of_kind = self.of_kind.saturating_add(1);
        if self.of_kind != number {
            return Ok(());
        }
        self.failed = Some(self.calls);
        Err(Error::from(ErrorKind::Other))
    }
}

impl Read for CountingFile {
    fn read(&mut self, buf: &mut [u8]) -> IoResult<usize> {
        self.begin(FileCall::Read)?;
        self.cursor.read(buf)
    }
}

impl Write for CountingFile {
    fn write(&mut self, buf: &[u8]) -> IoResult<usize> {
        self.begin(FileCall::Write)?;
        self.cursor.write(buf)
    }

    fn flush(&mut self) -> IoResult<()> {
        Ok(())
    }
}

impl Seek for CountingFile {
    fn seek(&mut self, to: SeekFrom) -> IoResult<u64> {
        self.begin(FileCall::Seek)?;
        self.cursor.seek(to)
    }
}

type Image = ImageNand<CountingFile>;

// What these four call promises much, which is not said again, so that what calls them is checked fast.

fn mounted(rt: &impl Abort, alloc: Global, image: Image) -> Volume<Image> {
    match Volume::mount(alloc, image) {
        Ok(volume) => volume,
        Err((_image, fault)) => panic!(rt; "{fault:?}"),
    }
}

fn answered(volume: &mut Volume<Image>, stamped: &Stamped) -> Reply {
    volume.call(stamped)
}

fn unmounted(volume: Volume<Image>) -> (Image, Reply) {
    volume.unmount()
}

fn abandoned(volume: Volume<Image>) -> Image {
    volume.abandon()
}

/// No call fails.
const NONE: (FileCall, u64) = (FileCall::Read, 0);

/// The bytes of an image of eight blocks of 32 pages of 512 bytes, just formatted with one block to spare.
fn formatted_image(rt: &impl Abort, alloc: Global) -> Vec<u8> {
    let file = CountingFile::new(Vec::new(alloc), NONE);
    let geometry = Geometry::new(512, 32, 8).expect(rt, "a geometry");
    let image = create_image(alloc, file, geometry).expect(rt, "an image");
    match format(alloc, image, 1) {
        Ok(image) => image.into_file().cursor.into_inner(),
        Err((_image, fault)) => panic!(rt; "{fault:?}"),
    }
}

/// Opens an image of these bytes. No write and no seek is made.
fn opened(rt: &impl Abort, alloc: Global, bytes: &[u8], fails: (FileCall, u64)) -> Image {
    let file = CountingFile::new(Vec::from_slice(alloc, bytes).expect(rt, "memory"), fails);
    open_image(alloc, file).expect(rt, "an image")
}

/// Adds what a volume answers to these lines.
fn ask(
    rt: &impl Abort,
    alloc: Global,
    volume: &mut Volume<Image>,
    lines: &str,
    answers: &mut Vec<u8>,
) {
    for stamped in &commands_of(rt, alloc, lines) {
        write_reply(answers, &answered(volume, stamped)).expect(rt, "a reply");
    }
}

/// What a session of these lines and an unmount are answered, and the file after it.
fn answers_of(
    rt: &impl Abort,
    alloc: Global,
    image: Image,
    lines: &str,
) -> (Vec<u8>, CountingFile) {
    let mut volume = mounted(rt, alloc, image);
    let mut answers = Vec::new(alloc);
    ask(rt, alloc, &mut volume, lines, &mut answers);
    let (image, reply) = unmounted(volume);
    write_reply(&mut answers, &reply).expect(rt, "a reply");
    (answers, image.into_file())
}

/// A volume that was mounted and looked at.
fn looked_at(rt: &impl Abort, alloc: Global, bytes: &[u8]) -> Volume<Image> {
    let mut volume = mounted(rt, alloc, opened(rt, alloc, bytes, NONE));
    let mut answers = Vec::new(alloc);
    ask(rt, alloc, &mut volume, "list /\n", &mut answers);
    assert_eq!(rt; str::from_utf8(&answers).expect(rt, "a text"), "names 0\n");
    volume
}

/// The unmount after it makes the calls of a checkpoint: it erases a block, with a write for each of its 32 pages, and programs
/// one page, with three writes. There is a seek before each write.
#[test]
fn a_mount_makes_no_call_of_the_file(rt: HostRuntime) {
    let alloc = rt.alloc();
    let bytes = formatted_image(&rt, alloc);
    let calls = opened(&rt, alloc, &bytes, NONE).into_file().calls;
    let image = abandoned(looked_at(&rt, alloc, &bytes));
    assert_eq!(rt; image.into_file().calls, calls);
    let (image, reply) = unmounted(looked_at(&rt, alloc, &bytes));
    assert!(rt; matches!(reply, Reply::Done));
    assert_eq!(rt; image.into_file().calls, calls.wrapping_add(2 * (32 + 3)));
}

const LINES: &str = "mkdir /a\nsync\nmkdir /b\n";

/// What the lines and an unmount are answered, where the write or the seek of this number fails. The sync erases a block, with a
/// write for each of its 32 pages, and programs three pages, the header of the directory, the entry of its name and the
/// header of the root, with three writes for each: 41 writes. The unmount programs as many pages again, in 9 writes, and then
/// erases a block for the checkpoint, which takes one page: in 35 writes.
fn wanted(number: u64) -> &'static str {
    match number {
        1..=41 => "ok\nerror EIO\nerror EIO\nerror EIO\n",
        42..=85 => "ok\nok\nok\nerror EIO\n",
        _ => "ok\nok\nok\nok\n",
    }
}

/// The call in which the file fails is answered by EIO, and so is each later one; the file is not called again.
fn fails_once(rt: &impl Abort, alloc: Global, bytes: &[u8], kind: FileCall, number: u64) {
    let image = opened(rt, alloc, bytes, (kind, number));
    let (answers, file) = answers_of(rt, alloc, image, LINES);
    assert_eq!(rt;
        str::from_utf8(&answers).expect(rt, "a text"),
        wanted(number),
        "{kind:?} {number}"
    );
    if let Some(failed) = file.failed {
        assert_eq!(rt; file.calls, failed, "{kind:?} {number}");
    }
    assert_eq!(rt; file.failed.is_some(), number <= 85, "{kind:?} {number}");
}

#[test]
fn a_file_that_fails_stops_its_volume(rt: HostRuntime) {
    let alloc = rt.alloc();
    let bytes = formatted_image(&rt, alloc);
    for number in 1..87u64 {
        fails_once(&rt, alloc, &bytes, FileCall::Write, number);
        fails_once(&rt, alloc, &bytes, FileCall::Seek, number);
    }
}
