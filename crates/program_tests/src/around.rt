// The program between an image, lines and outputs, each of which may fail.
use flash_program::{act, choose, report};
use std::alloc::Global;
use std::io::{
    BufReader, Cursor, Error, ErrorKind, Read, Result as IoResult, Seek, SeekFrom, Write,
};
use std::process::Abort;

/// Bytes in memory, of which so many reads, writes and seeks are done; each later one fails.
#[derive(Drop)]
pub(crate) struct FailingFile {
    cursor: Cursor<Vec<u8>>,
    pub(crate) reads: u64,
    pub(crate) writes: u64,
    pub(crate) seeks: u64,
}

impl FailingFile {
    /// Bytes that do not fail.
    fn new(bytes: Vec<u8>) -> FailingFile {
        FailingFile {
            cursor: Cursor::new(bytes),
            reads: u64::MAX,
            writes: u64::MAX,
            seeks: u64::MAX,
        }
    }
}

impl Read for FailingFile {
    fn read(&mut self, buf: &mut [u8]) -> IoResult<usize> {
        match self.reads.checked_sub(1) {
            Some(left) => self.reads = left,
            None => return Err(Error::from(ErrorKind::Other)),
        }
        self.cursor.read(buf)
    }
}

impl Write for FailingFile {
    fn write(&mut self, buf: &[u8]) -> IoResult<usize> {
        match self.writes.checked_sub(1) {
            Some(left) => self.writes = left,
            None => return Err(Error::from(ErrorKind::Other)),
        }
        self.cursor.write(buf)
    }

    fn flush(&mut self) -> IoResult<()> {
        Ok(())
    }
}

impl Seek for FailingFile {
    fn seek(&mut self, to: SeekFrom) -> IoResult<u64> {
        match self.seeks.checked_sub(1) {
            Some(left) => self.seeks = left,
            None => return Err(Error::from(ErrorKind::Other)),
        }
        self.cursor.seek(to)
    }
}

/// What the program runs between.
#[derive(Drop)]
pub(crate) struct Around {
    pub(crate) image: FailingFile,
    pub(crate) lines: FailingFile,
    pub(crate) out: FailingFile,
    pub(crate) err: FailingFile,
}

impl Around {
    /// An image and lines, none of which fails.
    pub(crate) fn new(rt: &impl Abort, alloc: Global, image: &[u8], lines: &str) -> Around {
        let image = Vec::from_slice(alloc, image).expect(rt, "memory");
        let lines = Vec::from_slice(alloc, lines.as_bytes()).expect(rt, "memory");
        Around {
            image: FailingFile::new(image),
            lines: FailingFile::new(lines),
            out: FailingFile::new(Vec::new(alloc)),
            err: FailingFile::new(Vec::new(alloc)),
        }
    }

    /// Asserts how the program with these words ends, and what it writes.
    pub(crate) fn ends(
        self,
        rt: &impl Abort,
        alloc: Global,
        words: &[&str],
        status: u8,
        answers: (&str, &str),
    ) {
        let Around {
            mut image,
            lines,
            mut out,
            mut err,
        } = self;
        let Ok(chosen) = choose(alloc, words) else {
            panic!(rt; "the words are not taken");
        };
        let mut lines = BufReader::new(alloc, lines).expect(rt, "memory");
        let ended = act(alloc, &chosen, Some(&mut image), &mut lines, &mut out);
        let ended = report(&mut err, ended);
        assert_eq!(rt; out.cursor.into_inner().as_slice(), answers.0.as_bytes());
        assert_eq!(rt; err.cursor.into_inner().as_slice(), answers.1.as_bytes());
        assert_eq!(rt; ended, status);
    }
}

/// The words that make a small image: eight blocks of 32 pages of 512 bytes.
pub(crate) const SMALL: [&str; 10] = [
    "format", "I", "--data", "512", "--pages", "32", "--blocks", "8", "--spare", "1",
];

/// A small image with a new volume.
pub(crate) fn small_image(rt: &impl Abort, alloc: Global) -> Vec<u8> {
    let Ok(chosen) = choose(alloc, &SMALL) else {
        panic!(rt; "the words are not taken");
    };
    let mut image = Cursor::new(Vec::new(alloc));
    let mut lines = b"".as_slice();
    let mut out = Vec::new(alloc);
    assert!(rt; act(alloc, &chosen, Some(&mut image), &mut lines, &mut out).is_ok());
    let image = image.into_inner();
    assert_eq!(rt; image.len(), 143_656);
    image
}
