// Files over pages in memory.
ghost use Rattle.std.specs.Prelude.{◌≡◌, ◌-◌, ◌*◌};
ghost use Rattle.pages.specs.MemoryState.{committed};

use file_io::{FileInfo, create, read_at, read_info, set_length, write_at};
use pages::{Change, MemPages, PageFault, Pages};
use rand_core::utils::NextWord;
use rand_pcg::Pcg32;
use std::alloc::Global;
use std::process::Abort;

const FILE: u64 = 5;

/// The bytes of the file of this length from a place on, at most so many.
fn read(
    rt: &impl Abort,
    alloc: Global,
    pages: &mut MemPages,
    len: u64,
    offset: u64,
    count: usize,
) -> Vec<u8> {
    let mut bytes = vec![in alloc; 0; count].expect(rt, "memory");
    let read = read_at(pages, FILE, len, offset, &mut bytes).expect(rt, "a read");
    bytes.truncate(read);
    bytes
}

/// A store with a file of no bytes.
fn empty_file(rt: &impl Abort, alloc: Global, page_bytes: u32) -> MemPages {
    if !(512..=4096).contains(&page_bytes) {
        panic!(rt; "no such page");
    }
    let mut pages = MemPages::new(alloc, page_bytes).expect(rt, "memory");
    let header = create(alloc, &mut pages, FILE, 0).expect(rt, "memory");
    let change = Change {
        pages: vec![in alloc; header].expect(rt, "memory"),
        cuts: Vec::new(alloc),
    };
    pages.apply(alloc, change).expect(rt, "memory")
}

/// The most bytes of a file.
fn greatest(pages: &MemPages) -> u64
    ensures { result ≡ 8 * ((committed pages.now).page_bytes - 32) * (committed pages.now).page_bytes }
{
    let page_bytes = u64::from(pages.page_bytes());
    8 * (page_bytes - 32) * page_bytes
}

/// The store after a write.
fn written(
    rt: &impl Abort,
    alloc: Global,
    mut pages: MemPages,
    offset: u64,
    bytes: &[u8],
    moment: u64,
) -> MemPages {
    let most = greatest(&pages);
    if offset > most || bytes.len() as u64 > most - offset {
        panic!(rt; "too long");
    }
    let change = write_at(alloc, &mut pages, FILE, offset, bytes, moment).expect(rt, "a write");
    pages.apply(alloc, change).expect(rt, "memory")
}

/// The store after a change of the length.
fn resized(rt: &impl Abort, alloc: Global, mut pages: MemPages, len: u64, moment: u64) -> MemPages {
    if len > greatest(&pages) {
        panic!(rt; "too long");
    }
    let change = set_length(alloc, &mut pages, FILE, len, moment).expect(rt, "a change");
    pages.apply(alloc, change).expect(rt, "memory")
}

#[test]
fn a_gap_reads_as_zeros(rt: HostRuntime) {
    let alloc = rt.alloc();
    let mut pages = written(&rt, alloc, empty_file(&rt, alloc, 512), 1000, b"x", 7);
    assert_eq!(rt;
        read_info(&mut pages, FILE).expect(&rt, "a header"),
        FileInfo {
            length: 1001,
            moment: 7
        }
    );
    let gap = read(&rt, alloc, &mut pages, 1001, 998, 5);
    assert_eq!(rt; gap.as_slice(), b"\0\0x".as_slice());
    assert_eq!(rt; read(&rt, alloc, &mut pages, 1001, 1001, 5).len(), 0);
}

#[test]
fn what_was_cut_does_not_come_back(rt: HostRuntime) {
    let alloc = rt.alloc();
    let pages = written(&rt, alloc, empty_file(&rt, alloc, 512), 0, &[b'x'; 1000], 1);
    let mut pages = resized(&rt, alloc, resized(&rt, alloc, pages, 100, 2), 600, 3);
    assert_eq!(rt;
        read_info(&mut pages, FILE).expect(&rt, "a header"),
        FileInfo {
            length: 600,
            moment: 3
        }
    );
    let bytes = read(&rt, alloc, &mut pages, 600, 99, 501);
    assert_eq!(rt; bytes.len(), 501);
    assert_eq!(rt; bytes[0], b'x');
    assert!(rt; bytes[1..].iter().all(|byte| *byte == 0));
}

#[test]
fn a_file_has_its_greatest_length(rt: HostRuntime) {
    let alloc = rt.alloc();
    let mut pages = written(&rt, alloc, empty_file(&rt, alloc, 512), 1_966_079, b"x", 1);
    assert_eq!(rt;
        read_info(&mut pages, FILE).expect(&rt, "a header").length,
        1_966_080
    );
    let end = read(&rt, alloc, &mut pages, 1_966_080, 1_966_078, 5);
    assert_eq!(rt; end.as_slice(), b"\0x".as_slice());
    let mut pages = resized(&rt, alloc, empty_file(&rt, alloc, 512), 1_966_080, 1);
    assert_eq!(rt;
        read_info(&mut pages, FILE).expect(&rt, "a header").length,
        1_966_080
    );
}

#[test]
fn bytes_are_appended(rt: HostRuntime) {
    let alloc = rt.alloc();
    let pages = written(&rt, alloc, empty_file(&rt, alloc, 512), 0, b"ab", 1);
    let mut pages = written(&rt, alloc, pages, 2, b"cd", 1);
    assert_eq!(rt;
        read(&rt, alloc, &mut pages, 4, 0, 10).as_slice(),
        b"abcd".as_slice()
    );
}

#[test]
fn the_header_says_what_was_written(rt: HostRuntime) {
    let alloc = rt.alloc();
    let mut pages = empty_file(&rt, alloc, 512);
    let change = write_at(alloc, &mut pages, FILE, 0, b"hello", 7).expect(&rt, "a write");
    assert_eq!(rt; change.pages.len(), 2);
    let header = change.pages.as_slice().last().expect(&rt, "no header");
    assert_eq!(rt; header.key.chunk, 0);
    let said = header.bytes.as_slice().get(..33).expect(&rt, "no page");
    let want = b"NLFS\x02\x01\0\0\x05\0\0\0\0\0\0\0\x07\0\0\0\0\0\0\0\0\0\0\0\0\0\0\0\x01";
    assert_eq!(rt; said, want.as_slice());
    let mut pages = written(&rt, alloc, pages, 0, b"hello", 7);
    let nothing = write_at(alloc, &mut pages, FILE, 3, b"", 9).expect(&rt, "a write");
    assert_eq!(rt; nothing.pages.len(), 0);
    let again = write_at(alloc, &mut pages, FILE, 1, b"a", 7).expect(&rt, "a write");
    assert_eq!(rt; again.pages.len(), 1);
}

#[test]
fn a_write_has_few_pages(rt: HostRuntime) {
    let alloc = rt.alloc();
    let mut pages = empty_file(&rt, alloc, 512);
    let change = write_at(alloc, &mut pages, FILE, 0, &[1; 2560], 1).expect(&rt, "a write");
    assert_eq!(rt; change.pages.len(), 6);
    let mut pages = written(&rt, alloc, pages, 0, b"old end", 1);
    let change = write_at(alloc, &mut pages, FILE, 600, &[1; 2560], 1).expect(&rt, "a write");
    assert_eq!(rt; change.pages.len(), 8);
}

#[test]
fn what_is_no_file_is_damaged(rt: HostRuntime) {
    let alloc = rt.alloc();
    let mut pages = empty_file(&rt, alloc, 512);
    assert_eq!(rt; read_info(&mut pages, 9).err(), Some(PageFault::Damaged));
    assert!(rt; write_at(alloc, &mut pages, 9, 0, b"a", 1).is_err());
    assert!(rt; set_length(alloc, &mut pages, 9, 1, 1).is_err());
}

/// What a file should have: so many of the bytes, zeros behind them.
#[derive(Drop)]
struct Plain {
    bytes: Vec<u8>,
    len: usize,
}

impl Plain {
    fn write(&mut self, offset: usize, bytes: &[u8]) {
        for (i, byte) in bytes.iter().enumerate() {
            if let Some(place) = self.bytes.get_mut(offset.saturating_add(i)) {
                *place = *byte;
            }
        }
        self.len = self.len.max(offset.saturating_add(bytes.len()));
    }

    fn resize(&mut self, len: usize) {
        for i in len..self.bytes.len() {
            self.bytes[i] = 0;
        }
        self.len = len;
    }

    fn is(&self, read: &[u8]) -> bool {
        Some(read) == self.bytes.as_slice().get(..self.len)
    }
}

/// Writes, cuts and growths at random places, each compared with the plain bytes.
fn change_at_random(rt: &impl Abort, alloc: Global, random: &mut Pcg32, page_bytes: u32) -> bool {
    let mut pages = empty_file(rt, alloc, page_bytes);
    let mut plain = Plain {
        bytes: vec![in alloc; 0u8; 20_000].expect(rt, "memory"),
        len: 0,
    };
    for step in 0..60u64 {
        let place = random.next_word() % 10_000;
        let count = random.next_word() % 5_000;
        if random.next_word() % 3 == 0 {
            pages = resized(rt, alloc, pages, u64::from(place), step);
            plain.resize(place as usize);
        } else {
            let bytes = vec![in alloc; 1 + (step % 200) as u8; count as usize].expect(rt, "memory");
            pages = written(rt, alloc, pages, u64::from(place), &bytes, step);
            if count > 0 {
                plain.write(place as usize, &bytes);
            }
        }
        let len = plain.len as u64;
        let whole = read(rt, alloc, &mut pages, len, 0, 100_000);
        let from = random.next_word() % 10_000;
        let part = read(rt, alloc, &mut pages, len, u64::from(from), 3_000);
        let end = (from as usize + 3_000).min(whole.len());
        if !plain.is(&whole)
            || part.as_slice() != whole.as_slice().get(from as usize..end).unwrap_or(b"")
        {
            return false;
        }
    }
    true
}

#[test]
fn files_are_as_plain_bytes(rt: HostRuntime) {
    let alloc = rt.alloc();
    let mut random = Pcg32::new(42, 54);
    for page_bytes in [512, 1024, 2048, 4096] {
        assert!(rt; change_at_random(&rt, alloc, &mut random, page_bytes));
    }
}
