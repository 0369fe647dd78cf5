// Summaries that are put together byte by byte.
ghost use Rattle.std.specs.Prelude.{◌≡◌, ◌<◌, false, IfOk, Some};
ghost use Rattle.nand_model.specs.MemoryState.{device};

use mount_scan::{FoundSummary, SummaryFault, read_summary};
use nand_model::{Geometry, MemNand, Nand};
use page_tags::{CheckEntry, SummaryHead, Tag};
use std::alloc::Global;
use std::test::Fail;

/// Block 3, three entries, seq 9.
const HEAD: [u8; 32] = [
    78, 76, 70, 66, 1, 0, 0, 0, //
    3, 0, 0, 0, 3, 0, 0, 0, //
    9, 0, 0, 0, 0, 0, 0, 0, //
    0, 0, 0, 0, 0, 0, 0, 0,
];

/// The same with four entries.
const HEAD_OF_FOUR: [u8; 32] = [
    78, 76, 70, 66, 1, 0, 0, 0, //
    3, 0, 0, 0, 4, 0, 0, 0, //
    9, 0, 0, 0, 0, 0, 0, 0, //
    0, 0, 0, 0, 0, 0, 0, 0,
];

/// The same with 16 entries.
const HEAD_OF_SIXTEEN: [u8; 32] = [
    78, 76, 70, 66, 1, 0, 0, 0, //
    3, 0, 0, 0, 16, 0, 0, 0, //
    9, 0, 0, 0, 0, 0, 0, 0, //
    0, 0, 0, 0, 0, 0, 0, 0,
];

/// Object 5, chunk 1, version 6, block 3, page 2.
const FIRST: [u8; 32] = [
    5, 0, 0, 0, 0, 0, 0, 0, //
    1, 0, 0, 0, 0, 0, 0, 0, //
    6, 0, 0, 0, 0, 0, 0, 0, //
    3, 0, 0, 0, 2, 0, 0, 0,
];

/// Object 5, chunk 2, version 6, block 3, page 4.
const SECOND: [u8; 32] = [
    5, 0, 0, 0, 0, 0, 0, 0, //
    2, 0, 0, 0, 0, 0, 0, 0, //
    6, 0, 0, 0, 0, 0, 0, 0, //
    3, 0, 0, 0, 4, 0, 0, 0,
];

/// Object 1, chunk 256, version 7, block 3, page 31.
const THIRD: [u8; 32] = [
    1, 0, 0, 0, 0, 0, 0, 0, //
    0, 1, 0, 0, 0, 0, 0, 0, //
    7, 0, 0, 0, 0, 0, 0, 0, //
    3, 0, 0, 0, 31, 0, 0, 0,
];

/// The same of block 2.
const OF_BLOCK_2: [u8; 32] = [
    1, 0, 0, 0, 0, 0, 0, 0, //
    0, 1, 0, 0, 0, 0, 0, 0, //
    7, 0, 0, 0, 0, 0, 0, 0, //
    2, 0, 0, 0, 31, 0, 0, 0,
];

/// The same of page 32, which a block of 32 pages does not have.
const OF_PAGE_32: [u8; 32] = [
    1, 0, 0, 0, 0, 0, 0, 0, //
    0, 1, 0, 0, 0, 0, 0, 0, //
    7, 0, 0, 0, 0, 0, 0, 0, //
    3, 0, 0, 0, 32, 0, 0, 0,
];

/// Index 0, count 1, the object of checkpoints, chunk 2^31, version 8, group 8, seq 11.
const TAG_BYTES: [u8; 48] = [
    0, 0, 0, 0, 1, 0, 0, 0, //
    255, 255, 255, 255, 255, 255, 255, 255, //
    0, 0, 0, 128, 0, 0, 0, 0, //
    8, 0, 0, 0, 0, 0, 0, 0, //
    8, 0, 0, 0, 0, 0, 0, 0, //
    11, 0, 0, 0, 0, 0, 0, 0,
];

const TAG: Tag = Tag {
    index: 0,
    count: 1,
    object: u64::MAX,
    chunk: 1 << 31,
    version: 8,
    group: 8,
    seq: 11,
};

/// The tags of the two pages of a group.
const TAG_0: Tag = Tag {
    index: 0,
    count: 2,
    object: u64::MAX,
    chunk: 1 << 31,
    version: 8,
    group: 8,
    seq: 11,
};

const TAG_1: Tag = Tag {
    index: 1,
    count: 2,
    object: u64::MAX,
    chunk: (1 << 31) + 1,
    version: 8,
    group: 8,
    seq: 11,
};

/// That of a checkpoint's page 1.
const TAG_OF_CHECKPOINT: Tag = Tag {
    index: 1,
    count: 2,
    object: u64::MAX,
    chunk: 2,
    version: 8,
    group: 8,
    seq: 11,
};

/// A page that begins with four parts of 32 bytes, with zeros behind them.
fn page_of(parts: &[[u8; 32]; 4]) -> [u8; 512] {
    let mut page = [0; 512];
    for k in 0..4 {
        page[32 * k..32 * k + 32].copy_from_slice(&parts[k]);
    }
    page
}

/// An entry of this page.
fn entry_of_page(page: u8) -> [u8; 32] {
    let mut entry = FIRST;
    entry[28] = page;
    entry
}

/// The first page of a summary of 16 entries, of the pages 0 to 15.
fn first_page() -> [u8; 512] {
    let mut page = [0; 512];
    page[..32].copy_from_slice(&HEAD_OF_SIXTEEN);
    for k in 0..15u8 {
        let at = 32 + 32 * k as usize;
        page[at..at + 32].copy_from_slice(&entry_of_page(k));
    }
    page
}

/// Its second page.
fn second_page() -> [u8; 512] {
    let mut page = [0; 512];
    page[..32].copy_from_slice(&entry_of_page(15));
    page
}

/// A device of 8 blocks of 32 pages of 512 bytes, whose block 1 begins with this page.
fn with_page(alloc: Global, data: &[u8; 512], tag: &[u8; 48]) -> Result<MemNand, Fail>
    ensures blocks { IfOk result (λ d. (device d).geometry.blocks ≡ 8) }
    ensures pages { IfOk result (λ d. (device d).geometry.pages ≡ 32) }
    ensures bytes { IfOk result (λ d. (device d).geometry.bytes ≡ 512) }
    ensures good { IfOk result (λ d. (device d).flash.bad 1 ≡ false) }
    ensures next { IfOk result (λ d. (device d).flash.next 1 ≡ Some 1) }
{
    let geometry = Geometry::new(512, 32, 8)?;
    let mut nand = MemNand::new(alloc, geometry)?;
    nand.erase(1)?;
    nand.program(1, 0, data, tag)?;
    Ok(nand)
}

/// The same, with a second page.
fn with_two_pages(
    alloc: Global,
    first: &[u8; 512],
    second: &[u8; 512],
    tag: &Tag,
) -> Result<MemNand, Fail>
    ensures blocks { IfOk result (λ d. (device d).geometry.blocks ≡ 8) }
    ensures good { IfOk result (λ d. (device d).flash.bad 1 ≡ false) }
{
    let mut nand = with_page(alloc, first, &TAG_0.encode())?;
    nand.program(1, 1, second, &tag.encode())?;
    Ok(nand)
}

/// What is read of this page.
fn read_page(alloc: Global, page: &[u8; 512]) -> Result<Option<FoundSummary>, Fail> {
    let mut nand = with_page(alloc, page, &TAG_BYTES)?;
    Ok(read_summary(alloc, &mut nand, 1, &TAG)?)
}

/// What is read of a page that begins so.
fn read_parts(alloc: Global, parts: &[[u8; 32]; 4]) -> Result<Option<FoundSummary>, Fail> {
    read_page(alloc, &page_of(parts))
}

/// What is read of the first of the two pages of a summary of 16 entries.
fn read_first_page(alloc: Global) -> Result<Option<FoundSummary>, Fail> {
    let mut nand = with_page(alloc, &first_page(), &TAG_0.encode())?;
    Ok(read_summary(alloc, &mut nand, 1, &TAG_0)?)
}

/// What is read of both, where the second has this tag.
fn read_two_pages(alloc: Global, tag: &Tag) -> Result<Option<FoundSummary>, Fail> {
    let mut nand = with_two_pages(alloc, &first_page(), &second_page(), tag)?;
    Ok(read_summary(alloc, &mut nand, 1, &TAG_0)?)
}

/// A summary of three entries is read back.
#[test]
fn a_summary_is_read(rt: HostRuntime) -> Result<(), Fail> {
    let Some(found) = read_parts(rt.alloc(), &[HEAD, FIRST, SECOND, THIRD])? else {
        panic!(rt; "no summary");
    };
    assert_eq!(rt;
        (found.block, found.size, found.number, found.seq),
        (1, 1, 8, 11)
    );
    assert_eq!(rt;
        found.head,
        SummaryHead {
            block: 3,
            entries: 3,
            seq: 9
        }
    );
    let want = [
        CheckEntry {
            object: 5,
            chunk: 1,
            version: 6,
            block: 3,
            page: 2,
        },
        CheckEntry {
            object: 5,
            chunk: 2,
            version: 6,
            block: 3,
            page: 4,
        },
        CheckEntry {
            object: 1,
            chunk: 256,
            version: 7,
            block: 3,
            page: 31,
        },
    ];
    assert!(rt; found.entries.as_slice() == want.as_slice());
    Ok(())
}

/// One of another form is none: an entry of another block or of a page that a block does not have, pages that do not rise,
/// a byte behind the entries, an entry too few, no head.
#[test]
fn another_form_is_none(rt: HostRuntime) -> Result<(), Fail> {
    let altered = [
        [HEAD, FIRST, SECOND, OF_BLOCK_2],
        [HEAD, FIRST, SECOND, OF_PAGE_32],
        [HEAD, SECOND, FIRST, THIRD],
        [HEAD, FIRST, FIRST, THIRD],
        [HEAD_OF_FOUR, FIRST, SECOND, THIRD],
        [FIRST, FIRST, SECOND, THIRD],
    ];
    for parts in &altered {
        assert!(rt; read_parts(rt.alloc(), parts)?.is_none());
    }
    let mut page = page_of(&[HEAD, FIRST, SECOND, THIRD]);
    page[511] = 1;
    assert!(rt; read_page(rt.alloc(), &page)?.is_none());
    Ok(())
}

/// A group of two pages is a summary with its last page alone.
#[test]
fn a_last_page_is_read(rt: HostRuntime) -> Result<(), Fail> {
    let Some(found) = read_two_pages(rt.alloc(), &TAG_1)? else {
        panic!(rt; "no summary");
    };
    assert_eq!(rt; (found.size, found.entries.len()), (2, 16));
    assert!(rt; read_first_page(rt.alloc())?.is_none());
    assert!(rt; read_two_pages(rt.alloc(), &TAG_OF_CHECKPOINT)?.is_none());
    Ok(())
}

/// A device that is cut while the second page is read, by call 5, is gone.
#[test]
fn a_cut_is_reported(rt: HostRuntime) -> Result<(), Fail> {
    let nand = with_two_pages(rt.alloc(), &first_page(), &second_page(), &TAG_1)?;
    let mut nand = nand.with_fuse(5, Vec::new(rt.alloc()));
    let read = read_summary(rt.alloc(), &mut nand, 1, &TAG_0);
    assert!(rt; matches!(read, Err(SummaryFault::Gone)));
    assert!(rt; nand.gone());
    Ok(())
}
