// The first page of each block.
ghost use Rattle.std.specs.Prelude.{◌≡◌, ◌↔◌, ◌<◌, ◌≤◌, ◌+◌, ℕ, true, false, IsTrue, IfOk, OnOk, OnErr};
ghost use Rattle.nand_model.specs.Flash.{Flash};
ghost use Rattle.nand_model.specs.Calls.{Device};
ghost use Rattle.nand_model.specs.Changes.{OnlyReads};
ghost use Rattle.flash_tree.specs.Places.{numbers_of};
ghost use Rattle.flash_tree.specs.Summaries.{BeginsSummary};
ghost use Rattle.mount_scan.specs.FoundCheckpoint.{ReadsAtMost};
ghost use Rattle.mount_scan.specs.CheckpointCandidates.{IsGoodTag};
ghost use Rattle.mount_scan.specs.FirstPages.{BeginsWithTag, IsFirstRead, IsGoodRead, IsFirstPage, IsGoodFirst};
ghost use Rattle.mount_scan.specs.FirstPages.{FirstReadsBelow, HasSeqAt, IsOlderThan, IsRaisedToRead, IsRenewedBy, seq_of_first, tag_of_read, tag_of_summary};

use crate::ScanFault;
use crate::block_summary::SUMMARY_CHUNK;
use crate::checkpoint_candidate::{Candidate, best_with};
use crate::raise::raised_to;
use flash_tree::{CHECK_OBJECT, TagNumbers};
use nand_model::{Gone, Nand, PageKind};
use page_tags::Tag;
use std::alloc::Global;

/// The first page of a block, as it was read.
#[derive(Clone, Copy, Debug, PartialEq, Eq)]
enum FirstRead {
    /// The block is bad.
    Bad,
    Erased,
    /// It is uncorrectable, or was written without a valid tag.
    Untagged,
    Tagged(Tag),
}

/// What is noted of the first page of a block.
#[derive(Clone, Copy, Debug, PartialEq, Eq)]
pub enum FirstPage {
    /// The block is bad.
    Bad,
    Erased,
    /// It is uncorrectable, or was written without a valid tag.
    Untagged,
    /// Its tag has this seq.
    Tagged { seq: u64 },
    /// It may begin a summary of so many pages.
    Summary { count: u32, number: u64, seq: u64 },
}

const _: () = prove!(size_of::<FirstPage>() == 24);

/// What is noted of the first pages of all blocks.
#[derive(Drop)]
pub struct FirstPages {
    /// What is noted of each block.
    pub pages: Vec<FirstPage>,
    /// The greatest numbers of these tags.
    pub numbers: TagNumbers,
    /// The greatest seq of those whose version is the number of their group, as it is where a page was not copied; 0 where there is none.
    pub renewed: u64,
}

/// What was read of the first pages, and which of them a checkpoint may begin with.
#[derive(Drop)]
pub(crate) struct FirstReads {
    pub firsts: FirstPages,
    /// The candidate with the greatest seq, among equals that of the lowest block.
    pub best: Option<Candidate>,
}

/// Reads the tag of the first page of a block.
fn read_first<N: Nand>(device: &mut N, block: u32) -> Result<FirstRead, Gone>
    requires { block < (N.state device.old).geometry.blocks }
    ensures reads { OnlyReads (N.state device.old) (N.state device.new) }
    ensures issued { (N.state device.new).reads ≤ (N.state device.old).reads + 1 }
    ensures powered { OnOk result ((N.state device.old).gone ≡ false → (N.state device.new).gone ≡ false) }
    ensures gone { OnErr result ((N.state device.new).gone ≡ true) }
    ensures valid { IfOk result (IsGoodRead (N.state device.old) block) }
    ensures read { (N.state device.old).honest ≡ true → IfOk result (IsFirstRead (N.state device.old).flash block) }
{
    if device.is_bad(block) {
        return Ok(FirstRead::Bad);
    }
    let mut tag = [0; 48];
    match device.read_tag(block, 0, &mut tag)? {
        PageKind::Erased => Ok(FirstRead::Erased),
        PageKind::Uncorrectable => Ok(FirstRead::Untagged),
        PageKind::Written => match Tag::decode(&tag) {
            Some(tag) => Ok(FirstRead::Tagged(tag)),
            None => Ok(FirstRead::Untagged),
        },
    }
}

/// Whether a tag is that of a summary's first page.
fn begins_summary(tag: &Tag) -> bool
    ensures { IsTrue result ↔ BeginsSummary tag.now }
{
    tag.object == CHECK_OBJECT && tag.chunk == SUMMARY_CHUNK && tag.index == 0
}

/// What is noted of a tag. A whole summary has one number as its group and as the version of its pages.
fn tagged_page(tag: &Tag) -> FirstPage
    ensures noted { (flash : Flash) (b : ℕ) → BeginsWithTag flash b tag.now → IsFirstPage flash b result }
    ensures good { (d : Device) (b : ℕ) → IsGoodTag d b tag.now → IsGoodFirst d b result }
{
    if begins_summary(tag) && tag.version == tag.group {
        FirstPage::Summary {
            count: tag.count,
            number: tag.group,
            seq: tag.seq,
        }
    } else {
        FirstPage::Tagged { seq: tag.seq }
    }
}

/// The tag of a first page, if it may begin a summary.
pub(crate) fn tag_of_summary(first: FirstPage) -> Option<Tag>
    ensures { result ≡ tag_of_summary first }
{
    match first {
        FirstPage::Bad => None,
        FirstPage::Erased => None,
        FirstPage::Untagged => None,
        FirstPage::Tagged { .. } => None,
        FirstPage::Summary { count, number, seq } => Some(Tag {
            index: 0,
            count,
            object: CHECK_OBJECT,
            chunk: SUMMARY_CHUNK,
            version: number,
            group: number,
            seq,
        }),
    }
}

/// The seq of a first page, if it has a tag.
fn seq_of_first(first: FirstPage) -> Option<u64>
    ensures { result ≡ seq_of_first first }
{
    match first {
        FirstPage::Bad => None,
        FirstPage::Erased => None,
        FirstPage::Untagged => None,
        FirstPage::Tagged { seq } => Some(seq),
        FirstPage::Summary { seq, .. } => Some(seq),
    }
}

/// Whether a first page has a tag of a lower seq than this one.
pub(crate) fn is_older(first: FirstPage, renewed: u64) -> bool
    ensures { IsTrue result ↔ IsOlderThan renewed first }
{
    match seq_of_first(first) {
        Some(seq) => seq < renewed,
        None => false,
    }
}

/// Whether the first page of a block has a tag with this seq.
pub(crate) fn has_seq(pages: &[FirstPage], block: u32, seq: u64) -> bool
    ensures { IsTrue result ↔ HasSeqAt pages.now block seq }
{
    match pages.get(block as usize) {
        Some(first) => seq_of_first(*first) == Some(seq),
        None => false,
    }
}

impl FirstRead {
    /// What is noted of it.
    fn page(&self) -> FirstPage
        ensures noted { (flash : Flash) (b : ℕ) → IsFirstRead flash b self.now → IsFirstPage flash b result }
        ensures good { (d : Device) (b : ℕ) → IsGoodRead d b self.now → IsGoodFirst d b result }
    {
        match self {
            FirstRead::Bad => FirstPage::Bad,
            FirstRead::Erased => FirstPage::Erased,
            FirstRead::Untagged => FirstPage::Untagged,
            FirstRead::Tagged(tag) => tagged_page(tag),
        }
    }

    /// Its tag, if it has one.
    fn tag(&self) -> Option<Tag>
        ensures { result ≡ tag_of_read self.now }
    {
        match self {
            FirstRead::Bad => None,
            FirstRead::Erased => None,
            FirstRead::Untagged => None,
            FirstRead::Tagged(tag) => Some(*tag),
        }
    }

    /// Numbers, raised to those of its tag, if it has one.
    fn raised(&self, numbers: TagNumbers) -> TagNumbers
        ensures { IsRaisedToRead self.now (numbers_of numbers) (numbers_of result) }
    {
        match self {
            FirstRead::Bad => numbers,
            FirstRead::Erased => numbers,
            FirstRead::Untagged => numbers,
            FirstRead::Tagged(tag) => raised_to(numbers, tag),
        }
    }

    /// A seq, raised to that of its tag, if it has one whose version is the number of its group.
    fn renewed(&self, seq: u64) -> u64
        ensures { IsRenewedBy self.now seq result }
    {
        match self {
            FirstRead::Bad => seq,
            FirstRead::Erased => seq,
            FirstRead::Untagged => seq,
            FirstRead::Tagged(tag) => {
                if tag.version == tag.group {
                    seq.max(tag.seq)
                } else {
                    seq
                }
            }
        }
    }
}

/// Adds the first page of one more block.
fn add_first<N: Nand>(device: &mut N, block: u32, reads: &mut FirstReads) -> Result<(), ScanFault>
    requires { block < (N.state device.old).geometry.blocks }
    ensures reads { ReadsAtMost 1 (N.state device.old) (N.state device.new) result }
    ensures below { (d : Device) → OnlyReads d (N.state device.old) → FirstReadsBelow d block reads.old
        → OnOk result (FirstReadsBelow d (block + 1) reads.new) }
{
    let read = read_first(device, block)?;
    reads.firsts.pages.push(read.page())?;
    reads.firsts.numbers = read.raised(reads.firsts.numbers);
    reads.firsts.renewed = read.renewed(reads.firsts.renewed);
    reads.best = best_with(reads.best, block, read.tag());
    Ok(())
}

/// Reads the tag of the first page of each good block.
pub(crate) fn read_first_pages<N: Nand>(
    alloc: Global,
    device: &mut N,
) -> Result<FirstReads, ScanFault>
    ensures reads { ReadsAtMost (N.state device.old).geometry.blocks (N.state device.old) (N.state device.new) result }
    ensures firsts { IfOk result (FirstReadsBelow (N.state device.old) (N.state device.old).geometry.blocks) }
{
    let blocks = device.geometry().blocks();
    let mut reads = FirstReads {
        firsts: FirstPages {
            pages: Vec::with_capacity(alloc, blocks as usize)?,
            numbers: TagNumbers {
                version: 0,
                group: 0,
                seq: 0,
            },
            renewed: 0,
        },
        best: None,
    };
    for block in 0..blocks {
        add_first(device, block, &mut reads)?;
    }
    Ok(reads)
}
