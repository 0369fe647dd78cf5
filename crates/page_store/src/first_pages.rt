// What the first pages of blocks say of them.
ghost use Rattle.std.specs.Prelude.{◌≡◌, ◌<◌, length};
ghost use Rattle.nand_model.specs.Calls.{Device};
ghost use Rattle.block_state.specs.TableOf.{table};
ghost use Rattle.mount_scan.specs.FirstPages as found;
ghost use Rattle.page_store.specs.KnownFirsts.{KnowsFirsts, IsUnwrittenOf, NotesFirst, NotesFirsts, number_of_first};
ghost use Rattle.page_store.specs.Opened.{OnlySeqs, NotesOne};

use block_state::Blocks;
use mount_scan::FirstPage;

/// The number that the first page of a block gives it: that of its tag, or 1 where it was written and has none.
fn number_of_first(first: FirstPage) -> Option<u64>
    ensures { result ≡ number_of_first first }
{
    match first {
        FirstPage::Bad => None,
        FirstPage::Erased => None,
        FirstPage::Untagged => Some(1),
        FirstPage::Tagged { seq } => Some(seq),
        FirstPage::Summary { seq, .. } => Some(seq),
    }
}

/// Notes the number of a block, where it was handed out.
fn note_one(block: u32, seq: u64, blocks: &mut Blocks)
    requires block { block < (table blocks.old).geometry.blocks }
    ensures { NotesOne block seq (table blocks.old) (table blocks.new) }
{
    if seq < blocks.next_seq() {
        blocks.note_written(block, seq);
    }
}

/// Notes the number that its first page gives a block.
fn note_first(block: u32, first: FirstPage, blocks: &mut Blocks)
    requires block { block < (table blocks.old).geometry.blocks }
    ensures { NotesFirst block first (table blocks.old) (table blocks.new) }
{
    if let Some(seq) = number_of_first(first) {
        note_one(block, seq, blocks);
    }
}

/// Notes what was read of the first page of each block: whether it is erased, and else the number of its tag, where that was handed out,
/// or 1.
pub fn note_firsts(firsts: &[FirstPage], blocks: &mut Blocks)
    requires size { length firsts.now ≡ (table blocks.old).geometry.blocks }
    ensures only { OnlySeqs (table blocks.old) (table blocks.new) }
    ensures notes { NotesFirsts firsts.now (table blocks.old).geometry.blocks (table blocks.old) (table blocks.new) }
    ensures knows { (d : Device) → found.AreNoted d d.geometry.blocks firsts.now → IsUnwrittenOf d (table blocks.old)
        → KnowsFirsts d.flash (table blocks.new) }
{
    for block in 0..blocks.geometry().blocks() {
        note_first(block, firsts[block as usize], blocks);
    }
}
