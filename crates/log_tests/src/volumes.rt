// A device in memory to which groups are written.

ghost use Rattle.std.specs.Prelude.{◌≡◌, ◌<◌, ◌≤◌, ℕ, IsTrue, length};
ghost use Rattle.nand_model.specs.MemoryState.{device};
ghost use Rattle.nand_model.specs.declared.geometry.Geometry.{Geometry};
ghost use Rattle.block_state.specs.TableOf.{table};
ghost use Rattle.transactions.specs.Committing.{CanCommit, fresh_name};
ghost use Rattle.transactions.specs.Naming.{AreOrdinary};
ghost use Rattle.transactions.specs.Ready.{IsReady};

use block_state::Blocks;
use flash_log::SummarySource;
use flash_tree::{CHECK_OBJECT, FreshPage, Key, TagNumbers};
use nand_model::{EraseFault, Geometry, MemNand, Nand};
use page_tags::CheckEntry;
use std::alloc::Global;
use std::process::Abort;
use transactions::{
    Fresh, GroupFault, Placed, erase_and_open, table_of, write_checkpoint, write_group,
};

/// A device in memory with its table.
#[derive(Drop)]
pub(crate) struct Volume {
    pub(crate) nand: MemNand,
    pub(crate) blocks: Blocks,
    ghost can_write: { IsReady (device nand) (table blocks) },
}

impl Volume {
    /// Eight blocks of 32 pages of 512 bytes, all erased.
    pub(crate) fn new(rt: &impl Abort, alloc: Global) -> Volume {
        let geometry = Geometry::new(512, 32, 8).expect(rt, "a geometry");
        let nand = MemNand::new(alloc, geometry).expect(rt, "memory");
        let none = TagNumbers {
            version: 0,
            group: 0,
            seq: 0,
        };
        let blocks = table_of(alloc, &nand, none).expect(rt, "memory");
        Volume { nand, blocks }
    }

    pub(crate) fn into_nand(self) -> MemNand {
        self.nand
    }

    /// Power comes back. No block is open then.
    pub(crate) fn power_up(&mut self) {
        self.blocks.close();
        self.nand.power_up();
    }

    /// Takes a block that is not open.
    pub(crate) fn take(&mut self, rt: &impl Abort, block: u32) -> Result<(), EraseFault> {
        assert!(rt; block < self.nand.geometry().blocks());
        assert!(rt; !self.blocks.entry(block).bad);
        assert!(rt; self.blocks.open_block() != Some(block));
        assert!(rt; self.blocks.checkpoint().is_none());
        assert!(rt; self.blocks.next_seq() < 1 << 62);
        erase_and_open(&mut self.nand, &mut self.blocks, block)
    }

    /// Commits pages as one group.
    pub(crate) fn commit(
        &mut self,
        rt: &impl Abort,
        pages: &[FreshPage],
    ) -> Result<Placed, GroupFault> {
        assert!(rt; self.blocks.next_group() < 1 << 62);
        assert!(rt; may_commit(pages, self.nand.geometry().bytes()));
        let mut scratch = [0; 512];
        assert!(rt; self.nand.geometry().bytes() == 512);
        write_group(
            &mut self.nand,
            &mut self.blocks,
            &Fresh { pages },
            &mut scratch,
        )
    }

    /// Writes the summary of a block, as it was allocated with a number, as one group.
    pub(crate) fn summarize(
        &mut self,
        rt: &impl Abort,
        block: u32,
        seq: u64,
        entries: &[CheckEntry],
    ) -> Result<Placed, GroupFault> {
        assert!(rt; self.blocks.next_group() < 1 << 62);
        let mut scratch = [0; 512];
        assert!(rt; self.nand.geometry().bytes() == 512);
        let source = SummarySource::new(block, seq, entries, self.nand.geometry());
        let source = source.expect(rt, "pages enough");
        write_checkpoint(&mut self.nand, &mut self.blocks, &source, &mut scratch)
    }
}

/// Whether there are pages, and each is of a number that an object may have and has so many bytes.
fn may_commit(pages: &[FreshPage], bytes: u32) -> bool
    ensures can { (g : Geometry) (number : ℕ) → IsTrue result → g.bytes ≡ bytes → 1 ≤ number → CanCommit pages.now g number }
    ensures ordinary { (number : ℕ) → IsTrue result → AreOrdinary (length pages.now) (fresh_name pages.now number) }
{
    if pages.is_empty() || pages.len() > 256 {
        return false;
    }
    for i in 0..pages.len() {
        if pages[i].key.object == 0 || pages[i].bytes.len() != bytes as usize {
            return false;
        }
        if pages[i].key.object >= CHECK_OBJECT {
            return false;
        }
    }
    true
}

/// A page of chunk 0 of an object, all bytes the same.
pub(crate) fn page_of(rt: &impl Abort, alloc: Global, object: u64, fill: u8) -> FreshPage {
    FreshPage {
        key: Key { object, chunk: 0 },
        bytes: vec![in alloc; fill; 512].expect(rt, "memory"),
    }
}

/// So many pages, of the objects from this one up.
pub(crate) fn pages_from(
    rt: &impl Abort,
    alloc: Global,
    first: u64,
    count: u64,
    fill: u8,
) -> Vec<FreshPage> {
    let mut pages = Vec::new(alloc);
    for i in 0..count {
        let page = page_of(rt, alloc, first.saturating_add(i), fill);
        pages.push(page).expect(rt, "memory");
    }
    pages
}
