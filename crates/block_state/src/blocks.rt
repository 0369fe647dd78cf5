// The table, and what changes it.
ghost use Rattle.std.specs.Prelude.{◌≡◌, ◌≢◌, ◌<◌, ◌≤◌, ◌+◌, ◌-◌, ◌^◌, max, ℕ, true, false, None, Some, IfOk, IfSome};
ghost use Rattle.volume_terms.specs.Sizes.{number_end};
ghost use Rattle.block_state.specs.Table.{blank, room, is_free, other_than, Sets, SetsEntry, SetsBad, IsWhole, IsOnDevice};

use nand_model::Geometry;
use std::alloc::{AllocError, Global};

/// What is known of one block.
#[derive(Clone, Copy, Debug, PartialEq, Eq)]
pub struct BlockEntry {
    /// Whether it is marked bad.
    pub bad: bool,
    /// How many committed pages it has.
    pub committed: u32,
    /// The number that it got when it was last taken, 0 if it was not.
    pub seq: u64,
    /// How many of its pages were programmed since it was erased, as far as is known: while the block is open, the page that is
    /// written next.
    pub next: u32,
}

impl BlockEntry {
    ghost use Rattle.block_state.specs.Table.{turn_of};

    /// When it is allocated: the least goes first. A block in which nothing was programmed since it was erased goes before all others.
    pub(crate) fn turn(&self) -> u64
        ensures { result ≡ turn_of self.now }
    {
        if self.next == 0 { 0 } else { self.seq }
    }
}

/// The numbers that are handed out next.
#[derive(Clone, Copy, Debug, PartialEq, Eq)]
pub struct NextNumbers {
    /// The number of the next block that is taken.
    pub seq: u64,
    /// The number of the next group.
    pub group: u64,
}

/// The table of a device's blocks. All but `new` takes no memory.
#[derive(Drop)]
pub struct Blocks {
    geometry: Geometry,
    entries: Vec<BlockEntry>,
    open_block: Option<u32>,
    checkpoint: Option<u32>,
    next_seq: u64,
    next_group: u64,
    ghost whole: { IsWhole geometry entries.items open_block next_seq },
    ghost on_device: { IsOnDevice geometry checkpoint },
}

impl Blocks {
    ghost use Rattle.block_state.specs.TableOf.{table};

    /// All blocks good and without committed pages, none open, and the numbers 1 next.
    pub fn new(alloc: Global, geometry: Geometry) -> Result<Blocks, AllocError>
        ensures { IfOk result (λ blocks. table blocks ≡ record { geometry = geometry; entry = λ b. blank; open_block = None; checkpoint = None; next_seq = 1; next_group = 1 }) }
    {
        let blank = BlockEntry {
            bad: false,
            committed: 0,
            seq: 0,
            next: 0,
        };
        let mut entries = Vec::new(alloc);
        entries.resize(geometry.blocks() as usize, blank)?;
        Ok(Blocks {
            geometry,
            entries,
            open_block: None,
            checkpoint: None,
            next_seq: 1,
            next_group: 1,
        })
    }

    /// The sizes of the device.
    pub fn geometry(&self) -> Geometry
        ensures { result ≡ (table self.now).geometry }
    {
        self.geometry
    }

    /// What is known of a block.
    pub fn entry(&self, block: u32) -> BlockEntry
        requires { block < (table self.now).geometry.blocks }
        ensures { result ≡ (table self.now).entry block }
    {
        self.entries[block as usize]
    }

    /// The block that is being written.
    pub fn open_block(&self) -> Option<u32>
        ensures { result ≡ (table self.now).open_block }
    {
        self.open_block
    }

    /// The block that may have a whole checkpoint.
    pub fn checkpoint(&self) -> Option<u32>
        ensures { result ≡ (table self.now).checkpoint }
    {
        self.checkpoint
    }

    /// How many pages can still be written in the open block.
    pub fn open_room(&self) -> u32
        ensures { result ≡ room (table self.now) }
    {
        match self.open_block {
            None => 0,
            Some(block) => self.geometry.pages() - self.entries[block as usize].next,
        }
    }

    /// The number of the next block that is taken.
    pub fn next_seq(&self) -> u64
        ensures { result ≡ (table self.now).next_seq }
    {
        self.next_seq
    }

    /// The number of the next group.
    pub fn next_group(&self) -> u64
        ensures { result ≡ (table self.now).next_group }
    {
        self.next_group
    }

    /// Goes on from greater numbers, such as are on a flash.
    pub fn raise(&mut self, next: NextNumbers)
        ensures { (table self.new) ≡ record (table self.old) { next_seq = max (table self.old).next_seq next.seq; next_group = max (table self.old).next_group next.group } }
    {
        self.next_seq = self.next_seq.max(next.seq);
        self.next_group = self.next_group.max(next.group);
    }

    /// Hands out a group number.
    pub fn take_group(&mut self) -> u64
        requires { (table self.old).next_group < number_end }
        ensures result { result ≡ (table self.old).next_group }
        ensures next { table self.new ≡ record (table self.old) { next_group = (table self.old).next_group + 1 } }
    {
        let group = self.next_group;
        self.next_group += 1;
        group
    }

    /// Notes the block that may have a whole checkpoint: a free one, while no block is open.
    pub fn note_checkpoint(&mut self, block: u32)
        requires block { block < (table self.old).geometry.blocks }
        requires closed { (table self.old).open_block ≡ None }
        requires free { is_free (table self.old) block ≡ true }
        ensures { table self.new ≡ record (table self.old) { checkpoint = Some block } }
    {
        self.checkpoint = Some(block);
    }

    /// The block that may have a whole checkpoint, once this one has none.
    fn checkpoint_elsewhere(&self, block: u32) -> Option<u32>
        ensures is { result ≡ other_than block (table self.now).checkpoint }
        ensures on_device { IsOnDevice (table self.now).geometry result }
    {
        match self.checkpoint {
            Some(other) if other != block => Some(other),
            _ => None,
        }
    }

    /// Notes that a block is bad, which then has no checkpoint. The block is not the open one.
    #[tactic(auto, using(crate::specs::laws::Table::whole_set))]
    pub fn mark_bad(&mut self, block: u32)
        requires block { block < (table self.old).geometry.blocks }
        requires closed { (table self.old).open_block ≢ Some block }
        ensures { SetsBad block (table self.old) (table self.new) }
    {
        let entry = self.entry(block);
        self.checkpoint = self.checkpoint_elsewhere(block);
        self.entries[block as usize] = BlockEntry { bad: true, ..entry };
    }

    /// Notes the number that a block got when it was last allocated, as its pages have it: something was programmed in it.
    #[tactic(auto, using(crate::specs::laws::Table::whole_set))]
    pub fn note_written(&mut self, block: u32, seq: u64)
        requires block { block < (table self.old).geometry.blocks }
        requires below { seq < (table self.old).next_seq }
        ensures { SetsEntry block (record ((table self.old).entry block) { seq = seq; next = (table self.old).geometry.pages }) (table self.old) (table self.new) }
    {
        let entry = self.entry(block);
        self.entries[block as usize] = BlockEntry {
            seq,
            next: self.geometry.pages(),
            ..entry
        };
    }

    /// Notes that one more page of a block is committed.
    #[tactic(auto, using(crate::specs::laws::Table::whole_set))]
    pub fn keep(&mut self, block: u32)
        requires block { block < (table self.old).geometry.blocks }
        requires room { ((table self.old).entry block).committed < 2 ^ 32 - 1 }
        ensures { SetsEntry block (record ((table self.old).entry block) { committed = ((table self.old).entry block).committed + 1 }) (table self.old) (table self.new) }
    {
        let entry = self.entry(block);
        self.entries[block as usize] = BlockEntry {
            committed: entry.committed + 1,
            ..entry
        };
    }

    /// Notes that one page less of a block is committed.
    #[tactic(auto, using(crate::specs::laws::Table::whole_set))]
    pub fn release(&mut self, block: u32)
        requires block { block < (table self.old).geometry.blocks }
        requires has_committed { 1 ≤ ((table self.old).entry block).committed }
        ensures { SetsEntry block (record ((table self.old).entry block) { committed = ((table self.old).entry block).committed - 1 }) (table self.old) (table self.new) }
    {
        let entry = self.entry(block);
        self.entries[block as usize] = BlockEntry {
            committed: entry.committed - 1,
            ..entry
        };
    }

    /// Makes a good block, which was erased and so has no checkpoint, the open one, and gives it the next number.
    #[tactic(auto, using(crate::specs::laws::Table::whole_set))]
    pub fn open(&mut self, block: u32)
        requires block { block < (table self.old).geometry.blocks }
        requires good { ((table self.old).entry block).bad ≡ false }
        requires seq { (table self.old).next_seq < number_end }
        ensures sets { Sets block (record ((table self.old).entry block) { seq = (table self.old).next_seq; next = 0 }) (table self.old) (table self.new) }
        ensures open { (table self.new).open_block ≡ Some block }
        ensures checkpoint { (table self.new).checkpoint ≡ other_than block (table self.old).checkpoint }
        ensures seq { (table self.new).next_seq ≡ (table self.old).next_seq + 1 }
    {
        self.checkpoint = self.checkpoint_elsewhere(block);
        let entry = &mut self.entries[block as usize];
        entry.seq = self.next_seq;
        entry.next = 0;
        self.next_seq += 1;
        self.open_block = Some(block);
    }

    /// Takes so many pages of the open block, which are written.
    #[tactic(auto, using(crate::specs::laws::Table::whole_set))]
    pub fn fill(&mut self, block: u32, count: u32)
        requires open { (table self.old).open_block ≡ Some block }
        requires room { count ≤ room (table self.old) }
        ensures { SetsEntry block (record ((table self.old).entry block) { next = ((table self.old).entry block).next + count }) (table self.old) (table self.new) }
    {
        self.entries[block as usize].next += count;
    }

    /// The open block takes no more pages.
    pub fn close(&mut self)
        ensures { table self.new ≡ record (table self.old) { open_block = None } }
    {
        self.open_block = None;
    }
}
