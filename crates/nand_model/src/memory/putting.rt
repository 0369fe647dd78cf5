// A device in memory that represents one whose pages lie elsewhere.
ghost use Rattle.std.specs.Prelude.{◌≡◌, ◌≢◌, ◌+◌, ◌<◌, ℕ, true, false, length, vec_len, None};
ghost use Rattle.nand_model.specs.Memory.{page_of, pages_at, bad_at, next_at};
ghost use Rattle.nand_model.specs.Planned.{after_change};
ghost use Rattle.nand_model.specs.Putting.{PutsPage, PutsMark, CutsChange, CutsMark};
ghost use Rattle.nand_model.specs.Scripts as scripts;

use super::MemNand;
use crate::block::{MemBlock, mark_block, write_page};
use crate::nand::PageKind;
use crate::plan::End;
use crate::power::Power;

/// Takes the power away in a change.
fn lose_power(power: &mut Power)
    requires { power.old.gone ≡ false }
    ensures gone { power.new.gone ≡ true }
    ensures cuts { power.new.cuts.total ≡ power.old.cuts.total + 1 }
    ensures failures { power.new.failures ≡ power.old.failures }
    ensures changes { power.new.changes.total ≡ power.old.changes.total + 1 }
    ensures reads { power.new.reads ≡ power.old.reads }
    ensures script { scripts.plan power.new.script ≡ after_change false (scripts.plan power.old.script) }
{
    power.script.count_call();
    power.script.count_change();
    power.changes = power.changes.next();
    power.cuts = power.cuts.next();
    power.gone = true;
}

/// Takes the next page of a block away.
fn clear_next(blocks: &mut Vec<MemBlock>, b: usize)
    requires { b < vec_len blocks.old }
    ensures len { length blocks.new.items ≡ length blocks.old.items }
    ensures next { next_at blocks.new.items b ≡ None }
    ensures nexts { (k : ℕ) → k ≢ b → next_at blocks.new.items k ≡ next_at blocks.old.items k }
    ensures bad { (k : ℕ) → bad_at blocks.new.items k ≡ bad_at blocks.old.items k }
    ensures pages { (k : ℕ) → pages_at blocks.new.items k ≡ pages_at blocks.old.items k }
{
    blocks[b].next = None;
}

impl MemNand {
    ghost use Rattle.nand_model.specs.MemoryState.{device, plan};

    /// The page is this one from now on, without a program of it. Data and tag represent nothing where it isn't
    /// written. Its block has no next page.
    pub fn put_page(&mut self, block: u32, page: u32, kind: PageKind, bytes: &[u8], tag: &[u8; 48])
        requires block { block < (device self.old).geometry.blocks }
        requires page { page < (device self.old).geometry.pages }
        requires size { length bytes.now ≡ (device self.old).geometry.bytes }
        ensures puts { PutsPage block page (page_of kind bytes.now tag.now) (device self.old) (device self.new) }
        ensures plan { plan self.new ≡ plan self.old }
    {
        write_page(
            &mut self.blocks,
            block as usize,
            page as usize,
            kind,
            bytes,
            tag,
            None,
        );
    }

    /// The block is bad from now on, without a call that marks it.
    pub fn put_mark(&mut self, block: u32)
        requires { block < (device self.old).geometry.blocks }
        ensures puts { PutsMark block (device self.old) (device self.new) }
        ensures plan { plan self.new ≡ plan self.old }
    {
        mark_block(&mut self.blocks, block as usize, End::Whole, &[]);
    }

    /// The power is lost in a program or an erase of the block, which leaves the old pages.
    pub fn cut_change(&mut self, block: u32)
        requires block { block < (device self.old).geometry.blocks }
        requires power { (device self.old).gone ≡ false }
        ensures cuts { CutsChange block (device self.old) (device self.new) }
        ensures plan { plan self.new ≡ after_change false (plan self.old) }
    {
        lose_power(&mut self.power);
        clear_next(&mut self.blocks, block as usize);
    }

    /// The power is lost in a mark, which isn't set.
    pub fn cut_mark(&mut self)
        requires { (device self.old).gone ≡ false }
        ensures cuts { CutsMark (device self.old) (device self.new) }
        ensures plan { plan self.new ≡ after_change false (plan self.old) }
    {
        lose_power(&mut self.power);
    }
}
