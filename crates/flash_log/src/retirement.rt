// The retirement of a block.
ghost use Rattle.std.specs.Prelude.{◌≡◌, ◌≢◌, ◌<◌, true, false, Some, None, Ok, Result, IfOk, OnOk};
ghost use Rattle.nand_model.specs.Calls.{Marks};
ghost use Rattle.nand_model.specs.declared.nand.Gone.{Gone};
ghost use Rattle.flash_tree.specs.Keeping.{KeepsElsewhere};
ghost use Rattle.block_state.specs.TableOf.{table};
ghost use Rattle.transactions.specs.Handing.{HandsOut};
ghost use Rattle.transactions.specs.Marking.{NotesMark};
ghost use Rattle.transactions.specs.Opening.{MayLose};
ghost use Rattle.transactions.specs.Ready.{IsReady};
ghost use Rattle.flash_log.specs.Bills.{PaysEmptying, PaysOut, PaysRetirement};
ghost use Rattle.flash_log.specs.Moving.{MovesOut};
ghost use Rattle.flash_log.specs.Refreshing.{FillsAnew};
ghost use Rattle.flash_log.specs.Retiring.{EmptyEnds, MarkedEnds, OneEnds, RetireEnds, MarksAlone};

use crate::fault::MoveFault;
use crate::log::Log;
use crate::moving::Moved;
use block_state::Blocks;
use chunk_index::the_counts_are_of_the_keys;
use nand_model::Nand;
use transactions::mark_block;

/// Marks a block without a committed page, where no block that holds some is open besides. More bad blocks than there are to
/// spare are the end.
fn mark_emptied<N: Nand>(
    device: &mut N,
    blocks: &mut Blocks,
    block: u32,
    spare: u32,
) -> Result<(), MoveFault>
    requires can_write { IsReady (N.state device.old) (table blocks.old) }
    requires block { block < (N.state device.old).geometry.blocks }
    requires closed { (table blocks.old).open_block ≢ Some block }
    requires first { MayLose block (table blocks.old) }
    ensures marks { (gone : Result (Unit {0}) Gone) × Marks block (N.state device.old) (N.state device.new) gone }
    ensures can_write { IsReady (N.state device.new) (table blocks.new) }
    ensures notes { NotesMark block (N.state device.new).flash (table blocks.old) (table blocks.new) }
    ensures newest { (N.state device.old).honest ≡ true → KeepsElsewhere block (N.state device.old).flash (N.state device.new).flash }
    ensures numbers { HandsOut (N.state device.old) (N.state device.new) (table blocks.old) (table blocks.new) }
    ensures ends { MarkedEnds block spare (N.state device.new) (table blocks.new) result }
{
    let marked = mark_block(device, blocks, block);
    if marked.is_err() {
        return Err(MoveFault::Gone);
    }
    if blocks.bad_count() > spare {
        return Err(MoveFault::Worn);
    }
    Ok(())
}

impl<N: Nand> Log<N> {
    ghost use Rattle.flash_log.specs.LogOf.{HasReserve, Moves, SameTerms, log_state, terms_of, IsGoodBlock};

    /// Moves away what is committed in a good block, if anything. Returns the block of a suspect copy.
    fn empty_block(&mut self, block: u32) -> Result<Option<u32>, MoveFault>
        requires within_limit { HasReserve self.old }
        requires closed { (table self.old.blocks).open_block ≡ None }
        requires block { block < (N.state self.old.device).geometry.blocks }
        requires good { ((table self.old.blocks).entry block).bad ≡ false }
        ensures terms { SameTerms (terms_of self.old) (terms_of self.new) }
        ensures step { Moves self.old self.new }
        ensures out { MovesOut block self.old.index self.new.index }
        ensures pays { PaysEmptying (log_state self.old) (log_state self.new) result }
        // Nothing is moved out of a block that is empty.
        ensures nothing { ((table self.old.blocks).entry block).committed ≡ 0 → (N.state self.new.device ≡ N.state self.old.device) × (result ≡ Ok None) }
        // What is committed now in a block that had nothing was written in this call.
        ensures anew { OnOk result (FillsAnew (log_state self.old) (log_state self.new) self.new.index) }
        ensures ends { EmptyEnds block self.old.spare (N.state self.new.device) (table self.old.blocks) (table self.new.blocks) result }
    {
        the_counts_are_of_the_keys();
        if self.blocks.entry(block).committed == 0 {
            return Ok(None);
        }
        match self.move_committed(block)? {
            Moved::Trusted => Ok(None),
            Moved::Suspect(next) => Ok(Some(next)),
        }
    }

    /// Moves away what is committed in a good block, if anything, and marks the block. Returns the block of a suspect copy.
    fn retire_one(&mut self, block: u32) -> Result<Option<u32>, MoveFault>
        requires within_limit { HasReserve self.old }
        requires closed { (table self.old.blocks).open_block ≡ None }
        requires none { (table self.old.blocks).checkpoint ≡ None }
        requires block { block < (N.state self.old.device).geometry.blocks }
        requires good { ((table self.old.blocks).entry block).bad ≡ false }
        ensures terms { SameTerms (terms_of self.old) (terms_of self.new) }
        ensures step { Moves self.old self.new }
        ensures out { MovesOut block self.old.index self.new.index }
        ensures pays { PaysOut (log_state self.old) (log_state self.new) result }
        ensures empty { ((table self.old.blocks).entry block).committed ≡ 0 → MarksAlone self.old.spare (log_state self.old) (log_state self.new) result }
        ensures moves_none { ((table self.old.blocks).entry block).committed ≡ 0 → IfOk result (λ suspect. suspect ≡ None) }
        // What is committed now in a block that had nothing was written in this call.
        ensures anew { OnOk result (FillsAnew (log_state self.old) (log_state self.new) self.new.index) }
        ensures ends { OneEnds block self.old.spare (N.state self.new.device) (table self.old.blocks) (table self.new.blocks) result }
    {
        the_counts_are_of_the_keys();
        let spare = self.spare;
        let suspect = self.empty_block(block)?;
        mark_emptied(&mut self.device, &mut self.blocks, block, spare)?;
        Ok(suspect)
    }

    /// Retires a good block, where none is open, and each block of a suspect copy after it.
    fn retire_all(&mut self, block: u32) -> Result<(), MoveFault>
        requires within_limit { HasReserve self.old }
        requires closed { (table self.old.blocks).open_block ≡ None }
        requires none { (table self.old.blocks).checkpoint ≡ None }
        requires block { block < (N.state self.old.device).geometry.blocks }
        requires good { ((table self.old.blocks).entry block).bad ≡ false }
        ensures terms { SameTerms (terms_of self.old) (terms_of self.new) }
        ensures step { Moves self.old self.new }
        ensures out { MovesOut block self.old.index self.new.index }
        ensures pays { PaysRetirement (log_state self.old) (log_state self.new) result }
        ensures empty { ((table self.old.blocks).entry block).committed ≡ 0 → MarksAlone self.old.spare (log_state self.old) (log_state self.new) result }
        // What is committed now in a block that had nothing was written in this call.
        ensures anew { OnOk result (FillsAnew (log_state self.old) (log_state self.new) self.new.index) }
        ensures ends { RetireEnds block self.old.spare (N.state self.new.device) (table self.old.blocks) (table self.new.blocks) result }
    {
        the_counts_are_of_the_keys();
        let mut suspect = self.retire_one(block)?;
        while let Some(next) = suspect {
            suspect = self.retire_one(next)?;
        }
        Ok(())
    }

    /// Retires a good block: moves what is committed in it, if anything, into a freshly erased free block, which becomes the
    /// open one, and marks it. Where a copy is suspect its block is the next to retire. The block that was open is so no
    /// longer.
    pub fn retire(&mut self, block: u32) -> Result<(), MoveFault>
        requires within_limit { HasReserve self.old }
        requires none { (table self.old.blocks).checkpoint ≡ None }
        requires block { IsGoodBlock block (log_state self.old) }
        ensures terms { SameTerms (terms_of self.old) (terms_of self.new) }
        ensures step { Moves self.old self.new }
        ensures out { MovesOut block self.old.index self.new.index }
        ensures pays { PaysRetirement (log_state self.old) (log_state self.new) result }
        ensures empty { ((table self.old.blocks).entry block).committed ≡ 0 → MarksAlone self.old.spare (log_state self.old) (log_state self.new) result }
        // What is committed now in a block that had nothing was written in this call.
        ensures anew { OnOk result (FillsAnew (log_state self.old) (log_state self.new) self.new.index) }
        ensures ends { RetireEnds block self.old.spare (N.state self.new.device) (table self.old.blocks) (table self.new.blocks) result }
    {
        self.blocks.close();
        self.retire_all(block)
    }
}
