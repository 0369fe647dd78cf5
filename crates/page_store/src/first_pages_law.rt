// What follows for a table that knows the first pages of blocks. A function here does nothing: its clause is the law.
ghost use Rattle.nand_model.specs.Calls.{Device};
ghost use Rattle.block_state.specs.Table.{Table};
ghost use Rattle.flash_log.specs.Erased.{TracksErased};
ghost use Rattle.page_store.specs.KnownFirsts.{KnowsFirsts, MayKnowErased};

/// A table that knows the first pages of blocks knows the blocks that begin erased, where no block is open, none that begins erased has a
/// committed page, and the block that may have a checkpoint goes first.
pub fn a_table_of_first_pages_knows_erased_blocks()
    ensures { (d : Device) (t : Table) → KnowsFirsts d.flash t → MayKnowErased d t → TracksErased d t }
{}
