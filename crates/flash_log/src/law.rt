// What follows from the passing over of blocks. A function here does nothing: its clause is the law.
ghost use Rattle.nand_model.specs.Calls.{Device, Lasts};
ghost use Rattle.block_state.specs.Table.{Table};
ghost use Rattle.flash_log.specs.Passing.{Passes};

/// What two calls in turn pass over.
pub fn blocks_are_taken_in_turn()
    ensures { (a b c : Device) (t u v : Table) → Lasts a b → Passes a b t u → Passes b c u v → Passes a c t v }
{}
