// What follows from what single calls do.
ghost use Rattle.std.specs.Prelude.{◌≡◌, ℕ, true, Result};
ghost use Rattle.nand_model.specs.Calls.{Device, Lasts, Reads, Erases};
ghost use Rattle.nand_model.specs.Changes.{IsNextPage, ProgramsPage, Grows, Shrinks, OnlyReads};
ghost use Rattle.nand_model.specs.declared.nand.PageKind.{PageKind};
ghost use Rattle.nand_model.specs.declared.nand.Gone.{Gone};
ghost use Rattle.nand_model.specs.declared.nand.EraseFault.{EraseFault};

/// What each of two calls in turn keeps both keep.

pub fn calls_in_turn()
    ensures { (a b c : Device) → Lasts a b → Lasts b c → Lasts a c }
{}

/// However a program ends, it changes no page of an honest device but one that was erased.
pub fn a_program_changes_an_erased_page()
    ensures { (b p : ℕ) (old new : Device) → IsNextPage old b p → ProgramsPage b p old new → Grows old.flash new.flash }
{}

/// However an erase ends, it changes no page of an honest device but those of its block, and writes none.
pub fn an_erase_shrinks_its_block()
    ensures { (b : ℕ) (old new : Device) (result : Result (Unit {0}) EraseFault) → old.honest ≡ true → Erases b old new result → Shrinks b old.flash new.flash }
{}

/// Reads, however many and however they end, change nothing on the flash.
pub fn reads_change_nothing()
    ensures one { (old new : Device) (result : Result PageKind Gone) → Reads old new result → OnlyReads old new }
    ensures more { (a b c : Device) → OnlyReads a b → OnlyReads b c → OnlyReads a c }
{}
