// What follows from what the calls do. A function here does nothing: its clause is the law.
ghost use Rattle.std.specs.Prelude.{◌≡◌, ℕ, List};
ghost use Rattle.nand_model.specs.Flash.{Flash};
ghost use Rattle.nand_model.specs.Calls.{Device, Lasts};
ghost use Rattle.nand_model.specs.Changes.{Grows, Shrinks};
ghost use Rattle.flash_tree.specs.Fading.{MarksHonest};
ghost use Rattle.flash_tree.specs.Groups.{Group};
ghost use Rattle.flash_tree.specs.Mount.{bad_blocks};
ghost use Rattle.block_state.specs.Committed.{bad_count};
ghost use Rattle.block_state.specs.Table.{Table};
ghost use Rattle.transactions.specs.Handing.{HandsOut};
ghost use Rattle.transactions.specs.Newest.{ComesLast, EndsNewest, IsCommit, IsOfCopies};
ghost use Rattle.flash_tree.specs.Numbering.{AreBelow};
ghost use Rattle.transactions.specs.Ready.{IsReady};
ghost use Rattle.transactions.specs.declared.source.PageName.{PageName};

/// The pages of a group come after all that count: new pages in the group's own number, above all numbers before; and
/// copies of newest pages in their versions, in a block of a number above all before.
pub fn a_group_comes_last()
    ensures committed { (g : Group) (name : ℕ → PageName) (flash : Flash) → IsCommit g name flash → ComesLast g name flash }
    ensures copied { (g : Group) (name : ℕ → PageName) (flash : Flash) → IsOfCopies g name flash → ComesLast g name flash }
{}

/// However the writing of a group that comes last ends, the group's pages are the newest of the keys that it names, all
/// of them or none, and every other key keeps its newest page.
pub fn a_group_is_newest_of_its_keys()
    ensures { (g : Group) (name : ℕ → PageName) (bytes : ℕ → List ℕ) (old new : Flash) → Grows old new → ComesLast g name old → EndsNewest g name bytes old new }
{}

/// Numbers that are above those of all tags stay so over an erase and a mark, however these end.
pub fn erases_and_marks_bring_no_number()
    ensures erased { (b : ℕ) (old new : Flash) (group seq : ℕ) → Shrinks b old new → AreBelow old group seq → AreBelow new group seq }
    ensures marked { (b : ℕ) (old new : Device) (group seq : ℕ) → MarksHonest b old new → AreBelow old.flash group seq → AreBelow new.flash group seq }
{}

/// The numbers that two calls hand out in turn are no more than the changes that the device had in both.
pub fn numbers_of_calls_in_turn_add_up()
    ensures on { (a b c : Device) (t u v : Table) → Lasts a b → Lasts b c → HandsOut a b t u → HandsOut b c u v → HandsOut a c t v }
    ensures none { (a : Device) (t : Table) → HandsOut a a t t }
{}

/// A table that is ready has as many bad blocks as the flash.
pub fn the_table_has_the_marks_of_the_flash()
    ensures { (d : Device) (t : Table) → IsReady d t → bad_count t ≡ bad_blocks d.geometry d.flash }
{}
