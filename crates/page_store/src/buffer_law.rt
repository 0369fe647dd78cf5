// What follows from what the calls do. A function here does nothing: its clause is the law.
ghost use Rattle.std.specs.Prelude.{List};
ghost use Rattle.flash_tree.specs.declared.place.FreshPage.{FreshPage};
ghost use Rattle.pages.specs.Stores.{SamePages};
ghost use Rattle.page_store.specs.Shown.{committed_data, present_data};
ghost use Rattle.page_store.specs.Buffering.{BufferCommit};

/// Once the buffer was written as a group and the index settled, the committed pages and the present pages have the data that the
/// present pages had.
pub fn a_written_buffer_is_committed()
    ensures committed { (c : BufferCommit) → SamePages (committed_data c.after c.new) (present_data c.before c.pages c.old) }
    ensures present { (c : BufferCommit) (rest : List FreshPage) → SamePages (present_data c.after rest c.new) (present_data c.before c.pages c.old) }
{}
