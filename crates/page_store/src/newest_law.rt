// What follows for the pages of a device that was opened. A function here does nothing: its clauses are the laws.
ghost use Rattle.std.specs.Prelude.{◌≡◌, true};
ghost use Rattle.nand_model.specs.Calls.{Device};
ghost use Rattle.nand_model.specs.Flash.{Flash};
ghost use Rattle.flash_tree.specs.Newest.{Numbers};
ghost use Rattle.pages.specs.NewestMaps.{IsNewestMap};
ghost use Rattle.block_state.specs.Table.{Table};
ghost use Rattle.chunk_index.specs.declared.index.Index.{Index};
ghost use Rattle.chunk_index.specs.Maps.{committed_pages};
ghost use Rattle.page_store.specs.Shown.{committed_data, HaveData};
ghost use Rattle.flash_log.specs.Consistency.{AreCommitted};
ghost use Rattle.page_store.specs.Opened.{IsOpened};

/// Committed pages that are the newest of their keys have data. Of a device that was opened the committed pages are the newest
/// ones, with their data, and all of them that are of chunks that a tree may look up.
pub fn the_opened_pages_are_the_newest()
    ensures written { (flash : Flash) (x : Index) → AreCommitted flash (committed_pages x) → HaveData flash (committed_pages x) }
    ensures pages { (d : Device) (t : Table) (x : Index) (n : Numbers) → IsOpened d t x n → d.honest ≡ true → IsNewestMap d.flash (committed_data x d.flash) }
{}
