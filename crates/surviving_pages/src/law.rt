// What follows of pages that survive. A function here does nothing: its clauses are the laws.
ghost use Rattle.std.specs.Prelude.{◌≡◌, ◌↔◌, ◌<◌, ◌^◌, ℕ, List, Some, IsSome};
ghost use Rattle.nand_model.specs.Flash.{Flash};
ghost use Rattle.flash_tree.specs.Newest.{Spot, Holds, HasNewest};
ghost use Rattle.chunk_index.specs.declared.form.CommittedPage.{CommittedPage};
ghost use Rattle.chunk_index.specs.declared.index.Index.{Index};
ghost use Rattle.chunk_index.specs.Maps.{committed_pages};
ghost use Rattle.page_store.specs.Shown.{data_at, committed_data};
ghost use Rattle.surviving_pages.specs.Opened.{HasSurvivors};
ghost use Rattle.surviving_pages.specs.Surviving.{Survives, HasSurvivor, HasLostNothing};

/// A valid page survives. Where no page of a completed group is lost, the newest surviving data of a key are its newest data.
pub fn where_nothing_is_lost_the_newest_pages_survive()
    ensures valid { (flash : Flash) (o c : ℕ) (s : Spot) → Holds flash o c s → Survives flash o c s }
    ensures same { (flash : Flash) (o c : ℕ) (bytes : List ℕ) → HasLostNothing flash → HasSurvivor flash o c bytes ↔ HasNewest flash o c bytes }
{}

/// Each page of an index of the pages that survive has data, and these are the newest surviving data of its key; and so has each key of
/// a chunk that a tree may look up.
pub fn the_surviving_pages_have_data()
    ensures written { (flash : Flash) (x : Index) → HasSurvivors flash x → (o c : ℕ) (k : CommittedPage) → committed_pages x o c ≡ Some k → IsSome (data_at flash k) }
    ensures pages { (flash : Flash) (x : Index) → HasSurvivors flash x
        → (o c : ℕ) (xs : List ℕ) → (committed_data x flash o c ≡ Some xs) ↔ (HasSurvivor flash o c xs × (c < 2 ^ 32)) }
{}
