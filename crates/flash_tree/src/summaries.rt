// What keeps the summaries of a flash right: why the next mount may go by them. A function here does nothing: its clause is the law.
ghost use Rattle.std.specs.Prelude.{◌≡◌, ◌<◌, ℕ};
ghost use Rattle.nand_model.specs.Flash.{Flash, IsWithin};
ghost use Rattle.nand_model.specs.Calls.{Device};
ghost use Rattle.nand_model.specs.Changes.{Shrinks};
ghost use Rattle.nand_model.specs.declared.geometry.Geometry.{Geometry};
ghost use Rattle.page_tags.specs.declared.tag.Tag.{Tag};
ghost use Rattle.flash_tree.specs.Checkpoints.{Checkpoint, AddsOrdinary, AddsCheckpoint};
ghost use Rattle.flash_tree.specs.Groups.{Group, SameGroups, NamesNot};
ghost use Rattle.flash_tree.specs.Fading.{Fades, MarksHonest};
ghost use Rattle.flash_tree.specs.Summaries.{Summary, AreSummariesRight, IsSummarized};
ghost use Rattle.flash_tree.specs.ErasedBlocks.{IsLowestErased, NoneErasedBeside, OnlyFirstHasTags, GoesFirst};
ghost use Rattle.flash_tree.specs.Summarizing.{HasNoTags, WritesInOne, AddsNoSummary, AddsSummary, ListsKey, AddsTagged, LeavesFindable, LeavesAllFindable, LiesElsewhere, FindsNamed};

/// A flash whose good blocks have no tags is summarized, and it is so over reads and power-ups, which leave its pages and marks.
pub fn a_flash_without_tags_is_summarized()
    ensures blank { (g : Geometry) (flash : Flash) → HasNoTags flash → IsSummarized g flash }
    ensures same { (g : Geometry) (old new : Flash) → new.bad ≡ old.bad → new.page ≡ old.page → IsSummarized g old → IsSummarized g new }
{}

/// The lowest good block of a device whose page 0 is erased goes first, where the first alone has tags; and so does each block where
/// there is none such beside it.
pub fn the_lowest_block_goes_first()
    ensures lowest { (blocks : ℕ) (flash : Flash) (b : ℕ) → IsLowestErased blocks flash b → OnlyFirstHasTags flash → GoesFirst flash b }
    ensures alone { (pages blocks : ℕ) (flash : Flash) (b : ℕ) → IsWithin pages blocks flash → b < blocks → NoneErasedBeside blocks flash b → GoesFirst flash b }
{}

/// An erase of the block that goes first keeps a flash summarized, however it ends.
pub fn an_erase_of_the_first_keeps_a_flash_summarized()
    ensures { (g : Geometry) (b : ℕ) (old new : Flash) → Shrinks b old new → GoesFirst old b → IsSummarized g old → IsSummarized g new }
{}

/// A mark keeps a flash summarized, done or cut.
pub fn a_mark_keeps_a_flash_summarized()
    ensures { (g : Geometry) (b : ℕ) (old new : Device) → MarksHonest b old new → IsSummarized g old.flash → IsSummarized g new.flash }
{}

/// A group that is no summary keeps a flash summarized, whole or cut; and so does that of a summary that lists a block as it was.
pub fn a_group_keeps_a_flash_summarized()
    ensures other { (g : Geometry) (old new : Flash) → WritesInOne old new → AddsNoSummary old new → IsSummarized g old → IsSummarized g new }
    ensures summary { (g : Geometry) (old new : Flash) (s : Summary) → AddsSummary g old new s → IsSummarized g old → IsSummarized g new }
{}

/// Groups of the objects of a tree are no summary, nor is that of a checkpoint.
pub fn trees_and_checkpoints_add_no_summary()
    ensures objects { (old new : Flash) → AddsOrdinary old new → AddsNoSummary old new }
    ensures checkpoint { (g : Geometry) (old new : Flash) (c : Checkpoint) → AddsCheckpoint g old new c → AddsNoSummary old new }
{}

/// Where a block fades, a key whose newest page does not lie in it is findable still.
pub fn a_block_that_fades_leaves_keys_findable()
    ensures { (g : Geometry) (b : ℕ) (old new : Flash) → Fades b old new → LeavesFindable g old new (LiesElsewhere old b) }
{}

/// Pages that are in no valid group leave each key findable, and so do reads and power-ups, which leave all pages and marks.
pub fn the_same_groups_leave_keys_findable()
    ensures written { (g : Geometry) (old new : Flash) → WritesInOne old new → SameGroups old new → AreSummariesRight g old → LeavesAllFindable g old new }
    ensures same { (g : Geometry) (old new : Flash) → new.bad ≡ old.bad → new.page ≡ old.page → LeavesAllFindable g old new }
{}

/// The group of a summary leaves each key findable whose newest page it lists, if that lies in the block that it lists.
pub fn a_summary_leaves_keys_findable()
    ensures { (g : Geometry) (old new : Flash) (s : Summary) → AddsSummary g old new s → AreSummariesRight g old → LeavesFindable g old new (ListsKey old s) }
{}

/// After a group that is no summary a key is findable that it names once, by a page that renews it; and so is each that was findable
/// and that it does not name.
pub fn the_pages_of_a_group_are_findable()
    ensures named { (g : Geometry) (x : Group) (tag : ℕ → Tag) (old new : Flash) → AddsTagged g x tag old new → FindsNamed g x tag old new }
    ensures other { (g : Geometry) (x : Group) (tag : ℕ → Tag) (old new : Flash) → AddsTagged g x tag old new → LeavesFindable g old new (NamesNot x tag) }
{}
