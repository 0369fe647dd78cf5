// What follows from what counts and what is shown. A function here does nothing: its clause is the law.
ghost use Rattle.std.specs.Prelude.{◌≡◌, ◌<◌, ◌≤◌, ◌↔◌, List, ℕ, true};
ghost use Rattle.nand_model.specs.Flash.{Flash, IsWithin, IsSized};
ghost use Rattle.nand_model.specs.Calls.{Device};
ghost use Rattle.nand_model.specs.Changes.{Grows, Shrinks, OnlyReads};
ghost use Rattle.page_tags.specs.declared.tag.Tag.{Tag};
ghost use Rattle.volume_terms.specs.Sizes.{Sizes};
ghost use Rattle.posix_profile.specs.State.{Objects};
ghost use Rattle.flash_tree.specs.Fading.{MarksHonest};
ghost use Rattle.flash_tree.specs.Groups.{HasTag, Group, IsCounted, SameGroups, AddsWhole};
ghost use Rattle.flash_tree.specs.Newest.{Spot, Holds, IsAfter, IsNewest, IsNewestWith, HasNewest, Numbers, AreGreatest};
ghost use Rattle.flash_tree.specs.Keeping.{StaysNewest, KeepsNewest, KeepsElsewhere, KeepsUnnamed, RenewsNamed};
ghost use Rattle.flash_tree.specs.Places.{CountsByTag};
ghost use Rattle.flash_tree.specs.Tree.{IsPageSize, FlashShows, KeepsTreePages};
ghost use Rattle.flash_tree.specs.Mount.{ListEnd, EndsBy, HasFree, PicksFree, HasUsableTree, Answer, Answers, IsTreeOf};
ghost use Rattle.flash_tree.specs.Sound.{IsSoundFlash};
ghost use Rattle.nand_model.specs.declared.geometry.Geometry.{Geometry};

/// A key has one newest page at most, and so one newest data.
pub fn a_key_has_one_newest_page()
    ensures place { (f : Flash) (o c : ℕ) (s t : Spot) → IsNewest f o c s → IsNewest f o c t → s ≡ t }
    ensures bytes { (f : Flash) (o c : ℕ) (xs ys : List ℕ) → HasNewest f o c xs → HasNewest f o c ys → xs ≡ ys }
{}

/// A page of a group that is not whole is newest of no key.
pub fn only_what_counts_is_newest()
    ensures { (f : Flash) (o c : ℕ) (s : Spot) → IsNewest f o c s → IsCounted f s.block s.page }
{}

/// Whether a page counts for a key is given by its own tag: the group that the tag names is whole, and no other group
/// has that page.
pub fn a_page_counts_by_its_own_tag()
    ensures { (f : Flash) (o c : ℕ) (s : Spot) → Holds f o c s ↔ CountsByTag f o c s }
{}

/// A page with a tag lies on the device.
pub fn a_tag_lies_on_the_device()
    ensures { (pages blocks : ℕ) (f : Flash) (b p : ℕ) (t : Tag) → IsWithin pages blocks f → HasTag f b p t → (b < blocks) × (p < pages) }
{}

/// The order of places goes on from place to place, and no place comes after itself.
pub fn places_are_in_order()
    ensures on { (s t u : Spot) → IsAfter s t → IsAfter t u → IsAfter s u }
    ensures strict { (s : Spot) → IsAfter s s → ⊥ }
{}

/// There are no two greatest numbers of a flash.
pub fn the_greatest_numbers_are_one()
    ensures { (f : Flash) (m n : Numbers) → AreGreatest f m → AreGreatest f n → m ≡ n }
{}

/// A newest page that stays so has its data, and it stays so over changes in turn.
pub fn what_stays_newest_has_its_data()
    ensures place { (old new : Flash) (o c : ℕ) (s : Spot) (xs : List ℕ) → IsNewestWith old o c s xs → StaysNewest old new o c s → IsNewestWith new o c s xs }
    ensures bytes { (old new : Flash) (o c : ℕ) (xs : List ℕ) (h : HasNewest old o c xs) → StaysNewest old new o c h.spot → HasNewest new o c xs }
    ensures on { (f g h : Flash) (o c : ℕ) (s : Spot) → StaysNewest f g o c s → StaysNewest g h o c s → StaysNewest f h o c s }
{}

/// Where the same groups count, and no page but erased ones changed, each newest page stays so.
pub fn the_same_groups_show_the_same()
    ensures { (old new : Flash) → SameGroups old new → Grows old new → KeepsNewest old new }
{}

/// Reads of an honest device keep all newest pages.
pub fn reads_keep_what_is_newest()
    ensures { (old new : Device) → old.honest ≡ true → OnlyReads old new → KeepsNewest old.flash new.flash }
{}

/// An erase, done, failed or cut, keeps the newest pages that lie in other blocks.
pub fn an_erase_keeps_what_lies_elsewhere()
    ensures { (b : ℕ) (old new : Flash) → Shrinks b old new → KeepsElsewhere b old new }
{}

/// A mark, done or cut, keeps the newest pages that lie in other blocks.
pub fn a_mark_keeps_what_lies_elsewhere()
    ensures { (b : ℕ) (old new : Device) → MarksHonest b old new → KeepsElsewhere b old.flash new.flash }
{}

/// After one more group a key that it names once, above all pages that the key had, has the group's page; a key that
/// it doesn't name keeps its own.
pub fn one_more_group_is_newest()
    ensures named { (g : Group) (tag : ℕ → Tag) (bytes : ℕ → List ℕ) (old new : Flash) → AddsWhole g tag bytes old new → RenewsNamed g tag bytes old new }
    ensures other { (g : Group) (tag : ℕ → Tag) (bytes : ℕ → List ℕ) (old new : Flash) → AddsWhole g tag bytes old new → KeepsUnnamed g tag old new }
{}

/// A flash that has the newest pages of a tree's footprint shows that tree, whatever else is on it.
pub fn the_footprint_shows_the_tree()
    ensures { (z : Sizes) (old new : Flash) (objects : Objects) → KeepsTreePages z old new objects → FlashShows z old objects → FlashShows z new objects }
{}

/// A flash shows one tree at most.
pub fn a_flash_shows_one_tree()
    ensures { (z : Sizes) (f : Flash) (x y : Objects) → z.page_bytes ≤ 4096 → FlashShows z f x → FlashShows z f y → x ≡ y }
{}

/// The flash of a device, as the laws of a device have it, has an answer, and the answer is the tree where one is shown
/// with room.
pub fn a_flash_has_an_answer()
    ensures answer { (g : Geometry) (flash : Flash) → IsWithin g.pages g.blocks flash → IsSized g.bytes flash → (a : Answer) × Answers g flash a }
    ensures tree { (g : Geometry) (flash : Flash) (spare : ℕ) (objects : Objects) → HasUsableTree g flash spare objects → Answers g flash (IsTreeOf spare objects) }
{}

/// A mount has one answer at most.
pub fn a_flash_has_one_answer_at_most()
    ensures { (g : Geometry) (flash : Flash) (a b : Answer) → Answers g flash a → Answers g flash b → a ≡ b }
{}

/// The answer of a sound flash is its tree.
pub fn a_sound_flash_answers_its_tree()
    ensures { (g : Geometry) (flash : Flash) (spare : ℕ) (objects : Objects) → IsSoundFlash g flash spare objects → Answers g flash (IsTreeOf spare objects) }
{}

/// Going through the objects of a list ends in one way.
pub fn a_list_is_gone_through_in_one_way()
    ensures { (z : Sizes) (f : Flash) (list : List ℕ) (n : ℕ) (a b : ListEnd) → IsPageSize z.page_bytes → EndsBy z f list n a → EndsBy z f list n b → a ≡ b }
{}

/// So many blocks as a test picks, where it picks only free ones, are free.
pub fn free_blocks_can_be_counted()
    ensures { (g : Geometry) (flash : Flash) (z : Sizes) (objects : Objects) (count : ℕ) → PicksFree g flash z objects count → HasFree g flash z objects count }
{}
