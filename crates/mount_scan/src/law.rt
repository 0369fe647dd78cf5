// What follows for a key. A function here does nothing: its clause is the law.
ghost use Rattle.std.specs.Prelude.{◌↔◌, ◌<◌, ◌^◌, ℕ, List};
ghost use Rattle.nand_model.specs.Flash.{Flash};
ghost use Rattle.flash_tree.specs.Newest.{Spot, IsNewest, HasNewest};
ghost use Rattle.mount_scan.specs.declared.page_copy.PageCopy.{PageCopy};
ghost use Rattle.mount_scan.specs.Keys.{HasEachKeyOnce};
ghost use Rattle.mount_scan.specs.Scanned.{AreNewest, HasCopyOf, HasCopyWith};

/// A key of a chunk that a tree may look up has a newest page exactly where the list of the newest pages has a copy of one of it.
pub fn a_page_is_found_for_each_key()
    ensures { (f : Flash) (list : List PageCopy) (o c : ℕ) → c < 2 ^ 32 → AreNewest f list
        → ((s : Spot) × IsNewest f o c s) ↔ HasCopyOf list o c }
{}

/// The newest data of such a key are those of its page in the list.
pub fn a_found_page_has_the_newest_data()
    ensures { (f : Flash) (list : List PageCopy) (o c : ℕ) (bytes : List ℕ) → c < 2 ^ 32 → AreNewest f list
        → HasNewest f o c bytes ↔ HasCopyWith f list o c bytes }
{}

/// No key has two pages in the list of the newest pages.
pub fn each_key_is_once()
    ensures { (f : Flash) (list : List PageCopy) → AreNewest f list → HasEachKeyOnce list }
{}
