// What holds of all changes.
ghost use Rattle.std.specs.Prelude.{◌≡◌, ◌≢◌, ℕ};
ghost use Rattle.pages.specs.Maps.{PageMap, after_change};
ghost use Rattle.pages.specs.Changes.{IsNothing, IsOnlyOf};
ghost use Rattle.pages.specs.declared.change.Change.{Change};

/// A change of one object leaves the pages of each other.
#[tactic(auto, using(crate::specs::laws::Changes::others_keep))]
pub fn other_objects_keep_their_pages()
    ensures { (change : Change) (object : ℕ) → IsOnlyOf change object → (m : PageMap) (o c : ℕ) → o ≢ object → after_change change m o c ≡ m o c }
{}

/// Changes of two objects can be made in either order.
#[tactic(auto, using(crate::specs::laws::Changes::changes_commute))]
pub fn changes_of_two_objects_commute()
    ensures { (a b : Change) (x y : ℕ) → x ≢ y → IsOnlyOf a x → IsOnlyOf b y → (m : PageMap) (o c : ℕ) → after_change a (after_change b m) o c ≡ after_change b (after_change a m) o c }
{}

/// The change of nothing changes nothing.
#[tactic(auto, using(crate::specs::laws::Changes::nothing_changes))]
pub fn no_change_keeps_all_pages()
    ensures { (change : Change) → IsNothing change → (m : PageMap) (o c : ℕ) → after_change change m o c ≡ m o c }
{}
