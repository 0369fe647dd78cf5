// What is changed together.
ghost use Rattle.std.specs.Prelude.{◌≡◌, ◌≤◌, ◌+◌, ◌↔◌, ℕ, true, false, IsTrue, IfOk, OnOk, IfSome, IfNone, length};
ghost use Rattle.pages.specs.Maps.{PageMap, after_change, IsPageOf, IsFirstOf, takes, IsCut};
ghost use Rattle.pages.specs.Changes.{AreApart, AreSized, HasFewerPages, IsNothing, IsPutBehind};

use flash_tree::{FreshPage, Key};
use std::alloc::{AllocError, Global};

/// The pages of an object from a chunk on, which are to go: from chunk 0 on, the whole object.
#[derive(Clone, Copy, Debug, PartialEq, Eq)]
pub struct Cut {
    pub object: u64,
    pub from: u64,
}

impl Cut {
    /// Returns whether the page of a key goes.
    pub fn takes(self, key: Key) -> bool
        ensures { result ≡ takes self key.object key.chunk }
    {
        self.object == key.object && self.from <= key.chunk
    }
}

/// Pages that are written, and cuts, together. A page of the change is there afterwards, whatever is cut.
#[derive(Drop)]
pub struct Change {
    pub pages: Vec<FreshPage>,
    pub cuts: Vec<Cut>,
}

/// The place of the first page of a key.
pub(crate) fn place_of(pages: &[FreshPage], key: Key) -> Option<usize>
    ensures first { IfSome result (IsFirstOf pages.now key.object key.chunk) }
    ensures none { IfNone result ((i : ℕ) → IsPageOf pages.now key.object key.chunk i → ⊥) }
{
    for (place, page) in pages.iter().enumerate() {
        if page.key == key {
            return Some(place);
        }
    }
    None
}

/// Returns whether one of the cuts takes the key's page away.
fn is_cut(cuts: &[Cut], key: Key) -> bool
    ensures cut { result ≡ true → (i : ℕ) × IsCut cuts.now key.object key.chunk i }
    ensures not { result ≡ false → (i : ℕ) → IsCut cuts.now key.object key.chunk i → ⊥ }
{
    for cut in cuts {
        if cut.takes(key) {
            return true;
        }
    }
    false
}

/// Puts a page behind those that are written later, unless one of these is of its key, or a later cut takes it away.
fn put_behind(pages: &mut Vec<FreshPage>, cuts: &[Cut], page: FreshPage) -> Result<(), AllocError>
    ensures { OnOk result (IsPutBehind pages.old.items cuts.now page pages.new.items) }
{
    if place_of(pages, page.key).is_none() && !is_cut(cuts, page.key) {
        pages.push(page)?;
    }
    Ok(())
}

/// Returns whether all pages have so many bytes, as a store that takes them asks.
pub fn are_sized(pages: &[FreshPage], page_bytes: u32) -> bool
    ensures { IsTrue result ↔ AreSized pages.now page_bytes }
{
    for page in pages {
        if page.bytes.len() != page_bytes as usize {
            return false;
        }
    }
    true
}

impl Change {
    /// The change that changes nothing.
    pub fn none(alloc: Global) -> Change
        ensures { IsNothing result }
    {
        Change {
            pages: Vec::new(alloc),
            cuts: Vec::new(alloc),
        }
    }

    /// This change and then another, as one: of a key that both write it has the later page.
    pub fn then(self, next: Change) -> Result<Change, AllocError>
        ensures pages { (m : PageMap) (o c : ℕ) → IfOk result (λ both. after_change both m o c ≡ after_change next (after_change self m) o c) }
        ensures apart { AreApart self.pages.items → AreApart next.pages.items → IfOk result (λ both. AreApart both.pages.items) }
        ensures size { (bytes : ℕ) → AreSized self.pages.items bytes → AreSized next.pages.items bytes → IfOk result (λ both. AreSized both.pages.items bytes) }
        ensures within_limit { IfOk result (λ both. length both.pages.items ≤ length self.pages.items + length next.pages.items) }
        ensures shared { (o c i j : ℕ) → IsPageOf self.pages.items o c i → IsPageOf next.pages.items o c j
            → IfOk result (HasFewerPages self next) }
    {
        let Change {
            pages: earlier,
            cuts: mut earlier_cuts,
        } = self;
        let Change {
            mut pages,
            mut cuts,
        } = next;
        for page in earlier {
            put_behind(&mut pages, &cuts, page)?;
        }
        cuts.append(&mut earlier_cuts)?;
        Ok(Change { pages, cuts })
    }
}
