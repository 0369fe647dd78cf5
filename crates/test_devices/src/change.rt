// Changes that a store can take.
ghost use Rattle.std.specs.Prelude.{◌≡◌, ◌≤◌, IsTrue, IfOk, length};
ghost use Rattle.pages.specs.Changes.{AreApart, AreSized, AreOfTrees};
ghost use Rattle.page_store.specs.PagesOf.{store_pages};

use flash_tree::{CHECK_OBJECT, CHUNK_END, FreshPage};
use nand_model::Nand;
use page_store::Store;
use pages::{Change, Cut, PageStore, Pages, are_sized};
use std::alloc::{AllocError, Global};

/// A change whose pages are of different keys.
#[derive(Drop)]
pub struct Apart {
    pub change: Change,
    ghost apart: { AreApart change.pages.items },
}

/// The change of one page.
fn of_page(alloc: Global, page: FreshPage) -> Result<Change, AllocError>
    ensures { IfOk result (λ change. AreApart change.pages.items) }
{
    Ok(Change {
        pages: vec![in alloc; page]?,
        cuts: Vec::new(alloc),
    })
}

impl Apart {
    /// What a cut takes, and nothing else.
    pub fn new(alloc: Global, cut: Option<Cut>) -> Result<Apart, AllocError> {
        let mut change = Change::none(alloc);
        if let Some(cut) = cut {
            change.cuts.push(cut)?;
        }
        Ok(Apart { change })
    }

    /// The change, and then this page. An earlier page of its key goes.
    pub fn with(self, alloc: Global, page: FreshPage) -> Result<Apart, AllocError> {
        let next = of_page(alloc, page)?;
        let change = self.change.then(next)?;
        Ok(Apart { change })
    }
}

/// Whether all pages are of keys that a tree may look up.
fn are_of_trees(pages: &[FreshPage]) -> bool
    ensures { IsTrue result → AreOfTrees pages.now }
{
    for page in pages {
        if page.key.object == 0 || page.key.object >= CHECK_OBJECT || page.key.chunk >= CHUNK_END {
            return false;
        }
    }
    true
}

/// Whether a store can take a change: its pages are of the store's size and of keys that a tree may look up, and there are not too many.
pub fn fits<N: Nand>(store: &Store<N>, change: &Change) -> bool
    ensures size { IsTrue result → AreSized change.now.pages.items (store_pages store.now).page_bytes }
    ensures within_limit { IsTrue result → length change.now.pages.items ≤ (store_pages store.now).most }
    ensures trees { IsTrue result → AreOfTrees change.now.pages.items }
{
    change.pages.len() <= store.most_pages() as usize
        && are_sized(&change.pages, store.page_bytes())
        && are_of_trees(&change.pages)
}
