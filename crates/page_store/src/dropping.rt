// Pages of the buffer that go.
ghost use Rattle.std.specs.Prelude.{◌≡◌, ◌≤◌, ◌<◌, ◌+◌, ℕ, List, length};
ghost use Rattle.chunk_index.specs.Maps.{SameCommitted, StaysPrepared};
ghost use Rattle.flash_tree.specs.declared.place.FreshPage.{FreshPage};
ghost use Rattle.pages.specs.Changes.{AreApart};
ghost use Rattle.pages.specs.Maps.{PageMap, without_cuts};
ghost use Rattle.nand_model.specs.Flash.{Flash};
ghost use Rattle.page_store.specs.Shown.{present_data};
ghost use Rattle.page_store.specs.Buffering.{Buffers, with_new, DropsSlot, DropsCut, CutsPages};

use crate::buffer::Buffer;
use chunk_index::{Form, Index};
use pages::Cut;

impl Buffer {
    ghost use Rattle.page_store.specs.BufferOf.{contents, most_pages, bytes_of_page};

    /// The page at a place goes, and its key has none then. The last page takes the place.
    fn drop_slot(&mut self, index: &mut Index, slot: u32)
        requires buffers { Buffers index.old (contents self.old) }
        requires slot { slot < length (contents self.old) }
        ensures buffers { Buffers index.new (contents self.new) }
        ensures committed { SameCommitted index.old index.new }
        ensures prepared { StaysPrepared index.old index.new }
        ensures drops { DropsSlot slot index.old index.new (contents self.old) (contents self.new) }
        ensures sizes { (most_pages self.new ≡ most_pages self.old) × (bytes_of_page self.new ≡ bytes_of_page self.old) }
    {
        let key = self.pages[slot as usize].key;
        index.place(key, Form::Dropped);
        let Some(last) = self.pages.pop() else {
            return;
        };
        if (slot as usize) < self.pages.len() {
            index.place(last.key, Form::Buffered(slot));
            self.pages[slot as usize] = last;
        }
    }

    /// The pages that a cut takes go out of the buffer.
    fn drop_cut(&mut self, index: &mut Index, cut: Cut)
        requires buffers { Buffers index.old (contents self.old) }
        ensures buffers { Buffers index.new (contents self.new) }
        ensures committed { SameCommitted index.old index.new }
        ensures prepared { StaysPrepared index.old index.new }
        ensures drops { DropsCut cut index.old index.new (contents self.old) (contents self.new) }
        ensures room { (ps : List FreshPage) → AreApart ps → with_new index.new (contents self.new) ps ≤ with_new index.old (contents self.old) ps }
        ensures sizes { (most_pages self.new ≡ most_pages self.old) × (bytes_of_page self.new ≡ bytes_of_page self.old) }
    {
        let mut slot: u32 = 0;
        while (slot as usize) < self.pages.len() {
            if cut.takes(self.pages[slot as usize].key) {
                self.drop_slot(index, slot);
            } else {
                slot += 1;
            }
        }
    }

    /// Nothing that a cut takes is present any more.
    pub(crate) fn cut(&mut self, index: &mut Index, cut: Cut)
        requires buffers { Buffers index.old (contents self.old) }
        ensures buffers { Buffers index.new (contents self.new) }
        ensures committed { SameCommitted index.old index.new }
        ensures prepared { StaysPrepared index.old index.new }
        ensures cuts { CutsPages cut index.old index.new (contents self.old) (contents self.new) }
        ensures room { (ps : List FreshPage) → AreApart ps → with_new index.new (contents self.new) ps ≤ with_new index.old (contents self.old) ps }
        ensures sizes { (most_pages self.new ≡ most_pages self.old) × (bytes_of_page self.new ≡ bytes_of_page self.old) }
    {
        self.drop_cut(index, cut);
        index.cut(cut.object, cut.from);
    }

    /// Nothing that one of the cuts takes is present any more.
    pub fn cut_all(&mut self, index: &mut Index, cuts: &[Cut])
        requires buffers { Buffers index.old (contents self.old) }
        ensures buffers { Buffers index.new (contents self.new) }
        ensures committed { SameCommitted index.old index.new }
        ensures prepared { StaysPrepared index.old index.new }
        ensures cuts { (flash : Flash) (o c : ℕ) → present_data index.new (contents self.new) flash o c ≡ without_cuts cuts.now (present_data index.old (contents self.old) flash) o c }
        ensures fewer { length (contents self.new) ≤ length (contents self.old) }
        ensures room { (ps : List FreshPage) → AreApart ps → with_new index.new (contents self.new) ps ≤ with_new index.old (contents self.old) ps }
        ensures sizes { (most_pages self.new ≡ most_pages self.old) × (bytes_of_page self.new ≡ bytes_of_page self.old) }
    {
        for cut in cuts {
            self.cut(index, *cut);
        }
    }
}
