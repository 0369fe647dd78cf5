// What becomes of an entry whose page was copied to another place.
ghost use Rattle.std.specs.Prelude.{◌≡◌, IfSome};
ghost use Rattle.block_state.specs.TableOf.{table};
ghost use Rattle.chunk_index.specs.Lists.{find_by};
ghost use Rattle.chunk_index.specs.Entries.{chunk, one_at, Alters, IsSmall};
ghost use Rattle.chunk_index.specs.Shelves.{look, AltersKey};
ghost use Rattle.chunk_index.specs.Counts.{Recounts};
ghost use Rattle.chunk_index.specs.Moved.{moved, moved_of, MayMove, RecountsMoved};

use crate::change;
use crate::entry::KeyEntry;
use crate::form::{CommittedPage, PagePlace};
use crate::object::ObjectEntries;
use crate::packed::PackedEntry;
use crate::shelf::Shelf;
use block_state::Blocks;
use flash_tree::Key;

impl Shelf {
    /// The committed page of a key, if there is one, was copied to another place. It is in the count there.
    pub fn copied(&mut self, key: Key, place: PagePlace, blocks: &mut Blocks)
        requires { IfSome (look self.old.objects key.object key.chunk) (λ e. MayMove place e (table blocks.old)) }
        ensures alters { AltersKey key.object key.chunk (moved_of place (look self.old.objects key.object key.chunk)) self.old.objects self.new.objects }
        ensures counts { RecountsMoved place (look self.old.objects key.object key.chunk) (table blocks.old) (table blocks.new) }
    {
        match self.objects.get_mut(&key.object) {
            Some(entries) => entries.copied(key.chunk, place, blocks),
            None => {}
        }
    }
}

impl ObjectEntries {
    /// The committed page of a chunk, if there is one, was copied to another place. It is in the count there.
    fn copied(&mut self, number: u64, place: PagePlace, blocks: &mut Blocks)
        requires { IfSome (find_by chunk self.old.entries.items number) (λ e. MayMove place e (table blocks.old)) }
        ensures alters { Alters number (moved_of place (find_by chunk self.old.entries.items number)) self.old.entries.items self.new.entries.items }
        ensures counts { RecountsMoved place (find_by chunk self.old.entries.items number) (table blocks.old) (table blocks.new) }
    {
        match self.search(number) {
            Ok(at) => {
                let entry = self.entries[at].unpack().copied(place, blocks);
                self.entries[at] = PackedEntry::pack(entry);
            }
            Err(_) => {}
        }
    }
}

impl KeyEntry {
    /// The entry, whose committed page, if there is one, was copied to another place. The page is in the count there.
    fn copied(self, place: PagePlace, blocks: &mut Blocks) -> KeyEntry
        requires may { MayMove place self (table blocks.old) }
        requires small { IsSmall self }
        ensures entry { result ≡ moved place self }
        ensures small { IsSmall result }
        ensures counts { Recounts (one_at self.committed) (one_at result.committed) (table blocks.old) (table blocks.new) }
    {
        let Some(was) = self.committed else {
            return self;
        };
        let committed = Some(CommittedPage {
            block: place.block,
            page: place.page,
            version: was.version,
        });
        change::recount(self.committed, committed, blocks);
        KeyEntry { committed, ..self }
    }
}
