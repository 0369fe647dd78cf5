// The index of what a scan found.
ghost use Rattle.std.specs.Prelude.{◌≡◌, ℕ, length, None, IfOk, OnOk};
ghost use Rattle.std.specs.List.{AllPairs};
ghost use Rattle.block_state.specs.TableOf.{table};
ghost use Rattle.mount_scan.specs.Keys.{HaveOtherKeys};
ghost use Rattle.mount_scan.specs.Listed.{listed};
ghost use Rattle.chunk_index.specs.Counts.{Recounts};
ghost use Rattle.chunk_index.specs.Shelves.{look};
ghost use Rattle.chunk_index.specs.Maps.{count_committed_in, CountsAgree};
ghost use Rattle.chunk_index.specs.Newest.{LieInPages, LieLow, LieWithin, Indexes};
ghost use Rattle.chunk_index.specs.Found.{HasPages};

use crate::index::Index;
use crate::placed_pages::PlacedPages;
use block_state::Blocks;
use mount_scan::{BUCKETS, FoundPages};
use std::alloc::{AllocError, Global};

impl Index {
    /// The index of the newest pages of a scan, with the blocks: these pages are committed, and in the counts of their blocks. They are given
    /// up bucket by bucket, so that they and the index are never both whole.
    pub fn from_newest(
        alloc: Global,
        newest: FoundPages,
        blocks: Blocks,
    ) -> Result<(Index, Blocks), AllocError>
        requires once { AllPairs HaveOtherKeys (listed newest) }
        requires within { LieWithin (table blocks).geometry.blocks (listed newest) }
        requires pages { LieInPages (table blocks).geometry.pages (listed newest) }
        requires low { LieLow (listed newest) }
        requires none { (b : ℕ) → ((table blocks).entry b).committed ≡ 0 }
        ensures indexes { IfOk result (λ made. Indexes (listed newest) (length (listed newest)) made.0) }
        ensures agree { IfOk result (λ made. CountsAgree (table made.1) made.0) }
        ensures counts { IfOk result (λ made. Recounts (λ b. 0) (count_committed_in made.0) (table blocks) (table made.1)) }
    {
        let mut index = Index::bare(alloc);
        let mut blocks = blocks;
        index.add_all(newest, &mut blocks)?;
        Ok((index, blocks))
    }

    /// Adds each page to an index without entries.
    fn add_all(&mut self, newest: FoundPages, blocks: &mut Blocks) -> Result<(), AllocError>
        requires once { AllPairs HaveOtherKeys (listed newest) }
        requires within { LieWithin (table blocks.old).geometry.blocks (listed newest) }
        requires pages { LieInPages (table blocks.old).geometry.pages (listed newest) }
        requires low { LieLow (listed newest) }
        requires empty { (o c : ℕ) → look self.old.shelf.objects o c ≡ None }
        requires agree { CountsAgree (table blocks.old) self.old }
        ensures has { OnOk result (HasPages (listed newest) (length (listed newest)) self.new.shelf.objects) }
        ensures agree { OnOk result (CountsAgree (table blocks.new) self.new) }
        ensures counts { OnOk result (Recounts (count_committed_in self.old) (count_committed_in self.new) (table blocks.old) (table blocks.new)) }
    {
        let mut left = newest;
        for at in 0..BUCKETS {
            let bucket = left.take(at);
            self.add_some(PlacedPages::Copies(bucket.pages()), blocks)?;
        }
        Ok(())
    }
}
