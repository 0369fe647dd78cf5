// The reporting of copies to the index.
ghost use Rattle.std.specs.Prelude.{◌≡◌, ◌≢◌, ◌<◌, ◌≤◌, ◌+◌, ℕ, length};
ghost use Rattle.block_state.specs.TableOf.{table};
ghost use Rattle.chunk_index.specs.Maps.{committed_pages, CountsAgree};
ghost use Rattle.flash_log.specs.Lists.{ListsCommitted};
ghost use Rattle.flash_log.specs.Reporting.{Reports};

use block_state::Blocks;
use chunk_index::{CommittedKey, Index, PagePlace};

/// Writes to the index of copies: copy i lies i pages behind a place.
pub(crate) fn report_copies(
    index: &mut Index,
    blocks: &mut Blocks,
    copies: &[CommittedKey],
    place: PagePlace,
)
    requires within { place.block < (table blocks.old).geometry.blocks }
    requires agree { CountsAgree (table blocks.old) index.old }
    requires within_limit { place.page + length copies.now ≤ (table blocks.old).geometry.pages }
    requires listed { (v : ℕ) × ListsCommitted v (committed_pages index.old) copies.now × (v ≢ place.block) }
    ensures agree { CountsAgree (table blocks.new) index.new }
    ensures reports { (v : ℕ) → ListsCommitted v (committed_pages index.old) copies.now → v ≢ place.block
        → Reports v (length copies.now) place copies.now index.old index.new (table blocks.old) (table blocks.new) }
{
    for i in 0..copies.len() {
        let key = copies[i].key;
        let at = PagePlace {
            block: place.block,
            page: place.page + i as u32,
        };
        index.copied(key, at, blocks);
    }
}
