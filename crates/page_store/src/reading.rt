// The reading of a page that is committed.
ghost use Rattle.std.specs.Prelude.{◌≡◌, ◌<◌, ◌≤◌, ◌+◌, ◌⊎◌, ℕ, List, length, true, false, Some, IsSome, OnOk, IfErr};
ghost use Rattle.nand_model.specs.Changes.{OnlyReads};
ghost use Rattle.page_store.specs.Shown.{data_at};
ghost use Rattle.page_store.specs.Cached.{cached, page_bytes_of};
ghost use Rattle.page_store.specs.Changes.{KeepsSizes};
ghost use Rattle.page_store.specs.Caching.{KeepsRest};
ghost use Rattle.page_store.specs.Reading.{IsLoadFault, Caches};

use crate::{PageCache, read_committed};
use chunk_index::CommittedPage;
use flash_tree::Key;
use nand_model::Nand;
use volume_terms::StoreFault;

/// Sees that the page of a key, which is committed there, is in the cache. It is read into `scratch`, which changes places with a
/// frame of the cache.
pub(crate) fn load_committed<N: Nand>(
    device: &mut N,
    cache: &mut PageCache,
    scratch: &mut Vec<u8>,
    key: Key,
    at: CommittedPage,
) -> Result<(), StoreFault>
    requires block { at.block < (N.state device.old).geometry.blocks }
    requires page { at.page < (N.state device.old).geometry.pages }
    requires size { length scratch.old.items ≡ (N.state device.old).geometry.bytes }
    requires cache { page_bytes_of cache.old ≡ (N.state device.old).geometry.bytes }
    ensures reads { OnlyReads (N.state device.old) (N.state device.new) }
    ensures issued { (N.state device.new).reads ≤ (N.state device.old).reads + 1 }
    ensures power { OnOk result ((N.state device.new).gone ≡ (N.state device.old).gone) }
    ensures size { length scratch.new.items ≡ length scratch.old.items }
    ensures sizes { KeepsSizes cache.old cache.new }
    ensures caches { Caches (N.state device.old) key at cache.old cache.new }
    ensures rest { KeepsRest key.object key.chunk cache.old cache.new }
    ensures here { OnOk result (IsSome (cached cache.new key.object key.chunk)) }
    // A page that is in the cache is not read.
    ensures cached { IsSome (cached cache.old key.object key.chunk) → N.state device.new ≡ N.state device.old }
    ensures fault { IfErr result (IsLoadFault (N.state device.old) (N.state device.new) at) }
{
    if cache.find(key) {
        return Ok(());
    }
    read_committed(device, at, scratch)?;
    cache.put(key, scratch)?;
    Ok(())
}
