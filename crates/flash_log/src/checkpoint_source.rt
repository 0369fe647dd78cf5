// The pages of a checkpoint, to be written as one group.
ghost use Rattle.std.specs.Prelude.{◌≡◌, ◌<◌, ◌≤◌, ◌^◌, ℕ, List, length, true, IfOk};
ghost use Rattle.nand_model.specs.Changes.{OnlyReads};
ghost use Rattle.transactions.specs.Sources.{IsPageName};
ghost use Rattle.flash_log.specs.CheckpointSource.{check_name};

use crate::checkpoint_parts::write_parts;
use chunk_index::Index;
use flash_tree::{CHECK_OBJECT, Key};
use nand_model::{Geometry, Nand};
use transactions::{LentPage, PageName, PageSource, SourceFault};

/// The pages of a checkpoint of the keys that are committed. The number of their group is their version.
#[derive(Clone, Copy)]
pub(crate) struct Checks<'a> {
    pub index: &'a Index,
    /// How many keys are committed.
    pub entries: u64,
    /// The sizes of the device.
    pub geometry: Geometry,
    /// How many pages a head and the entries take.
    pub pages: u32,
}

/// The name of page `i` in the group of this number.
fn name_in(i: u32, group: u64) -> PageName
    requires { 1 ≤ group }
    ensures is { result ≡ check_name group i }
    ensures name { IsPageName group result }
{
    let key = Key {
        object: CHECK_OBJECT,
        chunk: 1 + u64::from(i),
    };
    PageName {
        key,
        version: group,
    }
}

impl PageSource for Checks<'_> {
    ghost use Rattle.std.specs.Prelude.{refl};
    ghost use Rattle.page_tags.specs.Checks.{check_page};
    ghost use Rattle.flash_log.specs.CheckpointSource.{index_entries, check_name, CanList};

    ghost count = { λ s. s.pages };

    ghost name = { λ s number i. check_name number i };

    ghost bytes = { λ s flash i. check_page s.geometry.bytes (index_entries s.index.now) i };

    ghost can_write = { λ s geometry number. CanList s geometry number };

    ghost quiet = { λ s. Unit {0} };

    ghost has = { λ s flash i. Unit {0} };

    ghost stays = { λ s old new i has grows. tt };

    ghost same = { λ s old new i has grows. refl };

    fn count(&self) -> u32 {
        self.pages
    }

    fn lent(&self, i: u32, group: u64) -> Option<LentPage<'_>> {
        let _ = i;
        let _ = group;
        None
    }

    fn page<N: Nand>(
        &self,
        device: &mut N,
        i: u32,
        group: u64,
        page: &mut [u8],
    ) -> Result<PageName, SourceFault> {
        let _ = device;
        let first = i * (self.geometry.bytes() / 32);
        write_parts(self.index, self.entries, first, page);
        Ok(name_in(i, group))
    }
}
