// Pages in memory, to be committed.
ghost use Rattle.std.specs.Prelude.{◌≡◌, ◌<◌, ◌≤◌, ℕ, List, length, true, IfOk};
ghost use Rattle.nand_model.specs.Changes.{OnlyReads};
ghost use Rattle.transactions.specs.Sources.{IsPageName};

use crate::source::{LentPage, PageName, PageSource, SourceFault};
use flash_tree::{FreshPage, Key};
use nand_model::Nand;

/// Pages that are committed together. The number of their group is their version.
#[derive(Clone, Copy)]
pub struct Fresh<'a> {
    pub pages: &'a [FreshPage],
}

/// The name of a page of this key in the group of this number.
fn name_in(key: Key, group: u64) -> PageName
    requires object { 1 ≤ key.object }
    requires group { 1 ≤ group }
    ensures is { result ≡ record { key = key; version = group } }
    ensures name { IsPageName group result }
{
    PageName {
        key,
        version: group,
    }
}

impl PageSource for Fresh<'_> {
    ghost use Rattle.std.specs.Prelude.{length, refl};
    ghost use Rattle.transactions.specs.Committing.{fresh_name, fresh_bytes, CanCommit};

    ghost count = { λ s. length s.pages.now };

    ghost name = { λ s number i. fresh_name s.pages.now number i };

    ghost bytes = { λ s flash i. fresh_bytes s.pages.now i };

    ghost can_write = { λ s geometry number. CanCommit s.pages.now geometry number };

    ghost quiet = { λ s. Unit {0} };

    ghost has = { λ s flash i. Unit {0} };

    ghost stays = { λ s old new i has grows. tt };

    ghost same = { λ s old new i has grows. refl };

    fn count(&self) -> u32 {
        self.pages.len() as u32
    }

    fn lent(&self, i: u32, group: u64) -> Option<LentPage<'_>> {
        let fresh = &self.pages[i as usize];
        Some(LentPage {
            name: name_in(fresh.key, group),
            bytes: &fresh.bytes,
        })
    }

    fn page<N: Nand>(
        &self,
        device: &mut N,
        i: u32,
        group: u64,
        page: &mut [u8],
    ) -> Result<PageName, SourceFault> {
        let _ = device;
        let fresh = &self.pages[i as usize];
        page.copy_from_slice(&fresh.bytes);
        Ok(name_in(fresh.key, group))
    }
}
