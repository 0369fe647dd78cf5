// The pages of a block summary, to be written as one group.
ghost use Rattle.std.specs.Prelude.{◌≡◌, ◌<◌, ◌≤◌, ◌+◌, ◌*◌, ℕ, length, IfSome, IfNone};
ghost use Rattle.volume_terms.specs.Rounding.{ceiling};
ghost use Rattle.nand_model.specs.Flash.{Flash};
ghost use Rattle.flash_tree.specs.Groups.{Group};
ghost use Rattle.flash_tree.specs.Summaries.{IsWholeSummary};
ghost use Rattle.transactions.specs.Sources.{IsPageName};
ghost use Rattle.flash_log.specs.SummarySource.{AddsSummaryPages, summary_in, summary_name};

use crate::summary_parts::write_parts;
use flash_tree::{CHECK_OBJECT, Key};
use mount_scan::SUMMARY_CHUNK;
use nand_model::{Geometry, Nand};
use page_tags::{CheckEntry, SummaryHead};
use transactions::{LentPage, PageName, PageSource, SourceFault};

/// The pages of a summary. The number of their group is their version.
#[derive(Clone, Copy)]
pub struct SummarySource<'a> {
    pub head: SummaryHead,
    /// An entry for each page that is listed, rising by page.
    pub entries: &'a [CheckEntry],
    /// The sizes of the device.
    pub geometry: Geometry,
    /// How many pages a head and the entries take.
    pub pages: u32,
}

/// How many pages a head and the entries take.
fn pages_for(geometry: &Geometry, entries: &[CheckEntry]) -> u64
    ensures { result ≡ ceiling (32 * (1 + length entries.now)) geometry.now.bytes }
{
    (32 * (1 + entries.len() as u64)).div_ceil(u64::from(geometry.bytes()))
}

impl<'a> SummarySource<'a> {
    ghost use Rattle.flash_log.specs.SummarySource.{CanSummarize};

    /// The summary of a block as it was allocated with a number, if its pages fit a block.
    pub fn new(
        block: u32,
        seq: u64,
        entries: &'a [CheckEntry],
        geometry: Geometry,
    ) -> Option<SummarySource<'a>>
        ensures head { IfSome result (λ s. (s.head.block ≡ block) × (s.head.seq ≡ seq)) }
        ensures entries { IfSome result (λ s. s.entries.now ≡ entries.now) }
        ensures can { (number : ℕ) → 1 ≤ number → IfSome result (λ s. CanSummarize s geometry number) }
        ensures none { IfNone result (geometry.pages < ceiling (32 * (1 + length entries.now)) geometry.bytes) }
    {
        let pages = pages_for(&geometry, entries);
        if pages > u64::from(geometry.pages()) {
            return None;
        }
        let head = SummaryHead {
            block,
            entries: entries.len() as u32,
            seq,
        };
        Some(SummarySource {
            head,
            entries,
            geometry,
            pages: pages as u32,
        })
    }
}

/// The name of page `i` in the group of this number.
fn name_in(i: u32, group: u64) -> PageName
    requires { 1 ≤ group }
    ensures is { result ≡ summary_name group i }
    ensures name { IsPageName group result }
{
    let key = Key {
        object: CHECK_OBJECT,
        chunk: SUMMARY_CHUNK + u64::from(i),
    };
    PageName {
        key,
        version: group,
    }
}

impl PageSource for SummarySource<'_> {
    ghost use Rattle.std.specs.Prelude.{refl};
    ghost use Rattle.flash_log.specs.SummarySource.{CanSummarize, source_page, summary_name};

    ghost count = { λ s. s.pages };

    ghost name = { λ s number i. summary_name number i };

    ghost bytes = { λ s flash i. source_page s i };

    ghost can_write = { λ s geometry number. CanSummarize s geometry number };

    ghost quiet = { λ s. Unit {0} };

    ghost has = { λ s flash i. Unit {0} };

    ghost stays = { λ s old new i has grows. tt };

    ghost same = { λ s old new i has grows. refl };

    fn count(&self) -> u32 {
        self.pages
    }

    fn lent(&self, i: u32, group: u64) -> Option<LentPage<'_>> {
        let _ = i;
        let _ = group;
        None
    }

    fn page<N: Nand>(
        &self,
        device: &mut N,
        i: u32,
        group: u64,
        page: &mut [u8],
    ) -> Result<PageName, SourceFault> {
        let _ = device;
        let first = i * (self.geometry.bytes() / 32);
        write_parts(&self.head, self.entries, first, page);
        Ok(name_in(i, group))
    }
}

/// A group of the pages of a summary, at the beginning of a block, is a whole summary. It does nothing: its clause is the law.
pub fn a_written_summary_is_whole()
    ensures { (s : SummarySource) (g : Geometry) (x : Group) (old new : Flash) → AddsSummaryPages s g x old new → IsWholeSummary g new (summary_in x s) }
{}
