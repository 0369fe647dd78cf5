// Committed pages of the device, to be written again.
ghost use Rattle.std.specs.Prelude.{◌≡◌, ◌↔◌, ◌<◌, ◌≤◌, ◌+◌, ℕ, List, length, true, IfOk, OnErr, IsTrue};
ghost use Rattle.nand_model.specs.Changes.{OnlyReads};
ghost use Rattle.flash_log.specs.CopySource.{data_of, IsTagOf, HasItsName, copied_name};

use chunk_index::CommittedKey;
use nand_model::{Gone, Nand, PageKind};
use page_tags::Tag;
use transactions::{LentPage, PageName, PageSource, SourceFault};

/// Pages of the device, to be written again in their versions. A page that does not have its name on the device is Lost.
#[derive(Clone, Copy)]
pub(crate) struct Copies<'a> {
    pub(crate) places: &'a [CommittedKey],
}

/// The name of the copy of a page: its key, in its version.
fn copied_name(of: CommittedKey) -> PageName
    ensures { result ≡ copied_name of }
{
    PageName {
        key: of.key,
        version: of.at.version,
    }
}

/// Whether these bytes are a tag of a page of this name.
fn is_tag_of(tag: &[u8; 48], name: PageName) -> bool
    ensures { IsTrue result ↔ IsTagOf name tag.now }
{
    match Tag::decode(tag) {
        None => false,
        Some(tag) => name.is_of(&tag),
    }
}

/// Reads a page that is to be copied. The answer is whether it is written under its name.
fn reads_back<N: Nand>(device: &mut N, of: CommittedKey, page: &mut [u8]) -> Result<bool, Gone>
    requires block { of.at.block < (N.state device.old).geometry.blocks }
    requires page { of.at.page < (N.state device.old).geometry.pages }
    requires size { length page.old ≡ (N.state device.old).geometry.bytes }
    ensures reads { OnlyReads (N.state device.old) (N.state device.new) }
    ensures issued { (N.state device.new).reads ≤ (N.state device.old).reads + 1 }
    ensures gone { OnErr result ((N.state device.new).gone ≡ true) }
    ensures there { (N.state device.old).honest ≡ true → IfOk result (λ there. IsTrue there ↔ HasItsName (N.state device.old).flash of) }
    ensures bytes { (N.state device.old).honest ≡ true → IfOk result (λ there. IsTrue there → page.new ≡ data_of (N.state device.old).flash of) }
{
    let mut tag = [0; 48];
    match device.read_page(of.at.block, of.at.page, page, &mut tag)? {
        PageKind::Written => Ok(is_tag_of(&tag, copied_name(of))),
        PageKind::Erased => Ok(false),
        PageKind::Uncorrectable => Ok(false),
    }
}

impl PageSource for Copies<'_> {
    ghost use Rattle.std.specs.Prelude.{length};
    ghost use Rattle.flash_log.specs.CopySource.{copy_name, copy_bytes, HasCopy, CanCopy};
    ghost use Rattle.flash_log.specs.laws.CopySource.{copy_stays, copy_same};

    ghost count = { λ s. length s.places.now };

    ghost name = { λ s number i. copy_name s.places.now i };

    ghost bytes = { λ s flash i. copy_bytes s.places.now flash i };

    ghost can_write = { λ s geometry number. CanCopy s.places.now geometry number };

    ghost quiet = { λ s. ⊥ };

    ghost has = { λ s flash i. HasCopy s.places.now flash i };

    ghost stays = { λ s old new i has grows. copy_stays s.places.now old new i has grows };

    ghost same = { λ s old new i has grows. copy_same s.places.now old new i has grows };

    fn count(&self) -> u32 {
        self.places.len() as u32
    }

    fn lent(&self, i: u32, group: u64) -> Option<LentPage<'_>> {
        let _ = i;
        let _ = group;
        None
    }

    fn page<N: Nand>(
        &self,
        device: &mut N,
        i: u32,
        group: u64,
        page: &mut [u8],
    ) -> Result<PageName, SourceFault> {
        let _ = group;
        let of = self.places[i as usize];
        match reads_back(device, of, page) {
            Ok(true) => Ok(copied_name(of)),
            Ok(false) => Err(SourceFault::Lost),
            Err(_) => Err(SourceFault::Gone),
        }
    }
}
