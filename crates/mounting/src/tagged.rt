// A committed page, read with its tag.
ghost use Rattle.std.specs.Prelude.{◌≡◌, ◌↔◌, ◌<◌, ◌≤◌, ◌+◌, ◌⊎◌, true, IsTrue, Some, length, OnOk, IfErr};
ghost use Rattle.nand_model.specs.Changes.{OnlyReads};
ghost use Rattle.page_store.specs.Shown.{data_at};
ghost use Rattle.mounting.specs.Lending.{IsTagOf, IsNotReadAt};

use chunk_index::CommittedPage;
use flash_tree::Key;
use nand_model::{Nand, PageKind};
use page_tags::{Tag, tags_differ};
use volume_terms::StoreFault;

/// Whether these bytes are the tag of a key's page in the version that is committed.
fn is_tag_of(bytes: &[u8; 48], key: Key, at: CommittedPage) -> bool
    ensures { IsTrue result ↔ IsTagOf bytes.now key at }
{
    tags_differ();
    match Tag::decode(bytes) {
        Some(tag) => {
            tag.object == key.object && tag.chunk == key.chunk && tag.version == at.version
        }
        None => false,
    }
}

/// Reads the page of a key that is committed there. A page with another tag is not it.
pub(crate) fn read_tagged<N: Nand>(
    device: &mut N,
    key: Key,
    at: CommittedPage,
    page: &mut [u8],
) -> Result<(), StoreFault>
    requires block { at.block < (N.state device.old).geometry.blocks }
    requires page { at.page < (N.state device.old).geometry.pages }
    requires size { length page.old ≡ (N.state device.old).geometry.bytes }
    ensures reads { OnlyReads (N.state device.old) (N.state device.new) }
    ensures issued { (N.state device.new).reads ≤ (N.state device.old).reads + 1 }
    ensures power { OnOk result ((N.state device.new).gone ≡ (N.state device.old).gone) }
    ensures size { length page.new ≡ length page.old }
    ensures bytes { (N.state device.old).honest ≡ true → OnOk result (data_at (N.state device.old).flash at ≡ Some page.new) }
    ensures fault { IfErr result (IsNotReadAt (N.state device.old) (N.state device.new) key at) }
{
    let mut tag = [0; 48];
    match device.read_page(at.block, at.page, page, &mut tag) {
        Ok(PageKind::Written) => {
            if is_tag_of(&tag, key, at) {
                Ok(())
            } else {
                Err(StoreFault::Device)
            }
        }
        Ok(PageKind::Erased) => Err(StoreFault::Device),
        Ok(PageKind::Uncorrectable) => Err(StoreFault::Device),
        Err(_) => Err(StoreFault::Device),
    }
}
