// The header of a directory.
ghost use Rattle.std.specs.Prelude.{◌≡◌, ◌≤◌, ◌+◌, true, OnOk, IfOk, IfErr, IfSome, IsSomeAnd, length};
ghost use Rattle.page_tags.specs.Headers.{Fields, IsHeaderOf};
ghost use Rattle.page_tags.specs.declared.header.ObjectKind.TheVariants as kinds;
ghost use Rattle.pages.specs.Faults.{MayLack, SaysWhy};
ghost use Rattle.pages.specs.State.{OnlyFinds, KeepsPower};
ghost use Rattle.directories.specs.HeadPages.{IsHeadIn, IsHeadPage};
ghost use Rattle.directories.specs.Heads.{IsHeadOf, SaysHead};
ghost use Rattle.directories.specs.Stores.{OfHeaded};

use flash_tree::{FreshPage, Key};
use page_tags::{Format, Header, ObjectKind, decode_header, encode_header};
use pages::{PageFault, Pages, load};

/// What the header of a directory says: its spare blocks, which are meant in the root's alone, how many entries it
/// has, and the moment of its last change.
#[derive(Clone, Copy, Debug, PartialEq, Eq)]
pub struct DirectoryHead {
    pub spare: u16,
    pub length: u32,
    pub moment: u64,
}

/// Reads the header of a directory.
pub fn read_head<P: Pages>(pages: &mut P, directory: u64) -> Result<DirectoryHead, PageFault>
    ensures lookups { OnlyFinds (P.state pages.old) (P.state pages.new) }
    ensures issued { (P.state pages.new).issued ≤ (P.state pages.old).issued + 1 }
    ensures power { OnOk result (KeepsPower (P.state pages.old) (P.state pages.new)) }
    ensures reported { (P.state pages.old).sound ≡ true → IfOk result (SaysHead (P.state pages.old) directory) }
    ensures why { IfErr result (SaysWhy (P.state pages.old) (P.state pages.new)) }
    ensures fault { OfHeaded (P.state pages.old) directory (IfErr result (MayLack (P.state pages.old) (P.state pages.new))) }
{
    let key = Key {
        object: directory,
        chunk: 0,
    };
    load(pages, key)?;
    match decode_head(pages.page()) {
        Some(head) => Ok(head),
        None => Err(PageFault::Damaged),
    }
}

/// What a page says as the header of a directory; another page says nothing.
fn decode_head(page: &[u8]) -> Option<DirectoryHead>
    requires least { 32 ≤ length page.now }
    requires most { length page.now ≤ 4096 }
    ensures read { (f : Fields) → IsHeaderOf page.now f → f.kind ≡ kinds.Directory → IsSomeAnd result (λ head. IsHeadOf head f) }
    ensures reported { IfSome result (λ head. (f : Fields) × IsHeaderOf page.now f × (f.kind ≡ kinds.Directory) × IsHeadOf head f) }
{
    let Ok(header) = decode_header(page) else {
        return None;
    };
    if header.kind != ObjectKind::Directory || header.length > u64::from(u32::MAX) {
        return None;
    }
    Some(DirectoryHead {
        spare: header.spare,
        length: header.length as u32,
        moment: header.moment,
    })
}

/// The page of a directory's header, written over a frame.
pub fn head_page(frame: Vec<u8>, directory: u64, head: DirectoryHead) -> FreshPage
    requires least { 32 ≤ length frame.items }
    requires most { length frame.items ≤ 4096 }
    ensures { IsHeadPage result (length frame.items) directory head }
{
    let mut bytes = frame;
    write_head(head, &mut bytes);
    let key = Key {
        object: directory,
        chunk: 0,
    };
    FreshPage { key, bytes }
}

/// The presence bits of a directory, of which none is set.
const NO_BITS: [u8; 4064] = [0; 4064];

/// Writes the header of a directory over a page.
fn write_head(head: DirectoryHead, page: &mut [u8])
    requires least { 32 ≤ length page.old }
    requires most { length page.old ≤ 4096 }
    ensures { IsHeadIn page.new (length page.old) head }
{
    let header = Header {
        format: Format::Two,
        kind: ObjectKind::Directory,
        spare: head.spare,
        length: u64::from(head.length),
        moment: head.moment,
        bits: &NO_BITS[..page.len() - 32],
    };
    encode_header(&header, page);
}
