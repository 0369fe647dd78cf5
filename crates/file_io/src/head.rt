// The header of a file.
ghost use Rattle.std.specs.Prelude.{◌≡◌, ◌≤◌, ◌+◌, ◌-◌, [], true, IfOk, IfErr, IsOkAnd, OnOk, length, drop};
ghost use Rattle.page_tags.specs.HeaderFields.{fields_of, file_fields};
ghost use Rattle.page_tags.specs.Headers.{Fields, IsBytes, IsHeader, IsHeaderOf, header_bytes};
ghost use Rattle.page_tags.specs.declared.header.ObjectKind.TheVariants as kinds;
ghost use Rattle.volume_terms.specs.Sizes.{Sizes};
ghost use Rattle.pages.specs.Maps.{PageMap, has};
ghost use Rattle.file_io.specs.Files.{HasFileHeader, IsEmptyFile, OfFile};
ghost use Rattle.file_io.specs.Heads.{IsHeadOf, SaysHead, head_fields};
ghost use Rattle.pages.specs.Faults.{LooksUp, MayLack, MayLackMemory, SaysWhy, SaysWhyMaking};
ghost use Rattle.pages.specs.declared.fault.PageFault.TheVariants as faults;

use crate::file_head::FileHead;
use flash_tree::{FreshPage, Key};
use page_tags::{Header, ObjectKind, decode_header, write_file_header};
use pages::{PageFault, Pages, blank_page, copied_page, load};
use std::alloc::Global;

/// The length of a file in bytes, and the moment of its last change.
#[derive(Clone, Copy, Debug, PartialEq, Eq)]
pub struct FileInfo {
    pub length: u64,
    pub moment: u64,
}

/// What a page says as the header of a file.
fn decode_file(page: &[u8]) -> Result<Header<'_>, PageFault>
    requires least { 32 ≤ length page.now }
    requires most { length page.now ≤ 4096 }
    ensures found { IfOk result (λ h. IsHeaderOf page.now (fields_of h)) }
    ensures kind { IfOk result (λ h. h.kind ≡ kinds.File) }
    ensures read { (f : Fields) → IsHeaderOf page.now f → f.kind ≡ kinds.File → IsOkAnd result (λ h. fields_of h ≡ f) }
    ensures fault { IfErr result (λ e. e ≡ faults.Damaged) }
{
    let Ok(header) = decode_header(page) else {
        return Err(PageFault::Damaged);
    };
    if header.kind != ObjectKind::File {
        return Err(PageFault::Damaged);
    }
    Ok(header)
}

/// The length of a file and the moment of its last change. Its header is looked up.
pub fn read_info<P: Pages>(pages: &mut P, object: u64) -> Result<FileInfo, PageFault>
    ensures looks { LooksUp (SaysWhy (P.state pages.old)) (P.state pages.old) (P.state pages.new) result }
    ensures issued { (P.state pages.new).issued ≤ (P.state pages.old).issued + 1 }
    ensures length { OfFile (P.state pages.old) object (λ z moment all f. IfOk result (λ info. info.length ≡ length all)) }
    ensures moment { OfFile (P.state pages.old) object (λ z moment all f. IfOk result (λ info. info.moment ≡ moment)) }
    ensures reported { (P.state pages.old).sound ≡ true → OnOk result (HasFileHeader (P.state pages.old) object) }
    ensures fault { OfFile (P.state pages.old) object (λ z moment all f. IfErr result (MayLack (P.state pages.old) (P.state pages.new))) }
{
    load(pages, Key { object, chunk: 0 })?;
    let header = decode_file(pages.page())?;
    Ok(FileInfo {
        length: header.length,
        moment: header.moment,
    })
}

/// Reads the header of a file.
pub(crate) fn read_head<P: Pages>(
    alloc: Global,
    pages: &mut P,
    object: u64,
) -> Result<FileHead, PageFault>
    ensures looks { LooksUp SaysWhyMaking (P.state pages.old) (P.state pages.new) result }
    ensures issued { (P.state pages.new).issued ≤ (P.state pages.old).issued + 1 }
    ensures head { OfFile (P.state pages.old) object (λ z moment all f. IfOk result (λ head. IsHeadOf head f.reads.fields)) }
    ensures size { IfOk result (λ head. length head.page.items ≡ (P.state pages.old).page_bytes) }
    ensures valid { IfOk result (λ head. IsHeader (P.state pages.old).page_bytes (head_fields head)) }
    ensures reported { (P.state pages.old).sound ≡ true → IfOk result (SaysHead (P.state pages.old) object) }
    ensures fault { OfFile (P.state pages.old) object (λ z moment all f. IfErr result (MayLackMemory (P.state pages.new))) }
{
    load(pages, Key { object, chunk: 0 })?;
    let header = decode_file(pages.page())?;
    let (length, moment) = (header.length, header.moment);
    Ok(FileHead {
        length,
        moment,
        page: copied_page(alloc, pages)?,
    })
}

/// The page of a file's header, from a page that has its presence bits.
pub(crate) fn head_page(object: u64, len: u64, moment: u64, page: Vec<u8>) -> FreshPage
    requires least { 32 ≤ length page.items }
    requires most { length page.items ≤ 4096 }
    requires valid { IsBytes page.items → IsHeader (length page.items) (file_fields len moment (drop 32 page.items)) }
    ensures object { result.key.object ≡ object }
    ensures chunk { result.key.chunk ≡ 0 }
    ensures size { length result.bytes.items ≡ length page.items }
    ensures header { result.bytes.items ≡ header_bytes (file_fields len moment (drop 32 page.items)) }
    ensures valid { IsHeader (length page.items) (file_fields len moment (drop 32 page.items)) }
{
    let mut bytes = page;
    write_file_header(len, moment, &mut bytes);
    let key = Key { object, chunk: 0 };
    FreshPage { key, bytes }
}

/// The page that makes an object a file of no bytes: its header.
pub fn create<P: Pages>(
    alloc: Global,
    pages: &mut P,
    object: u64,
    moment: u64,
) -> Result<FreshPage, PageFault>
    ensures same { P.state pages.new ≡ P.state pages.old }
    ensures object { IfOk result (λ page. page.key.object ≡ object) }
    ensures chunk { IfOk result (λ page. page.key.chunk ≡ 0) }
    ensures size { IfOk result (λ page. length page.bytes.items ≡ (P.state pages.old).page_bytes) }
    ensures reads { (z : Sizes) (m : PageMap) → z.page_bytes ≡ (P.state pages.old).page_bytes
        → IfOk result (IsEmptyFile z m object moment) }
    ensures fault { IfErr result (λ e. e ≡ faults.NoMemory) }
{
    let page = blank_page(alloc, pages)?;
    Ok(head_page(object, 0, moment, page))
}
