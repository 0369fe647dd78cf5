// The length of a file.
ghost use Rattle.std.specs.Prelude.{◌≡◌, ◌<◌, ◌≤◌, ◌⊎◌, ◌+◌, ◌-◌, ◌*◌, ◌/◌, ◌^◌, ℕ, true, false, IfOk, IfErr, OnOk, length, min, drop};
ghost use Rattle.page_tags.specs.Headers.{greatest_recorded, is_present};
ghost use Rattle.page_tags.specs.declared.header.ObjectKind.TheVariants as kinds;
ghost use Rattle.pages.specs.Changes.{IsNothing, IsOnlyOf};
ghost use Rattle.pages.specs.Faults.{MayLackMemory, SaysWhyMaking, LooksUp};
ghost use Rattle.file_io.specs.Files.{HasForLength, OfFile};
ghost use Rattle.file_io.specs.Cuts.{CutsFrom};
ghost use Rattle.file_io.specs.Writes.{IsChangeIn, MakesLength};

use crate::bits::mark_in;
use crate::chunk::tail_pages;
use crate::head::{head_page, read_head};
use pages::{Change, Cut, PageFault, Pages};
use std::alloc::{AllocError, Global};

/// Before which chunk the last one of a file has to be written anew, where the file grows to so many chunks.
fn tail_limit(old: u64, len: u64, chunks: u64) -> u64
    ensures grows { old < len → result ≡ chunks }
    ensures cuts { len ≤ old → result ≡ 0 }
{
    if old < len { chunks } else { 0 }
}

/// The cut of an object's chunks, of which so many stay, whose presence bits are cleared in the page of the header. Where
/// the file has no more than that, nothing is cut.
fn cut_chunks(
    alloc: Global,
    object: u64,
    page: &mut [u8],
    committed: u64,
    chunks: u64,
) -> Result<Vec<Cut>, AllocError>
    requires small { committed < 2 ^ 32 }
    requires short { chunks < 2 ^ 32 }
    requires least { 32 ≤ length page.old }
    requires within { chunks ≤ 8 * (length page.old - 32) }
    ensures cuts { IfOk result (λ cuts. CutsFrom object committed chunks cuts.items) }
    ensures cleared { (k : ℕ) → committed ≤ k → k < chunks → OnOk result (is_present (drop 32 page.new) (1 + k) ≡ false) }
    ensures others { (k : ℕ) → (k < committed) ⊎ (chunks ≤ k) → is_present (drop 32 page.new) (1 + k) ≡ is_present (drop 32 page.old) (1 + k) }
{
    if chunks <= committed {
        return Ok(Vec::new(alloc));
    }
    let cut = Cut {
        object,
        from: 1 + committed,
    };
    let cuts = vec![in alloc; cut]?;
    mark_in(page, committed, chunks, false);
    Ok(cuts)
}

/// The change that cuts a file to a length, or lets it grow to that with zeros, at this moment.
///
/// It has the header, if that says something else than before, and the page of the last chunk where the file grows
/// past it; the chunks past the end are cut. These two pages are looked up.
pub fn set_length<P: Pages>(
    alloc: Global,
    pages: &mut P,
    object: u64,
    len: u64,
    moment: u64,
) -> Result<Change, PageFault>
    requires { len ≤ greatest_recorded (P.state pages.old).page_bytes kinds.File }
    ensures looks { LooksUp SaysWhyMaking (P.state pages.old) (P.state pages.new) result }
    ensures sets { OfFile (P.state pages.old) object (λ z before all f. IfOk result (MakesLength f len moment)) }
    ensures same { OfFile (P.state pages.old) object (λ z before all f. moment ≡ before → len ≡ length all → IfOk result IsNothing) }
    ensures only { IfOk result (λ change. IsOnlyOf change object) }
    ensures change { IfOk result (IsChangeIn (P.state pages.old) 2) }
    ensures issued { OfFile (P.state pages.old) object (λ z before all f. (P.state pages.new).issued ≤ (P.state pages.old).issued + 1 + min 1 (len - length all)) }
    ensures reported { (P.state pages.old).sound ≡ true → OnOk result (HasForLength (P.state pages.old) object len) }
    ensures fault { OfFile (P.state pages.old) object (λ z before all f. IfErr result (MayLackMemory (P.state pages.new))) }
{
    let head = read_head(alloc, pages, object)?;
    let size = u64::from(pages.page_bytes());
    let mut change = Change::none(alloc);
    if head.length == len && head.moment == moment {
        return Ok(change);
    }
    let committed = (len + size - 1) / size;
    let chunks = (head.length + size - 1) / size;
    let limit = tail_limit(head.length, len, committed);
    change.pages = tail_pages(alloc, pages, object, &head, limit)?;
    let mut page = head.page;
    change.cuts = cut_chunks(alloc, object, &mut page, committed, chunks)?;
    change.pages.push(head_page(object, len, moment, page))?;
    Ok(change)
}
