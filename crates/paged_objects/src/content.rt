// Changes of the bytes of a file.
ghost use Rattle.std.specs.Prelude.{◌≡◌, ◌≤◌, ◌+◌, ◌*◌, ℕ, [], OnOk, IfOk, IfErr, length};
ghost use Rattle.std.specs.FinMap as map;
ghost use Rattle.volume_terms.specs.Sizes.{most_file_bytes};
ghost use Rattle.posix_profile.specs.State.{IsFile};
ghost use Rattle.pages.specs.Changes.{IsOnlyOf};
ghost use Rattle.pages.specs.Faults.{MayLackMemory, SaysWhyChanging};
ghost use Rattle.pages.specs.State.{OnlyFinds, KeepsPower};
ghost use Rattle.file_io.specs.Writes.{IsChangeIn};
ghost use Rattle.paged_objects.specs.Making.{IfWithin, MakesAll, MakesBy, after_write};
ghost use Rattle.paged_objects.specs.Placed.{OfHeld};
ghost use Rattle.object_store.specs.declared.change.ObjectChange.TheVariants as changes;

use file_io::{read_info, set_length, write_at};
use pages::{Change, PageFault, Pages};
use std::alloc::Global;
use volume_terms::most_file_bytes;

/// The change that writes bytes into a file from the offset on. A gap reads as zeros, and a write of no bytes beyond the
/// end makes one.
///
/// `Full` is answered where the file would be longer than its header can say.
pub fn write<P: Pages>(
    pages: &mut P,
    alloc: Global,
    number: u64,
    offset: u64,
    bytes: &[u8],
    moment: u64,
) -> Result<Change, PageFault>
    ensures lookups { OnlyFinds (P.state pages.old) (P.state pages.new) }
    ensures power { OnOk result (KeepsPower (P.state pages.old) (P.state pages.new)) }
    ensures change { (chunks : ℕ) → length bytes.now ≤ chunks * (P.state pages.old).page_bytes
        → IfOk result (IsChangeIn (P.state pages.old) (chunks + 3)) }
    ensures only { IfOk result (λ change. IsOnlyOf change number) }
    ensures writes { OfHeld (P.state pages.old) (λ a. IsFile a.objects number
        → IfOk result (MakesAll a (after_write a.objects number offset bytes.now moment))) }
    ensures why { IfErr result (SaysWhyChanging (P.state pages.new)) }
    ensures fault { OfHeld (P.state pages.old) (λ a. IfWithin a number (offset + length bytes.now) (IfErr result (MayLackMemory (P.state pages.new)))) }
{
    let most = most_bytes(pages);
    if offset > most || bytes.len() as u64 > most - offset {
        return Err(PageFault::Full);
    }
    if bytes.is_empty() {
        return touch(pages, alloc, number, offset, moment);
    }
    write_at(alloc, pages, number, offset, bytes, moment)
}

/// The change that writes no bytes at the offset: a shorter file grows to it.
fn touch<P: Pages>(
    pages: &mut P,
    alloc: Global,
    number: u64,
    offset: u64,
    moment: u64,
) -> Result<Change, PageFault>
    ensures lookups { OnlyFinds (P.state pages.old) (P.state pages.new) }
    ensures power { OnOk result (KeepsPower (P.state pages.old) (P.state pages.new)) }
    ensures change { IfOk result (IsChangeIn (P.state pages.old) 2) }
    ensures only { IfOk result (λ change. IsOnlyOf change number) }
    ensures touches { OfHeld (P.state pages.old) (λ a. IsFile a.objects number
        → IfOk result (MakesAll a (after_write a.objects number offset [] moment))) }
    ensures why { IfErr result (SaysWhyChanging (P.state pages.new)) }
    ensures fault { OfHeld (P.state pages.old) (λ a. IfWithin a number offset (IfErr result (MayLackMemory (P.state pages.new)))) }
{
    let info = read_info(pages, number)?;
    resize(pages, alloc, number, info.length.max(offset), moment)
}

/// The change that cuts a file to the length, or lets it grow to it with zeros.
///
/// `Full` is answered where the file would be longer than its header can say.
pub fn resize<P: Pages>(
    pages: &mut P,
    alloc: Global,
    number: u64,
    length: u64,
    moment: u64,
) -> Result<Change, PageFault>
    ensures lookups { OnlyFinds (P.state pages.old) (P.state pages.new) }
    ensures power { OnOk result (KeepsPower (P.state pages.old) (P.state pages.new)) }
    ensures change { IfOk result (IsChangeIn (P.state pages.old) 2) }
    ensures only { IfOk result (λ change. IsOnlyOf change number) }
    ensures resizes { OfHeld (P.state pages.old) (λ a. IsFile a.objects number → IfOk result (MakesBy a (changes.Resize number length moment))) }
    ensures why { IfErr result (SaysWhyChanging (P.state pages.new)) }
    ensures fault { OfHeld (P.state pages.old) (λ a. IfWithin a number length (IfErr result (MayLackMemory (P.state pages.new)))) }
{
    if length > most_bytes(pages) {
        return Err(PageFault::Full);
    }
    set_length(alloc, pages, number, length, moment)
}

/// The most bytes of a file.
fn most_bytes<P: Pages>(pages: &P) -> u64
    ensures { result ≡ most_file_bytes (P.state pages.now).page_bytes }
{
    most_file_bytes(u64::from(pages.page_bytes()))
}
