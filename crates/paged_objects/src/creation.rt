// The pages of a new object.
ghost use Rattle.std.specs.Prelude.{◌≡◌, ◌≢◌, ◌≤◌, Some, IfOk, IfErr, length};
ghost use Rattle.pages.specs.Changes.{IsOnlyOf};
ghost use Rattle.pages.specs.Maps.{after_change};
ghost use Rattle.pages.specs.declared.fault.PageFault.TheVariants as faults;
ghost use Rattle.file_io.specs.Writes.{IsChangeIn};
ghost use Rattle.paged_objects.specs.Making.{HoldsEmpty, OfBare, OfUnused};

use directories::{DirectoryHead, head_page};
use flash_tree::FreshPage;
use pages::{Change, PageFault, Pages, spare_page};
use posix_profile::Kind;
use std::alloc::Global;

/// The page of an object without content: its header.
fn first_page<P: Pages>(
    pages: &mut P,
    alloc: Global,
    number: u64,
    kind: Kind,
    moment: u64,
) -> Result<FreshPage, PageFault>
    ensures same { P.state pages.new ≡ P.state pages.old }
    ensures object { IfOk result (λ page. page.key.object ≡ number) }
    ensures chunk { IfOk result (λ page. page.key.chunk ≡ 0) }
    ensures size { IfOk result (λ page. length page.bytes.items ≡ (P.state pages.old).page_bytes) }
    ensures holds { OfBare (P.state pages.old) number (λ z m.
        IfOk result (λ page. m number 0 ≡ Some page.bytes.items → HoldsEmpty z m number kind moment)) }
    ensures fault { IfErr result (λ e. e ≡ faults.NoMemory) }
{
    match kind {
        Kind::File => file_io::create(alloc, pages, number, moment),
        Kind::Directory => {
            let head = DirectoryHead {
                spare: 0,
                length: 0,
                moment,
            };
            let frame = spare_page(alloc, pages)?;
            Ok(head_page(frame, number, head))
        }
    }
}

/// The change that makes an object without content under a number that has no pages, which is not the root's.
pub(crate) fn new_object<P: Pages>(
    pages: &mut P,
    alloc: Global,
    number: u64,
    kind: Kind,
    moment: u64,
) -> Result<Change, PageFault>
    ensures same { P.state pages.new ≡ P.state pages.old }
    ensures change { IfOk result (IsChangeIn (P.state pages.old) 1) }
    ensures only { IfOk result (λ change. IsOnlyOf change number) }
    ensures holds { OfUnused (P.state pages.old) number (λ z m. IfOk result (λ change. HoldsEmpty z (after_change change m) number kind moment)) }
    ensures fault { IfErr result (λ e. e ≡ faults.NoMemory) }
{
    let page = first_page(pages, alloc, number, kind, moment)?;
    let written = vec![in alloc; page]?;
    Ok(Change {
        pages: written,
        cuts: Vec::new(alloc),
    })
}
