// The end of the pages of a volume.
ghost use Rattle.posix_calls.specs.Endings.{CostsACheckpoint, EndsWith};
ghost use Rattle.page_store.specs.FlashSealing.{IsDueOf, check_pages_of};
ghost use Rattle.page_store.specs.PagesOf.{mounted_pages};

use nand_model::Nand;
use page_store::FlashPages;
use posix_profile::{Errno, Reply};

/// Gives the device of pages back that answered so last: after Done a checkpoint of them is written, where one is due, and the reply
/// is Error of EIO where that could not be done.
pub(crate) fn end_with<N: Nand>(pages: FlashPages<N>, reply: Reply) -> (N, Reply)
    ensures ends { EndsWith (IsDueOf pages) (mounted_pages pages) reply (N.state result.0) result.1 }
    ensures costs { CostsACheckpoint (check_pages_of pages) (mounted_pages pages).device (N.state result.0) }
{
    match reply {
        Reply::Done => match pages.seal() {
            (device, Ok(())) => (device, Reply::Done),
            (device, Err(_)) => (device, Reply::Error(Errno::EIO)),
        },
        other => (pages.into_device(), other),
    }
}
