// The commands of a session, one by one.
ghost use Rattle.std.specs.Prelude.{IfOk};
ghost use Rattle.page_store.specs.PagesOf.{mounted_pages};
ghost use Rattle.posix_calls.specs.Volumes.{over_pages};
ghost use Rattle.powercut.specs.Commands.{Does, meaning_of};

use nand_model::Nand;
use posix_calls::{Reply, Stamped, Volume};
use std::alloc::{AllocError, Global};

/// Does the commands one by one, up to the end or to the stop. Where a reply finds no room its command is not begun.
pub(crate) fn do_commands<N: Nand>(
    alloc: Global,
    volume: &mut Volume<N>,
    commands: &[Stamped],
) -> Result<Vec<Reply>, AllocError>
    ensures { IfOk result (λ replies. Does (meaning_of mounted_pages over_pages) commands.now replies.items volume.old volume.new) }
{
    let mut replies = Vec::new(alloc);
    for stamped in commands {
        replies.reserve(1)?;
        let reply = volume.call(stamped);
        replies.push(reply)?;
        if volume.stopped() {
            return Ok(replies);
        }
    }
    Ok(replies)
}
