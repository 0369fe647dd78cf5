// The refresh of a block: what is committed in it is moved on.
ghost use Rattle.std.specs.Prelude.{◌≡◌, false, true};
ghost use Rattle.flash_c.specs.Numbers.{error_number};
ghost use Rattle.flash_c.specs.Refreshing.{RefreshesAt};
ghost use Rattle.posix_calls.specs.Volumes.{over_pages};
ghost use Rattle.posix_profile.specs.declared.reply.Errno.TheVariants as errors;

use crate::numbers::{error_number, result_number};
use crate::session::{FilePages, Session};
use crate::slot::Slot;
use pages::Pages;
use posix_calls::Errno;

/// Moves what is committed in a block of a session's device into another.
fn refresh(session: &mut Session, block: u32) -> i32
    ensures { RefreshesAt ⟦<FilePages as Pages>⟧.state block (over_pages session.old.volume) result (over_pages session.new.volume) }
{
    result_number(session.volume.refresh(block))
}

/// Moves what is committed in a block of the device into another. All else of the volume stays.
#[unsafe(no_mangle)]
pub extern "C" fn flash_refresh(slot: &mut Slot, block: u32) -> i32
    ensures full { slot.new.full ≡ slot.old.full }
    ensures refreshed { slot.old.full ≡ true
        → RefreshesAt ⟦<FilePages as Pages>⟧.state block (over_pages slot.old.session.volume) result (over_pages slot.new.session.volume) }
    ensures empty { slot.old.full ≡ false → (result ≡ error_number errors.EINVAL) × (slot.new ≡ slot.old) }
{
    if !slot.is_full() {
        return error_number(Errno::EINVAL);
    }
    refresh(slot.session(), block)
}
