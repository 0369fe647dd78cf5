// The close of all descriptors of a volume over pages.
ghost use Rattle.std.specs.Prelude.{◌≡◌, suc, false, not};
ghost use Rattle.volume_terms.specs.Sizes.{descriptors};

use crate::page_volume::PageVolume;
use pages::PageStore;
use posix_profile::{Request, StampedRequest};
use volume_terms::DESCRIPTORS;

impl<P: PageStore> PageVolume<P> {
    ghost use Rattle.posix_calls.specs.Closing.{Closes};
    ghost use Rattle.posix_calls.specs.PageVolumes.{is_stopped};

    /// Closes a descriptor, if it is open. Where nothing but the descriptor committed the object, the object goes.
    fn close(&mut self, fd: u32)
        ensures { (first : PageVolume P) → Closes P.state fd first self.old → Closes P.state (suc fd) first self.new }
    {
        let _reply = self.ask(&StampedRequest {
            moment: 0,
            request: Request::Close { fd },
        });
    }

    /// Closes all descriptors, and returns whether the volume goes on. It makes no call of the device.
    pub(crate) fn close_all(&mut self) -> bool
        requires goes_on { is_stopped self.old ≡ false }
        ensures closes { Closes P.state descriptors self.old self.new }
        ensures stops { result ≡ not (is_stopped self.new) }
    {
        for fd in 0..DESCRIPTORS {
            self.close(fd);
        }
        !self.stopped()
    }
}
