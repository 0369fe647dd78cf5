// A volume that answers what reads its tree by commands.
ghost use Rattle.page_store.specs.PagesOf.{mounted_pages};

use crate::volume::Volume;
use nand_model::Nand;
use posix_profile::{Answers, Reply, Stamped};

impl<N: Nand> Answers for Volume<N> {
    ghost use Rattle.posix_calls.specs.Answering.{ShowsState};
    ghost use Rattle.posix_calls.specs.Calls.{IsCalled};
    ghost use Rattle.posix_calls.specs.Volumes.{over_pages};

    ghost serves = { λ old command reply new. IsCalled mounted_pages (over_pages old) command reply (over_pages new) };

    ghost shows = { λ v. ShowsState mounted_pages (over_pages v) };

    fn answer(&mut self, stamped: &Stamped) -> Reply {
        self.call(stamped)
    }

    ghost sound = { λ v z read_only s shown. shown.2.sound };
}
