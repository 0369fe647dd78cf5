// A volume over maps answers commands.
use crate::volume::PlainVolume;
use posix_profile::{Answers, Reply, Stamped};

impl Answers for PlainVolume {
    ghost use Rattle.plain_volume.specs.Answering.{ShowsPlain};

    ghost serves = { λ old command reply new. Unit {0} };

    ghost shows = { ShowsPlain };

    fn answer(&mut self, stamped: &Stamped) -> Reply {
        self.call(stamped)
    }

    ghost sound = { λ v z read_only s shown. shown.1 };
}
