// A volume over a store of objects answers commands.
ghost use Rattle.object_commands.specs.Answering.{ShowsState};
ghost use Rattle.object_commands.specs.Serving.{IsServed};

use crate::volume::Volume;
use object_store::ObjectStore;
use posix_profile::{Answers, Reply, Stamped};

impl<S: ObjectStore> Answers for Volume<S> {
    ghost serves = { IsServed S.meaning };

    ghost shows = { ShowsState S.meaning };

    fn answer(&mut self, stamped: &Stamped) -> Reply {
        self.call(stamped)
    }

    ghost sound = { λ v z read_only s shown. shown.2.sound };
}
