// What a mount shows after a session, with its tree.
ghost use Rattle.std.specs.Prelude.{◌≡◌};
ghost use Rattle.exerciser.specs.Seen.{finding_of};

use crate::finding::Finding;
use plain_volume::PlainTree;
use posix_calls::MountFault;

/// What a mount shows after a session from a tree on.
#[derive(Drop)]
pub enum Seen {
    /// The tree after so many commands of the session: this one.
    Committed(u64, PlainTree),
    /// A tree that the session may not leave: this one; or one that is reported as no tree that can be made again.
    Torn(Option<PlainTree>),
    /// No volume.
    Mount(MountFault),
}

impl Seen {
    /// What a line reports on it.
    pub fn finding(&self) -> Finding
        ensures { result ≡ finding_of self.now }
    {
        match self {
            Seen::Committed(count, _) => Finding::Committed(*count),
            Seen::Torn(_) => Finding::Torn,
            Seen::Mount(fault) => Finding::Mount(*fault),
        }
    }
}
