// What answers commands.
ghost use Rattle.std.specs.Prelude.{Bool};
ghost use Rattle.posix_profile.specs.State.{State};
ghost use Rattle.posix_profile.specs.declared.command.Stamped.{Stamped};
ghost use Rattle.posix_profile.specs.declared.reply.Reply.{Reply};
ghost use Rattle.posix_profile.specs.laws.Sound.{IsSound};
ghost use Rattle.volume_terms.specs.Sizes.{Sizes};
ghost use Rattle.posix_profile.specs.Answering.{IsAnswered};

use crate::{Reply, Stamped};

/// What answers commands.
pub trait Answers {
    /// One call: what answers before it, the command, the reply, and what answers after it.
    ghost serves: { Self → Stamped → Reply → Self → Type 0 };

    /// It goes on, and this is its state, of a volume of these numbers that may be read-only.
    ghost shows: { Self → Sizes → Bool → State → Type 0 };

    /// Does a command and replies to it.
    fn answer(&mut self, stamped: &Stamped) -> Reply
        ensures served { serves self.old stamped.now result self.new }
        ensures right { (z : Sizes) (read_only : Bool) (s : State) → shows self.old z read_only s → IsAnswered shows z read_only s stamped.now result self.new };

    /// The state is one that a volume can have.
    ghost sound: { (v : Self) (z : Sizes) (read_only : Bool) (s : State) → shows v z read_only s → IsSound z s };
}
