// The laws of lives, each by a function that does nothing.
ghost use Rattle.std.specs.Prelude.{◌≡◌, ◌≤◌, ◌++◌, false, List, [], length};
ghost use Rattle.volume_terms.specs.Sizes.{Sizes};
ghost use Rattle.posix_profile.specs.State.{Objects};
ghost use Rattle.posix_profile.specs.declared.command.Stamped.{Stamped};
ghost use Rattle.lives.specs.LawTerms.{StaysShown, CanBegin, AreInTurn, AreSoundlyInTurn, IsInLife, RepliesAsSteps, AreNotMounted, IsNotStopped, EndsSynced, Followed, sessions_of, AreNextMounts, ShowsPrefix};
ghost use Rattle.lives.specs.Lives.{Faulty, SessionRecord, Sessions, tree_after, IsSessionFrom, IsLife};
ghost use Rattle.lives.specs.PlainLives.{plain_sessions, plain_end, IsUndisturbed, AreWhole, IsPlainRun};

/// No session is a life; lives in turn are a life, and a life has a tree wherever it is divided.
pub fn lives_in_turn_are_a_life()
    ensures none { (z : Sizes) (tree : Objects) → IsLife z tree [] tree }
    ensures joined { (z : Sizes) (first last : Objects) (earlier later : Sessions)
        → AreInTurn z first earlier later last → IsLife z first (earlier ++ later) last }
    ensures split { (z : Sizes) (first last : Objects) (earlier later : Sessions)
        → IsLife z first (earlier ++ later) last → AreInTurn z first earlier later last }
{}

/// From a tree that fits each tree of a life is one that fits, and a mount would show it again.
pub fn a_life_keeps_its_tree_sound()
    ensures last { (z : Sizes) (first last : Objects) (sessions : Sessions)
        → CanBegin z first sessions → IsLife z first sessions last → StaysShown z last }
    ensures between { (z : Sizes) (first last : Objects) (earlier later : Sessions)
        → CanBegin z first earlier → IsLife z first (earlier ++ later) last
        → AreSoundlyInTurn z first earlier later last }
{}

/// Each command that was begun has its reply, and no other has one.
pub fn each_command_begun_has_a_reply()
    ensures each { (z : Sizes) (before after : Objects) (session : SessionRecord)
        → IsSessionFrom z before session after → length session.replies ≡ session.begun }
    ensures most { (z : Sizes) (before after : Objects) (session : SessionRecord)
        → IsSessionFrom z before session after → session.begun ≤ length session.commands }
{}

/// Where power was not lost a mount fails for want of memory alone, no reply is the stop, and an unmount is done.
pub fn only_a_cut_stops_a_session()
    ensures { (z : Sizes) (before after : Objects) (session : SessionRecord)
        → IsSessionFrom z before session after → session.cut ≡ false → IsNotStopped session }
{}

/// No mount in a life finds a fault on the flash.
pub fn a_life_finds_no_fault()
    ensures { (z : Sizes) (first last : Objects) (session : SessionRecord)
        → IsInLife z first session last → session.mounted ≡ Faulty → ⊥ }
{}

/// Sessions whose mounts fail leave the tree.
pub fn failed_mounts_leave_the_tree()
    ensures { (z : Sizes) (first last : Objects) (sessions : Sessions)
        → IsLife z first sessions last → AreNotMounted sessions → last ≡ first }
{}

/// The next mount that is done shows the tree after some prefix of a session's commands, which holds at least all that a
/// done sync covered, and its replies are the profile's from that tree.
pub fn the_next_mount_shows_a_prefix()
    ensures { (z : Sizes) (first last : Objects) (f : Followed)
        → IsLife z first (sessions_of f) last → AreNextMounts f → ShowsPrefix z first f }
{}

/// After a done sync behind which no command was begun, the tree is the one after all commands that were begun.
pub fn a_done_sync_of_all_leaves_all()
    ensures { (z : Sizes) (before after : Objects) (session : SessionRecord)
        → IsSessionFrom z before session after → EndsSynced session → after ≡ tree_after z before session session.begun }
{}

/// A session that was mounted, in which power was not lost and memory was not refused, has the replies of the profile's
/// steps to all its commands.
pub fn a_session_without_a_cut_replies_as_the_steps()
    ensures { (z : Sizes) (first last : Objects) (session : SessionRecord) (place : IsInLife z first session last)
        → IsUndisturbed session → RepliesAsSteps place }
{}

/// A life in which nothing goes wrong and each session is unmounted is the plain run of all commands; and the plain run of
/// any commands is such a life.
pub fn undisturbed_lives_are_plain_runs()
    ensures plain { (z : Sizes) (first last : Objects) (sessions : Sessions)
        → IsLife z first sessions last → AreWhole sessions → IsPlainRun z first sessions last }
    ensures life { (z : Sizes) (first : Objects) (lists : List (List Stamped))
        → IsLife z first (plain_sessions z first lists) (plain_end z first lists) }
{}
