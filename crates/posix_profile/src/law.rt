// The laws of the definitions, each by a function that does nothing.
ghost use Rattle.std.specs.Prelude.{◌≡◌, ◌↔◌, ℕ, ◌+◌, ◌<◌, Bool, true, List, Some, None, IfOk};
ghost use Rattle.std.specs.FinMap as map;
ghost use Rattle.posix_profile.specs.Changes.{new_number, free_descriptor};
ghost use Rattle.posix_profile.specs.Charge.{fits};
ghost use Rattle.posix_profile.specs.laws.Error.{KeepsOnError};
ghost use Rattle.posix_profile.specs.laws.Fresh.{fresh};
ghost use Rattle.posix_profile.specs.HandleSteps.{write_count};
ghost use Rattle.posix_profile.specs.laws.Link.{AreSoMany, IsNameOf, IsSubdirectory};
ghost use Rattle.posix_profile.specs.NameSteps.{is_below};
ghost use Rattle.posix_profile.specs.laws.Moment.{AreStampedAt};
ghost use Rattle.posix_profile.specs.Names.{Below, links, settle};
ghost use Rattle.posix_profile.specs.laws.Number.{IsNewNumber, IsFreeDescriptor};
ghost use Rattle.posix_profile.specs.laws.Own.{AnswersItself};
ghost use Rattle.posix_profile.specs.laws.Path.{IsPlace};
ghost use Rattle.posix_profile.specs.Paths.{resolve};
ghost use Rattle.posix_profile.specs.laws.Reply.{IsReply};
ghost use Rattle.posix_profile.specs.Runs.{after};
ghost use Rattle.volume_terms.specs.Sizes.{Sizes, IsSizes, descriptors};
ghost use Rattle.posix_profile.specs.laws.Sound.{IsSound};
ghost use Rattle.posix_profile.specs.State.{Objects, File, Dir, Handle, Handles, State, IsDirectory};
ghost use Rattle.posix_profile.specs.laws.Step.{CanStep, CanRun};
ghost use Rattle.posix_profile.specs.Steps.{step};
ghost use Rattle.posix_profile.specs.WellFormed.{IsForest, IsWellFormed, IsTree, IsReachedDirectory};
ghost use Rattle.volume_terms.specs.Names.{AreBytes};
ghost use Rattle.posix_profile.specs.laws.Write.{IsWritable, writable};
ghost use Rattle.posix_profile.specs.declared.command.Stamped.{Stamped};
ghost use Rattle.posix_profile.specs.declared.reply.Reply.{Reply};

/// An error leaves the state.
pub fn an_error_changes_nothing()
    ensures { (z : Sizes) (read_only : Bool) (s : State) (stamped : Stamped)
        → KeepsOnError s (step z read_only s stamped) }
{}

/// What fits goes on to fit.
pub fn every_step_fits()
    ensures { (z : Sizes) (read_only : Bool) (s : State) (stamped : Stamped)
        → CanStep z s stamped → fits z (step z read_only s stamped).state.objects ≡ true }
{}

/// A step leads from a state that a volume can have to one.
pub fn every_step_keeps_a_state_well_formed()
    ensures { (z : Sizes) (read_only : Bool) (s : State) (stamped : Stamped)
        → CanStep z s stamped → IsWellFormed z (step z read_only s stamped).state }
{}

/// A step itself answers neither want of memory nor a stop.
pub fn a_step_answers_itself()
    ensures { (z : Sizes) (read_only : Bool) (s : State) (stamped : Stamped)
        → AnswersItself (step z read_only s stamped) }
{}

/// The numbers of a reply fit their types, and what it reports is bytes and names.
pub fn every_reply_fits_its_type()
    ensures { (z : Sizes) (read_only : Bool) (s : State) (stamped : Stamped)
        → IsSizes z → IsSound z s → IsReply (step z read_only s stamped).reply }
{}

/// What a step makes or changes gets the command's moment.
pub fn every_changed_object_has_the_moment()
    ensures { (z : Sizes) (read_only : Bool) (s : State) (stamped : Stamped)
        → AreStampedAt stamped.moment s.objects (step z read_only s stamped).state.objects }
{}

/// A run of commands leads from a state that a volume can have to one.
pub fn every_run_keeps_a_state_well_formed()
    ensures { (z : Sizes) (read_only : Bool) (s : State) (commands : List Stamped) (replies : List Reply)
        → CanRun z s commands → IsWellFormed z (after z read_only s commands replies) }
{}

/// A volume that was just formatted has a state that a volume can have, and it fits.
pub fn a_formatted_volume_is_well_formed()
    ensures well_formed { (z : Sizes) → IsWellFormed z fresh }
    ensures fits { (z : Sizes) → IsSizes z → fits z fresh.objects ≡ true }
{}

/// A mount shows a tree.
pub fn a_settled_state_is_a_tree()
    ensures { (z : Sizes) (s : State) → IsWellFormed z s → IsTree z (settle s).objects }
{}

/// What a mount shows, it shows again.
pub fn settling_again_changes_nothing()
    ensures { (z : Sizes) (s : State) → IsWellFormed z s → settle (settle s) ≡ settle s }
{}

/// A path leads to a place in a directory that is reached from the root.
pub fn a_path_leads_to_a_place()
    ensures { (z : Sizes) (objects : Objects) (path : List ℕ)
        → IsForest z objects → AreBytes path → IfOk (resolve objects path) (IsPlace objects) }
{}

/// The test of what lies below an object is right.
pub fn the_test_says_what_lies_below()
    ensures { (z : Sizes) (objects : Objects) (x q : ℕ)
        → IsForest z objects → IsReachedDirectory objects q → (is_below objects x q ≡ true) ↔ Below objects x q }
{}

/// A file has as many links as there are pairs of a directory and a name in it that lead to it.
pub fn the_links_of_a_file_are_its_names()
    ensures { (objects : Objects) (o moment : ℕ) (bytes : List ℕ)
        → AreSoMany (IsNameOf objects o) (links objects o (File moment bytes)) }
{}

/// A directory has two links, and one for each directory that it names.
pub fn the_links_of_a_directory_are_its_subdirectories()
    ensures { (z : Sizes) (objects : Objects) (d : ℕ) (dir : IsDirectory objects d) → IsForest z objects
        → (n : ℕ) × AreSoMany (IsSubdirectory objects d) n × (links objects d (Dir dir.0 dir.1) ≡ 2 + n) }
{}

/// How many bytes a write writes: those given, up to the most of one write, a file's greatest length and the end of
/// the units that the file may have.
pub fn a_write_goes_as_far_as_there_is_room()
    ensures { (z : Sizes) (moment : ℕ) (s : State) (handle : Handle) (bytes new : List ℕ)
        → IsWritable z s handle bytes → write_count z moment s handle bytes new ≡ writable z s handle bytes new }
{}

/// There is always a number for a new object: the least from 2 up that is free.
pub fn a_new_number_is_free_and_the_least()
    ensures { (objects : Objects) → IsNewNumber objects (new_number objects) }
{}

/// The descriptor that Open answers is the least that is not open, and there is one unless all are open.
pub fn a_free_descriptor_is_the_least()
    ensures least { (handles : Handles) (fd : ℕ) → free_descriptor handles ≡ Some fd → IsFreeDescriptor handles fd }
    ensures none { (handles : Handles) → free_descriptor handles ≡ None
        → (fd : ℕ) → fd < descriptors → map.contains_key handles fd ≡ true }
{}
