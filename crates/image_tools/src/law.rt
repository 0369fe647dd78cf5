// The laws of the definitions, each by a function that does nothing.
ghost use Rattle.std.specs.Prelude.{◌≡◌, ℕ, List};
ghost use Rattle.posix_profile.specs.State.{Objects};
ghost use Rattle.image_tools.specs.Folders.{Entry, IsFolder};
ghost use Rattle.image_tools.specs.HostNames.{unescaped};

/// The objects of a volume are one folder at most. So `unpack` after `pack` gives the folder back: after `pack` the objects of a
/// volume are the folder that was packed, and the folder that `unpack` returns is theirs.
pub fn one_tree_is_one_folder()
    ensures { (objects : Objects) (a b : List Entry) → IsFolder objects a → IsFolder objects b → a ≡ b }
{}

/// Two names that have one host name are one name.
pub fn one_host_name_has_one_name()
    ensures { (host a b : List ℕ) → unescaped host ≡ a → unescaped host ≡ b → a ≡ b }
{}
