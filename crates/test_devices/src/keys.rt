// The keys of a log.
ghost use Rattle.std.specs.Prelude.{not, nat_eq};
ghost use Rattle.flash_tree.specs.Slots.{check_object};

use chunk_index::KeyFilter;
use flash_tree::{CHECK_OBJECT, Key};

/// Keeps all keys but those of the object of checkpoints.
pub(crate) struct OrdinaryKeys;

impl KeyFilter for OrdinaryKeys {
    ghost keeps = { λ _ object _. not (nat_eq object check_object) };

    fn keeps(&self, key: Key) -> bool {
        key.object != CHECK_OBJECT
    }

    fn keeps_all_below(&self, object: u64, _end: u64) -> bool {
        object != CHECK_OBJECT
    }
}
