// What follows from what a store reports on an object.
ghost use Rattle.std.specs.Prelude.{◌≡◌};
ghost use Rattle.std.specs.FinMap as map;
ghost use Rattle.posix_profile.specs.State.{is_file};
ghost use Rattle.object_store.specs.Stores.{OfTree};

use crate::store::ObjectStore;
use posix_profile::Kind;

/// Whether a file is at this number.
pub fn is_file<S: ObjectStore>(store: &S, number: u64) -> bool
    ensures { OfTree S.meaning store.now (λ z objects. result ≡ is_file (map.get objects number)) }
{
    match store.info(number) {
        Some(info) => match info.kind {
            Kind::File => true,
            Kind::Directory => false,
        },
        None => false,
    }
}
