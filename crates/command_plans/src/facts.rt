// What a store knows of an object without reading.
ghost use Rattle.std.specs.Prelude.{◌≡◌, true, false, Some, length, nat_le, MatchBool};
ghost use Rattle.std.specs.FinMap as map;
ghost use Rattle.posix_profile.specs.State.{is_directory};
ghost use Rattle.posix_profile.specs.Names.{link_pairs};
ghost use Rattle.posix_profile.specs.WellFormed.{IsNamed};
ghost use Rattle.object_store.specs.Facts.{bytes_of};
ghost use Rattle.object_store.specs.Stores.{OfTree};
ghost use Rattle.command_plans.specs.Places.{OfObject};
ghost use Rattle.command_plans.specs.Rooms.{IsFileLength};

use object_store::ObjectStore;
use posix_profile::Kind;

/// The bytes of a file.
pub fn length<S: ObjectStore>(store: &S, number: u64) -> u64
    ensures { OfTree S.meaning store.now (λ z objects. result ≡ length (bytes_of (map.get objects number))) }
{
    match store.info(number) {
        Some(info) => info.size,
        None => 0,
    }
}

/// The bytes of a file; nothing where no file is at this number.
pub fn file_length<S: ObjectStore>(store: &S, number: u64) -> Option<u64>
    ensures { OfTree S.meaning store.now (λ z objects. IsFileLength objects number result) }
{
    match store.info(number) {
        Some(info) => match info.kind {
            Kind::File => Some(info.size),
            Kind::Directory => None,
        },
        None => None,
    }
}

/// Whether a directory is at this number.
pub fn is_directory<S: ObjectStore>(store: &S, number: u64) -> bool
    ensures { OfTree S.meaning store.now (λ z objects. result ≡ is_directory (map.get objects number)) }
{
    match store.info(number) {
        Some(info) => match info.kind {
            Kind::File => false,
            Kind::Directory => true,
        },
        None => false,
    }
}

/// Whether more than one name leads to an object. A directory has one at most.
pub fn has_other_name<S: ObjectStore>(store: &S, number: u64) -> bool
    ensures { OfTree S.meaning store.now (λ z objects. result ≡ nat_le 2 (length (link_pairs objects number))) }
{
    match store.info(number) {
        Some(info) => match info.kind {
            Kind::File => 2 <= info.links,
            Kind::Directory => false,
        },
        None => false,
    }
}

/// Whether a name leads to an object that is there.
pub fn is_named<S: ObjectStore>(store: &S, number: u64) -> bool
    ensures { OfTree S.meaning store.now (λ z objects. OfObject objects number (MatchBool result (IsNamed objects number) (IsNamed objects number → ⊥))) }
{
    match store.info(number) {
        Some(info) => match info.kind {
            Kind::File => 1 <= info.links,
            Kind::Directory => store.parent(number).is_some(),
        },
        None => false,
    }
}
