// What a path leads to, and what it ends in.
ghost use Rattle.std.specs.Prelude.{◌≡◌, is_none};
ghost use Rattle.volume_terms.specs.Sizes.{Sizes};
ghost use Rattle.posix_profile.specs.State.{State};
ghost use Rattle.posix_profile.specs.Paths.{last_name, is_dot, is_dot_dot, resolve};
ghost use Rattle.object_store.specs.Stores.{KeepsPower};
ghost use Rattle.command_plans.specs.Paths.{place_of};
ghost use Rattle.command_plans.specs.Places.{FindsPlace, FindsObject};
ghost use Rattle.command_plans.specs.Plans.{Holds};

use crate::path::{PathPart, PathPlace, resolve};
use object_store::{DirectoryEntry, ObjectStore, Refusal};
use posix_profile::Errno;
use std::alloc::Global;

/// An object, and the place where it was found.
#[derive(Clone, Copy)]
pub struct FoundObject<'a> {
    pub place: PathPlace<'a>,
    pub number: u64,
}

/// The place to which a path leads.
pub fn find_place<'a, S: ObjectStore>(
    alloc: Global,
    store: &mut S,
    path: &'a [u8],
) -> Result<PathPlace<'a>, Refusal>
    ensures reads { S.meaning.reads store.old store.new }
    ensures power { KeepsPower S.meaning store.old store.new result }
    ensures lookups { (z : Sizes) (s : State) → Holds S.meaning z s store.old
        → FindsPlace S.meaning s (resolve s.objects path.now) store.old store.new result }
{
    resolve(alloc, store, path)
}

/// The object to which a path leads.
pub fn find_object<'a, S: ObjectStore>(
    alloc: Global,
    store: &mut S,
    path: &'a [u8],
) -> Result<FoundObject<'a>, Refusal>
    ensures reads { S.meaning.reads store.old store.new }
    ensures power { KeepsPower S.meaning store.old store.new result }
    ensures lookups { (z : Sizes) (s : State) → Holds S.meaning z s store.old
        → FindsObject S.meaning s (resolve s.objects path.now) store.old store.new result }
{
    let place = find_place(alloc, store, path)?;
    match place.object {
        Some(number) => Ok(FoundObject { place, number }),
        None => Err(Refusal::Error(Errno::ENOENT)),
    }
}

/// The name that a path ends in; what ends otherwise has none.
fn last_name<'a>(place: PathPlace<'a>) -> &'a [u8]
    ensures { result.now ≡ last_name (place_of place.entry).last }
{
    match place.last {
        Some(PathPart::Named(name)) => name,
        Some(PathPart::Dot) => &[],
        Some(PathPart::DotDot) => &[],
        None => &[],
    }
}

/// The name at a place.
pub fn entry_at<'a>(place: PathPlace<'a>) -> DirectoryEntry<'a>
    ensures directory { result.directory ≡ place.entry.directory }
    ensures name { result.name.now ≡ last_name (place_of place.entry).last }
{
    DirectoryEntry {
        directory: place.directory,
        name: last_name(place),
    }
}

/// Whether a path ends in `.`.
pub fn ends_in_dot(place: PathPlace<'_>) -> bool
    ensures { result ≡ is_dot (place_of place.entry).last }
{
    match place.last {
        Some(PathPart::Named(_)) => false,
        Some(PathPart::Dot) => true,
        Some(PathPart::DotDot) => false,
        None => false,
    }
}

/// Whether a path ends in `..`.
pub fn ends_in_dot_dot(place: PathPlace<'_>) -> bool
    ensures { result ≡ is_dot_dot (place_of place.entry).last }
{
    match place.last {
        Some(PathPart::Named(_)) => false,
        Some(PathPart::Dot) => false,
        Some(PathPart::DotDot) => true,
        None => false,
    }
}

/// Whether a path is only slashes.
pub fn is_only_slashes(place: PathPlace<'_>) -> bool
    ensures { result ≡ is_none (place_of place.entry).last }
{
    match place.last {
        Some(_) => false,
        None => true,
    }
}
