// The commands that change names: Mkdir, Unlink, Rmdir, Link.
ghost use Rattle.std.specs.Prelude.{◌≡◌, ◌⊎◌, Some, None};
ghost use Rattle.posix_profile.specs.NameSteps.{mkdir_at, mkdir_step, unlink_step, rmdir_step, link_at, link_step};
ghost use Rattle.object_store.specs.Stores.{KeepsPower};
ghost use Rattle.command_plans.specs.Classes.{Changing};
ghost use Rattle.object_commands.specs.States.{OfStore, OfState, IfFile};
ghost use Rattle.object_commands.specs.Tasks.{TriesTo, PlansOn, PlansAt, PlansFor};
ghost use Rattle.object_commands.specs.Names.{OfPlace, OfAbsent, OfName, DropsUncommitted, RemovesName, UnlinksObject, RemovesDirectory, rmdir_named, rmdir_at, link_to};

use command_plans::facts::{has_other_name, is_directory};
use command_plans::path::PathPlace;
use command_plans::place::{
    ends_in_dot, ends_in_dot_dot, entry_at, find_object, find_place, is_only_slashes,
};
use command_plans::plan::{Plan, change, hand_on};
use command_plans::room::{has_name_room, has_object_room};
use command_plans::table::DescriptorTable;
use object_store::{ObjectChange, ObjectStore, Refusal, is_file};
use posix_profile::{Errno, Kind, Reply};
use std::alloc::Global;

/// Mkdir of an absent name.
fn mkdir_absent<'a, S: ObjectStore>(
    store: &S,
    read_only: bool,
    moment: u64,
    place: PathPlace<'a>,
) -> Result<Plan<'a>, Errno>
    ensures { OfStore S.meaning store.now (λ z s.
        OfAbsent s place.entry (λ p. TriesTo z s (mkdir_at z read_only moment s p None) result)) }
{
    if read_only {
        return Err(Errno::EROFS);
    }
    if !has_object_room(store, place.directory) {
        return Err(Errno::ENOSPC);
    }
    Ok(change(
        Reply::Done,
        ObjectChange::Create {
            entry: entry_at(place),
            kind: Kind::Directory,
            moment,
        },
    ))
}

/// Mkdir at a place.
fn mkdir_at<'a, S: ObjectStore>(
    store: &S,
    read_only: bool,
    moment: u64,
    place: PathPlace<'a>,
) -> Result<Plan<'a>, Errno>
    ensures { OfStore S.meaning store.now (λ z s.
        OfPlace s place.entry (λ p. TriesTo z s (mkdir_at z read_only moment s p p.object) result)) }
{
    match place.object {
        Some(_) => Err(Errno::EEXIST),
        None => mkdir_absent(store, read_only, moment, place),
    }
}

/// Mkdir.
pub(crate) fn mkdir<'a, S: ObjectStore>(
    alloc: Global,
    store: &mut S,
    read_only: bool,
    moment: u64,
    path: &'a [u8],
) -> Result<Plan<'a>, Refusal>
    ensures reads { S.meaning.reads store.old store.new }
    ensures power { KeepsPower S.meaning store.old store.new result }
    ensures plans { PlansOn S.meaning (store.old, store.new) (λ z s.
        (Changing, mkdir_step z read_only moment s path.now)) result }
{
    let place = find_place(alloc, store, path)?;
    hand_on(mkdir_at(store, read_only, moment, place))
}

/// The object, if nothing keeps it but one name.
pub(crate) fn uncommitted<S: ObjectStore>(
    store: &S,
    table: &DescriptorTable,
    number: u64,
) -> Option<u64>
    ensures only { (result ≡ None) ⊎ (result ≡ Some number) }
    ensures left { OfState S.meaning store.now table.now (λ z s. DropsUncommitted s number result) }
{
    if has_other_name(store, number) {
        return None;
    }
    if table.is_open(number) {
        return None;
    }
    Some(number)
}

/// The name goes, and the object if nothing else keeps it.
fn remove_at<'a, S: ObjectStore>(
    store: &S,
    table: &DescriptorTable,
    moment: u64,
    place: PathPlace<'a>,
    number: u64,
) -> Plan<'a>
    ensures { OfState S.meaning store.now table.now (RemovesName moment place.entry number result) }
{
    change(
        Reply::Done,
        ObjectChange::Remove {
            entry: entry_at(place),
            removed: number,
            dropped: uncommitted(store, table, number),
            moment,
        },
    )
}

/// Unlink of an object at a place.
fn unlink_object<'a, S: ObjectStore>(
    store: &S,
    table: &DescriptorTable,
    read_only: bool,
    moment: u64,
    place: PathPlace<'a>,
    number: u64,
) -> Result<Plan<'a>, Errno>
    ensures { OfState S.meaning store.now table.now (UnlinksObject read_only moment place.entry number result) }
{
    if is_directory(store, number) {
        return Err(Errno::EPERM);
    }
    if read_only {
        return Err(Errno::EROFS);
    }
    Ok(remove_at(store, table, moment, place, number))
}

/// Unlink.
pub(crate) fn unlink<'a, S: ObjectStore>(
    alloc: Global,
    store: &mut S,
    table: &DescriptorTable,
    read_only: bool,
    moment: u64,
    path: &'a [u8],
) -> Result<Plan<'a>, Refusal>
    ensures reads { S.meaning.reads store.old store.new }
    ensures power { KeepsPower S.meaning store.old store.new result }
    ensures plans { PlansAt S.meaning (store.old, store.new) table.now (λ z s.
        (Changing, unlink_step read_only moment s path.now)) result }
{
    let found = find_object(alloc, store, path)?;
    hand_on(unlink_object(store, table, read_only, moment, found.place, found.number))
}

/// Rmdir of an object at a place.
fn rmdir_object<'a, S: ObjectStore>(
    store: &S,
    table: &DescriptorTable,
    read_only: bool,
    moment: u64,
    place: PathPlace<'a>,
    number: u64,
) -> Result<Plan<'a>, Errno>
    ensures { OfState S.meaning store.now table.now (RemovesDirectory read_only moment place.entry number result) }
{
    if is_file(store, number) {
        return Err(Errno::ENOTDIR);
    }
    if store.entry_count(number) > 0 {
        return Err(Errno::ENOTEMPTY);
    }
    if read_only {
        return Err(Errno::EROFS);
    }
    Ok(remove_at(store, table, moment, place, number))
}

/// Rmdir at a place that ends in a name.
fn rmdir_named<'a, S: ObjectStore>(
    store: &S,
    table: &DescriptorTable,
    read_only: bool,
    moment: u64,
    place: PathPlace<'a>,
) -> Result<Plan<'a>, Errno>
    ensures { OfState S.meaning store.now table.now (λ z s.
        OfName s place.entry (λ p. TriesTo z s (rmdir_named read_only moment s p) result)) }
{
    match place.object {
        Some(number) => rmdir_object(store, table, read_only, moment, place, number),
        None => Err(Errno::ENOENT),
    }
}

/// Rmdir at a place.
fn rmdir_at<'a, S: ObjectStore>(
    store: &S,
    table: &DescriptorTable,
    read_only: bool,
    moment: u64,
    place: PathPlace<'a>,
) -> Result<Plan<'a>, Errno>
    ensures { OfState S.meaning store.now table.now (λ z s.
        OfPlace s place.entry (λ p. TriesTo z s (rmdir_at read_only moment s p) result)) }
{
    if ends_in_dot(place) {
        return Err(Errno::EINVAL);
    }
    if ends_in_dot_dot(place) {
        return Err(Errno::ENOTEMPTY);
    }
    if is_only_slashes(place) {
        return Err(Errno::EBUSY);
    }
    rmdir_named(store, table, read_only, moment, place)
}

/// Rmdir.
pub(crate) fn rmdir<'a, S: ObjectStore>(
    alloc: Global,
    store: &mut S,
    table: &DescriptorTable,
    read_only: bool,
    moment: u64,
    path: &'a [u8],
) -> Result<Plan<'a>, Refusal>
    ensures reads { S.meaning.reads store.old store.new }
    ensures power { KeepsPower S.meaning store.old store.new result }
    ensures plans { PlansAt S.meaning (store.old, store.new) table.now (λ z s.
        (Changing, rmdir_step read_only moment s path.now)) result }
{
    let place = find_place(alloc, store, path)?;
    hand_on(rmdir_at(store, table, read_only, moment, place))
}

/// Link of a file to an absent name.
fn link_absent<'a, S: ObjectStore>(
    store: &S,
    read_only: bool,
    moment: u64,
    number: u64,
    to: PathPlace<'a>,
) -> Result<Plan<'a>, Errno>
    ensures { OfStore S.meaning store.now (λ z s.
        IfFile s number (OfAbsent s to.entry (λ p. TriesTo z s (link_at z read_only moment s number p None) result))) }
{
    if to.slash_follows {
        return Err(Errno::ENOENT);
    }
    if read_only {
        return Err(Errno::EROFS);
    }
    if !has_name_room(store, to.directory) {
        return Err(Errno::ENOSPC);
    }
    Ok(change(
        Reply::Done,
        ObjectChange::Name {
            entry: entry_at(to),
            number,
            moment,
        },
    ))
}

/// Link of a file to a place.
fn link_at<'a, S: ObjectStore>(
    store: &S,
    read_only: bool,
    moment: u64,
    number: u64,
    to: PathPlace<'a>,
) -> Result<Plan<'a>, Errno>
    ensures { OfStore S.meaning store.now (λ z s.
        IfFile s number (OfPlace s to.entry (λ p. TriesTo z s (link_at z read_only moment s number p p.object) result))) }
{
    match to.object {
        Some(_) => Err(Errno::EEXIST),
        None => link_absent(store, read_only, moment, number, to),
    }
}

/// Link of a file to a path.
fn link_to<'a, S: ObjectStore>(
    alloc: Global,
    store: &mut S,
    read_only: bool,
    moment: u64,
    number: u64,
    new: &'a [u8],
) -> Result<Plan<'a>, Refusal>
    ensures reads { S.meaning.reads store.old store.new }
    ensures power { KeepsPower S.meaning store.old store.new result }
    ensures plans { PlansFor S.meaning (store.old, store.new) number (λ z s.
        (Changing, link_to z read_only moment s number new.now)) result }
{
    let to = find_place(alloc, store, new)?;
    hand_on(link_at(store, read_only, moment, number, to))
}

/// Link.
pub(crate) fn link<'a, S: ObjectStore>(
    alloc: Global,
    store: &mut S,
    read_only: bool,
    moment: u64,
    old: &[u8],
    new: &'a [u8],
) -> Result<Plan<'a>, Refusal>
    ensures reads { S.meaning.reads store.old store.new }
    ensures power { KeepsPower S.meaning store.old store.new result }
    ensures plans { PlansOn S.meaning (store.old, store.new) (λ z s.
        (Changing, link_step z read_only moment s old.now new.now)) result }
{
    let found = find_object(alloc, store, old)?;
    if is_directory(store, found.number) {
        return Err(Refusal::Error(Errno::EPERM));
    }
    link_to(alloc, store, read_only, moment, found.number, new)
}
