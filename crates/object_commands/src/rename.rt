// Rename.
ghost use Rattle.std.specs.Prelude.{◌≡◌, ◌&&◌, ◌||◌, [], ◌∷◌, is_none};
ghost use Rattle.std.specs.Result.{result_err};
ghost use Rattle.posix_profile.specs.Names.{Reached};
ghost use Rattle.posix_profile.specs.NameSteps.{is_below, is_object};
ghost use Rattle.posix_profile.specs.Paths.{first_error};
ghost use Rattle.posix_profile.specs.State.{IsDirectory};
ghost use Rattle.command_plans.specs.Paths.{place_of};
ghost use Rattle.object_store.specs.Stores.{KeepsPower};
ghost use Rattle.object_commands.specs.Names.{OfPlace};
ghost use Rattle.object_commands.specs.Renames.{is_inside, replace_tests, rename_error, have_dots, IsRoomForMove, renaming, MovesOnto, MovesToAbsent, MovesName, RenamesOnto, RenamesTo, RenamesPlaces, rename_task};
ghost use Rattle.object_commands.specs.States.{OfObjects, OfStore, OfState, IfThere};
ghost use Rattle.object_commands.specs.Tasks.{PlansAt};

use crate::naming::uncommitted;
use command_plans::facts::is_directory;
use command_plans::path::PathPlace;
use command_plans::place::{ends_in_dot, ends_in_dot_dot, entry_at, find_place, is_only_slashes};
use command_plans::plan::{Plan, change, hand_on, tell};
use command_plans::room::{free_units, units_past};
use command_plans::table::DescriptorTable;
use object_store::{ObjectChange, ObjectStore, Refusal, is_file};
use posix_profile::{Errno, Reply};
use std::alloc::Global;

/// Whether the object at the place is this one.
fn is_same(place: PathPlace<'_>, number: u64) -> bool
    ensures { result ≡ is_object number (place_of place.entry).object }
{
    match place.object {
        Some(there) => number == there,
        None => false,
    }
}

/// Whether the directory is this object or lies below it.
fn is_below<S: ObjectStore>(store: &S, number: u64, directory: u64) -> bool
    ensures { OfObjects S.meaning store.now (λ z objects.
        IsDirectory objects directory → Reached objects directory → result ≡ is_below objects number directory) }
{
    let mut here = directory;
    for step in 0..store.charge() {
        if here == number {
            return true;
        }
        match store.parent(here) {
            Some(above) => here = above,
            None => return false,
        }
    }
    false
}

/// Whether a directory would lie below itself.
fn goes_below<S: ObjectStore>(store: &S, number: u64, directory: u64) -> bool
    ensures { OfObjects S.meaning store.now (λ z objects.
        IsDirectory objects directory → Reached objects directory → result ≡ is_inside objects number directory) }
{
    if !is_directory(store, number) {
        return false;
    }
    is_below(store, number, directory)
}

/// The first error of a rename onto an object that is there: a file replaces a file, and a directory one without entries.
fn test_replaced(is_file: bool, file_there: bool, entries_there: u64) -> Result<(), Errno>
    ensures { result_err result ≡ first_error (replace_tests is_file file_there entries_there) }
{
    if is_file && !file_there {
        return Err(Errno::EISDIR);
    }
    if !is_file && file_there {
        return Err(Errno::ENOTDIR);
    }
    if !is_file && 0 < entries_there {
        return Err(Errno::ENOTEMPTY);
    }
    Ok(())
}

/// The first error of a rename to an absent name.
fn test_absent(is_file: bool, slash_follows: bool) -> Result<(), Errno>
    ensures { result_err result ≡ first_error ((is_file && slash_follows, Errno.ENOTDIR) ∷ []) }
{
    if is_file && slash_follows {
        return Err(Errno::ENOTDIR);
    }
    Ok(())
}

/// The first error of a rename of an object onto a place.
fn test_onto<S: ObjectStore>(store: &S, number: u64, to: PathPlace<'_>) -> Result<(), Errno>
    ensures { OfStore S.meaning store.now (λ z s.
        OfPlace s to.entry (λ p. IfThere s number (result_err result ≡ rename_error s number p))) }
{
    match to.object {
        Some(there) => test_replaced(
            is_file(store, number),
            is_file(store, there),
            store.entry_count(there),
        ),
        None => test_absent(is_file(store, number), to.slash_follows),
    }
}

/// Whether there is room for a move to an absent name. In the same directory there always is.
fn has_move_room<S: ObjectStore>(store: &S, from: PathPlace<'_>, to: PathPlace<'_>) -> bool
    ensures { OfObjects S.meaning store.now (IsRoomForMove from.entry.directory to.entry.directory result) }
{
    if from.directory == to.directory {
        return true;
    }
    let left = store.entry_count(from.directory).saturating_sub(1);
    let freed = units_past(store, left);
    units_past(store, store.entry_count(to.directory)) <= free_units(store).saturating_add(freed)
}

/// The object gets the name of another, which goes if nothing else keeps it.
fn move_onto<'a, S: ObjectStore>(
    store: &S,
    table: &DescriptorTable,
    moment: u64,
    from: PathPlace<'a>,
    to: PathPlace<'a>,
    number: u64,
    there: u64,
) -> Plan<'a>
    ensures { OfState S.meaning store.now table.now (MovesOnto moment (renaming from.entry to.entry number) there result) }
{
    change(
        Reply::Done,
        ObjectChange::Move {
            from: entry_at(from),
            to: entry_at(to),
            number,
            replaced: Some(there),
            dropped: uncommitted(store, table, there),
            moment,
        },
    )
}

/// The object gets an absent name.
fn move_to_absent<'a, S: ObjectStore>(
    store: &S,
    moment: u64,
    from: PathPlace<'a>,
    to: PathPlace<'a>,
    number: u64,
) -> Result<Plan<'a>, Errno>
    ensures { OfStore S.meaning store.now (MovesToAbsent moment (renaming from.entry to.entry number) result) }
{
    if !has_move_room(store, from, to) {
        return Err(Errno::ENOSPC);
    }
    Ok(change(
        Reply::Done,
        ObjectChange::Move {
            from: entry_at(from),
            to: entry_at(to),
            number,
            replaced: None,
            dropped: None,
            moment,
        },
    ))
}

/// The object gets the name at a place.
fn move_name<'a, S: ObjectStore>(
    store: &S,
    table: &DescriptorTable,
    moment: u64,
    from: PathPlace<'a>,
    to: PathPlace<'a>,
    number: u64,
) -> Result<Plan<'a>, Errno>
    ensures { OfState S.meaning store.now table.now (MovesName moment (renaming from.entry to.entry number) result) }
{
    match to.object {
        Some(there) => Ok(move_onto(store, table, moment, from, to, number, there)),
        None => move_to_absent(store, moment, from, to, number),
    }
}

/// Rename of an object onto a place.
fn rename_onto<'a, S: ObjectStore>(
    store: &S,
    table: &DescriptorTable,
    read_only: bool,
    moment: u64,
    from: PathPlace<'a>,
    to: PathPlace<'a>,
    number: u64,
) -> Result<Plan<'a>, Errno>
    ensures { OfState S.meaning store.now table.now (RenamesOnto read_only moment (renaming from.entry to.entry number) result) }
{
    test_onto(store, number, to)?;
    if read_only {
        return Err(Errno::EROFS);
    }
    move_name(store, table, moment, from, to, number)
}

/// Rename of an object to a place.
fn rename_to<'a, S: ObjectStore>(
    store: &S,
    table: &DescriptorTable,
    read_only: bool,
    moment: u64,
    from: PathPlace<'a>,
    to: PathPlace<'a>,
    number: u64,
) -> Result<Plan<'a>, Errno>
    ensures { OfState S.meaning store.now table.now (RenamesTo read_only moment (renaming from.entry to.entry number) result) }
{
    if is_same(to, number) {
        return Ok(tell(Reply::Done));
    }
    if goes_below(store, number, to.directory) {
        return Err(Errno::EINVAL);
    }
    rename_onto(store, table, read_only, moment, from, to, number)
}

/// Whether one of the paths ends in `.` or `..`.
fn have_dots(from: PathPlace<'_>, to: PathPlace<'_>) -> bool
    ensures { result ≡ have_dots (place_of from.entry) (place_of to.entry) }
{
    ends_in_dot(from) || ends_in_dot_dot(from) || ends_in_dot(to) || ends_in_dot_dot(to)
}

/// Whether one of the paths is only slashes.
fn have_no_name(from: PathPlace<'_>, to: PathPlace<'_>) -> bool
    ensures { result ≡ (is_none (place_of from.entry).last || is_none (place_of to.entry).last) }
{
    is_only_slashes(from) || is_only_slashes(to)
}

/// Rename from a place to another.
fn rename_places<'a, S: ObjectStore>(
    store: &S,
    table: &DescriptorTable,
    read_only: bool,
    moment: u64,
    from: PathPlace<'a>,
    to: PathPlace<'a>,
) -> Result<Plan<'a>, Errno>
    ensures { OfState S.meaning store.now table.now (RenamesPlaces read_only moment from.entry to.entry result) }
{
    if have_dots(from, to) {
        return Err(Errno::EINVAL);
    }
    if have_no_name(from, to) {
        return Err(Errno::EBUSY);
    }
    match from.object {
        Some(number) => rename_to(store, table, read_only, moment, from, to, number),
        None => Err(Errno::ENOENT),
    }
}

/// Rename.
pub(crate) fn rename<'a, S: ObjectStore>(
    alloc: Global,
    store: &mut S,
    table: &DescriptorTable,
    read_only: bool,
    moment: u64,
    old: &'a [u8],
    new: &'a [u8],
) -> Result<Plan<'a>, Refusal>
    ensures reads { S.meaning.reads store.old store.new }
    ensures power { KeepsPower S.meaning store.old store.new result }
    ensures plans { PlansAt S.meaning (store.old, store.new) table.now (rename_task read_only moment old.now new.now) result }
{
    let from = find_place(alloc, store, old)?;
    let to = find_place(alloc, store, new)?;
    hand_on(rename_places(store, table, read_only, moment, from, to))
}
