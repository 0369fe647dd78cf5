// The commands on descriptors that change objects: Open and Close.
ghost use Rattle.std.specs.Prelude.{◌≡◌, ◌<◌, true, not, ◌&&◌, ◌||◌};
ghost use Rattle.std.specs.FinMap as map;
ghost use Rattle.volume_terms.specs.Sizes.{descriptors};
ghost use Rattle.posix_profile.specs.State.{is_directory};
ghost use Rattle.posix_profile.specs.HandleSteps.{may_write, open_found, open_absent, close_step};
ghost use Rattle.object_store.specs.Stores.{KeepsPower};
ghost use Rattle.command_plans.specs.Classes.{Changing};
ghost use Rattle.command_plans.specs.Plans.{Frees, LeavesDevice, CanDo, Suits, worked, frees, leaves_device};
ghost use Rattle.object_commands.specs.Names.{OfAbsent};
ghost use Rattle.object_commands.specs.Opens.{IfOpen, OfOpenable, OpensAt, TriesOpen, closed, cut_by, open_found_on, open_new, open_task, opened};
ghost use Rattle.object_commands.specs.States.{OfStore, OfState, IfThere};
ghost use Rattle.object_commands.specs.Tasks.{PlansAt, TriesTo};

use crate::writing::may_write;
use command_plans::facts::{is_directory, is_named};
use command_plans::path::PathPlace;
use command_plans::place::{entry_at, find_place};
use command_plans::plan::{HandleChange, Plan, StoreWork, hand_on};
use command_plans::room::has_object_room;
use command_plans::table::{DescriptorTable, OpenDescription};
use object_store::{ObjectChange, ObjectStore, Refusal};
use posix_profile::{Errno, Kind, OpenFlags, Reply};
use std::alloc::Global;
use volume_terms::ROOT;

/// What goes with a descriptor that represents this object: the object, if nothing else keeps it.
fn forgotten<'a, S: ObjectStore>(
    store: &S,
    table: &DescriptorTable,
    fd: u32,
    number: u64,
) -> StoreWork<'a>
    ensures leaves { OfState S.meaning store.now table.now (λ z s.
        IfOpen s fd number (worked s.objects result ≡ (closed s fd).objects)) }
    ensures can { OfState S.meaning store.now table.now (λ z s. IfOpen s fd number (CanDo z s.objects result)) }
    ensures suits { Suits Changing Reply.Done result }
    ensures memory { frees result ≡ true }
    ensures device { leaves_device result ≡ true }
{
    if number == ROOT {
        return StoreWork::Nothing;
    }
    if is_named(store, number) {
        return StoreWork::Nothing;
    }
    if table.is_open_besides(fd, number) {
        return StoreWork::Nothing;
    }
    StoreWork::Change(ObjectChange::Forget { number })
}

/// Close.
pub(crate) fn close<'a, S: ObjectStore>(
    store: &S,
    table: &DescriptorTable,
    fd: u32,
) -> Result<Plan<'a>, Errno>
    ensures plans { OfState S.meaning store.now table.now (λ z s. TriesTo z s (close_step s fd) result) }
    ensures memory { Frees result }
    ensures device { LeavesDevice result }
{
    match table.get(fd) {
        Some(description) => Ok(Plan {
            reply: Reply::Done,
            handles: HandleChange::Remove(fd),
            work: forgotten(store, table, fd, description.object),
        }),
        None => Err(Errno::EBADF),
    }
}

/// Whether the object may not be there.
fn is_exclusive(flags: OpenFlags) -> bool
    ensures { result ≡ flags.create && flags.excl }
{
    flags.create && flags.excl
}

/// Whether the flags ask for what no directory does.
fn asks_for_a_file(flags: OpenFlags) -> bool
    ensures { result ≡ flags.create || may_write flags.access || flags.trunc }
{
    flags.create || may_write(flags.access) || flags.trunc
}

/// Whether the object is a directory, and the flags ask for what no directory does.
fn is_wrong_kind<S: ObjectStore>(store: &S, number: u64, flags: OpenFlags) -> bool
    ensures { OfStore S.meaning store.now (λ z s.
        result ≡ is_directory (map.get s.objects number) && (flags.create || may_write flags.access || flags.trunc)) }
{
    is_directory(store, number) && asks_for_a_file(flags)
}

/// Whether the volume is read-only and the flags ask for writing.
fn is_write_refused(read_only: bool, flags: OpenFlags) -> bool
    ensures { result ≡ read_only && may_write flags.access }
{
    read_only && may_write(flags.access)
}

/// Whether there is a file to be cut to no bytes without the right to write it.
fn cuts_what_is_only_read(flags: OpenFlags) -> bool
    ensures { result ≡ flags.trunc && not (may_write flags.access) }
{
    flags.trunc && !may_write(flags.access)
}

/// The descriptor is open on the object, at offset 0, after this.
fn open_on<'a>(fd: u32, object: u64, flags: OpenFlags, work: StoreWork<'a>) -> Plan<'a>
    ensures { result ≡ opened fd object flags work.entry }
{
    let description = OpenDescription {
        object,
        flags,
        offset: 0,
    };
    Plan {
        reply: Reply::Fd(fd),
        handles: HandleChange::Put(fd, description),
        work,
    }
}

/// The file cut to no bytes, if the flags say so.
fn cut<'a>(moment: u64, number: u64, flags: OpenFlags) -> StoreWork<'a>
    ensures { result ≡ cut_by flags.trunc number moment }
{
    if flags.trunc {
        StoreWork::Change(ObjectChange::Resize {
            number,
            length: 0,
            moment,
        })
    } else {
        StoreWork::Nothing
    }
}

/// Open of an object that is there, with a free descriptor.
fn open_found_on<'a>(
    read_only: bool,
    moment: u64,
    flags: OpenFlags,
    number: u64,
    fd: u32,
) -> Result<Plan<'a>, Errno>
    ensures { OfOpenable flags number fd (λ z s.
        TriesOpen z s flags (open_found_on z read_only moment s flags number fd) result) }
{
    if is_write_refused(read_only, flags) {
        return Err(Errno::EROFS);
    }
    Ok(open_on(fd, number, flags, cut(moment, number, flags)))
}

/// Open of an object that is there.
fn open_found<'a, S: ObjectStore>(
    store: &S,
    table: &DescriptorTable,
    read_only: bool,
    moment: u64,
    flags: OpenFlags,
    number: u64,
) -> Result<Plan<'a>, Errno>
    ensures { OfState S.meaning store.now table.now (λ z s.
        IfThere s number (TriesOpen z s flags (open_found z read_only moment s flags number) result)) }
{
    if is_exclusive(flags) {
        return Err(Errno::EEXIST);
    }
    if is_wrong_kind(store, number, flags) {
        return Err(Errno::EISDIR);
    }
    match table.free() {
        Some(fd) => open_found_on(read_only, moment, flags, number, fd),
        None => Err(Errno::EMFILE),
    }
}

/// Open of an absent name, with a free descriptor.
fn open_absent_on<'a, S: ObjectStore>(
    store: &S,
    read_only: bool,
    moment: u64,
    flags: OpenFlags,
    place: PathPlace<'a>,
    fd: u32,
) -> Result<Plan<'a>, Errno>
    ensures { OfStore S.meaning store.now (λ z s.
        fd < descriptors → OfAbsent s place.entry (λ p. TriesTo z s (open_new z read_only moment s flags p fd) result)) }
{
    if read_only {
        return Err(Errno::EROFS);
    }
    if !has_object_room(store, place.directory) {
        return Err(Errno::ENOSPC);
    }
    let created = ObjectChange::Create {
        entry: entry_at(place),
        kind: Kind::File,
        moment,
    };
    Ok(open_on(fd, store.new_number(), flags, StoreWork::Change(created)))
}

/// Open of an absent name.
fn open_absent<'a, S: ObjectStore>(
    store: &S,
    table: &DescriptorTable,
    read_only: bool,
    moment: u64,
    flags: OpenFlags,
    place: PathPlace<'a>,
) -> Result<Plan<'a>, Errno>
    ensures { OfState S.meaning store.now table.now (λ z s.
        OfAbsent s place.entry (λ p. TriesTo z s (open_absent z read_only moment s flags p) result)) }
{
    if !flags.create {
        return Err(Errno::ENOENT);
    }
    if place.slash_follows {
        return Err(Errno::ENOENT);
    }
    match table.free() {
        Some(fd) => open_absent_on(store, read_only, moment, flags, place, fd),
        None => Err(Errno::EMFILE),
    }
}

/// Open at a place.
fn open_at<'a, S: ObjectStore>(
    store: &S,
    table: &DescriptorTable,
    read_only: bool,
    moment: u64,
    flags: OpenFlags,
    place: PathPlace<'a>,
) -> Result<Plan<'a>, Errno>
    ensures { OfState S.meaning store.now table.now (OpensAt read_only moment flags place.entry result) }
{
    match place.object {
        Some(number) => open_found(store, table, read_only, moment, flags, number),
        None => open_absent(store, table, read_only, moment, flags, place),
    }
}

/// Open.
pub(crate) fn open<'a, S: ObjectStore>(
    alloc: Global,
    store: &mut S,
    table: &DescriptorTable,
    read_only: bool,
    moment: u64,
    path: &'a [u8],
    flags: OpenFlags,
) -> Result<Plan<'a>, Refusal>
    ensures reads { S.meaning.reads store.old store.new }
    ensures power { KeepsPower S.meaning store.old store.new result }
    ensures plans { PlansAt S.meaning (store.old, store.new) table.now (open_task read_only moment path.now flags) result }
{
    if cuts_what_is_only_read(flags) {
        return Err(Refusal::Error(Errno::EINVAL));
    }
    let place = find_place(alloc, store, path)?;
    hand_on(open_at(store, table, read_only, moment, flags, place))
}
