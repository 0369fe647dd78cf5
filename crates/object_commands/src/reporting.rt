// The commands that only tell: Stat, List, Read, Seek, Space.
ghost use Rattle.std.specs.Prelude.{◌≡◌, ◌<◌, ◌≤◌, ◌+◌, ◌-◌, ◌^◌, true, IfOk, length, min, pos, ◌+ℤ◌};
ghost use Rattle.volume_terms.specs.Sizes.{Sizes, descriptors};
ghost use Rattle.posix_profile.specs.State.{State};
ghost use Rattle.posix_profile.specs.HandleSteps.{may_read, read_step, seek_origin, seek_to, seek_step};
ghost use Rattle.posix_profile.specs.NameSteps.{stat_step, list_step, space_step};
ghost use Rattle.object_store.specs.Stores.{KeepsPower};
ghost use Rattle.command_plans.specs.Classes.{Reporting};
ghost use Rattle.command_plans.specs.Plans.{Tries, Frees, LeavesDevice, IsPlan, frees, leaves_device};
ghost use Rattle.command_plans.specs.Tables.{handle_of};
ghost use Rattle.object_commands.specs.Reads.{FillsOnly, MayRead, asked_of, bytes_at, filled_plan};
ghost use Rattle.object_commands.specs.Seeks.{SeeksOn};
ghost use Rattle.object_commands.specs.States.{OfObjects, OfStore, OfState};
ghost use Rattle.object_commands.specs.Tasks.{PlansOn, PlansAt};

use command_plans::facts::{file_length, length};
use command_plans::place::find_object;
use command_plans::plan::{HandleChange, Plan, StoreWork, tell};
use command_plans::table::{DescriptorTable, OpenDescription};
use object_store::{ObjectStore, Refusal, is_file};
use posix_profile::{Access, Bytes, Errno, Reply, SpaceInfo, Whence};
use std::alloc::{AllocError, Global};

/// The most bytes that a command can ask.
const MOST_ASKED: usize = 4_294_967_295;

/// The greatest offset.
const OFFSET_LIMIT: u128 = 9_223_372_036_854_775_807;

/// Stat.
pub(crate) fn stat<'a, S: ObjectStore>(
    alloc: Global,
    store: &mut S,
    path: &[u8],
) -> Result<Plan<'a>, Refusal>
    ensures reads { S.meaning.reads store.old store.new }
    ensures power { KeepsPower S.meaning store.old store.new result }
    ensures plans { PlansOn S.meaning (store.old, store.new) (λ z s. (Reporting, stat_step s path.now)) result }
{
    let found = find_object(alloc, store, path)?;
    match store.info(found.number) {
        Some(info) => Ok(tell(Reply::Info(info))),
        None => Err(Refusal::Error(Errno::ENOENT)),
    }
}

/// List.
pub(crate) fn list<'a, S: ObjectStore>(
    alloc: Global,
    store: &mut S,
    path: &[u8],
) -> Result<Plan<'a>, Refusal>
    ensures reads { S.meaning.reads store.old store.new }
    ensures power { KeepsPower S.meaning store.old store.new result }
    ensures plans { PlansOn S.meaning (store.old, store.new) (λ z s. (Reporting, list_step s path.now)) result }
{
    let found = find_object(alloc, store, path)?;
    if is_file(store, found.number) {
        return Err(Refusal::Error(Errno::ENOTDIR));
    }
    let names = store.names(alloc, found.number)?;
    Ok(tell(Reply::Names(names)))
}

/// Whether a descriptor of this access may read.
fn may_read(access: Access) -> bool
    ensures { result ≡ may_read access }
{
    match access {
        Access::Read => true,
        Access::Write => false,
        Access::Both => true,
    }
}

/// What a descriptor refers to that may read a file.
fn readable<S: ObjectStore>(
    store: &S,
    table: &DescriptorTable,
    fd: u32,
) -> Result<OpenDescription, Errno>
    ensures { OfState S.meaning store.now table.now (λ z s. MayRead s fd result) }
{
    match table.get(fd) {
        Some(description) => {
            if !may_read(description.flags.access) {
                return Err(Errno::EBADF);
            }
            if !is_file(store, description.object) {
                return Err(Errno::EISDIR);
            }
            Ok(description)
        }
        None => Err(Errno::EBADF),
    }
}

/// Room for the bytes of a file from the offset of a descriptor on, at most so many.
fn room_for<S: ObjectStore>(
    alloc: Global,
    store: &S,
    description: OpenDescription,
    count: u32,
) -> Result<Vec<u8>, AllocError>
    ensures { OfObjects S.meaning store.now (λ z objects.
        IfOk result (λ room. length room.items ≡ length (bytes_at objects description count))) }
{
    let rest = length(store, description.object).saturating_sub(description.offset);
    vec![in alloc; 0; rest.min(u64::from(count)) as usize]
}

/// What a descriptor refers to once so many bytes were read.
fn moved(description: OpenDescription, count: usize) -> OpenDescription
    ensures { result ≡ record description { offset = min (description.offset + count) (2 ^ 64 - 1) } }
{
    let offset = description.offset.saturating_add(count as u64);
    OpenDescription {
        offset,
        ..description
    }
}

/// Read.
pub(crate) fn read<'a, S: ObjectStore>(
    alloc: Global,
    store: &mut S,
    table: &DescriptorTable,
    fd: u32,
    count: u32,
) -> Result<Plan<'a>, Refusal>
    ensures reads { S.meaning.reads store.old store.new }
    ensures power { KeepsPower S.meaning store.old store.new result }
    ensures plans { PlansAt S.meaning (store.old, store.new) table.now (λ z s. (Reporting, read_step s fd count)) result }
{
    let description = readable(store, table, fd)?;
    let mut bytes = room_for(alloc, store, description, count)?;
    let read = store.read_into(description.object, description.offset, &mut bytes)?;
    bytes.truncate(read);
    Ok(Plan {
        reply: Reply::Data(Bytes::new(bytes)),
        handles: HandleChange::Put(fd, moved(description, read)),
        work: StoreWork::Nothing,
    })
}

/// What was read into a buffer: how many bytes, and what the descriptor refers to then.
#[derive(Clone, Copy)]
pub(crate) struct Filled {
    pub count: usize,
    pub description: OpenDescription,
}

/// Read into a buffer, of as many bytes as it has room for and a command can ask.
pub(crate) fn read_into<S: ObjectStore>(
    store: &mut S,
    table: &DescriptorTable,
    fd: u32,
    buffer: &mut [u8],
) -> Result<Filled, Refusal>
    ensures reads { S.meaning.reads store.old store.new }
    ensures power { KeepsPower S.meaning store.old store.new result }
    ensures size { length buffer.new ≡ length buffer.old }
    ensures rest { FillsOnly buffer.old buffer.new result }
    ensures plans { PlansAt S.meaning (store.old, store.new) table.now (λ z s.
        (Reporting, read_step s fd (asked_of buffer.old))) (filled_plan fd buffer.new result) }
{
    let description = readable(store, table, fd)?;
    let most = buffer.len().min(MOST_ASKED);
    let count = store.read_into(description.object, description.offset, &mut buffer[..most])?;
    Ok(Filled {
        count,
        description: moved(description, count),
    })
}

/// Where a seek counts from, by the offset and the file's length.
fn seek_origin(whence: Whence, offset: u64, length: u64) -> u64
    ensures { result ≡ seek_origin whence offset length }
{
    match whence {
        Whence::Set => 0,
        Whence::Cur => offset,
        Whence::End => length,
    }
}

/// The sum of an origin and a signed number of bytes.
fn seek_target(origin: u64, offset: i64) -> i128
    ensures { result ≡ pos origin +ℤ offset }
{
    origin as i128 + offset as i128
}

/// The descriptor gets this offset.
fn seek_to<'a>(fd: u32, description: OpenDescription, target: u128) -> Result<Plan<'a>, Errno>
    ensures plans { (z : Sizes) (s : State) → fd < descriptors
        → Tries z Reporting s (seek_to s fd (handle_of description) (pos target)) result }
    ensures memory { Frees result }
    ensures device { LeavesDevice result }
{
    if target > OFFSET_LIMIT {
        return Err(Errno::EOVERFLOW);
    }
    let offset = target as u64;
    Ok(Plan {
        reply: Reply::At(offset),
        handles: HandleChange::Put(
            fd,
            OpenDescription {
                offset,
                ..description
            },
        ),
        work: StoreWork::Nothing,
    })
}

/// The descriptor gets this offset, which may be below 0.
fn seek_signed<'a>(fd: u32, description: OpenDescription, target: i128) -> Result<Plan<'a>, Errno>
    ensures plans { (z : Sizes) (s : State) → fd < descriptors
        → Tries z Reporting s (seek_to s fd (handle_of description) target) result }
    ensures memory { Frees result }
    ensures device { LeavesDevice result }
{
    if target < 0 {
        return Err(Errno::EINVAL);
    }
    seek_to(fd, description, target.unsigned_abs())
}

/// Seek of what the descriptor refers to.
fn seek_open<'a, S: ObjectStore>(
    store: &S,
    fd: u32,
    description: OpenDescription,
    offset: i64,
    whence: Whence,
) -> Result<Plan<'a>, Errno>
    ensures plans { OfStore S.meaning store.now (SeeksOn fd description offset whence result) }
    ensures memory { Frees result }
    ensures device { LeavesDevice result }
{
    let Some(length) = file_length(store, description.object) else {
        return Err(Errno::EINVAL);
    };
    let origin = seek_origin(whence, description.offset, length);
    seek_signed(fd, description, seek_target(origin, offset))
}

/// Seek.
pub(crate) fn seek<'a, S: ObjectStore>(
    store: &S,
    table: &DescriptorTable,
    fd: u32,
    offset: i64,
    whence: Whence,
) -> Result<Plan<'a>, Errno>
    ensures plans { OfState S.meaning store.now table.now (λ z s.
        Tries z Reporting s (seek_step s fd offset whence) result) }
    ensures memory { Frees result }
    ensures device { LeavesDevice result }
{
    match table.get(fd) {
        Some(description) => seek_open(store, fd, description, offset, whence),
        None => Err(Errno::EBADF),
    }
}

/// Space.
pub(crate) fn space<'a, S: ObjectStore>(store: &S) -> Plan<'a>
    ensures plans { OfStore S.meaning store.now (λ z s. IsPlan z Reporting s (space_step z s) result) }
    ensures memory { frees result.work ≡ true }
    ensures device { leaves_device result.work ≡ true }
{
    let sizes = store.sizes();
    tell(Reply::SpaceInfo(SpaceInfo {
        unit: sizes.page_bytes(),
        total: sizes.capacity(),
        free: sizes.capacity().saturating_sub(store.charge()),
    }))
}
