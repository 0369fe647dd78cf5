// The commands that change the bytes of a file: Write and Truncate.
ghost use Rattle.std.specs.Prelude.{◌≡◌, ◌≤◌, ℕ, List, length, pos};
ghost use Rattle.posix_profile.specs.HandleSteps.{may_write, write_offset, write_file, write_bytes, write_step, truncate_to, truncate_step};
ghost use Rattle.posix_profile.specs.State.{Handle};
ghost use Rattle.command_plans.specs.Tables.{handle_of};
ghost use Rattle.object_commands.specs.States.{OfStore, OfState, IfFile};
ghost use Rattle.object_commands.specs.Tasks.{TriesTo};
ghost use Rattle.object_commands.specs.Writes.{CountsWrite, OfOpenFile, TriesWrite};

use command_plans::facts::length;
use command_plans::plan::{HandleChange, Plan, StoreWork, change, tell};
use command_plans::room::{has_bytes_room, units_for};
use command_plans::table::{DescriptorTable, OpenDescription};
use object_store::{ObjectChange, ObjectStore};
use posix_profile::{Access, Errno, Reply};

/// Whether a descriptor of this access may write.
pub(crate) fn may_write(access: Access) -> bool
    ensures { result ≡ may_write access }
{
    match access {
        Access::Read => false,
        Access::Write => true,
        Access::Both => true,
    }
}

/// Where a write begins: with append at the end of the file.
fn write_offset(description: OpenDescription, size: u64) -> u64
    ensures { (bytes : List ℕ) → size ≡ length bytes → result ≡ write_offset (handle_of description) bytes }
{
    if description.flags.append {
        size
    } else {
        description.offset
    }
}

/// How many bytes are written of so many, to a file of this size.
fn write_count<S: ObjectStore>(
    store: &S,
    description: OpenDescription,
    size: u64,
    count: usize,
) -> u64
    ensures count { OfStore S.meaning store.now (CountsWrite description size count result) }
    ensures given { result ≤ count }
    ensures small { result ≤ 1048576 }
{
    let sizes = store.sizes();
    let offset = write_offset(description, size);
    let most = (count as u64)
        .min(sizes.most_written())
        .min(sizes.greatest_length().saturating_sub(offset));
    let room = units_for(store, size).saturating_mul(sizes.page_bytes());
    most.min(room.saturating_sub(offset))
}

/// Write of some bytes to a file.
fn write_file<'a, S: ObjectStore>(
    store: &S,
    moment: u64,
    fd: u32,
    description: OpenDescription,
    new: &'a [u8],
) -> Result<Plan<'a>, Errno>
    ensures { OfStore S.meaning store.now (λ z s.
        OfOpenFile s fd description (λ h bytes. TriesTo z s (write_file z moment s fd h new.now bytes) result)) }
{
    let size = length(store, description.object);
    let offset = write_offset(description, size);
    if store.sizes().greatest_length() <= offset {
        return Err(Errno::EFBIG);
    }
    let count = write_count(store, description, size, new.len());
    if count == 0 {
        return Err(Errno::ENOSPC);
    }
    let (part, _rest) = new.split_at(count as usize);
    Ok(Plan {
        reply: Reply::Wrote(count as u32),
        handles: HandleChange::Put(
            fd,
            OpenDescription {
                offset: offset.saturating_add(count),
                ..description
            },
        ),
        work: StoreWork::Change(ObjectChange::Write {
            number: description.object,
            offset,
            bytes: part,
            moment,
        }),
    })
}

/// Write of no or some bytes, by a descriptor that may write.
fn write_some<'a, S: ObjectStore>(
    store: &S,
    moment: u64,
    fd: u32,
    description: OpenDescription,
    new: &'a [u8],
) -> Result<Plan<'a>, Errno>
    ensures { OfStore S.meaning store.now (λ z s.
        OfOpenFile s fd description (λ h bytes. TriesWrite z s new.now (write_bytes z moment s fd h new.now) result)) }
{
    if new.is_empty() {
        return Ok(tell(Reply::Wrote(0)));
    }
    write_file(store, moment, fd, description, new)
}

/// Write.
pub(crate) fn write<'a, S: ObjectStore>(
    store: &S,
    table: &DescriptorTable,
    moment: u64,
    fd: u32,
    new: &'a [u8],
) -> Result<Plan<'a>, Errno>
    ensures { OfState S.meaning store.now table.now (λ z s.
        TriesWrite z s new.now (write_step z moment s fd new.now) result) }
{
    match table.get(fd) {
        Some(description) => {
            if !may_write(description.flags.access) {
                return Err(Errno::EBADF);
            }
            write_some(store, moment, fd, description, new)
        }
        None => Err(Errno::EBADF),
    }
}

/// Truncate of a file to a length.
fn truncate_to<'a, S: ObjectStore>(
    store: &S,
    moment: u64,
    number: u64,
    length: u64,
) -> Result<Plan<'a>, Errno>
    ensures { OfStore S.meaning store.now (λ z s.
        IfFile s number ((h : Handle) → number ≡ h.object → TriesTo z s (truncate_to z moment s h (pos length)) result)) }
{
    if store.sizes().greatest_length() < length {
        return Err(Errno::EFBIG);
    }
    if !has_bytes_room(store, number, length) {
        return Err(Errno::ENOSPC);
    }
    Ok(change(
        Reply::Done,
        ObjectChange::Resize {
            number,
            length,
            moment,
        },
    ))
}

/// Truncate of a file to a length, which may be below 0.
fn truncate_signed<'a, S: ObjectStore>(
    store: &S,
    moment: u64,
    number: u64,
    length: i64,
) -> Result<Plan<'a>, Errno>
    ensures { OfStore S.meaning store.now (λ z s.
        IfFile s number ((h : Handle) → number ≡ h.object → TriesTo z s (truncate_to z moment s h length) result)) }
{
    if length < 0 {
        return Err(Errno::EINVAL);
    }
    truncate_to(store, moment, number, length.unsigned_abs())
}

/// Truncate.
pub(crate) fn truncate<'a, S: ObjectStore>(
    store: &S,
    table: &DescriptorTable,
    moment: u64,
    fd: u32,
    length: i64,
) -> Result<Plan<'a>, Errno>
    ensures { OfState S.meaning store.now table.now (λ z s. TriesTo z s (truncate_step z moment s fd length) result) }
{
    match table.get(fd) {
        Some(description) => {
            if !may_write(description.flags.access) {
                return Err(Errno::EINVAL);
            }
            truncate_signed(store, moment, description.object, length)
        }
        None => Err(Errno::EBADF),
    }
}
