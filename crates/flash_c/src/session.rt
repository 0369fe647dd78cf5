// A session of commands: what each kind of command returns.
ghost use Rattle.std.specs.Prelude.{◌≡◌};
ghost use Rattle.posix_profile.specs.Requests.{stamped_of};
ghost use Rattle.posix_profile.specs.declared.reply.Reply.{Reply};
ghost use Rattle.flash_c.specs.Numbers.{done_number, count_number};
ghost use Rattle.flash_c.specs.Describing.{stat_reply, IsFstat};
ghost use Rattle.flash_c.specs.Serving.{describes, serves};
ghost use Rattle.flash_c.specs.Questions.{IsRead, IsStat, IsListed, IsRoom, listing_of};

use crate::filling::{FlashInfo, FlashSpace, put_info, put_space};
use crate::names::put_names;
use crate::numbers::{count_number, done_number, error_number, signed};
use nand_model::TrustedNand;
use page_store::FlashPages;
use port_nand::{FilePort, PortDevice};
use posix_calls::{Errno, Info, Reply, Request, StampedRequest, Volume};

/// A device behind the port of a file.
pub(crate) type FileNand = PortDevice<FilePort>;

/// The pages of a volume on one.
pub(crate) type FilePages = FlashPages<TrustedNand<FileNand>>;

/// A mounted volume, whose device is behind a port.
#[derive(Drop)]
pub struct Session {
    pub(crate) volume: Volume<FileNand>,
}

impl Session {
    ghost use Rattle.std.specs.Prelude.{length};
    ghost use Rattle.object_commands.specs.Reads.{LeavesRest, asked_of, read_reply, reading};

    /// Does a command and replies to it.
    pub(crate) fn serve(&mut self, issued: &StampedRequest<'_>) -> Reply
        ensures { serves self.old (stamped_of issued.now) result self.new }
    {
        self.volume.ask(issued)
    }

    /// Reads at a descriptor's offset into a buffer.
    fn read_into(&mut self, fd: u32, buffer: &mut [u8]) -> Result<usize, Errno>
        ensures size { length buffer.new ≡ length buffer.old }
        ensures rest { LeavesRest buffer.old buffer.new result }
        ensures served { serves self.old (reading fd (asked_of buffer.old)) (read_reply buffer.new result) self.new }
    {
        self.volume.read_into(fd, buffer)
    }

    /// What Stat reports of the object that a descriptor refers to.
    fn describe(&self, fd: u32) -> Result<Info, Errno>
        ensures { describes self.now fd result }
    {
        self.volume.describe(fd)
    }
}

/// Does a command that only succeeds or fails.
pub(crate) fn done(session: &mut Session, issued: &StampedRequest<'_>) -> i32
    ensures { (reply : Reply) × serves session.old (stamped_of issued.now) reply session.new × (result ≡ done_number reply) }
{
    done_number(&session.serve(issued))
}

/// Does a command that counts.
pub(crate) fn count(session: &mut Session, issued: &StampedRequest<'_>) -> i64
    ensures { (reply : Reply) × serves session.old (stamped_of issued.now) reply session.new × (result ≡ count_number reply) }
{
    count_number(&session.serve(issued))
}

/// Reads at a descriptor's offset into the buffer.
pub(crate) fn read(session: &mut Session, fd: u32, buffer: &mut [u8]) -> i64
    ensures { IsRead serves session.old (record { fd = fd; before = buffer.old; number = result; after = buffer.new }) session.new }
{
    match session.read_into(fd, buffer) {
        Ok(count) => signed(count as u64),
        Err(error) => i64::from(error_number(error)),
    }
}

/// Reports what a path leads to in the struct.
pub(crate) fn stat(session: &mut Session, path: &[u8], info: &mut FlashInfo) -> i32
    ensures { IsStat serves session.old (record { path = path.now; before = info.old; number = result; after = info.new }) session.new }
{
    let request = Request::Stat { path };
    put_info(info, &session.serve(&StampedRequest { moment: 0, request }))
}

/// The reply of a Stat that reports this.
fn stat_reply(reported: Result<Info, Errno>) -> Reply
    ensures { result ≡ stat_reply reported }
{
    match reported {
        Ok(info) => Reply::Info(info),
        Err(error) => Reply::Error(error),
    }
}

/// Reports what a descriptor refers to in the struct.
pub(crate) fn fstat(session: &Session, fd: u32, info: &mut FlashInfo) -> i32
    ensures { IsFstat describes session.now (record { fd = fd; before = info.old; number = result; after = info.new }) }
{
    put_info(info, &stat_reply(session.describe(fd)))
}

/// Puts the names of a directory in the buffer.
pub(crate) fn list(session: &mut Session, path: &[u8], buffer: &mut [u8]) -> i64
    ensures { IsListed serves session.old (listing_of path.now buffer.old result buffer.new) session.new }
{
    let request = Request::List { path };
    put_names(
        buffer,
        &session.serve(&StampedRequest { moment: 0, request }),
    )
}

/// Reports the room of the volume in the struct.
pub(crate) fn space(session: &mut Session, space: &mut FlashSpace) -> i32
    ensures { IsRoom serves session.old (record { before = space.old; number = result; after = space.new }) session.new }
{
    let request = Request::Space;
    put_space(
        space,
        &session.serve(&StampedRequest { moment: 0, request }),
    )
}
