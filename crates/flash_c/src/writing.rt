// A write that goes on until all is written.
ghost use Rattle.std.specs.Prelude.{◌≡◌, ◌≤◌, ◌<◌, ◌⊎◌, ℕ, IfSome, IfNone};
ghost use Rattle.posix_profile.specs.declared.reply.Reply.TheVariants as replies;
ghost use Rattle.flash_c.specs.Serving.{serves};
ghost use Rattle.flash_c.specs.Sessions.{write_number, IsWritten};

use crate::numbers::{count_number, signed};
use crate::session::Session;
use posix_calls::{Reply, Request, StampedRequest};

/// How many bytes were written, or the error where none were.
fn write_number(done: usize, reply: &Reply) -> i64
    ensures { result ≡ write_number done reply.now }
{
    match reply {
        Reply::Wrote(count) => signed((done as u64).saturating_add(u64::from(*count))),
        reply if done == 0 => count_number(reply),
        _ => signed(done as u64),
    }
}

/// How many bytes were written, where these are some and more are left. `left` counts those that were to be written.
fn goes_on(reply: &Reply, left: usize) -> Option<usize>
    ensures wrote { IfSome result (λ count. (reply.now ≡ replies.Wrote count) × (0 < count) × (count < left)) }
    ensures none { IfNone result ((count : ℕ) → reply.now ≡ replies.Wrote count → (count ≡ 0) ⊎ (left ≤ count)) }
{
    match reply {
        Reply::Wrote(count) if *count > 0 && (*count as usize) < left => Some(*count as usize),
        _ => None,
    }
}

/// Writes bytes at the offset of a descriptor, by as many commands as it takes.
pub(crate) fn write(session: &mut Session, moment: u64, fd: u32, bytes: &[u8]) -> i64
    ensures { IsWritten serves (record { moment = moment; fd = fd; bytes = bytes.now }) session.old result session.new }
{
    let mut done = 0usize;
    'writes: loop {
        let rest = &bytes[done..];
        let request = Request::Write { fd, bytes: rest };
        let reply = session.serve(&StampedRequest { moment, request });
        match goes_on(&reply, rest.len()) {
            Some(count) => done += count,
            None => return write_number(done, &reply),
        }
    }
}
