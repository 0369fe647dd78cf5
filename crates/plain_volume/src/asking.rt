// Commands on a volume.
ghost use Rattle.std.specs.Prelude.{◌≡◌, ◌++◌, ◌∷◌, [], false, length, nat_lt, if◌then◌else◌, IfOk, IfErr};
ghost use Rattle.posix_profile.specs.Runs.{is_no_memory, is_stop};
ghost use Rattle.plain_volume.specs.Items.{path_below};
ghost use Rattle.plain_volume.specs.Reading.{IsReportedBy};

use crate::fault::TreeFault;
use posix_profile::{Answers, Command, Errno, FilePath, Reply, Stamped};
use std::alloc::{AllocError, Global};

/// The reply, unless it is an error.
fn no_error(reply: Reply) -> Result<Reply, TreeFault>
    ensures same { IfOk result (λ reported. reported ≡ reply) }
    ensures memory { IfOk result (λ reported. is_no_memory reported ≡ false) }
    ensures goes_on { IfOk result (λ reported. is_stop reported ≡ false) }
{
    match reply {
        Reply::Error(Errno::ENOMEM) => Err(TreeFault::NoMemory),
        Reply::Error(error) => Err(TreeFault::Refused(error)),
        reply => Ok(reply),
    }
}

/// The reply to a command, where it is not refused.
pub fn ask<V: Answers>(volume: &mut V, moment: u64, command: Command) -> Result<Reply, TreeFault>
    ensures { IfOk result (IsReportedBy V.shows volume.old (record { moment = moment; command = command }) volume.new) }
{
    let stamped = Stamped { moment, command };
    let reply = volume.answer(&stamped);
    no_error(reply)
}

/// A path of its own.
pub(crate) fn path_of(alloc: Global, path: &[u8]) -> Result<FilePath, AllocError>
    ensures { IfOk result (λ copy. copy ≡ path.now) }
{
    Ok(FilePath::new(path.to_vec(alloc)?))
}

/// The path of a name in a directory.
pub(crate) fn below(alloc: Global, directory: &[u8], name: &[u8]) -> Result<Vec<u8>, AllocError>
    ensures { IfOk result (λ path. path.items ≡ path_below directory.now name.now) }
{
    let mut path = Vec::new(alloc);
    if directory != b"/".as_slice() {
        path.extend_from_slice(directory)?;
    }
    path.push(b'/')?;
    path.extend_from_slice(name)?;
    Ok(path)
}
