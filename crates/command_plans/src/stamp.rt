// What the types of a command say of it.
ghost use Rattle.volume_terms.specs.Names.{AreBytes};
ghost use Rattle.posix_profile.specs.Requests.{command_of, stamped_of};
ghost use Rattle.posix_profile.specs.laws.Sound.{HasBytes, IsStamped};

use posix_profile::{Request, StampedRequest};

/// Each element is a byte.
fn are_bytes(bytes: &[u8])
    ensures { AreBytes bytes.now }
{}

/// The paths and the data of a command are bytes.
fn has_bytes(request: Request<'_>)
    ensures { HasBytes (command_of request.entry) }
{
    match request {
        Request::Open { path, .. } => are_bytes(path),
        Request::Close { .. } => {}
        Request::Read { .. } => {}
        Request::Write { bytes, .. } => are_bytes(bytes),
        Request::Seek { .. } => {}
        Request::Truncate { .. } => {}
        Request::Fsync { .. } => {}
        Request::Sync => {}
        Request::Stat { path } => are_bytes(path),
        Request::Mkdir { path } => are_bytes(path),
        Request::Rmdir { path } => are_bytes(path),
        Request::Link { old, new } => {
            are_bytes(old);
            are_bytes(new);
        }
        Request::Unlink { path } => are_bytes(path),
        Request::Rename { old, new } => {
            are_bytes(old);
            are_bytes(new);
        }
        Request::List { path } => are_bytes(path),
        Request::Space => {}
    }
}

/// A command is as its types allow it.
pub fn is_stamped(issued: &StampedRequest<'_>)
    ensures { IsStamped (stamped_of issued.now) }
{
    let _moment = issued.moment;
    has_bytes(issued.request);
}
