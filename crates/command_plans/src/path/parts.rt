// The parts of a path, and the tests before the tree is looked at.
ghost use Rattle.std.specs.Prelude.{◌≡◌, length, filter, nat_lt, IfOk, map as list_map};
ghost use Rattle.std.specs.Result.{result_err};
ghost use Rattle.std.specs.List.{list_any};
ghost use Rattle.volume_terms.specs.Sizes.{name_limit};
ghost use Rattle.posix_profile.specs.Paths.{component, parts, path_tests, first_error, ends_in_slash};
ghost use Rattle.command_plans.specs.Paths.{component_of};

use posix_profile::Errno;
use std::alloc::{AllocError, Global};
use volume_terms::{NAME_LIMIT, PATH_LIMIT};

const SLASH: u8 = b'/';

/// A component of a path.
#[derive(Clone, Copy)]
pub enum PathPart<'a> {
    Dot,
    DotDot,
    Named(&'a [u8]),
}

/// Where a path leads: the directory, the last component, which is none where the path is only slashes, the object,
/// which is none where the name is absent, and whether a slash follows.
#[derive(Clone, Copy)]
pub struct PathPlace<'a> {
    pub directory: u64,
    pub last: Option<PathPart<'a>>,
    pub object: Option<u64>,
    pub slash_follows: bool,
}

/// The parts of a path between slashes.
pub(crate) fn parts_of(alloc: Global, path: &[u8]) -> Result<Vec<&[u8]>, AllocError>
    ensures { IfOk result (λ all. list_map (λ part. part.now) all.items ≡ parts path.now) }
{
    path.split(|byte| *byte == SLASH)
        .filter(|part| !part.is_empty())
        .collect(alloc)
}

/// The component that these bytes are.
pub(crate) fn part_of(bytes: &[u8]) -> PathPart<'_>
    ensures { component_of result ≡ component bytes.now }
{
    if bytes == b".".as_slice() {
        PathPart::Dot
    } else if bytes == b"..".as_slice() {
        PathPart::DotDot
    } else {
        PathPart::Named(bytes)
    }
}

/// Whether a part is longer than a name may be.
fn has_long_part(pieces: &[&[u8]]) -> bool
    ensures { result ≡ list_any (λ part. nat_lt name_limit (length part)) (list_map (λ part. part.now) pieces.now) }
{
    for part in pieces {
        if part.len() > NAME_LIMIT {
            return true;
        }
    }
    false
}

/// The first error that shows before the tree is looked at.
pub(crate) fn test_path(path: &[u8], pieces: &[&[u8]]) -> Result<(), Errno>
    requires { list_map (λ part. part.now) pieces.now ≡ parts path.now }
    ensures { result_err result ≡ first_error (path_tests path.now) }
{
    if path.is_empty() {
        return Err(Errno::ENOENT);
    }
    if path.len() > PATH_LIMIT {
        return Err(Errno::ENAMETOOLONG);
    }
    if path.contains(&0) {
        return Err(Errno::EINVAL);
    }
    if has_long_part(pieces) {
        return Err(Errno::ENAMETOOLONG);
    }
    Ok(())
}

/// Whether the path ends in a slash.
pub(crate) fn ends_in_slash(path: &[u8]) -> bool
    ensures { result ≡ ends_in_slash path.now }
{
    match path.last() {
        Some(last) => *last == SLASH,
        None => false,
    }
}
