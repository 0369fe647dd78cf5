// Paths of a volume as paths of a host.
ghost use Rattle.std.specs.Prelude.{◌≡◌, ◌++◌, ◌∷◌, IfOk, OnOk, map as list_map};
ghost use Rattle.std.specs.String.{string_bytes};
ghost use Rattle.posix_profile.specs.Paths.{parts};
ghost use Rattle.image_tools.specs.HostNames.{AddsHosts, IsHostName, some_of, unescaped};

use crate::names::host_name;
use byte_pieces::pieces_of;
use std::alloc::{AllocError, Global};

/// Adds the host name of a part of a path, after a slash. The host name is returned.
fn push_part(alloc: Global, text: &mut String, part: &[u8]) -> Result<String, AllocError>
    ensures host { IfOk result (λ host. IsHostName (string_bytes host)) }
    ensures reads_back { IfOk result (λ host. unescaped (string_bytes host) ≡ part.now) }
    ensures added { IfOk result (λ host. string_bytes text.new ≡ string_bytes text.old ++ (47 ∷ string_bytes host)) }
{
    let host = host_name(alloc, part)?;
    text.push('/')?;
    text.push_str(host.as_str())?;
    Ok(host)
}

/// Adds the host names of the pieces that are not empty, each after a slash.
fn push_parts(alloc: Global, text: &mut String, pieces: &[&[u8]]) -> Result<(), AllocError>
    ensures { OnOk result (AddsHosts (some_of (list_map (λ piece. piece.now) pieces.now)) (string_bytes text.old) (string_bytes text.new)) }
{
    for piece in pieces {
        if 0 < piece.len() {
            push_part(alloc, text, piece)?;
        }
    }
    Ok(())
}

/// Where a path of a volume is below a folder of the host: each part of it by its host name, so that it never leaves the folder.
pub fn host_path(alloc: Global, folder: &str, path: &[u8]) -> Result<String, AllocError>
    ensures { IfOk result (λ text. AddsHosts (parts path.now) folder.now (string_bytes text)) }
{
    let mut text = String::from_str(alloc, folder)?;
    let pieces = pieces_of(alloc, path, b'/')?;
    push_parts(alloc, &mut text, &pieces)?;
    Ok(text)
}
