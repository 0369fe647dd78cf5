//! The pieces of a byte string between the places of one byte.
#![tactic(auto)]

ghost use Rattle.std.specs.Prelude.{◌≡◌, nat_eq, IfOk, map as list_map};
ghost use Rattle.std.specs.List.{slice_split};

use bstr::ByteSlice;
use std::alloc::{AllocError, Global};

/// What is between the places of `byte`, also where that is nothing: one piece more than there are such places.
pub fn pieces_of(alloc: Global, bytes: &[u8], byte: u8) -> Result<Vec<&[u8]>, AllocError>
    ensures { IfOk result (λ all. list_map (λ piece. piece.now) all.items ≡ slice_split (nat_eq byte) bytes.now) }
{
    bytes.split_str(&[byte]).collect(alloc)
}
