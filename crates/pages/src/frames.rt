// Frames for the pages that a change is to write: spare ones of the store, or new ones.
ghost use Rattle.std.specs.Prelude.{◌≡◌, IfOk, length, replicate};

use crate::store::Pages;
use std::alloc::{AllocError, Global};

/// A frame with the page that was found last.
pub fn copied_page<P: Pages>(alloc: Global, pages: &mut P) -> Result<Vec<u8>, AllocError>
    ensures same { P.state pages.new ≡ P.state pages.old }
    ensures bytes { IfOk result (λ frame. frame.items ≡ (P.state pages.old).lent) }
    ensures size { IfOk result (λ frame. length frame.items ≡ (P.state pages.old).page_bytes) }
{
    match pages.take_frame() {
        Some(mut frame) => {
            frame.copy_from_slice(pages.page());
            Ok(frame)
        }
        None => Vec::from_slice(alloc, pages.page()),
    }
}

/// A frame that is written over, and may hold anything.
pub fn spare_page<P: Pages>(alloc: Global, pages: &mut P) -> Result<Vec<u8>, AllocError>
    ensures same { P.state pages.new ≡ P.state pages.old }
    ensures size { IfOk result (λ frame. length frame.items ≡ (P.state pages.old).page_bytes) }
{
    match pages.take_frame() {
        Some(frame) => Ok(frame),
        None => vec![in alloc; 0u8; pages.page_bytes() as usize],
    }
}

/// A frame of zeros.
pub fn blank_page<P: Pages>(alloc: Global, pages: &mut P) -> Result<Vec<u8>, AllocError>
    ensures same { P.state pages.new ≡ P.state pages.old }
    ensures zeros { IfOk result (λ frame. frame.items ≡ replicate (P.state pages.old).page_bytes 0) }
{
    match pages.take_frame() {
        Some(mut frame) => {
            frame.fill(0);
            Ok(frame)
        }
        None => vec![in alloc; 0u8; pages.page_bytes() as usize],
    }
}

/// A frame with these bytes, as many as a page has.
pub fn filled_page<P: Pages>(
    alloc: Global,
    pages: &mut P,
    bytes: &[u8],
) -> Result<Vec<u8>, AllocError>
    requires { length bytes.now ≡ (P.state pages.old).page_bytes }
    ensures same { P.state pages.new ≡ P.state pages.old }
    ensures bytes { IfOk result (λ frame. frame.items ≡ bytes.now) }
{
    match pages.take_frame() {
        Some(mut frame) => {
            frame.copy_from_slice(bytes);
            Ok(frame)
        }
        None => Vec::from_slice(alloc, bytes),
    }
}
