// The objects of which an index keeps a header.
ghost use Rattle.std.specs.Prelude.{IfOk, OnOk};
ghost use Rattle.chunk_index.specs.Maps.{committed_pages};
ghost use Rattle.salvage.specs.Headers.{ListsHeaders, PutsHeader};

use chunk_index::Index;
use flash_tree::Key;
use std::alloc::{AllocError, Global};

/// The objects of which a page of chunk 0 is committed, in rising order. From the first key of each it goes on to the next object.
pub(crate) fn committed_headers(alloc: Global, index: &Index) -> Result<Vec<u64>, AllocError>
    ensures { IfOk result (λ headers. ListsHeaders (committed_pages index.now) headers.items) }
{
    let mut headers = Vec::new(alloc);
    let mut last = None;
    while let Some(found) = index.next_committed(last) {
        put_header(&mut headers, found.key)?;
        last = Some(Key {
            object: found.key.object,
            chunk: u64::MAX,
        });
    }
    Ok(headers)
}

/// Puts the object of a key of chunk 0 behind the others.
fn put_header(headers: &mut Vec<u64>, key: Key) -> Result<(), AllocError>
    ensures { OnOk result (PutsHeader key headers.old.items headers.new.items) }
{
    if key.chunk != 0 {
        return Ok(());
    }
    headers.push(key.object)?;
    Ok(())
}
