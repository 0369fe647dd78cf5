//! A page with a header, and the pages of a block, as a dump shows them.

use crate::laid::{flash, tag};
use chip_map::{MapFault, write_dump};
use nand_model::{MemNand, Nand};
use std::alloc::Global;
use std::process::Abort;

/// The beginning of a header of a file of 5 bytes with chunk 1 and moment 7.
const HEADER: [u8; 33] = [
    0x4e, 0x4c, 0x46, 0x53, 2, 1, 0, 0, 5, 0, 0, 0, 0, 0, 0, 0, 7, 0, 0, 0, 0, 0, 0, 0, 0, 0, 0, 0,
    0, 0, 0, 0, 1,
];

/// How the page of that header begins.
const PAGE: &str = "block 3 page 0: written
  page 0 of 1 of group 7, object 2, chunk 0, version 7, seq 3
  header of format 2: a file of 5 bytes, changed at 7
  tag:
  0000  00 00 00 00 01 00 00 00 02 00 00 00 00 00 00 00  |................|
  0010  00 00 00 00 00 00 00 00 07 00 00 00 00 00 00 00  |................|
  0020  07 00 00 00 00 00 00 00 03 00 00 00 00 00 00 00  |................|
  data:
  0000  4e 4c 46 53 02 01 00 00 05 00 00 00 00 00 00 00  |NLFS............|
  0010  07 00 00 00 00 00 00 00 00 00 00 00 00 00 00 00  |................|
  0020  01 00 00 00 00 00 00 00 00 00 00 00 00 00 00 00  |................|
";

/// How block 2 begins.
const BLOCK: &str = "block 2 page 0: written
  page 0 of 1 of group 4, object 18446744073709551615 (a checkpoint), chunk 1, version 4, seq 2
  tag:
  0000  00 00 00 00 01 00 00 00 ff ff ff ff ff ff ff ff  |................|
  0010  01 00 00 00 00 00 00 00 04 00 00 00 00 00 00 00  |................|
  0020  04 00 00 00 00 00 00 00 02 00 00 00 00 00 00 00  |................|
block 2 page 1: written
";

/// The flash with that header in block 3.
fn with_header(rt: &impl Abort, alloc: Global) -> MemNand {
    let mut nand = flash(rt, alloc);
    let mut page = [0; 512];
    page[..33].copy_from_slice(&HEADER);
    let geometry = nand.geometry();
    assert!(rt; geometry.bytes() == 512 && geometry.blocks() == 5);
    nand.erase(3).expect(rt, "an erase");
    assert!(rt; !nand.is_bad(3));
    nand.program(3, 0, &page, &tag(2, 0, 0, 1, 7, 3).encode())
        .expect(rt, "a program");
    nand
}

#[test]
fn shows_pages_and_blocks(rt: HostRuntime) {
    let alloc = rt.alloc();
    let mut nand = with_header(&rt, alloc);
    let shown = [
        (3, Some(0), PAGE),
        (2, None, BLOCK),
        (4, Some(31), "block 4 page 31: erased\n"),
        (0, Some(4), "block 0 page 4: uncorrectable\n"),
        (1, None, "block 1 is marked bad\nblock 1 page 0: erased\n"),
    ];
    for (block, page, text) in shown {
        let mut out = Vec::new(alloc);
        write_dump(alloc, &mut out, &mut nand, block, page).expect(&rt, "a dump");
        assert!(rt; out.starts_with(text.as_bytes()), "block {block}");
    }
    for (block, page) in [(5, None), (0, Some(32))] {
        let mut out = Vec::new(alloc);
        let refused = write_dump(alloc, &mut out, &mut nand, block, page);
        assert_eq!(rt; refused, Err(MapFault::NoPage));
    }
}
