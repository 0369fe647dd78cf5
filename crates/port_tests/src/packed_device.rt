// A device with packed tags in memory.

use crate::short_nand::ShortNand;
use nand_model::{Geometry, MemNand, Nand, PageKind, ProgramFault};
use port_nand::PackedNand;
use std::test::Fail;

const DATA: [u8; 512] = [7; 512];

/// Index 0, count 1, object 2, chunk 1, version 7, group 7, seq 3.
const TAG: [u8; 48] = [
    0, 0, 0, 0, 1, 0, 0, 0, //
    2, 0, 0, 0, 0, 0, 0, 0, //
    1, 0, 0, 0, 0, 0, 0, 0, //
    7, 0, 0, 0, 0, 0, 0, 0, //
    7, 0, 0, 0, 0, 0, 0, 0, //
    3, 0, 0, 0, 0, 0, 0, 0,
];

/// The same with group 2^40, which does not fit.
const GREAT_TAG: [u8; 48] = [
    0, 0, 0, 0, 1, 0, 0, 0, //
    2, 0, 0, 0, 0, 0, 0, 0, //
    1, 0, 0, 0, 0, 0, 0, 0, //
    7, 0, 0, 0, 0, 0, 0, 0, //
    0, 0, 0, 0, 0, 1, 0, 0, //
    3, 0, 0, 0, 0, 0, 0, 0,
];

/// A page reads back; a tag that does not fit fails and leaves its page erased; after an erase the block takes pages again.
#[test]
fn tags_are_unpacked(rt: HostRuntime) -> Result<(), Fail> {
    let geometry = Geometry::new(512, 32, 8)?;
    let inner = MemNand::new(rt.alloc(), geometry)?;
    let mut device = PackedNand::new(ShortNand { inner });
    let mut bytes = [0; 512];
    let mut tag = [9; 48];
    device.erase(1)?;
    assert_eq!(rt; device.read_tag(1, 0, &mut tag)?, PageKind::Erased);
    assert_eq!(rt; tag, [9; 48]);
    device.program(1, 0, &DATA, &TAG)?;
    assert_eq!(rt;
        device.read_page(1, 0, &mut bytes, &mut tag)?,
        PageKind::Written
    );
    assert_eq!(rt; bytes, DATA);
    assert_eq!(rt; tag, TAG);
    assert_eq!(rt;
        device.program(1, 1, &DATA, &GREAT_TAG),
        Err(ProgramFault::Failed)
    );
    assert_eq!(rt; device.read_tag(1, 1, &mut tag)?, PageKind::Erased);
    device.erase(1)?;
    device.program(1, 0, &DATA, &TAG)?;
    Ok(())
}
