// Devices of each size, and sizes that no device has.

use nand_model::{BadGeometry, Geometry, MemNand, Nand, PageKind};
use std::alloc::Global;
use std::process::Abort;

/// The tag of a page.
const TAG: [u8; 48] = [9; 48];

/// A copy of a device with pages of this size, of which the first page of block 4 is written with fives.
fn copy_with_page(rt: &impl Abort, alloc: Global, size: u32) -> MemNand {
    let geometry = Geometry::new(size, 64, 5).expect(rt, "a geometry");
    let mut nand = MemNand::new(alloc, geometry).expect(rt, "memory");
    let data = vec![in alloc; 5u8; size as usize].expect(rt, "memory");
    nand.erase(4).expect(rt, "an erase");
    nand.program(4, 0, &data, &TAG).expect(rt, "a program");
    nand.copy().expect(rt, "memory")
}

/// A page of data and its tag are read from a copy of the device.
#[test]
fn a_page_of_each_size_reads_back(rt: HostRuntime) {
    for size in [512u32, 1024, 2048, 4096] {
        let mut copy = copy_with_page(&rt, rt.alloc(), size);
        let geometry = copy.geometry();
        assert!(rt; (geometry.bytes(), geometry.pages(), geometry.blocks()) == (size, 64, 5));
        let mut bytes = vec![in rt.alloc(); 0u8; size as usize].expect(&rt, "memory");
        let mut tag = [0; 48];
        assert_eq!(rt;
            copy.read_page(4, 0, &mut bytes, &mut tag),
            Ok(PageKind::Written)
        );
        assert!(rt; bytes.iter().all(|byte| *byte == 5));
        assert!(rt; tag == TAG);
    }
}

/// Each has one number that is too small, too great, or between two that may be.
#[test]
fn sizes_outside_of_the_ranges_are_bad(rt: HostRuntime) {
    for (bytes, pages, blocks) in [
        (256u32, 32u32, 8u32),
        (513, 32, 8),
        (8192, 32, 8),
        (512, 16, 8),
        (512, 33, 8),
        (512, 512, 8),
        (512, 32, 4),
        (512, 32, 4097),
    ] {
        assert_eq!(rt; Geometry::new(bytes, pages, blocks), Err(BadGeometry));
    }
    assert_eq!(rt; Geometry::new(4096, 256, 4096).is_ok(), true);
}
