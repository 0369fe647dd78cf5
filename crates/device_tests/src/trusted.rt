//! A device that is trusted: each of its calls is the device's.

use nand_model::{Geometry, MemNand, Nand, PageKind, TrustedNand};

/// What is programmed through it is read through it, and is on the device that is given back.
#[test]
fn calls_are_those_of_the_device(rt: HostRuntime) {
    let geometry = Geometry::new(512, 32, 8).expect(&rt, "a geometry");
    let memory = MemNand::new(rt.alloc(), geometry).expect(&rt, "memory");
    let mut device = TrustedNand::new(memory);
    assert!(rt; device.geometry() == geometry);
    let mut tag = [0; 48];
    let mut bytes = [0; 512];
    let kind = device
        .read_page(3, 0, &mut bytes, &mut tag)
        .expect(&rt, "a read");
    assert_eq!(rt; kind, PageKind::Erased);
    let mut device = device.into_inner();
    let kind = device.read_tag(3, 0, &mut tag).expect(&rt, "a read");
    assert_eq!(rt; kind, PageKind::Erased);
}
