// What may be a name; the sizes of a volume.
use volume_terms::{VolumeSizes, is_name};

/// Names at their limits, and bytes that are none.
#[test]
fn a_name_has_its_limits(rt: HostRuntime) {
    for name in [b"a".as_slice(), b"...", b".a", b"\xff\x01", &[b'n'; 255]] {
        assert!(rt; is_name(name));
    }
    for name in [b"".as_slice(), b".", b"..", b"a/b", b"a\0", &[b'n'; 256]] {
        assert!(rt; !is_name(name));
    }
}

/// Pages of 512 bytes, 32 in a block, 8 blocks and one of them spare.
#[test]
fn a_volume_has_its_sizes(rt: HostRuntime) {
    let sizes = VolumeSizes::new(512, 32, 8, 1);
    assert!(rt; sizes.page_bytes() == 512);
    assert!(rt; sizes.page_slots() == 1);
    assert!(rt; sizes.capacity() == 144);
    assert!(rt; sizes.most_written() == 2560);
    assert!(rt; sizes.greatest_length() == 1_966_080);
}
