// Names of a volume on a host.
use image_tools::{host_name, host_path};

/// Names, and what they are on a host.
const NAMES: [(&[u8], &str); 12] = [
    (b"", "\\e"),
    (b".", "\\x2e"),
    (b"..", "\\x2e\\x2e"),
    (b"...", "..."),
    (b"a b~", "a b~"),
    (b"\\e", "\\x5ce"),
    (b"a/b", "a\\x2fb"),
    (b"\x1b[2J", "\\x1b[2J"),
    (b"\x00\x7f", "\\x00\\x7f"),
    (b"\xc3\xbc", "\u{fc}"),
    (b"\xc3\xbc\xff", "\\xc3\\xbc\\xff"),
    (b"\xc2\x9b2J", "\\xc2\\x9b2J"),
];

#[test]
fn names_are_spelled_for_a_host(rt: HostRuntime) {
    let alloc = rt.alloc();
    for (name, wanted) in NAMES {
        let host = host_name(alloc, name).expect(&rt, "memory");
        assert_eq!(&rt; host.as_str(), wanted);
    }
    let path = host_path(alloc, "out", b"/a/../b\n").expect(&rt, "memory");
    assert_eq!(&rt; path.as_str(), "out/a/\\x2e\\x2e/b\\x0a");
}
