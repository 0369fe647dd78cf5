// Images and outputs that fail at each of their calls.
use crate::around::{Around, SMALL, small_image};

/// What is reported of the small volume when it is new.
const SPACE: &str = "space 512 144 143\n";

/// An image takes 258 writes, the erasing of its 256 pages one for each, and the page of the root three. Then the space is written, and
/// the unmount writes a checkpoint: 32 for the erasing of a block, and three for a page.
#[test]
fn a_new_image_fails_at_each_write(rt: HostRuntime) {
    let alloc = rt.alloc();
    for writes in 0..=516 {
        let mut around = Around::new(&rt, alloc, b"", "");
        around.image.writes = writes;
        let fault = if writes < 258 {
            "fault Write\n"
        } else {
            "fault Gone\n"
        };
        around.ends(&rt, alloc, &SMALL, 2, ("", fault));
    }
    for writes in 517..=551 {
        let mut around = Around::new(&rt, alloc, b"", "");
        around.image.writes = writes;
        around.ends(&rt, alloc, &SMALL, 2, (SPACE, "fault EIO\n"));
    }
    let mut around = Around::new(&rt, alloc, b"", "");
    around.image.writes = 552;
    around.ends(&rt, alloc, &SMALL, 0, (SPACE, ""))
}

/// The file is first moved for the erasing: once for each of 256 pages, then three times for the page of the root, and by the unmount
/// 32 times for the erasing of a block and three times for a page.
#[test]
fn a_new_image_fails_at_each_seek(rt: HostRuntime) {
    let alloc = rt.alloc();
    for seeks in 0..=258 {
        let mut around = Around::new(&rt, alloc, b"", "");
        around.image.seeks = seeks;
        around.ends(&rt, alloc, &SMALL, 2, ("", "fault Gone\n"));
    }
    for seeks in 259..=293 {
        let mut around = Around::new(&rt, alloc, b"", "");
        around.image.seeks = seeks;
        around.ends(&rt, alloc, &SMALL, 2, (SPACE, "fault EIO\n"));
    }
    let mut around = Around::new(&rt, alloc, b"", "");
    around.image.seeks = 294;
    around.ends(&rt, alloc, &SMALL, 0, (SPACE, ""))
}

#[test]
fn an_output_fails_at_each_write(rt: HostRuntime) {
    let alloc = rt.alloc();
    let image = small_image(&rt, alloc);
    for words in [["check", "I"].as_slice(), SMALL.as_slice()] {
        let parts = ["space", " ", "512", " ", "144", " ", "143", "\n"];
        let mut out = String::new(alloc);
        for (writes, part) in parts.iter().enumerate() {
            let mut around = Around::new(&rt, alloc, &image, "");
            around.out.writes = writes as u64;
            around.ends(&rt, alloc, words, 4, (out.as_str(), "fault Write\n"));
            out.push_str(part).expect(&rt, "memory");
        }
        let mut around = Around::new(&rt, alloc, &image, "");
        around.out.writes = 8;
        around.ends(&rt, alloc, words, 0, (SPACE, ""));
    }
}

#[test]
fn a_standard_error_that_fails_leaves_the_status(rt: HostRuntime) {
    let alloc = rt.alloc();
    for (writes, err) in [
        (0, ""),
        (1, "fault "),
        (2, "fault Magic"),
        (3, "fault Magic\n"),
    ] {
        let mut around = Around::new(&rt, alloc, b"", "");
        around.err.writes = writes;
        around.ends(&rt, alloc, &["check", "I"], 2, ("", err));
    }
}
