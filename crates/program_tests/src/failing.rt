// Images, lines and outputs that fail at once.
use crate::around::{Around, small_image};

/// An image is cut to each length.
#[test]
fn an_image_that_is_cut_short_is_not_opened(rt: HostRuntime) {
    let alloc = rt.alloc();
    let image = small_image(&rt, alloc);
    for length in 0..143_656 {
        let front = image.get(..length).expect(&rt, "no such length");
        let fault = if length < 32 {
            "fault Magic\n"
        } else {
            "fault Size\n"
        };
        let around = Around::new(&rt, alloc, front, "");
        around.ends(&rt, alloc, &["check", "I"], 2, ("", fault));
    }
}

#[test]
fn an_image_that_fails_is_reported(rt: HostRuntime) {
    let alloc = rt.alloc();
    let image = small_image(&rt, alloc);
    for words in [["check", "I"], ["run", "I"], ["cut", "I"]] {
        let mut around = Around::new(&rt, alloc, &image, "sync\n");
        around.image.reads = 0;
        around.ends(&rt, alloc, &words, 2, ("", "fault Read\n"));
    }
    let mut around = Around::new(&rt, alloc, b"", "");
    around.image.writes = 0;
    around.ends(&rt, alloc, &["format", "I"], 2, ("", "fault Write\n"));
}

#[test]
fn an_image_that_cannot_be_written_stops_its_volume(rt: HostRuntime) {
    let alloc = rt.alloc();
    let image = small_image(&rt, alloc);
    let mut around = Around::new(&rt, alloc, &image, "mkdir /a\nsync\nlist /\n");
    around.image.writes = 0;
    let answers = ("ok\nerror EIO\nerror EIO\n", "fault EIO\n");
    around.ends(&rt, alloc, &["run", "I"], 2, answers);
    let mut around = Around::new(&rt, alloc, &image, "");
    around.image.writes = 0;
    around.ends(&rt, alloc, &["check", "I"], 0, ("space 512 144 143\n", ""));
}

#[test]
fn lines_that_fail_are_reported(rt: HostRuntime) {
    let alloc = rt.alloc();
    let image = small_image(&rt, alloc);
    for (words, out) in [
        (["run", "I"].as_slice(), "ok\n"),
        (["cut", "I"].as_slice(), ""),
        ([].as_slice(), "ok\n"),
    ] {
        let mut around = Around::new(&rt, alloc, &image, "mkdir /a\n");
        around.lines.reads = 1;
        around.ends(&rt, alloc, words, 4, (out, "fault Read\n"));
    }
}

#[test]
fn an_output_that_fails_is_reported(rt: HostRuntime) {
    let alloc = rt.alloc();
    let image = small_image(&rt, alloc);
    for words in [["check", "I"], ["run", "I"], ["cut", "I"], ["format", "I"]] {
        let mut around = Around::new(&rt, alloc, &image, "mkdir /a\n");
        around.out.writes = 0;
        around.ends(&rt, alloc, &words, 4, ("", "fault Write\n"));
    }
    let mut around = Around::new(&rt, alloc, b"", "");
    around.err.writes = 0;
    around.ends(&rt, alloc, &["check", "I"], 2, ("", ""));
}
