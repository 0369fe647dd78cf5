// Lines over a fresh volume in memory, measured.
use nandfs_program::{
    Bench, BenchForm, FlashTimes, ImageSizes, ToolFault, bench, nanoseconds_in, show_bench,
};
use std::alloc::Global;
use std::process::Abort;
use std::str;
use volume_bench::{BenchFault, Bin, bins};

/// Eight blocks of 32 pages of 512 bytes, one of them spare.
const SIZES: ImageSizes = ImageSizes {
    data: 512,
    pages: 32,
    blocks: 8,
    reserve: 1,
};

/// 75 microseconds for a read of a page, 26.6 for one of a tag, 250 for a program, and 1,500 for an erase.
const TIMES: FlashTimes = FlashTimes {
    read: 75_000,
    tag: 26_600,
    program: 250_000,
    erase: 1_500_000,
};

/// A file of five bytes is written three times, each time with its header; the first time the directory's page and the root's header
/// come with it. Then a directory: its header, the page of names and the root's header.
const LINES: &str = "open /f wc\nrepeat 3\nwrite 0 hello\nfsync 0\nend\nmark\nmkdir /d\nsync\n";

/// Each mount looks for a checkpoint by one tag of each block. Without one it reads besides the 32 tags of the newest block and of one
/// that is erased; and the second time of the root's first one that of its page, and of the erased one behind it.
const TEXT: &str = "\
mount: 72 tags and 1 pages read, 0 programs, 0 erases, 0 marks, 1.990 ms of the flash
part 0: 0 tags and 1 pages read, 8 programs, 1 erases, 0 marks, 3.575 ms of the flash
part 1: 0 tags and 0 pages read, 3 programs, 0 erases, 0 marks, 0.750 ms of the flash
whole: 0 tags and 1 pages read, 11 programs, 1 erases, 0 marks, 4.325 ms of the flash
mount by a scan: 74 tags and 5 pages read, 0 programs, 0 erases, 0 marks, 2.343 ms of the flash
unmount: 0 tags and 0 pages read, 1 programs, 1 erases, 0 marks, 1.750 ms of the flash
mount by its checkpoint: 8 tags and 6 pages read, 0 programs, 0 erases, 0 marks, 0.662 ms of the flash
15 bytes written to files, 5632 programmed: write amplification 375.46

 erases        blocks
      0            7  ##################################################
      1            1  ########
";

/// What a report of each other form has, of the same lines: the second block is the one that is erased.
const PARTS: [(BenchForm, &str); 3] = [
    (BenchForm::Timed, " ms of the processor\n"),
    (
        BenchForm::Json,
        "\"write_amplification_percent\":37546,\"erases_of_blocks\":[0,1,0,0,0,0,0,0]",
    ),
    (
        BenchForm::Svg,
        "<rect x=\"156\" y=\"40\" width=\"96\" height=\"200\" fill=\"#3b6ea5\"/>",
    ),
];

/// Lines that are none, and why.
const FAULTS: [(&str, BenchFault); 5] = [
    ("end", BenchFault::NoRepeat(1)),
    ("sync\nrepeat x", BenchFault::NoCount(2)),
    ("repeat 2\nrepeat 2\nend\nend", BenchFault::Unended(2)),
    ("repeat 2\nmark\nend", BenchFault::Unended(2)),
    ("sync\nrepeat 2\nsync", BenchFault::Unended(3)),
];

/// Microseconds, and the nanoseconds that they are.
const MICROSECONDS: [(&str, Option<u64>); 9] = [
    ("75", Some(75_000)),
    ("26.6", Some(26_600)),
    ("0.001", Some(1)),
    ("4294967295.99", Some(4_294_967_295_990)),
    ("", None),
    ("1.", None),
    (".5", None),
    ("1.2345", None),
    ("4294967296", None),
];

/// A run of these lines.
fn measured(rt: &HostRuntime, lines: &str) -> Result<Bench, ToolFault> {
    bench(rt, rt.alloc(), SIZES, lines)
}

/// A report of a run.
fn shown(rt: &impl Abort, alloc: Global, measured: &Bench, form: BenchForm) -> Vec<u8> {
    let mut out = Vec::new(alloc);
    show_bench(alloc, &mut out, measured, TIMES, form).expect(rt, "a report");
    out
}

#[test]
fn a_run_is_reported(rt: HostRuntime) {
    let alloc = rt.alloc();
    let bench = measured(&rt, LINES).expect(&rt, "a run");
    let text = shown(&rt, alloc, &bench, BenchForm::Text);
    assert_eq!(&rt; str::from_utf8(&text).expect(&rt, "a text"), TEXT);
    for (form, part) in PARTS {
        let report = shown(&rt, alloc, &bench, form);
        assert!(&rt; str::from_utf8(&report).expect(&rt, "a text").contains(part));
    }
}

#[test]
fn lines_that_are_none_are_named(rt: HostRuntime) {
    for (lines, fault) in FAULTS {
        let ended = measured(&rt, lines);
        assert!(&rt; matches!(ended, Err(ToolFault::Bench(found)) if found == fault));
    }
}

#[test]
fn microseconds_have_three_places(rt: HostRuntime) {
    for (text, nanoseconds) in MICROSECONDS {
        assert!(&rt; nanoseconds_in(text).ok() == nanoseconds);
    }
}

#[test]
fn a_histogram_has_sixteen_bins_at_most(rt: HostRuntime) {
    let bins = bins(rt.alloc(), &[0, 100, 6, 7]).expect(&rt, "memory");
    let first = Bin {
        least: 0,
        most: 6,
        blocks: 2,
    };
    let last = Bin {
        least: 98,
        most: 104,
        blocks: 1,
    };
    assert_eq!(&rt; bins.len(), 15);
    assert!(&rt; bins.first() == Some(&first));
    assert!(&rt; bins.last() == Some(&last));
}
