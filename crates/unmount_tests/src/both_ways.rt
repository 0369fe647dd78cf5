// A commit that begins the next block with a summary, of which each call is cut, and then each call of the next commit: what a mount
// by summaries shows is what one by all tags does.

use crate::devices::{FATES, cut, formatted};
use crate::lines::{abandon, answers, mount, mount_scanned, try_mount};
use nand_model::MemNand;
use std::alloc::Global;
use std::process::Abort;

/// The device after a power-up, once more.
fn powered(rt: &impl Abort, nand: &MemNand) -> MemNand {
    let mut nand = nand.copy().expect(rt, "memory");
    nand.power_up();
    nand
}

/// That both ways of a mount show the same.
fn expect_both(rt: &impl Abort, alloc: Global, nand: &MemNand) {
    let lines = "list /\nspace";
    let mut by_summaries = mount(rt, alloc, powered(rt, nand));
    let mut by_tags = mount_scanned(rt, alloc, powered(rt, nand));
    let one = answers(rt, alloc, &mut by_summaries, lines);
    let other = answers(rt, alloc, &mut by_tags, lines);
    assert_eq!(rt;
        str::from_utf8(&one).expect(rt, "a text"),
        str::from_utf8(&other).expect(rt, "a text")
    );
}

/// The device after a session of these lines, which a cut may end.
fn after(rt: &impl Abort, alloc: Global, nand: MemNand, lines: &str) -> MemNand {
    match try_mount(alloc, nand) {
        Ok(mut volume) => {
            let _answers = answers(rt, alloc, &mut volume, lines);
            abandon(volume)
        }
        Err((nand, _fault)) => nand,
    }
}

/// What is left where one of the last calls of such a session is cut, so many of them, each with each fate of the pages.
fn cut_last(
    rt: &impl Abort,
    alloc: Global,
    nand: &MemNand,
    lines: &str,
    count: u64,
) -> Vec<MemNand> {
    let all = after(rt, alloc, powered(rt, nand), lines).calls();
    let mut left = Vec::new(alloc);
    for back in 0..count {
        for fate in FATES {
            let cutting = cut(rt, alloc, powered(rt, nand), all.saturating_sub(back), fate);
            left.push(after(rt, alloc, cutting, lines))
                .expect(rt, "memory");
        }
    }
    left
}

/// Directories, each of which is synced, as a commit of three pages: its name, its header and that of the root.
fn named(rt: &impl Abort, alloc: Global, names: u32) -> String {
    let mut lines = String::new(alloc);
    for name in 0..names {
        let line = format!(in alloc; "mkdir /{name}\nsync\n").expect(rt, "memory");
        lines.push_str(&line).expect(rt, "memory");
    }
    lines
}

/// Ten commits fill 30 pages of block 1. The eleventh erases block 2, programs a summary of the root's header and of the ten names and
/// headers, which takes 704 bytes and so two pages, and three pages more. The next session's commit erases a block and programs three.
#[test]
fn both_ways_of_a_mount_show_the_same(rt: HostRuntime) {
    let alloc = rt.alloc();
    let nand = formatted(&rt, alloc, 8, 1);
    let lines = named(&rt, alloc, 11);
    let whole = after(&rt, alloc, powered(&rt, &nand), &lines);
    assert_eq!(rt; whole.changes(), 1 + 10 * 3 + 1 + 2 + 3);
    for left in &cut_last(&rt, alloc, &nand, &lines, 6) {
        expect_both(&rt, alloc, left);
        for again in &cut_last(&rt, alloc, left, "mkdir /last\nsync", 4) {
            expect_both(&rt, alloc, again);
        }
    }
}
