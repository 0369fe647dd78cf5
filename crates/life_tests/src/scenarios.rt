// Scenarios of three sessions: the second is cut at each of its last calls, and the third shows what is left.
use crate::lines::{answers, cut_session, failing_session, formatted, live_through, session};
use nand_model::{Fate, MemNand};
use powercut::Session;
use std::alloc::Global;
use std::process::Abort;

/// All that a cut may leave of a page.
const FATES: [Fate; 4] = [Fate::Old, Fate::New, Fate::Erased, Fate::Uncorrectable];

/// What is answered of one of two trees.
#[derive(Clone, Copy, Debug, PartialEq, Eq)]
enum Left {
    Old,
    New,
}

/// A scenario: lines of a session, of which the last ones are cut, lines that tell the tree in the session after it, and
/// what they are answered of the tree before and of the one after the last ones.
#[derive(Clone, Copy, Debug)]
struct Scenario<'a> {
    before: &'a [&'a str],
    all: &'a [&'a str],
    looks: &'a [&'a str],
    old: &'a str,
    new: &'a str,
}

/// How many calls of the device a session makes, from its power-up on.
fn calls_of(rt: &impl Abort, alloc: Global, nand: &MemNand, lines: &[&str]) -> u64 {
    let sessions = vec![in alloc; session(rt, alloc, lines)].expect(rt, "memory");
    let (nand, _ends) = live_through(rt, alloc, nand.copy().expect(rt, "memory"), &sessions);
    nand.calls()
}

/// The sessions of a cut, of a mount and an unmount that are cut too where a call is given, and of looks.
fn sessions_of(
    rt: &impl Abort,
    alloc: Global,
    scenario: Scenario<'_>,
    call: u64,
    fates: &[Fate],
    again: Option<u64>,
) -> Vec<Session> {
    let mut sessions = Vec::new(alloc);
    sessions
        .push(cut_session(rt, alloc, scenario.all, call, fates))
        .expect(rt, "memory");
    if let Some(again) = again {
        let mut second = cut_session(rt, alloc, &[], again, fates);
        second.unmount = true;
        sessions.push(second).expect(rt, "memory");
    }
    sessions
        .push(session(rt, alloc, scenario.looks))
        .expect(rt, "memory");
    sessions
}

/// What is left of a scenario that is cut at this call.
fn left_by(
    rt: &impl Abort,
    alloc: Global,
    nand: &MemNand,
    scenario: Scenario<'_>,
    sessions: &[Session],
) -> Left {
    let (_nand, ends) = live_through(rt, alloc, nand.copy().expect(rt, "memory"), sessions);
    let (Some(first), Some(last)) = (ends.first(), ends.last()) else {
        panic!(rt; "a session has no end");
    };
    assert!(rt; first.cut);
    let text = answers(rt, alloc, last);
    if text.as_slice() == scenario.new.as_bytes() {
        return Left::New;
    }
    assert_eq!(rt; str::from_utf8(&text).expect(rt, "a text"), scenario.old);
    Left::Old
}

/// Cuts each of the last calls with all pages left in one way, alone and with a cut in the next session. Gives the calls
/// and the fates after which the tree is the one after the last lines, the first of the last calls being 0.
fn cut_each(
    rt: &impl Abort,
    alloc: Global,
    nand: &MemNand,
    scenario: Scenario<'_>,
) -> Vec<(u64, Fate)> {
    let first = calls_of(rt, alloc, nand, scenario.before).saturating_add(1);
    let mut news = Vec::new(alloc);
    for call in first..=calls_of(rt, alloc, nand, scenario.all) {
        for fate in FATES {
            let fates = [fate; 32];
            let once = sessions_of(rt, alloc, scenario, call, &fates, None);
            let left = left_by(rt, alloc, nand, scenario, &once);
            let twice = sessions_of(rt, alloc, scenario, call, &fates, Some(100));
            assert_eq!(rt; left_by(rt, alloc, nand, scenario, &twice), left);
            if left == Left::New {
                news.push((call.saturating_sub(first), fate))
                    .expect(rt, "memory");
            }
        }
    }
    news
}

#[test]
fn a_sync_is_done_by_its_last_page(rt: HostRuntime) {
    let scenario = Scenario {
        before: &["open /a rwc", "write 0 hello"],
        all: &["open /a rwc", "write 0 hello", "fsync 0"],
        looks: &["list /", "open /a r", "read 0 10"],
        old: "names 0\nerror ENOENT\nerror EBADF\n",
        new: "names 1 a\nfd 0\ndata 5 hello\n",
    };
    let alloc = rt.alloc();
    let news = cut_each(&rt, alloc, &formatted(&rt, alloc), scenario);
    assert_eq!(rt; news.as_slice(), [(4, Fate::New)].as_slice());
}

#[test]
fn a_renamed_file_takes_the_place_of_another_at_once(rt: HostRuntime) {
    let alloc = rt.alloc();
    let files = vec![in alloc;
        session(
            &rt,
            alloc,
            &[
                "open /x wc",
                "write 0 new",
                "open /y wc",
                "write 1 old",
                "sync",
            ]
        ),
    ]
    .expect(&rt, "memory");
    let (nand, _ends) = live_through(&rt, alloc, formatted(&rt, alloc), &files);
    let scenario = Scenario {
        before: &["rename /x /y"],
        all: &["rename /x /y", "sync"],
        looks: &["list /", "open /y r", "read 0 10"],
        old: "names 2 x y\nfd 0\ndata 3 old\n",
        new: "names 1 y\nfd 0\ndata 3 new\n",
    };
    let news = cut_each(&rt, alloc, &nand, scenario);
    assert_eq!(rt; news.len(), 1);
}

/// Lives through the sessions, of which the first and the last are answered so. Returns how many calls the last made.
fn reports_at_its_ends(
    rt: &impl Abort,
    alloc: Global,
    nand: &MemNand,
    sessions: &[Session],
    first_reported: &str,
    last_reported: &str,
) -> u64 {
    let (after, ends) = live_through(rt, alloc, nand.copy().expect(rt, "memory"), sessions);
    let (Some(first), Some(last)) = (ends.first(), ends.last()) else {
        panic!(rt; "a session has no end");
    };
    assert_eq!(rt;
        str::from_utf8(&answers(rt, alloc, first)).expect(rt, "a text"),
        first_reported
    );
    assert_eq!(rt;
        str::from_utf8(&answers(rt, alloc, last)).expect(rt, "a text"),
        last_reported
    );
    after.calls()
}

/// The program of this call fails, and the page is left so; a block to spare makes up for it. Then the first program of the
/// next sync fails, and the volume stops. The next mount can only read.
fn stops_without_a_spare_block(
    rt: &impl Abort,
    alloc: Global,
    nand: &MemNand,
    call: u64,
    fate: Fate,
) {
    let lines = ["mkdir /a", "sync"];
    let failing = failing_session(rt, alloc, &lines, &[(call, fate)]);
    let sync = vec![in alloc; failing].expect(rt, "memory");
    let calls = reports_at_its_ends(rt, alloc, nand, &sync, "ok\nok\n", "ok\nok\n");
    let next = calls.saturating_add(1);
    let lines = ["mkdir /a", "sync", "mkdir /b", "sync", "list /"];
    let failures = [(call, fate), (next, Fate::Uncorrectable)];
    let sessions = vec![in alloc;
        failing_session(rt, alloc, &lines, &failures),
        session(rt, alloc, &["list /", "mkdir /c"]),
    ]
    .expect(rt, "memory");
    let stopped = "ok\nok\nok\nerror EIO\n";
    reports_at_its_ends(
        rt,
        alloc,
        nand,
        &sessions,
        stopped,
        "names 1 a\nerror EROFS\n",
    );
}

#[test]
fn a_volume_that_lost_its_spare_block_is_only_read(rt: HostRuntime) {
    let alloc = rt.alloc();
    let nand = formatted(&rt, alloc);
    // The mount, the erase and two programs come before.
    let third = calls_of(&rt, alloc, &nand, &["mkdir /a"]).saturating_add(4);
    stops_without_a_spare_block(&rt, alloc, &nand, third, Fate::New);
    stops_without_a_spare_block(&rt, alloc, &nand, third, Fate::Uncorrectable)
}
