// Sessions whose last lines are cut at each of their calls: a mount shows the tree of before them, or the one of after them where
// the last page is there.

use crate::devices::{ALL_LEFT, Hit, cut, formatted};
use crate::scenarios::Part::{Rows, Turns};
use crate::scenarios::{Part, served_after, tell};
use crate::served::answers;
use crate::sessions::HELLO;
use nand_model::{Fate, MemNand};
use std::alloc::Global;
use std::process::Abort;

/// A session, its last lines, which are sent whatever the answers, and rows of the trees before and after these.
#[derive(Clone, Copy)]
struct Trial {
    before: &'static [Part],
    last: &'static str,
    old: &'static str,
    new: &'static str,
}

/// A sync of four pages, before which a block is erased.
const SYNC: Trial = Trial {
    before: &[Rows(HELLO)],
    last: "fsync 0",
    old: "list / -> names 0",
    new: "list / -> names 1 a\nopen /a r -> fd 0\nread 0 10 -> data 5 hello",
};

/// A command for which the buffer has no room, so that its seven pages are written first.
const FULL_BUFFER: Trial = Trial {
    before: &[Turns(3, "mkdir /# -> ok")],
    last: "mkdir /d",
    old: "list / -> names 0",
    new: "list / -> names 3 0 1 2",
};

/// A file takes the place of another.
const REPLACED: Trial = Trial {
    before: &[Rows(
        "open /x wc -> fd 0
write 0 new -> wrote 3
open /y wc -> fd 1
write 1 old -> wrote 3
sync -> ok
rename /x /y -> ok",
    )],
    last: "sync",
    old: "list / -> names 2 x y\nopen /y r -> fd 0\nread 0 10 -> data 3 old",
    new: "list / -> names 1 y\nopen /y r -> fd 0\nread 0 10 -> data 3 new",
};

/// The device after a session, and after lines whatever their answers.
fn run(rt: &impl Abort, alloc: Global, nand: MemNand, before: &[Part], last: &str) -> MemNand {
    let mut served = served_after(rt, alloc, nand, 16, before);
    let _answers = answers(rt, alloc, &mut served, last.as_bytes());
    served.abandon()
}

impl Trial {
    /// Cuts a call of the last lines, and looks at the tree that is left.
    fn cut_at(self, rt: &impl Abort, alloc: Global, nand: &MemNand, hit: Hit, rows: &'static str) {
        let mut left = run(rt, alloc, cut(rt, alloc, nand, hit), self.before, self.last);
        assert!(rt; left.gone(), "{}", hit.call);
        left.power_up();
        let _ = tell(rt, alloc, left, &[Rows(rows)]);
    }

    /// Cuts each call of the last lines. The tree is the new one where the last call is cut and its page is there. Gives the
    /// number of these calls.
    fn cut_each(self, rt: &impl Abort, alloc: Global, nand: &MemNand) -> u64 {
        let before = run(rt, alloc, nand.copy().expect(rt, "memory"), self.before, "").calls();
        let after = run(
            rt,
            alloc,
            nand.copy().expect(rt, "memory"),
            self.before,
            self.last,
        )
        .calls();
        for call in before..after {
            let call = call.saturating_add(1);
            for left in ALL_LEFT {
                let is_new = call == after && matches!(left, [Fate::New]);
                let rows = if is_new { self.new } else { self.old };
                self.cut_at(rt, alloc, nand, Hit { call, left }, rows);
            }
        }
        after.saturating_sub(before)
    }
}

#[test]
fn a_cut_change_is_there_as_a_whole_or_not_at_all(rt: HostRuntime) {
    let alloc = rt.alloc();
    let nand = formatted(&rt, alloc);
    assert_eq!(&rt; SYNC.cut_each(&rt, alloc, &nand), 5);
    assert_eq!(&rt; FULL_BUFFER.cut_each(&rt, alloc, &nand), 8);
    let _calls = REPLACED.cut_each(&rt, alloc, &nand);
}

/// A file of one page, and another that takes all other room.
const FILLED: [Part; 4] = [
    Rows(HELLO),
    Rows("fsync 0 -> ok\nopen /b rwc -> fd 1"),
    Turns(27, "write 1 [z*2560] -> wrote 2560"),
    Rows(
        "write 1 [z*2560] -> wrote 1536
write 1 z -> error ENOSPC
fsync 1 -> ok
space -> space 512 144 0",
    ),
];

const COMMITTED: &str = "open /a r -> fd 0
read 0 10 -> data 5 hello
open /b r -> fd 1
read 1 5 -> data 5 zzzzz
space -> space 512 144 0";

/// The first page of the file that takes all room is written anew, with the same bytes.
const REWRITTEN: Trial = Trial {
    before: &[Rows("open /b rw -> fd 0\nwrite 0 [z*512] -> wrote 512")],
    last: "fsync 0",
    old: COMMITTED,
    new: COMMITTED,
};

/// A sync with a collection in it: an erase, a copy of each page that is read, and the pages of the buffer.
#[test]
fn a_cut_collection_loses_nothing(rt: HostRuntime) {
    let alloc = rt.alloc();
    let mut nand = tell(&rt, alloc, formatted(&rt, alloc), &FILLED);
    for _ in 0..40u32 {
        nand.power_up();
        let before = run(
            &rt,
            alloc,
            nand.copy().expect(&rt, "memory"),
            REWRITTEN.before,
            "",
        );
        let after = run(
            &rt,
            alloc,
            nand.copy().expect(&rt, "memory"),
            REWRITTEN.before,
            REWRITTEN.last,
        );
        let calls = after.calls().saturating_sub(before.calls());
        let changes = after.changes().saturating_sub(before.changes());
        if calls > changes {
            assert_eq!(&rt; REWRITTEN.cut_each(&rt, alloc, &nand), calls);
            return;
        }
        nand = after;
    }
    panic!(&rt; "no block is collected")
}
