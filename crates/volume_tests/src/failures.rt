// Programs and erases that fail.

use crate::devices::{Hit, Left, erased, failing, formatted, formatted_with, marked};
use crate::scenarios::Part::{Lost, Rows, Turns};
use crate::scenarios::{Part, tell};
use nand_model::{Fate, MemNand};
use std::alloc::Global;
use std::process::Abort;

const NEW: Left = &[Fate::New];

const UNCORRECTABLE: Left = &[Fate::Uncorrectable];

/// The number of the first call after a scenario, of a device of which these calls fail; and how many blocks are marked.
fn next_call(
    rt: &impl Abort,
    alloc: Global,
    nand: &MemNand,
    hits: &[Hit],
    scenario: &[Part],
) -> (u64, u32) {
    let nand = tell(rt, alloc, failing(rt, alloc, nand, hits), scenario);
    (nand.calls().saturating_add(1), marked(&nand))
}

const ONE: Part = Rows("mkdir /a -> ok");

const TWO: Part = Rows("sync -> ok\nmkdir /b -> ok");

const STOPPED: Part = Rows(
    "sync -> error EIO
list / -> error EIO
mkdir /c -> error EIO
close 0 -> error EIO
space -> error EIO",
);

const READ_ONLY: Part = Rows("list / -> names 1 a\nmkdir /c -> error EROFS");

/// A block that fails in a sync is to spare. A second one is not.
#[test]
fn a_volume_stops_where_more_blocks_fail_than_are_to_spare(rt: HostRuntime) {
    let alloc = rt.alloc();
    let nand = formatted(&rt, alloc);
    for left in [NEW, UNCORRECTABLE] {
        // An erase and two programs come before the third program of the first sync.
        let (erase, _) = next_call(&rt, alloc, &nand, &[], &[ONE]);
        let third = Hit {
            call: erase.saturating_add(3),
            left,
        };
        let (call, bad) = next_call(&rt, alloc, &nand, &[third], &[ONE, TWO]);
        assert_eq!(rt; bad, 1);
        let first = Hit {
            call,
            left: UNCORRECTABLE,
        };
        let scenario = [ONE, TWO, STOPPED, Lost, READ_ONLY];
        let (_, bad) = next_call(&rt, alloc, &nand, &[third, first], &scenario);
        assert_eq!(rt; bad, 2);
    }
}

/// The first so many calls.
fn first_calls(rt: &impl Abort, alloc: Global, count: u64, left: Left) -> Vec<Hit> {
    let mut hits = Vec::new(alloc);
    for number in 0..count {
        let call = number.saturating_add(1);
        hits.push(Hit { call, left }).expect(rt, "memory");
    }
    hits
}

const OPEN: Part = Rows("open /a rwc -> fd 0");

const WRITTEN: Part = Turns(
    12,
    "seek 0 0 set -> at 0\nwrite 0 [x*512] -> wrote 512\nfsync 0 -> ok",
);

#[test]
fn failures_within_the_spare_are_not_reported(rt: HostRuntime) {
    let alloc = rt.alloc();
    let nand = formatted_with(&rt, alloc, erased(&rt, alloc), 4);
    let (first, _) = next_call(&rt, alloc, &nand, &[], &[]);
    let end = first.saturating_add(60);
    for left in [NEW, UNCORRECTABLE] {
        for one in first..end {
            for other in one..end {
                let hits = [one, other].map(|call| Hit { call, left });
                let (next, bad) = next_call(&rt, alloc, &nand, &hits, &[OPEN, WRITTEN]);
                assert!(rt; bad <= 2, "{one} {other}");
                // A call that is not made does not fail, nor does a later one.
                if next <= other {
                    break;
                }
            }
        }
    }
}

const ALL_FAIL: [Part; 4] = [
    OPEN,
    Rows(
        "seek 0 0 set -> at 0
write 0 [x*512] -> wrote 512
fsync 0 -> error EIO
seek 0 0 set -> error EIO",
    ),
    Lost,
    Rows("list / -> names 0\nmkdir /c -> error EROFS"),
];

#[test]
fn a_volume_stops_where_all_fails(rt: HostRuntime) {
    let alloc = rt.alloc();
    let nand = formatted_with(&rt, alloc, erased(&rt, alloc), 4);
    for left in [NEW, UNCORRECTABLE, &[]] {
        let hits = first_calls(&rt, alloc, 1000, left);
        let (_, bad) = next_call(&rt, alloc, &nand, &hits, &ALL_FAIL);
        assert_eq!(rt; bad, 5);
    }
}
