// Blocks that are refreshed: the volume goes on as it was, and a mount shows the tree that it did, where each call is cut and where it
// fails.

use crate::devices::{ALL_LEFT, Hit, cut, failing, formatted};
use crate::scenarios::Part::Rows;
use crate::scenarios::{Part, ask_part, served_after, tell};
use crate::served::Served;
use nand_model::MemNand;
use posix_calls::Errno;
use std::alloc::Global;
use std::process::Abort;

/// A directory, a file of three pages and one that was written over, and bytes that are not synced.
const FILES: Part = Rows(
    "mkdir /a -> ok
open /a/f rwc -> fd 0
write 0 [x*1300] -> wrote 1300
open /g rwc -> fd 1
write 1 early -> wrote 5
sync -> ok
seek 1 0 set -> at 0
write 1 later -> wrote 5
fsync 1 -> ok
write 1 [y*600] -> wrote 600",
);

/// What a volume goes on with.
const GOES_ON: Part = Rows(
    "seek 0 1298 set -> at 1298
read 0 10 -> data 2 xx
seek 1 3 set -> at 3
read 1 4 -> data 4 eryy
list / -> names 2 a g",
);

/// What a mount shows where the power was lost.
const SYNCED: Part = Rows(
    "list / -> names 2 a g
open /a/f r -> fd 0
seek 0 1298 set -> at 1298
read 0 10 -> data 2 xx
open /g r -> fd 1
read 1 10 -> data 5 later",
);

/// Refreshes each block in turn, until the volume is stopped.
fn refresh_all(served: &mut Served) -> Result<(), Errno> {
    for block in 0..8 {
        served.refresh(block)?;
    }
    Ok(())
}

/// How many calls there are up to the end of the files, and of the refreshes after them.
fn calls_after(rt: &impl Abort, alloc: Global, nand: &MemNand, is_refreshed: bool) -> u64 {
    let copy = nand.copy().expect(rt, "memory");
    let mut served = served_after(rt, alloc, copy, 16, &[FILES]);
    if is_refreshed {
        assert!(rt; refresh_all(&mut served).is_ok());
    }
    served.abandon().calls()
}

/// The numbers of the first call of the refreshes, and of the first one after them.
fn calls_of(rt: &impl Abort, alloc: Global, nand: &MemNand) -> (u64, u64) {
    let before = calls_after(rt, alloc, nand, false);
    let after = calls_after(rt, alloc, nand, true);
    assert!(rt; before < after);
    (before.saturating_add(1), after.saturating_add(1))
}

#[test]
fn a_cut_refresh_loses_nothing(rt: HostRuntime) {
    let alloc = rt.alloc();
    let nand = formatted(&rt, alloc);
    let (first, end) = calls_of(&rt, alloc, &nand);
    for call in first..end {
        for left in ALL_LEFT {
            let nand = cut(&rt, alloc, &nand, Hit { call, left });
            let mut served = served_after(&rt, alloc, nand, 16, &[FILES]);
            assert!(rt;
                matches!(refresh_all(&mut served), Err(Errno::EIO)),
                "{call}"
            );
            let mut nand = served.abandon();
            assert!(rt; nand.gone(), "{call}");
            nand.power_up();
            let _ = tell(&rt, alloc, nand, &[SYNCED]);
        }
    }
}

/// A block that fails is to spare.
#[test]
fn a_failure_in_a_refresh_is_not_reported(rt: HostRuntime) {
    let alloc = rt.alloc();
    let nand = formatted(&rt, alloc);
    let (first, end) = calls_of(&rt, alloc, &nand);
    for call in first..end {
        for left in ALL_LEFT {
            let nand = failing(&rt, alloc, &nand, &[Hit { call, left }]);
            let mut served = served_after(&rt, alloc, nand, 16, &[FILES]);
            assert!(rt; refresh_all(&mut served).is_ok(), "{call}");
            assert!(rt; ask_part(&rt, alloc, &mut served, GOES_ON));
            let mut nand = served.abandon();
            nand.power_up();
            let _ = tell(&rt, alloc, nand, &[SYNCED]);
        }
    }
}
