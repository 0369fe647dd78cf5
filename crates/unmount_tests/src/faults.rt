// An unmount of which calls are cut and fail: after Done a mount shows the tree after all commands, and else that one or the one
// of the last sync.

use crate::devices::{FATES, cut, failing, formatted};
use crate::lines::{Mounted, abandon, answers, mount, mount_as_it_is, stepped, unmount};
use crate::search::checkpoint_of;
use flash_tree::count_bad;
use nand_model::{Fate, MemNand};
use plain_volume::PlainTree;
use std::alloc::Global;
use std::process::Abort;
use volume_terms::VolumeSizes;

const BEFORE: &str = "mkdir /d\nopen /d/f rwc\nwrite 0 hello\nopen /e wc\nwrite 1 hollow\nsync\n";

/// What is not written before the unmount: names that go and come, one of them of an open file.
const LAST: &str = "now 5\nunlink /d/f\nseek 1 600 set\nwrite 1 x\nwrite 0 more\nrename /e /d/e\n";

/// A device with so many blocks to spare, its trees after the sync and after all, and the numbers of the unmount's calls where none
/// fails.
#[derive(Drop)]
struct Trial {
    spare: u32,
    nand: MemNand,
    old: PlainTree,
    new: PlainTree,
    first: u64,
    last: u64,
}

/// Which calls fail, and which is cut, with what all of them leave.
#[derive(Clone, Copy, Debug)]
struct Plan<'a> {
    fails: &'a [u64],
    cut: u64,
    fate: Fate,
}

/// What an unmount leaves, and whether the reply is Done.
#[derive(Drop)]
struct Left {
    nand: MemNand,
    is_done: bool,
}

/// The volume of a device as it is after the session.
fn ask_all(rt: &impl Abort, alloc: Global, nand: MemNand) -> Mounted {
    let mut volume = mount_as_it_is(rt, alloc, nand);
    let _answers = answers(rt, alloc, &mut volume, BEFORE);
    let _answers = answers(rt, alloc, &mut volume, LAST);
    volume
}

/// Does the session on a device as it is, and unmounts.
fn finish(rt: &impl Abort, alloc: Global, nand: MemNand) -> Left {
    let (nand, is_done) = unmount(ask_all(rt, alloc, nand));
    Left { nand, is_done }
}

/// The tree of a volume of eight blocks that was just formatted with one block to spare, or two.
fn new_tree(rt: &impl Abort, alloc: Global, spare: u32) -> PlainTree {
    if spare == 1 {
        return PlainTree::new(alloc, VolumeSizes::new(512, 32, 8, 1)).expect(rt, "memory");
    }
    PlainTree::new(alloc, VolumeSizes::new(512, 32, 8, 2)).expect(rt, "memory")
}

/// The tree after the sync and the one after all.
fn trees(rt: &impl Abort, alloc: Global, spare: u32) -> (PlainTree, PlainTree) {
    let old = stepped(rt, alloc, &new_tree(rt, alloc, spare), BEFORE);
    let new = stepped(rt, alloc, &old, LAST);
    (old, new)
}

/// The number of calls before the unmount.
fn calls_before(rt: &impl Abort, alloc: Global, nand: &MemNand) -> u64 {
    abandon(ask_all(rt, alloc, nand.copy().expect(rt, "memory"))).calls()
}

/// The number of calls up to the end of the unmount.
fn calls_after(rt: &impl Abort, alloc: Global, nand: &MemNand) -> u64 {
    finish(rt, alloc, nand.copy().expect(rt, "memory"))
        .nand
        .calls()
}

/// That what is said of a plan holds.
fn expect(rt: &impl Abort, holds: bool, plan: Plan<'_>) {
    assert!(rt; holds, "{plan:?}");
}

impl Trial {
    /// On a device with so many blocks to spare.
    fn new(rt: &impl Abort, alloc: Global, spare: u32) -> Trial {
        let nand = formatted(rt, alloc, 8, spare);
        let first = calls_before(rt, alloc, &nand).saturating_add(1);
        let last = calls_after(rt, alloc, &nand);
        let (old, new) = trees(rt, alloc, spare);
        Trial {
            spare,
            nand,
            old,
            new,
            first,
            last,
        }
    }

    /// Whether a volume has the tree after all, or, where that was not done, the one of the sync.
    fn has_tree(&self, rt: &impl Abort, volume: &mut Mounted, is_done: bool) -> bool {
        if self.new.same(volume).expect(rt, "a tree") {
            return true;
        }
        !is_done && self.old.same(volume).expect(rt, "a tree")
    }

    /// Mounts and unmounts what is left, and looks at the tree.
    fn look(
        &self,
        rt: &impl Abort,
        alloc: Global,
        nand: MemNand,
        is_done: bool,
        plan: Plan<'_>,
    ) -> MemNand {
        let mut volume = mount(rt, alloc, nand);
        let is_there = self.has_tree(rt, &mut volume, is_done);
        let (nand, is_committed) = unmount(volume);
        expect(rt, is_there && is_committed, plan);
        nand
    }

    /// A copy of the device with this plan.
    fn planned(&self, rt: &impl Abort, alloc: Global, plan: Plan<'_>) -> MemNand {
        let nand = failing(
            rt,
            alloc,
            self.nand.copy().expect(rt, "memory"),
            plan.fails,
            plan.fate,
        );
        cut(rt, alloc, nand, plan.cut, plan.fate)
    }

    /// Looks at the tree of what is left by a scan, and then by a checkpoint.
    fn look_twice(&self, rt: &impl Abort, alloc: Global, left: &Left, plan: Plan<'_>) {
        let looked = self.look(
            rt,
            alloc,
            left.nand.copy().expect(rt, "memory"),
            left.is_done,
            plan,
        );
        let _looked = self.look(rt, alloc, looked, left.is_done, plan);
    }

    /// Does the session so, which ends with Done unless power is lost or more blocks fail than are to spare. Then the trees are looked
    /// at.
    fn end(&self, rt: &impl Abort, alloc: Global, plan: Plan<'_>) -> MemNand {
        let left = finish(rt, alloc, self.planned(rt, alloc, plan));
        let is_well = !left.nand.gone() && count_bad(&left.nand) <= self.spare;
        expect(rt, left.is_done == is_well, plan);
        self.look_twice(rt, alloc, &left, plan);
        left.nand
    }

    /// Cuts a call.
    fn cut_alone(&self, rt: &impl Abort, alloc: Global, call: u64) {
        for fate in FATES {
            let plan = Plan {
                fails: &[],
                cut: call,
                fate,
            };
            expect(rt, self.end(rt, alloc, plan).gone(), plan);
        }
    }

    /// A call fails, and one so many calls later is cut: a mark among them.
    fn cut_later(&self, rt: &impl Abort, alloc: Global, call: u64, gap: u64) {
        for fate in FATES {
            let plan = Plan {
                fails: &[call],
                cut: call.saturating_add(gap),
                fate,
            };
            let _nand = self.end(rt, alloc, plan);
        }
    }

    /// A call fails. Its block is marked, and a checkpoint is there unless its own program failed.
    fn fail_alone(&self, rt: &impl Abort, alloc: Global, call: u64) {
        for fate in FATES {
            let plan = Plan {
                fails: &[call],
                cut: 0,
                fate,
            };
            let mut nand = self.end(rt, alloc, plan);
            expect(rt, count_bad(&nand) == 1, plan);
            let is_whole = checkpoint_of(rt, &mut nand).is_some();
            expect(rt, is_whole == (call < self.last), plan);
        }
    }

    /// A call fails, and one so many calls later, where that is no read and no mark.
    fn fail_twice(&self, rt: &impl Abort, alloc: Global, call: u64, gap: u64) {
        for fate in FATES {
            let plan = Plan {
                fails: &[call, call.saturating_add(gap)],
                cut: 0,
                fate,
            };
            let bad = count_bad(&self.end(rt, alloc, plan));
            expect(rt, bad == 1 || bad == 2, plan);
        }
    }

    /// Cuts a call, alone and after it failed.
    fn cut_each_way(&self, rt: &impl Abort, alloc: Global, call: u64) {
        self.cut_alone(rt, alloc, call);
        for gap in 1..=3u64 {
            self.cut_later(rt, alloc, call, gap);
        }
    }

    /// Fails a call and one after it.
    fn fail_each_way(&self, rt: &impl Abort, alloc: Global, call: u64) {
        for gap in 1..=3u64 {
            self.fail_twice(rt, alloc, call, gap);
        }
    }

    /// Fails each two calls of the unmount.
    fn fail_pairs(&self, rt: &impl Abort, alloc: Global) {
        for call in self.first..=self.last {
            self.fail_each_way(rt, alloc, call);
        }
    }
}

/// The calls of the unmount are the programs of its commit, and the erase of a block and the program of a checkpoint.
#[test]
fn a_cut_unmount_leaves_one_of_two_trees(rt: HostRuntime) {
    let alloc = rt.alloc();
    let trial = Trial::new(&rt, alloc, 1);
    for call in trial.first..=trial.last {
        trial.cut_each_way(&rt, alloc, call);
    }
}

#[test]
fn a_failure_in_an_unmount_is_not_reported(rt: HostRuntime) {
    let alloc = rt.alloc();
    let trial = Trial::new(&rt, alloc, 1);
    for call in trial.first..=trial.last {
        trial.fail_alone(&rt, alloc, call);
    }
}

/// Two failures are one more than there are blocks to spare, or as many.
#[test]
fn two_failures_in_an_unmount(rt: HostRuntime) {
    let alloc = rt.alloc();
    for spare in [1, 2u32] {
        Trial::new(&rt, alloc, spare).fail_pairs(&rt, alloc);
    }
}
