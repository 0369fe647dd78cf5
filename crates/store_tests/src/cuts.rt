// Each device call of a run is cut, and each program and erase failed, with each fate, and the run goes on after a power-up.

use crate::edits::{Edit, KEYS};
use crate::opening::{
    Trouble, calls_when_opened, erased, open_stamped, open_store, scanned, troubled,
};
use crate::plain::{Plain, Stamps, Step, are_found, read_all, take_step};
use crate::random::random_step;
use nand_model::{Fate, MemNand, Nand};
use pages::PageStore;
use rand_pcg::Pcg32;
use std::alloc::Global;
use std::process::Abort;
use volume_terms::StoreFault;

/// The blocks to spare.
const SPARE: u32 = 1;

/// How many parts the run has, between which the power is lost, and how many steps a part has.
const PARTS: u32 = 5;

const STEPS: u32 = 400;

/// How many steps the run goes on with after a power-up.
const FURTHER: u32 = 40;

const FATES: [Fate; 4] = [Fate::Old, Fate::New, Fate::Erased, Fate::Uncorrectable];

/// A device after a power-up, and the pages that are committed on it.
#[derive(Drop)]
struct Committed {
    nand: MemNand,
    map: Stamps,
}

/// So many steps, those of a part of the run.
#[derive(Clone, Copy, Debug)]
struct Steps {
    part: u32,
    count: u32,
}

/// How steps ended: with the first fault, or with none.
#[derive(Drop)]
struct Ended {
    nand: MemNand,
    plain: Plain,
    fault: Option<StoreFault>,
}

/// Whether calls are cut, or fail.
#[derive(Clone, Copy)]
enum Way {
    Cut,
    Failure,
}

/// The calls of a part of the run: those after the first ones, up to the last one. So many are programs and erases.
#[derive(Clone, Copy)]
struct Calls {
    first: u64,
    last: u64,
    changes: u64,
}

impl Committed {
    fn copy(&self, rt: &impl Abort) -> Committed {
        Committed {
            nand: self.nand.copy().expect(rt, "memory"),
            map: self.map,
        }
    }

    /// Takes steps, up to the first that the store does not take.
    fn take(self, rt: &impl Abort, alloc: Global, steps: Steps, trouble: Trouble) -> Ended {
        let nand = troubled(rt, alloc, self.nand, trouble);
        let mut store = open_stamped(rt, alloc, nand, &self.map, SPARE, 2);
        let mut plain = Plain::new(self.map);
        let mut random = Pcg32::new(u64::from(steps.part), 54);
        let mut fault = None;
        for number in 0..steps.count {
            let stamp = 1_000 + (steps.part % 1_000 * STEPS + number % STEPS) * 8;
            let next = random_step(&mut random, stamp);
            if let Err(refused) = take_step(rt, alloc, &mut store, &mut plain, next) {
                fault = Some(refused);
                break;
            }
        }
        Ended {
            nand: store.into_device(),
            plain,
            fault,
        }
    }
}

impl Ended {
    /// What a scan finds after a power-up: what was committed, or all that was present where the store stopped.
    fn found(self, rt: &impl Abort, alloc: Global, trouble: Trouble) -> Committed {
        let Ended {
            mut nand,
            plain,
            fault,
        } = self;
        nand.power_up();
        let mut pages = scanned(rt, alloc, nand);
        let newest = read_all(rt, &mut pages);
        let map = if fault.is_some() && are_found(&plain.present, &newest) {
            plain.present
        } else {
            plain.committed
        };
        assert!(rt; are_found(&map, &newest), "{trouble:?}");
        let (mut nand, _index) = pages.into_parts();
        nand.power_up();
        Committed { nand, map }
    }
}

/// Takes steps in which something goes wrong, and goes on after a power-up. Says why the store stopped, and how many blocks
/// are bad then.
fn go_wrong(
    rt: &impl Abort,
    alloc: Global,
    before: &Committed,
    steps: Steps,
    trouble: Trouble,
) -> (Option<StoreFault>, u64) {
    let ended = before.copy(rt).take(rt, alloc, steps, trouble);
    let fault = ended.fault;
    let found = ended.found(rt, alloc, trouble);
    let bad = count_bad(&found.nand);
    let further = Steps {
        part: steps.part.saturating_add(1),
        count: FURTHER,
    };
    let ended = found.take(rt, alloc, further, Trouble::Nothing);
    assert_eq!(rt; ended.fault, None, "after {trouble:?}");
    let _committed = ended.found(rt, alloc, trouble);
    (fault, bad)
}

/// How many blocks of a device are bad.
fn count_bad(nand: &MemNand) -> u64 {
    let mut count = 0u64;
    for block in 0..nand.geometry().blocks() {
        if nand.is_bad(block) {
            count = count.saturating_add(1);
        }
    }
    count
}

/// Cuts each call of a part of the run, or lets it fail, with this fate.
fn try_each(
    rt: &impl Abort,
    alloc: Global,
    before: &Committed,
    steps: Steps,
    calls: Calls,
    way: Way,
    fate: Fate,
) {
    let mut retired = 0u64;
    for call in calls.first..calls.last {
        let number = call.saturating_add(1);
        let (trouble, wanted) = match way {
            Way::Cut => (Trouble::Cut(number, fate), Some(StoreFault::Device)),
            Way::Failure => (Trouble::Failure(number, fate), None),
        };
        let (fault, bad) = go_wrong(rt, alloc, before, steps, trouble);
        assert_eq!(rt; fault, wanted, "{trouble:?}");
        retired = retired.saturating_add(bad);
    }
    // Where a program or an erase fails its block is retired, and else none.
    let wanted = match way {
        Way::Cut => 0,
        Way::Failure => calls.changes,
    };
    assert_eq!(rt; retired, wanted, "{steps:?}, {fate:?}");
}

/// A device whose blocks were all written, without a cut, so that blocks are collected soon.
fn written(rt: &impl Abort, alloc: Global) -> Committed {
    let mut store = open_store(rt, alloc, erased(rt, alloc, 5), SPARE, 2);
    let mut plain = Plain::new([0; KEYS]);
    for number in 0..20u32 {
        let edit = Edit {
            cut: None,
            first: number as usize * 5,
            count: 8,
            stamp: 1 + number * 8,
        };
        let taken = take_step(rt, alloc, &mut store, &mut plain, Step::Change(edit));
        assert_eq!(rt; taken, Ok(()), "{number}");
    }
    assert_eq!(rt; store.commit(), Ok(()));
    plain.commit();
    let ended = Ended {
        nand: store.into_device(),
        plain,
        fault: None,
    };
    ended.found(rt, alloc, Trouble::Nothing)
}

/// A run in parts, each of which is taken again with each of its calls cut, or failing, with each fate.
fn run(rt: &impl Abort, alloc: Global, way: Way) {
    let mut committed = written(rt, alloc);
    for part in 0..PARTS {
        let steps = Steps { part, count: STEPS };
        let first = calls_when_opened(rt, alloc, &committed.nand);
        let ended = committed.copy(rt).take(rt, alloc, steps, Trouble::Nothing);
        assert_eq!(rt; ended.fault, None, "{steps:?}");
        let calls = Calls {
            first,
            last: ended.nand.calls(),
            changes: ended.nand.changes(),
        };
        for fate in FATES {
            try_each(rt, alloc, &committed, steps, calls, way, fate);
        }
        committed = ended.found(rt, alloc, Trouble::Nothing);
    }
}

#[test]
fn wherever_a_call_is_cut_all_is_committed(rt: HostRuntime) {
    run(&rt, rt.alloc(), Way::Cut)
}

#[test]
fn whichever_call_fails_all_is_committed(rt: HostRuntime) {
    run(&rt, rt.alloc(), Way::Failure)
}
