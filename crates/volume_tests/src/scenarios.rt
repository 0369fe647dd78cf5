// Scenarios: rows that are sent, and between them losses of power and unmounts.

use crate::rows::expect;
use crate::served::{Served, mount};
use nand_model::MemNand;
use plain_volume::Answers;
use std::alloc::Global;
use std::process::Abort;

/// A part of a scenario.
#[derive(Clone, Copy)]
pub(crate) enum Part {
    Rows(&'static str),
    /// Rows, so many times. The number of the turn, from 0, is in place of each `#`.
    Turns(u32, &'static str),
    /// Power is lost, and the volume mounted again.
    Lost,
    /// The same, where the device was programmed, erased or marked so many times since the last mount.
    LostAfter(u64),
    /// The volume is unmounted, and mounted again.
    Unmounted,
}

/// Issues rows so many times.
fn expect_turns<S: Answers>(
    rt: &impl Abort,
    alloc: Global,
    served: &mut S,
    count: u32,
    rows: &str,
) {
    for number in 0..count {
        let number = format!(in alloc; "{number}").expect(rt, "memory");
        let rows = rows.replace(alloc, "#", &number).expect(rt, "memory");
        expect(rt, alloc, served, &rows);
    }
}

/// Sends the rows of a part, and returns whether the volume goes on.
pub(crate) fn ask_part<S: Answers>(
    rt: &impl Abort,
    alloc: Global,
    served: &mut S,
    part: Part,
) -> bool {
    match part {
        Part::Rows(rows) => expect(rt, alloc, served, rows),
        Part::Turns(count, rows) => expect_turns(rt, alloc, served, count, rows),
        _ => return false,
    }
    true
}

/// Ends a volume as a part says, and gives the device back.
fn end(rt: &impl Abort, served: Served, part: Part) -> MemNand {
    if matches!(part, Part::Unmounted) {
        let (nand, is_done) = served.unmount();
        assert!(rt; is_done);
        return nand;
    }
    let nand = served.abandon();
    if let Part::LostAfter(changes) = part {
        assert_eq!(rt; nand.changes(), changes);
    }
    nand
}

/// Reports a part of a scenario.
pub(crate) fn report_part(
    rt: &impl Abort,
    alloc: Global,
    mut served: Served,
    capacity: usize,
    part: Part,
) -> Served {
    if ask_part(rt, alloc, &mut served, part) {
        return served;
    }
    let mut nand = end(rt, served, part);
    nand.power_up();
    mount(rt, alloc, nand, capacity)
}

/// The volume of a device, mounted as it is, after a scenario.
pub(crate) fn served_after(
    rt: &impl Abort,
    alloc: Global,
    nand: MemNand,
    capacity: usize,
    scenario: &[Part],
) -> Served {
    let mut served = mount(rt, alloc, nand, capacity);
    for part in scenario {
        served = report_part(rt, alloc, served, capacity, *part);
    }
    served
}

/// The device after a scenario, as if power were lost.
pub(crate) fn tell(rt: &impl Abort, alloc: Global, nand: MemNand, scenario: &[Part]) -> MemNand {
    served_after(rt, alloc, nand, 16, scenario).abandon()
}
