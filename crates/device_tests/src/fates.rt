// What a device in memory leaves of a page, a block or a mark where a call is cut or fails, and the numbers of its calls.
#![tactic(auto, using(crate::proofs::SmallDeviceLaws::small_laws))]

ghost use Rattle.std.specs.Prelude.{◌+◌, ◌<◌};
ghost use Rattle.nand_model.specs.MemoryState.{device};
ghost use Rattle.device_tests.specs.SmallDevices.{IsSmall, TakesPage};

use crate::calls::{erase, expect_gone, is_bad, mark_bad};
use nand_model::{EraseFault, Fate, Geometry, Gone, MemNand, Nand, PageKind, ProgramFault};
use std::alloc::Global;
use std::process::Abort;

/// The data of each page.
const DATA: [u8; 512] = [7; 512];

/// The tag of each page.
const TAG: [u8; 48] = [9; 48];

/// Eight blocks of 32 pages of 512 bytes.
fn small(rt: &impl Abort, alloc: Global) -> MemNand
    ensures { IsSmall (device result) }
{
    let geometry = Geometry::new(512, 32, 8).expect(rt, "a geometry");
    MemNand::new(alloc, geometry).expect(rt, "memory")
}

/// Block 1 is erased, by call 1.
fn erased(rt: &impl Abort, alloc: Global) -> MemNand
    ensures { TakesPage 0 (device result) }
{
    let mut nand = small(rt, alloc);
    nand.erase(1).expect(rt, "an erase");
    nand
}

/// Writes the next page of block 1.
fn write(rt: &impl Abort, nand: &mut MemNand, page: u32)
    requires page { page < 32 }
    requires open { TakesPage page (device nand.old) }
    ensures { TakesPage (page + 1) (device nand.new) }
{
    nand.program(1, page, &DATA, &TAG).expect(rt, "a program");
}

/// Block 1 has five written pages, by calls 1 to 6.
fn written(rt: &impl Abort, alloc: Global) -> MemNand
    ensures { TakesPage 5 (device result) }
{
    let mut nand = erased(rt, alloc);
    write(rt, &mut nand, 0);
    write(rt, &mut nand, 1);
    write(rt, &mut nand, 2);
    write(rt, &mut nand, 3);
    write(rt, &mut nand, 4);
    nand
}

/// The same device, of which the call of this number is cut.
fn erased_cut(rt: &impl Abort, alloc: Global, call: u64, fates: Vec<Fate>) -> MemNand
    ensures { TakesPage 0 (device result) }
{
    let nand = erased(rt, alloc);
    nand.with_fuse(call, fates)
}

/// The same device, of which the calls of these numbers fail.
fn erased_failing(rt: &impl Abort, alloc: Global, failures: Vec<(u64, Vec<Fate>)>) -> MemNand
    ensures { TakesPage 0 (device result) }
{
    let nand = erased(rt, alloc);
    nand.with_failures(failures)
}

/// The same, and the call of this number is cut.
fn written_cut(rt: &impl Abort, alloc: Global, call: u64, fates: Vec<Fate>) -> MemNand
    ensures { TakesPage 5 (device result) }
{
    let nand = written(rt, alloc);
    nand.with_fuse(call, fates)
}

/// The same, and the calls of these numbers fail.
fn written_failing(rt: &impl Abort, alloc: Global, failures: Vec<(u64, Vec<Fate>)>) -> MemNand
    ensures { TakesPage 5 (device result) }
{
    let nand = written(rt, alloc);
    nand.with_failures(failures)
}

/// Whether a page of block 1 reads as this, its tag with it.
fn reads_as(rt: &impl Abort, nand: &mut MemNand, page: u32, want: PageKind) -> bool {
    let geometry = nand.geometry();
    if page >= geometry.pages() {
        return false;
    }
    let mut tag = [0; 48];
    let kind = nand.read_tag(1, page, &mut tag).expect(rt, "a read");
    let filled = if want == PageKind::Written {
        TAG
    } else {
        [0; 48]
    };
    kind == want && tag == filled
}

/// The first pages of block 1 read as these.
fn expect_pages(rt: &impl Abort, nand: &mut MemNand, want: &[PageKind; 6]) {
    for page in 0..6u32 {
        let as_wanted = reads_as(rt, nand, page, want[page as usize]);
        assert!(rt; as_wanted, "page {page}");
    }
}

/// What a program with these fates leaves of its page.
fn program_cases(rt: &impl Abort, alloc: Global) -> Vec<(Vec<Fate>, PageKind)> {
    vec![in alloc;
        (Vec::new(alloc), PageKind::Erased),
        (
            vec![in alloc; Fate::Old, Fate::New].expect(rt, "memory"),
            PageKind::Erased
        ),
        (
            vec![in alloc; Fate::New].expect(rt, "memory"),
            PageKind::Written
        ),
        (
            vec![in alloc; Fate::Erased].expect(rt, "memory"),
            PageKind::Erased
        ),
        (
            vec![in alloc; Fate::Uncorrectable].expect(rt, "memory"),
            PageKind::Uncorrectable
        ),
    ]
    .expect(rt, "memory")
}

/// Programs the first page of block 1.
fn program_first(nand: &mut MemNand) -> Result<(), ProgramFault>
    requires { TakesPage 0 (device nand.old) }
{
    nand.program(1, 0, &DATA, &TAG)
}

/// A device that is gone answers so, and counts its calls but no changes.
fn expect_counts_while_gone(rt: &impl Abort, nand: &mut MemNand) {
    assert!(rt; nand.gone());
    expect_gone(rt, nand);
    assert_eq!(rt; (nand.calls(), nand.changes()), (5, 2));
}

/// After a power-up nothing is counted, the first page of block 1 reads as this, and an erase is done.
fn expect_after_power_up(rt: &impl Abort, nand: &mut MemNand, want: PageKind) {
    nand.power_up();
    assert_eq!(rt; (nand.calls(), nand.changes()), (0, 0));
    assert!(rt; reads_as(rt, nand, 0, want), "{want:?}");
    assert_eq!(rt; nand.calls(), 1);
    erase(rt, nand, 1).expect(rt, "an erase");
}

/// The device is gone until the power-up, and then the page is as its fate says.
#[test]
fn a_cut_program_takes_the_first_fate(rt: HostRuntime) {
    for (fates, want) in program_cases(&rt, rt.alloc()) {
        let mut nand = erased_cut(&rt, rt.alloc(), 2, fates);
        assert_eq!(rt; program_first(&mut nand), Err(ProgramFault::Gone));
        expect_counts_while_gone(&rt, &mut nand);
        expect_after_power_up(&rt, &mut nand, want);
    }
}

/// The call 2 fails with these fates, and a later entry of the same number has another.
fn failures_of_call_2(rt: &impl Abort, alloc: Global, fates: Vec<Fate>) -> Vec<(u64, Vec<Fate>)> {
    let later = vec![in alloc; Fate::New].expect(rt, "memory");
    vec![in alloc; (2, fates), (2, later)].expect(rt, "memory")
}

/// The device goes on: the first page of block 1 reads as this, and an erase is done, which is the third change.
fn expect_goes_on(rt: &impl Abort, nand: &mut MemNand, want: PageKind) {
    assert!(rt; !nand.gone());
    assert!(rt; reads_as(rt, nand, 0, want), "{want:?}");
    erase(rt, nand, 1).expect(rt, "an erase");
    assert_eq!(rt; nand.changes(), 3);
}

/// The first entry of a call's number is the one that is taken.
#[test]
fn a_failed_program_takes_the_first_fate(rt: HostRuntime) {
    for (fates, want) in program_cases(&rt, rt.alloc()) {
        let failures = failures_of_call_2(&rt, rt.alloc(), fates);
        let mut nand = erased_failing(&rt, rt.alloc(), failures);
        assert_eq!(rt; program_first(&mut nand), Err(ProgramFault::Failed));
        expect_goes_on(&rt, &mut nand, want);
    }
}

/// The fates of the pages of block 1: the last two have none.
fn erase_fates(rt: &impl Abort, alloc: Global) -> Vec<Fate> {
    vec![in alloc; Fate::Old, Fate::New, Fate::Erased, Fate::Uncorrectable].expect(rt, "memory")
}

/// What these fates leave of five written pages, and of one that is erased.
const ERASE_LEAVES: [PageKind; 6] = [
    PageKind::Written,
    PageKind::Erased,
    PageKind::Erased,
    PageKind::Uncorrectable,
    PageKind::Written,
    PageKind::Erased,
];

#[test]
fn a_cut_erase_takes_a_fate_for_each_page(rt: HostRuntime) {
    let fates = erase_fates(&rt, rt.alloc());
    let mut nand = written_cut(&rt, rt.alloc(), 7, fates);
    assert_eq!(rt; erase(&rt, &mut nand, 1), Err(EraseFault::Gone));
    nand.power_up();
    expect_pages(&rt, &mut nand, &ERASE_LEAVES);
}

#[test]
fn a_failed_erase_takes_a_fate_for_each_page(rt: HostRuntime) {
    let fates = erase_fates(&rt, rt.alloc());
    let failures = vec![in rt.alloc(); (7, fates)].expect(&rt, "memory");
    let mut nand = written_failing(&rt, rt.alloc(), failures);
    assert_eq!(rt; erase(&rt, &mut nand, 1), Err(EraseFault::Failed));
    expect_pages(&rt, &mut nand, &ERASE_LEAVES);
}

#[test]
fn an_erase_leaves_all_pages_erased(rt: HostRuntime) {
    let mut nand = written(&rt, rt.alloc());
    erase(&rt, &mut nand, 1).expect(&rt, "an erase");
    expect_pages(&rt, &mut nand, &[PageKind::Erased; 6])
}

/// A device of which call 1 is cut.
fn small_cut(rt: &impl Abort, alloc: Global, fates: Vec<Fate>) -> MemNand {
    small(rt, alloc).with_fuse(1, fates)
}

/// A second mark sets it, and leaves the block before.
#[test]
fn a_cut_mark_is_set_by_new_alone(rt: HostRuntime) {
    for (fate, want) in [
        (Fate::Old, false),
        (Fate::New, true),
        (Fate::Erased, false),
        (Fate::Uncorrectable, false),
    ] {
        let fates = vec![in rt.alloc(); fate].expect(&rt, "memory");
        let mut nand = small_cut(&rt, rt.alloc(), fates);
        assert_eq!(rt; mark_bad(&rt, &mut nand, 3), Err(Gone));
        nand.power_up();
        assert_eq!(rt; is_bad(&rt, &nand, 3), want, "{fate:?}");
        mark_bad(&rt, &mut nand, 3).expect(&rt, "a mark");
        assert!(rt; is_bad(&rt, &nand, 3) && !is_bad(&rt, &nand, 2));
    }
}

/// The call of this number fails.
fn failure_of(rt: &impl Abort, alloc: Global, call: u64) -> Vec<(u64, Vec<Fate>)> {
    vec![in alloc; (call, Vec::new(alloc))].expect(rt, "memory")
}

/// The ninth call is a read, and so is the second after the power-up.
#[test]
fn a_read_can_be_cut_and_never_fails(rt: HostRuntime) {
    let mut nand = written_cut(&rt, rt.alloc(), 9, Vec::new(rt.alloc()));
    assert!(rt; reads_as(&rt, &mut nand, 0, PageKind::Written));
    assert!(rt; reads_as(&rt, &mut nand, 4, PageKind::Written));
    assert_eq!(rt; nand.read_tag(1, 0, &mut [0; 48]), Err(Gone));
    nand.power_up();
    let mut nand = nand.with_failures(failure_of(&rt, rt.alloc(), 2));
    assert!(rt; reads_as(&rt, &mut nand, 0, PageKind::Written));
    assert!(rt; reads_as(&rt, &mut nand, 0, PageKind::Written));
    assert_eq!(rt; nand.changes(), 0);
}

/// A call that is to be cut and to fail is cut.
#[test]
fn the_fuse_goes_before_a_failure(rt: HostRuntime) {
    let mut nand = small_cut(&rt, rt.alloc(), Vec::new(rt.alloc())).with_failures(failure_of(
        &rt,
        rt.alloc(),
        1,
    ));
    assert_eq!(rt; erase(&rt, &mut nand, 0), Err(EraseFault::Gone));
}

/// The next erase fails, and the one behind it is cut.
fn expect_failure_and_cut(rt: &impl Abort, nand: &mut MemNand) {
    assert_eq!(rt; erase(rt, nand, 0), Err(EraseFault::Failed));
    assert_eq!(rt; erase(rt, nand, 0), Err(EraseFault::Gone));
}

/// A copy has the plan of its device.
#[test]
fn later_plans_replace_earlier_ones(rt: HostRuntime) {
    let mut nand = small_cut(&rt, rt.alloc(), Vec::new(rt.alloc()))
        .with_fuse(3, Vec::new(rt.alloc()))
        .with_failures(failure_of(&rt, rt.alloc(), 1))
        .with_failures(failure_of(&rt, rt.alloc(), 2));
    erase(&rt, &mut nand, 0).expect(&rt, "an erase");
    let mut copy = nand.copy().expect(&rt, "memory");
    expect_failure_and_cut(&rt, &mut nand);
    expect_failure_and_cut(&rt, &mut copy);
}
