// Sessions over the flash of which each call of the pages that may take memory is refused in turn.

use crate::RefusingPages;
use crate::devices::formatted;
use crate::expected::{Expected, expected_of};
use crate::power_losses::SESSION;
use crate::refused::{FILE, TREE};
use crate::served::mount;
use command_plans::table::DescriptorTable;
use mounting::Mounted;
use nand_model::{MemNand, TrustedNand};
use page_store::FlashPages;
use paged_objects::PagedObjects;
use plain_volume::Answers;
use posix_calls::{Command, Errno, PageVolume, Reply, Stamped};
use std::alloc::Global;
use std::num::NonZeroUsize;
use std::process::Abort;

/// A volume over the pages of a flash, of which one call is refused.
#[derive(Drop)]
struct Refusing {
    volume: PageVolume<RefusingPages<FlashPages<TrustedNand<MemNand>>>>,
}

impl Answers for Refusing {
    ghost serves = { λ old command reply new. Unit {0} };

    ghost shows = { λ _ _ _ _. ⊥ };

    fn answer(&mut self, stamped: &Stamped) -> Reply {
        self.volume.ask(&stamped.as_request())
    }

    ghost sound = { λ v z read_only s shown. absurd shown };
}

/// A volume over the pages of a mount, which refuse memory after so many calls.
fn volume_over(
    rt: &impl Abort,
    alloc: Global,
    mounted: Mounted<TrustedNand<MemNand>>,
    calls: u64,
) -> Refusing {
    let Mounted {
        pages,
        table,
        names,
        read_only,
    } = mounted;
    let pages = RefusingPages::new(pages, calls);
    let objects = PagedObjects::new(alloc, pages, table, names);
    let descriptors = DescriptorTable::new(alloc).expect(rt, "memory");
    let volume = PageVolume::new(alloc, objects, descriptors, read_only);
    Refusing { volume }
}

/// Mounts a device as it is, with a cache of one page.
fn mount_refusing(rt: &impl Abort, alloc: Global, nand: MemNand, calls: u64) -> Refusing {
    match mounting::mount(alloc, nand, NonZeroUsize::MIN) {
        Ok(mounted) => volume_over(rt, alloc, mounted, calls),
        Err((_nand, fault)) => panic!(rt; "{fault:?}"),
    }
}

/// The device as it is, and whether a call was refused.
fn into_device(refusing: Refusing) -> (MemNand, bool) {
    let (pages, is_refused) = refusing.volume.into_pages().into_inner();
    (pages.into_device().into_inner(), is_refused)
}

/// Whether a command may be answered by ENOMEM.
fn takes_memory(command: &Command) -> bool {
    !matches!(
        command,
        Command::Close { .. }
            | Command::Seek { .. }
            | Command::Fsync { .. }
            | Command::Sync
            | Command::Space
    )
}

/// Does the commands of a expected. One that is refused memory leaves the tree, and is done once more. Gives how many were refused.
fn do_commands(
    rt: &impl Abort,
    alloc: Global,
    refusing: &mut Refusing,
    expected: &Expected,
) -> u32 {
    let mut refused = 0u32;
    for (number, stamped) in expected.commands.iter().enumerate() {
        let mut reply = refusing.answer(stamped);
        if matches!(reply, Reply::Error(Errno::ENOMEM)) {
            refused = refused.saturating_add(1);
            assert!(rt; takes_memory(&stamped.command), "{number}");
            assert!(rt; expected.has_tree(rt, refusing, number, number), "{number}");
            reply = refusing.answer(stamped);
        }
        expected.expect_reply(rt, alloc, number, &reply);
    }
    refused
}

/// Does the session of a expected with a call refused: one command is answered by ENOMEM then. A mount shows the tree after all. Reports
/// whether there is such a call.
fn refuse_at(
    rt: &impl Abort,
    alloc: Global,
    nand: &MemNand,
    expected: &Expected,
    calls: u64,
) -> bool {
    let mut refusing = mount_refusing(rt, alloc, nand.copy().expect(rt, "memory"), calls);
    let refused = do_commands(rt, alloc, &mut refusing, expected);
    let (mut nand, is_refused) = into_device(refusing);
    assert_eq!(rt; refused, u32::from(is_refused), "{calls}");
    nand.power_up();
    let count = expected.commands.len();
    let mut served = mount(rt, alloc, nand, 16);
    assert!(rt; expected.has_tree(rt, &mut served, count, count), "{calls}");
    is_refused
}

/// Refuses each call of a session of these lines and a sync. Gives how many there are.
fn refuse_each(rt: &impl Abort, alloc: Global, lines: &str) -> u64 {
    let nand = formatted(rt, alloc);
    let expected = expected_of(
        rt,
        alloc,
        &format!(in alloc; "{lines}\nsync").expect(rt, "memory"),
    );
    for calls in 0..1000 {
        if !refuse_at(rt, alloc, &nand, &expected, calls) {
            return calls;
        }
    }
    panic!(rt; "too many calls")
}

/// Each command but a few makes such a call.
#[test]
fn each_call_of_the_pages_is_refused_in_turn(rt: HostRuntime) {
    let alloc = rt.alloc();
    for (lines, least) in [(FILE, 4), (TREE, 19), (SESSION, 24)] {
        let calls = refuse_each(&rt, alloc, lines);
        assert!(&rt; calls >= least, "{calls}");
    }
}
