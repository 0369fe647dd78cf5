// A store on a device in memory, as a scan finds it.
ghost use Rattle.std.specs.Prelude.{◌≡◌};
ghost use Rattle.store_tests.specs.Stamped.{stamp_in};

use crate::plain::Stamps;
use chunk_index::KeyFilter;
use flash_tree::Key;
use nand_model::{Fate, Geometry, MemNand};
use page_store::{NewestPages, Store, open, the_opened_pages_are_the_newest};
use std::alloc::Global;
use std::num::NonZeroUsize;
use std::process::Abort;
use test_devices::{open_committed, open_each, open_noted};

/// What is to go wrong with a device.
#[derive(Clone, Copy, Debug)]
pub(crate) enum Trouble {
    Nothing,
    /// The power is lost at this call since the power-up.
    Cut(u64, Fate),
    /// This call fails, if it is a program or an erase.
    Failure(u64, Fate),
}

/// The device, of which this is to go wrong.
pub(crate) fn troubled(rt: &impl Abort, alloc: Global, nand: MemNand, trouble: Trouble) -> MemNand {
    match trouble {
        Trouble::Nothing => nand,
        Trouble::Cut(call, fate) => {
            nand.with_fuse(call, vec![in alloc; fate; 32].expect(rt, "memory"))
        }
        Trouble::Failure(call, fate) => {
            let fates = vec![in alloc; fate; 32].expect(rt, "memory");
            nand.with_failures(vec![in alloc; (call, fates)].expect(rt, "memory"))
        }
    }
}

/// How many calls a device has had once a store on it is opened.
pub(crate) fn calls_when_opened(rt: &impl Abort, alloc: Global, nand: &MemNand) -> u64 {
    let mut copy = nand.copy().expect(rt, "memory");
    let _opened = open_noted(alloc, &mut copy).expect(rt, "an opening");
    copy.calls()
}

/// The stamp of a key.
fn stamp_at(stamps: &[u32], key: Key) -> u32
    ensures { result ≡ stamp_in stamps.now key.object key.chunk }
{
    if key.object == 0 || key.object > 4 || key.chunk >= 12 {
        return 0;
    }
    match stamps.get((key.chunk * 4 + key.object - 1) as usize) {
        Some(stamp) => *stamp,
        None => 0,
    }
}

/// Keeps the keys that have a page in a map.
#[derive(Drop)]
struct Stamped<'a> {
    stamps: &'a [u32],
}

impl KeyFilter for Stamped<'_> {
    ghost use Rattle.store_tests.specs.Stamped.{is_stamped};

    ghost keeps = { λ filter o c. is_stamped filter.stamps.now o c };

    fn keeps(&self, key: Key) -> bool {
        stamp_at(self.stamps, key) != 0
    }

    fn keeps_all_below(&self, _object: u64, end: u64) -> bool {
        end == 0
    }
}

/// An erased device of so many blocks of 32 pages of 512 bytes.
pub(crate) fn erased(rt: &impl Abort, alloc: Global, blocks: u32) -> MemNand {
    let geometry = Geometry::new(512, 32, blocks).expect(rt, "a geometry");
    MemNand::new(alloc, geometry).expect(rt, "memory")
}

/// A store of the newest pages of a device, with so many blocks to spare and so many pages in the cache.
pub(crate) fn open_store(
    rt: &impl Abort,
    alloc: Global,
    nand: MemNand,
    spare: u32,
    capacity: usize,
) -> Store<MemNand> {
    let capacity = NonZeroUsize::new(capacity).expect(rt, "no cache");
    open_each(alloc, nand, spare, capacity).expect(rt, "a store")
}

/// The same of the keys alone that have a page in a map.
pub(crate) fn open_stamped(
    rt: &impl Abort,
    alloc: Global,
    nand: MemNand,
    map: &Stamps,
    spare: u32,
    capacity: usize,
) -> Store<MemNand> {
    let capacity = NonZeroUsize::new(capacity).expect(rt, "no cache");
    open_committed(alloc, nand, &Stamped { stamps: map }, spare, capacity).expect(rt, "a store")
}

/// The newest pages of a device, by a scan.
pub(crate) fn scanned(rt: &impl Abort, alloc: Global, mut nand: MemNand) -> NewestPages<MemNand> {
    the_opened_pages_are_the_newest();
    let opened = open(alloc, &mut nand).expect(rt, "an opening");
    match NewestPages::new(alloc, nand, opened.index) {
        Ok(pages) => pages,
        Err((_, refused)) => panic!(rt; "{refused:?}"),
    }
}
