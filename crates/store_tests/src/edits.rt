// Changes of a store, put together page by page.

use flash_tree::{FreshPage, Key};
use nand_model::MemNand;
use page_store::Store;
use pages::{Cut, PageStore};
use std::alloc::Global;
use std::process::Abort;
use test_devices::{Apart, fits};
use volume_terms::StoreFault;

/// How many keys there are, and how many an object has.
pub(crate) const KEYS: usize = 48;

const CHUNKS: u64 = 12;

/// The key of a number.
pub(crate) fn key_of(number: usize) -> Key {
    Key {
        object: 1 + number as u64 % 4,
        chunk: number as u64 / 4 % CHUNKS,
    }
}

/// A page of a key. No other has its stamp.
fn page_of(rt: &impl Abort, alloc: Global, key: Key, stamp: u32) -> FreshPage {
    let mut bytes = vec![in alloc; (stamp % 256) as u8; 512].expect(rt, "memory");
    for (place, byte) in bytes.iter_mut().zip(stamp.to_le_bytes()) {
        *place = byte;
    }
    FreshPage { key, bytes }
}

/// The stamp of a page, or the greatest where it is none that was made.
pub(crate) fn stamp_of(bytes: &[u8]) -> u32 {
    match bytes {
        [a, b, c, d, rest @ ..] => {
            if rest.iter().all(|byte| byte == a) {
                u32::from_le_bytes([*a, *b, *c, *d])
            } else {
                u32::MAX
            }
        }
        _ => u32::MAX,
    }
}

/// What a cut takes, and then so many pages of different keys, from the one of this number on.
#[derive(Clone, Copy, Debug)]
pub(crate) struct Edit {
    pub cut: Option<Cut>,
    pub first: usize,
    pub count: usize,
    pub stamp: u32,
}

impl Edit {
    /// The number of the key of a page, and the page's stamp.
    pub fn page(self, place: usize) -> (usize, u32) {
        let number = self.first % KEYS + place % KEYS * 7;
        (
            number % KEYS,
            self.stamp.saturating_add((place % KEYS) as u32),
        )
    }

    /// The change.
    pub fn change(self, rt: &impl Abort, alloc: Global) -> Apart {
        let mut apart = Apart::new(alloc, self.cut).expect(rt, "memory");
        for place in 0..self.count {
            let (number, stamp) = self.page(place);
            let page = page_of(rt, alloc, key_of(number), stamp);
            apart = apart.with(alloc, page).expect(rt, "memory");
        }
        apart
    }
}

/// The change of the pages of the keys of these numbers, all with one stamp.
pub(crate) fn change_of(rt: &impl Abort, alloc: Global, numbers: &[usize], stamp: u32) -> Apart {
    let mut apart = Apart::new(alloc, None).expect(rt, "memory");
    for number in numbers {
        let page = page_of(rt, alloc, key_of(*number), stamp);
        apart = apart.with(alloc, page).expect(rt, "memory");
    }
    apart
}

/// Makes a change.
pub(crate) fn apply(
    rt: &impl Abort,
    store: &mut Store<MemNand>,
    apart: Apart,
) -> Result<(), StoreFault> {
    let Apart { change } = apart;
    assert!(rt; fits(store, &change));
    store.apply(change)
}
