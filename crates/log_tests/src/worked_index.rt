// An index through all of its calls, each reply worked by hand.
ghost use Rattle.std.specs.Prelude.{◌≡◌, ◌<◌, ◌≤◌, ◌^◌, ℕ};
ghost use Rattle.block_state.specs.TableOf.{table};
ghost use Rattle.chunk_index.specs.Maps.{present, CountsAgree};
ghost use Rattle.chunk_index.specs.declared.form.Present.TheVariants as presents;

use crate::same::assert_same;
use block_state::Blocks;
use chunk_index::{
    CommittedKey, CommittedPage, Form, Index, KeyFilter, PagePlace, Present, WrittenGroup,
};
use flash_tree::Key;
use nand_model::Geometry;
use std::alloc::{AllocError, Global};
use std::process::Abort;

/// An index with the blocks that it counts in: eight of 32 pages, and at most eight pages in the buffer.
#[derive(Drop)]
struct Store {
    index: Index,
    blocks: Blocks,
    ghost agree: { CountsAgree (table blocks) index },
    ghost within_limit: { (o c i : ℕ) → present index o c ≡ presents.InBuffer i → i < 8 },
    ghost eight: { (table blocks).geometry.blocks ≡ 8 },
    ghost pages: { (table blocks).geometry.pages ≡ 32 },
}

impl Store {
    /// No key is committed or present.
    fn new(rt: &impl Abort, alloc: Global) -> Store {
        let geometry = Geometry::new(512, 32, 8).expect(rt, "a geometry");
        let blocks = Blocks::new(alloc, geometry).expect(rt, "memory");
        Store {
            index: Index::new(alloc),
            blocks,
        }
    }

    /// A page of the buffer is the present one of a key.
    fn buffer(&mut self, rt: &impl Abort, key: Key, page: u32)
        requires low { key.chunk < 2 ^ 32 }
        requires page { page < 8 }
    {
        self.index.prepare(key).expect(rt, "memory");
        self.index.place(key, Form::Buffered(page));
    }

    /// The buffer was written from a page of a block on, under this number.
    fn settle(&mut self, block: u32, first: u32, number: u64)
        requires block { block < 8 }
        requires first { first ≤ 24 }
    {
        let group = WrittenGroup {
            block,
            first,
            number,
        };
        self.index.settle_group(group, &mut self.blocks);
    }

    /// The committed page of a key, if there is one, was copied to another place.
    fn copy(&mut self, key: Key, place: PagePlace)
        requires block { place.block < 8 }
        requires page { place.page < 32 }
    {
        match self.index.committed(key) {
            Some(_) => self.index.copied(key, place, &mut self.blocks),
            None => {}
        }
    }

    /// There is room for the present page of a key.
    fn prepare(&mut self, key: Key) -> Result<(), AllocError>
        requires { key.chunk < 2 ^ 32 }
    {
        self.index.prepare(key)
    }

    /// Only these keys stay.
    fn retain(&mut self, filter: &UpTo) {
        self.index.retain(filter, &mut self.blocks);
    }

    /// Nothing of an object is present from a chunk on.
    fn cut(&mut self, object: u64, from: u64) {
        self.index.cut(object, from);
    }

    /// Nothing of an object is present.
    fn forget(&mut self, object: u64) {
        self.index.forget(object);
    }

    /// How many keys are committed in a block.
    fn count(&self, block: u32) -> u32
        requires { block < 8 }
    {
        self.blocks.entry(block).committed
    }
}

/// Keeps the chunks of one object up to one.
struct UpTo {
    object: u64,
    last: u64,
}

impl KeyFilter for UpTo {
    ghost use Rattle.std.specs.Prelude.{◌&&◌, not, nat_eq, nat_lt};

    ghost keeps = { λ filter o c. nat_eq o filter.object && not (nat_lt filter.last c) };

    fn keeps(&self, key: Key) -> bool {
        key.object == self.object && key.chunk <= self.last
    }

    fn keeps_all_below(&self, object: u64, end: u64) -> bool {
        object == self.object && end <= self.last
    }
}

/// The key of a chunk of an object.
fn key(object: u64, chunk: u64) -> Key
    ensures { result.chunk ≡ chunk }
{
    Key { object, chunk }
}

/// A committed page at a place, in a version.
fn at(block: u32, page: u32, version: u64) -> CommittedPage {
    CommittedPage {
        block,
        page,
        version,
    }
}

/// Asserts what is present of some keys.
fn expect_present(rt: &impl Abort, index: &Index, wanted: &[(Key, Present)]) {
    for (key, present) in wanted {
        assert_same!(rt; index.present(*key), *present, *key);
    }
}

/// Asserts which page is committed of each of some keys.
fn expect_committed(rt: &impl Abort, index: &Index, wanted: &[(Key, Option<CommittedPage>)]) {
    for (key, committed) in wanted {
        assert_same!(rt; index.committed(*key), *committed, *key);
    }
}

/// Keys of two objects, from the buffer to the flash and away.
#[test]
fn a_group_is_settled_copied_and_forgotten(rt: HostRuntime) {
    let mut store = Store::new(&rt, rt.alloc());
    store.buffer(&rt, key(5, 0), 0);
    store.buffer(&rt, key(5, 2), 1);
    store.buffer(&rt, key(1, 0), 2);
    expect_present(&rt, &store.index, &[(key(5, 2), Present::InBuffer(1))]);
    expect_committed(&rt, &store.index, &[(key(5, 2), None)]);
    store.settle(3, 10, 7);
    expect_committed(&rt, &store.index, &[(key(5, 0), Some(at(3, 10, 7)))]);
    let settled = [
        (key(1, 0), Present::OnFlash(at(3, 12, 7))),
        (key(5, 1), Present::Absent),
    ];
    expect_present(&rt, &store.index, &settled);
    assert_same!(&rt; store.count(3), 3);
    store.copy(key(1, 0), PagePlace { block: 4, page: 1 });
    expect_committed(&rt, &store.index, &[(key(1, 0), Some(at(4, 1, 7)))]);
    assert_same!(&rt; [store.count(3), store.count(4)], [2, 1]);
    store.buffer(&rt, key(5, 1), 0);
    store.cut(5, 2);
    let cut = [
        (key(5, 1), Present::InBuffer(0)),
        (key(5, 2), Present::Absent),
    ];
    expect_present(&rt, &store.index, &cut);
    expect_committed(&rt, &store.index, &[(key(5, 2), Some(at(3, 11, 7)))]);
    store.forget(1);
    store.settle(6, 7, 8);
    let left = [
        (key(5, 1), Some(at(6, 7, 8))),
        (key(5, 2), None),
        (key(1, 0), None),
    ];
    expect_committed(&rt, &store.index, &left);
    assert_same!(&rt; [store.count(3), store.count(4), store.count(6)], [1, 0, 1]);
}

/// A key with its committed page.
fn committed(key: Key, at: CommittedPage) -> Option<CommittedKey> {
    Some(CommittedKey { key, at })
}

/// Asserts which committed key is next after each of some keys.
fn expect_next(rt: &impl Abort, index: &Index, wanted: &[(Option<Key>, Option<CommittedKey>)]) {
    for (after, next) in wanted {
        assert_same!(rt; index.next_committed(*after), *next, *after);
    }
}

/// Asserts which committed key comes after so many.
fn expect_after(rt: &impl Abort, index: &Index, wanted: &[(u32, Option<CommittedKey>)]) {
    for (count, next) in wanted {
        let mut keys = index.committed_from(*count);
        assert_same!(rt; keys.next(), *next, *count);
    }
}

/// The committed keys in their order, before and after all but one object's first chunks go.
#[test]
fn keys_come_in_order_and_some_stay(rt: HostRuntime) {
    let mut store = Store::new(&rt, rt.alloc());
    store.buffer(&rt, key(5, 2), 0);
    store.buffer(&rt, key(1, 9), 1);
    store.buffer(&rt, key(5, 0), 2);
    store.settle(3, 10, 7);
    store.buffer(&rt, key(2, 0), 0);
    let second = committed(key(5, 0), at(3, 12, 7));
    let order = [
        (None, committed(key(1, 9), at(3, 11, 7))),
        (Some(key(1, 9)), second),
        (Some(key(3, 7)), second),
        (Some(key(5, 0)), committed(key(5, 2), at(3, 10, 7))),
        (Some(key(5, 2)), None),
    ];
    expect_next(&rt, &store.index, &order);
    let after = [
        (0, committed(key(1, 9), at(3, 11, 7))),
        (1, second),
        (2, committed(key(5, 2), at(3, 10, 7))),
        (9, None),
    ];
    expect_after(&rt, &store.index, &after);
    store.retain(&UpTo { object: 5, last: 1 });
    expect_next(
        &rt,
        &store.index,
        &[(None, second), (Some(key(5, 0)), None)],
    );
    expect_present(&rt, &store.index, &[(key(2, 0), Present::Absent)]);
    assert_same!(&rt; store.count(3), 1);
    store.settle(4, 0, 8);
    let left = [(key(5, 0), Some(at(3, 12, 7))), (key(2, 0), None)];
    expect_committed(&rt, &store.index, &left);
}

/// Run it with each allocation of the preparation refused in turn.
#[test]
fn a_refused_preparation_changes_nothing(rt: HostRuntime) {
    let mut store = Store::new(&rt, rt.alloc());
    store.buffer(&rt, key(5, 0), 0);
    store.settle(3, 10, 7);
    if store.prepare(key(6, 0)).is_err() {
        let left = [(key(5, 0), Some(at(3, 10, 7))), (key(6, 0), None)];
        expect_committed(&rt, &store.index, &left);
        expect_present(&rt, &store.index, &[(key(6, 0), Present::Absent)]);
        store.prepare(key(6, 0)).expect(&rt, "memory");
    }
    expect_present(&rt, &store.index, &[(key(6, 0), Present::Absent)]);
    store.buffer(&rt, key(6, 0), 1);
    let present = [
        (key(6, 0), Present::InBuffer(1)),
        (key(5, 0), Present::OnFlash(at(3, 10, 7))),
    ];
    expect_present(&rt, &store.index, &present);
}
