// Two plain maps, beside which a store is compared.

use crate::edits::{Edit, KEYS, apply, key_of, stamp_of};
use nand_model::MemNand;
use page_store::Store;
use pages::{Cut, PageStore, Pages, Presence};
use std::alloc::Global;
use std::process::Abort;
use volume_terms::StoreFault;

/// How many pages are buffered at most.
const MOST: usize = 8;

/// For each key the stamp of its page, 0 where it has none.
pub(crate) type Stamps = [u32; KEYS];

/// What is committed, what is present, and which keys are buffered.
#[derive(Clone, Copy)]
pub(crate) struct Plain {
    pub committed: Stamps,
    pub present: Stamps,
    pub buffered: [bool; KEYS],
}

/// What is done with a store.
#[derive(Clone, Copy, Debug)]
pub(crate) enum Step {
    Change(Edit),
    Cut(Cut),
    Commit,
    Read(usize),
}

/// Whether each page of a map is found.
pub(crate) fn are_found(map: &Stamps, found: &Stamps) -> bool {
    map.iter()
        .zip(found.iter())
        .all(|(wanted, stamp)| *wanted == 0 || wanted == stamp)
}

impl Plain {
    /// These pages are committed, and none are buffered.
    pub fn new(committed: Stamps) -> Plain {
        Plain {
            committed,
            present: committed,
            buffered: [false; KEYS],
        }
    }

    pub fn commit(&mut self) {
        *self = Plain::new(self.present);
    }

    /// How many pages are buffered with those of an edit.
    fn count_with(&self, edit: Edit) -> usize {
        let mut buffered = self.buffered;
        for place in 0..edit.count {
            if let Some(slot) = buffered.get_mut(edit.page(place).0) {
                *slot = true;
            }
        }
        buffered.iter().filter(|buffered| **buffered).count()
    }

    /// What a cut takes is absent.
    pub fn cut(&mut self, cut: Cut) {
        for number in 0..KEYS {
            if cut.takes(key_of(number)) {
                self.present[number] = 0;
                self.buffered[number] = false;
            }
        }
    }

    /// The pages of an edit are present, and buffered.
    fn put(&mut self, edit: Edit) {
        for place in 0..edit.count {
            let (number, stamp) = edit.page(place);
            if number < KEYS {
                self.present[number] = stamp;
                self.buffered[number] = true;
            }
        }
    }

    pub fn change(&mut self, edit: Edit) {
        if self.count_with(edit) > MOST {
            self.commit();
        }
        if let Some(cut) = edit.cut {
            self.cut(cut);
        }
        self.put(edit);
    }
}

/// The stamp of the page of a key, 0 where it has none.
pub(crate) fn read<P: Pages>(pages: &mut P, number: usize) -> Result<u32, StoreFault> {
    Ok(match pages.find(key_of(number))? {
        Presence::Present => stamp_of(pages.page()),
        Presence::Absent => 0,
    })
}

/// The stamps of all keys.
pub(crate) fn read_all<P: Pages>(rt: &impl Abort, pages: &mut P) -> Stamps {
    let mut stamps = [0; KEYS];
    for number in 0..KEYS {
        stamps[number] = read(pages, number).expect(rt, "a read");
    }
    stamps
}

/// Takes a step with a store and, where the store took it, with the plain maps.
pub(crate) fn take_step(
    rt: &impl Abort,
    alloc: Global,
    store: &mut Store<MemNand>,
    plain: &mut Plain,
    step: Step,
) -> Result<(), StoreFault> {
    match step {
        Step::Change(edit) => {
            if let Err(fault) = apply(rt, store, edit.change(rt, alloc)) {
                return Err(fault);
            }
            plain.change(edit);
        }
        Step::Cut(cut) => {
            if let Err(fault) = store.cut(cut) {
                return Err(fault);
            }
            plain.cut(cut);
        }
        Step::Commit => {
            if let Err(fault) = store.commit() {
                return Err(fault);
            }
            plain.commit();
        }
        Step::Read(number) => match read(store, number) {
            Ok(stamp) => {
                let wanted = plain.present.get(number).copied();
                assert_eq!(rt; Some(stamp), wanted, "the page of key {number}");
            }
            Err(fault) => return Err(fault),
        },
    }
    Ok(())
}
