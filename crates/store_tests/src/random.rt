// Steps at random, beside two plain maps.

use crate::edits::{Edit, KEYS};
use crate::opening::{erased, open_store, scanned};
use crate::plain::{Plain, Step, are_found, read_all, take_step};
use pages::Cut;
use rand_core::utils::NextWord;
use rand_pcg::Pcg32;

/// A cut of an object from a chunk on.
fn random_cut(random: &mut Pcg32) -> Cut {
    let word = random.next_word();
    Cut {
        object: 1 + u64::from(word / 8 % 4),
        from: u64::from(word / 32 % 12),
    }
}

/// A step, whose pages have stamps from this one on.
pub(crate) fn random_step(random: &mut Pcg32, stamp: u32) -> Step {
    let number = random.next_word() as usize % KEYS;
    match random.next_word() % 16 {
        0..8 => Step::Change(Edit {
            cut: (random.next_word() % 8 == 0).then_some(random_cut(random)),
            first: number,
            count: random.next_word() as usize % 5,
            stamp,
        }),
        8 => Step::Commit,
        9 => Step::Cut(random_cut(random)),
        _ => Step::Read(number),
    }
}

#[test]
fn a_store_has_the_pages_of_plain_maps(rt: HostRuntime) {
    let alloc = rt.alloc();
    for capacity in [1, 2, 16] {
        let mut random = Pcg32::new(42, 54);
        let nand = erased(&rt, alloc, 8);
        let mut store = open_store(&rt, alloc, nand, 2, capacity);
        let mut plain = Plain::new([0; KEYS]);
        for number in 0..100_000u32 {
            let next = random_step(&mut random, 1 + number * 8);
            let taken = take_step(&rt, alloc, &mut store, &mut plain, next);
            assert_eq!(rt; taken, Ok(()), "step {number}, {next:?}");
        }
        assert_eq!(rt; read_all(&rt, &mut store), plain.present);
        let mut nand = store.into_device();
        nand.power_up();
        let newest = read_all(&rt, &mut scanned(&rt, alloc, nand));
        assert!(rt; are_found(&plain.committed, &newest));
    }
}
