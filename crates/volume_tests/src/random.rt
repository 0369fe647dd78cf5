// Random commands, on a volume and on a plain tree beside it.

use crate::devices::formatted;
use crate::expected::{commands_of, new_tree, step, text_of};
use crate::rows::expect;
use crate::served::{Served, mount};
use plain_volume::{Answers, PlainTree};
use posix_calls::Stamped;
use rand_core::{Rng, SeedableRng};
use rand_pcg::Lcg128Xsl64;
use std::alloc::{AllocError, Global};
use std::process::Abort;

/// Lines in which a path is in place of each `P`, a descriptor for `F`, a number below 4,000 for `N`, and some bytes for `X`.
const LINES: [&str; 30] = [
    "now N",
    "open P rwc",
    "open P rwc",
    "open P wct",
    "open P rwca",
    "open P wcx",
    "open P rw",
    "open P r",
    "open P rt",
    "close F",
    "read F N",
    "write F X",
    "write F X",
    "write F X",
    "seek F N set",
    "seek F -N cur",
    "seek F N end",
    "truncate F N",
    "truncate F -N",
    "fsync F",
    "sync",
    "stat P",
    "mkdir P",
    "mkdir P",
    "rmdir P",
    "link P P",
    "unlink P",
    "rename P P",
    "list P",
    "space",
];

const PATHS: [&str; 9] = ["/", "/a", "/b", "/c", "/d", "/a/a", "/a/b", "/a/c", "/a/d"];

const TEXTS: [&str; 4] = ["x", "yy", "\\x00z", "12345678"];

/// A number below a bound that is not 0.
fn below(random: &mut Lcg128Xsl64, bound: u64) -> u64 {
    random.next_u64() % bound.max(1)
}

/// One of some texts.
fn one_of(random: &mut Lcg128Xsl64, texts: &[&'static str]) -> &'static str {
    let place = below(random, texts.len() as u64);
    match texts.get(place as usize) {
        Some(text) => text,
        None => "",
    }
}

fn push_number(alloc: Global, lines: &mut String, number: u64) -> Result<(), AllocError> {
    let text = format!(in alloc; "{number}")?;
    lines.push_str(&text)
}

/// Adds a text, repeated so many times, and nothing after it.
fn push_bytes(alloc: Global, lines: &mut String, text: &str, count: u64) -> Result<(), AllocError> {
    let text = text.repeat(alloc, count as usize)?;
    lines.push_str(&text)?;
    lines.push_str("\\e")
}

/// Adds what a letter represents, at random.
fn push_word(
    alloc: Global,
    lines: &mut String,
    random: &mut Lcg128Xsl64,
    letter: char,
) -> Result<(), AllocError> {
    match letter {
        'P' => lines.push_str(one_of(random, &PATHS)),
        'F' => push_number(alloc, lines, below(random, 5)),
        'N' => push_number(alloc, lines, below(random, 4000)),
        'X' => {
            let text = one_of(random, &TEXTS);
            push_bytes(alloc, lines, text, below(random, 400))
        }
        _ => lines.push(letter),
    }
}

/// Adds a random line.
fn push_line(
    alloc: Global,
    lines: &mut String,
    random: &mut Lcg128Xsl64,
) -> Result<(), AllocError> {
    for letter in one_of(random, &LINES).chars() {
        push_word(alloc, lines, random, letter)?;
    }
    lines.push('\n')
}

/// So many random commands.
fn random_commands(rt: &impl Abort, alloc: Global, seed: u64, count: u32) -> Vec<Stamped> {
    let mut random = Lcg128Xsl64::seed_from_u64(seed);
    let mut lines = String::new(alloc);
    for _ in 0..count {
        push_line(alloc, &mut lines, &mut random).expect(rt, "memory");
    }
    commands_of(rt, alloc, &lines)
}

/// Does a command in both, which tell the same. Returns whether it was done.
fn do_both(
    rt: &impl Abort,
    alloc: Global,
    served: &mut Served,
    tree: &mut PlainTree,
    stamped: &Stamped,
) -> bool {
    let wanted = step(rt, alloc, tree, stamped);
    let answers = text_of(rt, alloc, &served.answer(stamped));
    assert_eq!(rt; answers.as_str(), wanted.as_str(), "{stamped:?}");
    !answers.starts_with("error")
}

/// Unmounts, and mounts again, by the checkpoint; or loses power after a sync, and mounts again, by a scan.
fn mount_again(
    rt: &impl Abort,
    alloc: Global,
    mut served: Served,
    capacity: usize,
    is_unmounted: bool,
) -> Served {
    let mut nand = if is_unmounted {
        let (nand, is_done) = served.unmount();
        assert!(rt; is_done);
        nand
    } else {
        expect(rt, alloc, &mut served, "sync -> ok");
        served.abandon()
    };
    nand.power_up();
    mount(rt, alloc, nand, capacity)
}

/// Each fifty commands are followed by an unmount or a loss of power, in turn, and a mount.
#[test]
fn a_volume_reports_what_a_plain_tree_does(rt: HostRuntime) {
    let alloc = rt.alloc();
    for (seed, capacity) in [(1u64, 1usize), (1, 16), (2, 2)] {
        let mut tree = new_tree(&rt, alloc);
        let mut served = mount(&rt, alloc, formatted(&rt, alloc), capacity);
        let mut done = 0u32;
        for (turn, commands) in random_commands(&rt, alloc, seed, 1100)
            .chunks(50)
            .enumerate()
        {
            for stamped in commands {
                if do_both(&rt, alloc, &mut served, &mut tree, stamped) {
                    done = done.saturating_add(1);
                }
            }
            served = mount_again(&rt, alloc, served, capacity, turn % 2 == 0);
            tree.settle().expect(&rt, "memory");
        }
        // Enough of them are not refused.
        assert!(rt; done > 300, "{done}");
    }
}
