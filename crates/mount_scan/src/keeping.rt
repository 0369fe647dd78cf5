// The newest page of each key.
ghost use Rattle.std.specs.Prelude.{◌≡◌, ◌+◌, ◌<◌, ◌≤◌, ◌↔◌, IsTrue, List, length};
ghost use Rattle.std.specs.List.{AllPairs};
ghost use Rattle.mount_scan.specs.Keys.{rank_of, IsLastAt, IsSortedBefore, Gathers, AreLatest};

use crate::page_copy::PageCopy;

/// What pages are sorted by: the key, and then what orders the pages of one key.
fn rank(found: &PageCopy) -> (u64, u32, u64, u64, u16, u16)
    ensures { result ≡ rank_of found.now }
{
    (
        found.object,
        found.chunk,
        found.version,
        found.seq,
        found.page,
        found.block,
    )
}

/// Whether the next page, if any, has another key.
fn is_last_of_key(sorted: &[PageCopy], i: usize) -> bool
    requires { i < length sorted.now }
    ensures { IsTrue result ↔ IsLastAt sorted.now i }
{
    let here = &sorted[i];
    match sorted.get(i + 1) {
        Some(next) => next.object != here.object || next.chunk != here.chunk,
        None => true,
    }
}

/// Moves a page to the end of the `committed` ones in front, if it is the last of its key, and returns how many these are
/// then.
fn gather_at(sorted: &mut Vec<PageCopy>, i: usize, committed: usize) -> usize
    requires i { i < length sorted.old.items }
    requires committed { committed ≤ i }
    ensures { (first : List PageCopy) → AllPairs IsSortedBefore first → Gathers first i sorted.old.items committed → Gathers first (i + 1) sorted.new.items result }
{
    if is_last_of_key(sorted, i) {
        sorted[committed] = sorted[i];
        committed + 1
    } else {
        committed
    }
}

/// Moves the last page of each key to the front, and returns how many these are.
fn gather_last(sorted: &mut Vec<PageCopy>) -> usize
    requires { AllPairs IsSortedBefore sorted.old.items }
    ensures { Gathers sorted.old.items (length sorted.old.items) sorted.new.items result }
{
    let mut committed = 0;
    for i in 0..sorted.len() {
        committed = gather_at(sorted, i, committed);
    }
    committed
}

/// Keeps of the pages of each key the newest, and takes no memory.
pub(crate) fn keep_newest(list: &mut Vec<PageCopy>)
    ensures { AreLatest list.old.items list.new.items }
{
    list.sort_unstable_by_key(rank);
    let committed = gather_last(list);
    list.truncate(committed);
}
