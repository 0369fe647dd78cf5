// The whole groups in the tags of a block.
ghost use Rattle.std.specs.Prelude.{◌≡◌, ◌+◌, ◌<◌, ◌≤◌, ◌↔◌, ℕ, List, Some, IsTrue, IfOk, OnOk, length, slice_get};
ghost use Rattle.mount_scan.specs.Steps.{Extends};
ghost use Rattle.mount_scan.specs.Runs.{IsPartOf, IsRun, IsWithinRun, Reaches, AddsPage, AddsCounted};

use flash_tree::Found;
use page_tags::Tag;
use std::alloc::AllocError;

/// Whether page `start + i` is page `i` of the group that a tag names.
fn is_part(tags: &[Option<Tag>], start: usize, first: &Tag, i: u32) -> bool
    requires { start < length tags.now }
    ensures { IsTrue result ↔ IsPartOf tags.now start first.now i }
{
    match tags.get(start + i as usize) {
        Some(Some(tag)) => {
            tag.index == i
                && tag.count == first.count
                && tag.group == first.group
                && tag.seq == first.seq
        }
        Some(None) => false,
        None => false,
    }
}

/// Whether the group that the tag of a page names begins there and is whole. It ends at the first page that is no part
/// of it, so that for all pages of a block together it takes time in proportion to these.
fn is_run(tags: &[Option<Tag>], start: usize, first: &Tag) -> bool
    requires { slice_get tags.now start ≡ Some (Some first.now) }
    ensures { IsTrue result ↔ IsRun tags.now start first.now }
{
    for i in 0..first.count {
        if !is_part(tags, start, first, i) {
            return false;
        }
    }
    true
}

/// The end of the whole group that begins at a page, or 0 where none does.
fn run_end(tags: &[Option<Tag>], start: usize) -> usize
    requires { start < length tags.now }
    ensures { (page : ℕ) → start ≤ page → page < result ↔ IsWithinRun tags.now start page }
{
    match tags[start] {
        Some(first) if is_run(tags, start, &first) => start + first.count as usize,
        _ => 0,
    }
}

/// Adds a page with its tag, if it has one.
fn add_found(
    block: u32,
    tags: &[Option<Tag>],
    page: usize,
    valid_pages: &mut Vec<Found>,
) -> Result<(), AllocError>
    requires within_limit { length tags.now ≤ 256 }
    requires page { page < length tags.now }
    ensures { OnOk result (AddsPage block tags.now page valid_pages.old.items valid_pages.new.items) }
{
    if let Some(tag) = tags[page] {
        let page = page as u32;
        valid_pages.push(Found { block, page, tag })?;
    }
    Ok(())
}

/// Adds a page if it counts. `end` is how far the whole groups reach that begin before it; the answer is how far those
/// reach that begin up to it.
fn add_page(
    block: u32,
    tags: &[Option<Tag>],
    page: usize,
    end: usize,
    valid_pages: &mut Vec<Found>,
) -> Result<usize, AllocError>
    requires within_limit { length tags.now ≤ 256 }
    requires page { page < length tags.now }
    requires reach { Reaches tags.now page page end }
    ensures reach { IfOk result (Reaches tags.now (page + 1) (page + 1)) }
    ensures added { (first : List Found) → Extends (λ p. AddsCounted block tags.now p first) page valid_pages.old.items valid_pages.new.items result }
{
    let end = end.max(run_end(tags, page));
    if page < end {
        add_found(block, tags, page, valid_pages)?;
    }
    Ok(end)
}

/// Sees that a list has room for so many pages more. It grows by an eighth, and by these pages at the least.
fn make_room(valid_pages: &mut Vec<Found>, pages: usize) -> Result<(), AllocError>
    ensures { valid_pages.new.items ≡ valid_pages.old.items }
{
    if pages <= valid_pages.capacity() - valid_pages.len() {
        return Ok(());
    }
    valid_pages.reserve_exact(pages.max(valid_pages.len() / 8))
}

/// Adds the pages of a block that count, from its tags.
pub(crate) fn add_counted(
    block: u32,
    tags: &[Option<Tag>],
    valid_pages: &mut Vec<Found>,
) -> Result<(), AllocError>
    requires { length tags.now ≤ 256 }
    ensures { OnOk result (AddsCounted block tags.now (length tags.now) valid_pages.old.items valid_pages.new.items) }
{
    make_room(valid_pages, tags.len())?;
    let mut end = 0;
    for page in 0..tags.len() {
        end = add_page(block, tags, page, end, valid_pages)?;
    }
    Ok(())
}
