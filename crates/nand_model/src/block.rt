// The blocks of a device in memory.
ghost use Rattle.std.specs.Prelude.{◌≡◌, ◌≢◌, ◌<◌, ◌≤◌, ℕ, List, length, vec_len, false, None, IfOk};
ghost use Rattle.nand_model.specs.Flash.{Erased};
ghost use Rattle.nand_model.specs.Plans.{programmed, erased, marked, erase_result};
ghost use Rattle.nand_model.specs.Calls.{EraseLeaves};
ghost use Rattle.nand_model.specs.Memory.{page_of, view_at, size_at, pages_at, bad_at, next_at};

use crate::fate::Fate;
use crate::nand::PageKind;
use crate::plan::{End, fate_in};
use std::alloc::{AllocError, Global};

#[derive(Drop)]
pub(crate) struct MemPage {
    pub kind: PageKind,
    pub bytes: Vec<u8>,
    pub tag: [u8; 48],
}

#[derive(Drop)]
pub(crate) struct MemBlock {
    pub bad: bool,
    pub next: Option<u32>,
    pub pages: Vec<MemPage>,
}

/// What a program makes of its page.
pub(crate) fn kind_after_program(end: End, fates: &[Fate]) -> PageKind
    ensures { (bytes tag : List ℕ) → page_of result bytes tag ≡ programmed end fates.now bytes tag }
{
    if end == End::Whole {
        return PageKind::Written;
    }
    match fate_in(fates, 0) {
        Fate::Old | Fate::Erased => PageKind::Erased,
        Fate::New => PageKind::Written,
        Fate::Uncorrectable => PageKind::Uncorrectable,
    }
}

/// Writes a page.
fn write_slot(pages: &mut Vec<MemPage>, p: usize, kind: PageKind, bytes: &[u8], tag: &[u8; 48])
    requires place { p < vec_len pages.old }
    requires size { length bytes.now ≡ size_at pages.old.items p }
    ensures len { length pages.new.items ≡ length pages.old.items }
    ensures here { view_at pages.new.items p ≡ page_of kind bytes.now tag.now }
    ensures others { (k : ℕ) → k ≢ p → view_at pages.new.items k ≡ view_at pages.old.items k }
    ensures sizes { (k : ℕ) → size_at pages.new.items k ≡ size_at pages.old.items k }
{
    let page = &mut pages[p];
    page.kind = kind;
    page.bytes.copy_from_slice(bytes);
    page.tag = *tag;
}

/// Writes a page of a block, and the block's next page.
pub(crate) fn write_page(
    blocks: &mut Vec<MemBlock>,
    b: usize,
    p: usize,
    kind: PageKind,
    bytes: &[u8],
    tag: &[u8; 48],
    next: Option<u32>,
)
    requires block { b < vec_len blocks.old }
    requires page { p < length (pages_at blocks.old.items b) }
    requires size { length bytes.now ≡ size_at (pages_at blocks.old.items b) p }
    ensures len { length blocks.new.items ≡ length blocks.old.items }
    ensures bad { (k : ℕ) → bad_at blocks.new.items k ≡ bad_at blocks.old.items k }
    ensures next { next_at blocks.new.items b ≡ next }
    ensures nexts { (k : ℕ) → k ≢ b → next_at blocks.new.items k ≡ next_at blocks.old.items k }
    ensures here { view_at (pages_at blocks.new.items b) p ≡ page_of kind bytes.now tag.now }
    ensures block { (l : ℕ) → l ≢ p → view_at (pages_at blocks.new.items b) l ≡ view_at (pages_at blocks.old.items b) l }
    ensures others { (k l : ℕ) → k ≢ b → view_at (pages_at blocks.new.items k) l ≡ view_at (pages_at blocks.old.items k) l }
    ensures lens { (k : ℕ) → length (pages_at blocks.new.items k) ≡ length (pages_at blocks.old.items k) }
    ensures sizes { (k l : ℕ) → size_at (pages_at blocks.new.items k) l ≡ size_at (pages_at blocks.old.items k) l }
{
    let block = &mut blocks[b];
    block.next = next;
    write_slot(&mut block.pages, p, kind, bytes, tag);
}

/// Leaves of a page what an erase does.
fn erase_slot(pages: &mut Vec<MemPage>, p: usize, end: End, fates: &[Fate])
    requires { p < vec_len pages.old }
    ensures len { length pages.new.items ≡ length pages.old.items }
    ensures here { view_at pages.new.items p ≡ erased end fates.now p (view_at pages.old.items p) }
    ensures others { (k : ℕ) → k ≢ p → view_at pages.new.items k ≡ view_at pages.old.items k }
    ensures sizes { (k : ℕ) → size_at pages.new.items k ≡ size_at pages.old.items k }
{
    if end == End::Whole {
        pages[p].kind = PageKind::Erased;
        return;
    }
    match fate_in(fates, p) {
        Fate::Old => {}
        Fate::New | Fate::Erased => pages[p].kind = PageKind::Erased,
        Fate::Uncorrectable => pages[p].kind = PageKind::Uncorrectable,
    }
}

/// Leaves of the pages of a block what an erase does.
fn erase_pages(pages: &mut Vec<MemPage>, end: End, fates: &[Fate])
    ensures len { length pages.new.items ≡ length pages.old.items }
    ensures views { (k : ℕ) → k < length pages.old.items → view_at pages.new.items k ≡ erased end fates.now k (view_at pages.old.items k) }
    ensures leaves { (k : ℕ) → EraseLeaves (erase_result end) (view_at pages.old.items k) (view_at pages.new.items k) }
    ensures sizes { (k : ℕ) → size_at pages.new.items k ≡ size_at pages.old.items k }
{
    for p in 0..pages.len() {
        erase_slot(pages, p, end, fates);
    }
}

/// Erases a block, and sets its next page.
pub(crate) fn erase_block(
    blocks: &mut Vec<MemBlock>,
    b: usize,
    end: End,
    fates: &[Fate],
    next: Option<u32>,
)
    requires { b < vec_len blocks.old }
    ensures len { length blocks.new.items ≡ length blocks.old.items }
    ensures bad { (k : ℕ) → bad_at blocks.new.items k ≡ bad_at blocks.old.items k }
    ensures next { next_at blocks.new.items b ≡ next }
    ensures nexts { (k : ℕ) → k ≢ b → next_at blocks.new.items k ≡ next_at blocks.old.items k }
    ensures views { (l : ℕ) → l < length (pages_at blocks.old.items b) → view_at (pages_at blocks.new.items b) l ≡ erased end fates.now l (view_at (pages_at blocks.old.items b) l) }
    ensures leaves { (l : ℕ) → EraseLeaves (erase_result end) (view_at (pages_at blocks.old.items b) l) (view_at (pages_at blocks.new.items b) l) }
    ensures others { (k l : ℕ) → k ≢ b → view_at (pages_at blocks.new.items k) l ≡ view_at (pages_at blocks.old.items k) l }
    ensures lens { (k : ℕ) → length (pages_at blocks.new.items k) ≡ length (pages_at blocks.old.items k) }
    ensures sizes { (k l : ℕ) → size_at (pages_at blocks.new.items k) l ≡ size_at (pages_at blocks.old.items k) l }
{
    let block = &mut blocks[b];
    block.next = next;
    erase_pages(&mut block.pages, end, fates);
}

/// Sets the mark of a block, or leaves it where the cut of the call does.
pub(crate) fn mark_block(blocks: &mut Vec<MemBlock>, b: usize, end: End, fates: &[Fate])
    requires { b < vec_len blocks.old }
    ensures len { length blocks.new.items ≡ length blocks.old.items }
    ensures bad { bad_at blocks.new.items b ≡ marked end fates.now (bad_at blocks.old.items b) }
    ensures other_bads { (k : ℕ) → k ≢ b → bad_at blocks.new.items k ≡ bad_at blocks.old.items k }
    ensures next { (k : ℕ) → next_at blocks.new.items k ≡ next_at blocks.old.items k }
    ensures pages { (k : ℕ) → pages_at blocks.new.items k ≡ pages_at blocks.old.items k }
{
    if end != End::Cut || fate_in(fates, 0) == Fate::New {
        blocks[b].bad = true;
    }
}

/// Takes the next page of every block away.
pub(crate) fn clear_nexts(blocks: &mut Vec<MemBlock>)
    ensures len { length blocks.new.items ≡ length blocks.old.items }
    ensures next { (k : ℕ) → next_at blocks.new.items k ≡ None }
    ensures bad { (k : ℕ) → bad_at blocks.new.items k ≡ bad_at blocks.old.items k }
    ensures pages { (k : ℕ) → pages_at blocks.new.items k ≡ pages_at blocks.old.items k }
{
    for b in 0..blocks.len() {
        blocks[b].next = None;
    }
}

/// Erased pages.
fn new_pages(alloc: Global, bytes: u32, pages: u32) -> Result<Vec<MemPage>, AllocError>
    ensures len { IfOk result (λ v. length v.items ≡ pages) }
    ensures sizes { IfOk result (λ v. (k : ℕ) → k < pages → size_at v.items k ≡ bytes) }
    ensures views { IfOk result (λ v. (k : ℕ) → view_at v.items k ≡ Erased) }
{
    let mut v = Vec::with_capacity(alloc, pages as usize)?;
    for _p in 0..pages {
        let room = vec![in alloc; 0u8; bytes as usize]?;
        v.push(MemPage {
            kind: PageKind::Erased,
            bytes: room,
            tag: [0; 48],
        })?;
    }
    Ok(v)
}

/// Good blocks with erased pages.
pub(crate) fn new_blocks(
    alloc: Global,
    bytes: u32,
    pages: u32,
    blocks: u32,
) -> Result<Vec<MemBlock>, AllocError>
    ensures len { IfOk result (λ v. length v.items ≡ blocks) }
    ensures lens { IfOk result (λ v. (k : ℕ) → k < blocks → length (pages_at v.items k) ≡ pages) }
    ensures sizes { IfOk result (λ v. (k l : ℕ) → k < blocks → l < pages → size_at (pages_at v.items k) l ≡ bytes) }
    ensures views { IfOk result (λ v. (k l : ℕ) → view_at (pages_at v.items k) l ≡ Erased) }
    ensures bads { IfOk result (λ v. (k : ℕ) → bad_at v.items k ≡ false) }
    ensures nexts { IfOk result (λ v. (k : ℕ) → next_at v.items k ≡ None) }
{
    let mut v = Vec::with_capacity(alloc, blocks as usize)?;
    for _b in 0..blocks {
        let row = new_pages(alloc, bytes, pages)?;
        v.push(MemBlock {
            bad: false,
            next: None,
            pages: row,
        })?;
    }
    Ok(v)
}

fn copy_pages(pages: &Vec<MemPage>) -> Result<Vec<MemPage>, AllocError>
    ensures len { IfOk result (λ v. length v.items ≡ length pages.now.items) }
    ensures sizes { IfOk result (λ v. (k : ℕ) → size_at v.items k ≡ size_at pages.now.items k) }
    ensures views { IfOk result (λ v. (k : ℕ) → view_at v.items k ≡ view_at pages.now.items k) }
{
    let alloc = *pages.allocator();
    let mut copy = Vec::with_capacity(alloc, pages.len())?;
    for page in pages {
        let bytes = Vec::from_slice(alloc, &page.bytes)?;
        copy.push(MemPage {
            kind: page.kind,
            bytes,
            tag: page.tag,
        })?;
    }
    Ok(copy)
}

pub(crate) fn copy_blocks(blocks: &Vec<MemBlock>) -> Result<Vec<MemBlock>, AllocError>
    ensures len { IfOk result (λ v. length v.items ≡ length blocks.now.items) }
    ensures lens { IfOk result (λ v. (k : ℕ) → length (pages_at v.items k) ≡ length (pages_at blocks.now.items k)) }
    ensures sizes { IfOk result (λ v. (k l : ℕ) → size_at (pages_at v.items k) l ≡ size_at (pages_at blocks.now.items k) l) }
    ensures views { IfOk result (λ v. (k l : ℕ) → view_at (pages_at v.items k) l ≡ view_at (pages_at blocks.now.items k) l) }
    ensures bads { IfOk result (λ v. (k : ℕ) → bad_at v.items k ≡ bad_at blocks.now.items k) }
    ensures nexts { IfOk result (λ v. (k : ℕ) → next_at v.items k ≡ next_at blocks.now.items k) }
{
    let mut copy = Vec::with_capacity(*blocks.allocator(), blocks.len())?;
    for block in blocks {
        let pages = copy_pages(&block.pages)?;
        copy.push(MemBlock {
            bad: block.bad,
            next: block.next,
            pages,
        })?;
    }
    Ok(copy)
}
