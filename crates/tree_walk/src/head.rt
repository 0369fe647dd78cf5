// The header of an object of a tree.
ghost use Rattle.std.specs.Prelude.{◌≡◌, ◌↔◌, ◌<◌, ◌≤◌, ◌+◌, ◌^◌, ℕ, true, IsTrue, OnOk, IfOk, IfErr, length};
ghost use Rattle.page_tags.specs.Headers.{Fields, IsHeaderOf};
ghost use Rattle.page_tags.specs.declared.header.ObjectKind.TheVariants as kinds;
ghost use Rattle.flash_tree.specs.Tree.{LooksUp};
ghost use Rattle.pages.specs.Maps.{has};
ghost use Rattle.pages.specs.State.{PagesState, OnlyFinds, KeepsPower};
ghost use Rattle.volume_terms.specs.Sizes.{Sizes};
ghost use Rattle.tree_walk.specs.Broken.{StopsAt};
ghost use Rattle.tree_walk.specs.Faults.{IfFault, ReportsWhy};
ghost use Rattle.tree_walk.specs.Heads.{IsHeadOf, IsNoHeader, SaysHead, head_looks_up};
ghost use Rattle.tree_walk.specs.Pages.{OfPages};

use crate::broken::{Broken, Rule};
use crate::fault::WalkFault;
use flash_tree::Key;
use page_tags::{ObjectKind, decode_header, is_present};
use pages::{Pages, Presence};
use std::alloc::Global;
use volume_terms::SLOT_BYTES;

/// What the header of an object says. `length` counts the bytes of a file or the entries of a directory.
#[derive(Drop)]
pub struct Head {
    pub kind: ObjectKind,
    pub length: u64,
    pub moment: u64,
    /// Of the root: how many blocks the volume keeps spare.
    pub spare: u16,
    // The presence bits of a file's chunks, up to its last.
    pub(crate) bits: Vec<u8>,
}

impl Head {
    /// Whether the page of a chunk of the object is looked up: the header's, that of a file's chunk that is present, or one
    /// of a directory's slots.
    pub(crate) fn looks_up(&self, page_bytes: u32, chunk: u64) -> bool
        requires { 512 ≤ page_bytes }
        ensures chunks { (z : Sizes) (f : Fields) → z.page_bytes ≡ page_bytes → IsHeadOf self.now f → IsTrue result ↔ LooksUp z f chunk }
        ensures reported { result ≡ head_looks_up page_bytes self.now chunk }
    {
        if chunk == 0 {
            return true;
        }
        match self.kind {
            ObjectKind::File => is_present(&self.bits, chunk),
            ObjectKind::Directory => {
                chunk
                    <= self
                        .length
                        .div_ceil(u64::from(page_bytes / SLOT_BYTES as u32))
            }
        }
    }

    /// Whether the pages of all chunks below one are looked up.
    pub(crate) fn looks_up_below(&self, page_bytes: u32, end: u64) -> bool
        requires { 512 ≤ page_bytes }
        ensures { IsTrue result → (c : ℕ) → c < end → head_looks_up page_bytes self.now c ≡ true }
    {
        for chunk in 0..end {
            if !self.looks_up(page_bytes, chunk) {
                return false;
            }
        }
        true
    }
}

/// Reads the header of an object.
pub(crate) fn read_head<P: Pages>(
    alloc: Global,
    pages: &mut P,
    object: u64,
) -> Result<Head, WalkFault>
    ensures lookups { OnlyFinds (P.state pages.old) (P.state pages.new) }
    ensures issued { (P.state pages.new).issued ≤ (P.state pages.old).issued + 1 }
    ensures power { OnOk result (KeepsPower (P.state pages.old) (P.state pages.new)) }
    ensures within_limit { IfOk result (λ head. length head.bits.items ≤ 4064) }
    ensures entries { IfOk result (λ head. head.kind ≡ kinds.Directory → head.length < 2 ^ 32) }
    ensures reported { OfPages (P.state pages.old) (λ z m. IfOk result (SaysHead z (has m) object)) }
    ensures stops { OfPages (P.state pages.old) (λ z m. IfFault result (StopsAt z (has m) object) (P.state pages.new)) }
    ensures why { IfErr result (ReportsWhy (P.state pages.new)) }
{
    let key = Key { object, chunk: 0 };
    match pages.find(key)? {
        Presence::Present => decode_head(alloc, pages.page(), object),
        Presence::Absent => Err(WalkFault::Broken(Broken {
            rule: Rule::HeaderMissing,
            key,
        })),
    }
}

/// What a page says as the header of an object.
fn decode_head(alloc: Global, page: &[u8], object: u64) -> Result<Head, WalkFault>
    requires least { 32 ≤ length page.now }
    requires most { length page.now ≤ 4096 }
    ensures reported { IfOk result (λ head. (f : Fields) × IsHeaderOf page.now f × IsHeadOf head f) }
    ensures within_limit { IfOk result (λ head. length head.bits.items ≤ 4064) }
    ensures fault { (new : PagesState) → IfFault result (IsNoHeader page.now object) new }
{
    let header = match decode_header(page) {
        Ok(header) => header,
        Err(fault) => {
            return Err(WalkFault::Broken(Broken {
                rule: Rule::NoHeader(fault),
                key: Key { object, chunk: 0 },
            }));
        }
    };
    let chunks = match header.kind {
        ObjectKind::File => header.length.div_ceil(page.len() as u64),
        ObjectKind::Directory => 0,
    };
    let committed = header.bits.len().min(chunks.div_ceil(8) as usize);
    Ok(Head {
        kind: header.kind,
        length: header.length,
        moment: header.moment,
        spare: header.spare,
        bits: header.bits[..committed].to_vec(alloc)?,
    })
}
