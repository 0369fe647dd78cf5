// The pages that were found, as they are listed.
ghost use Rattle.std.specs.Prelude.{◌≡◌, IfSome, IfNone};
ghost use Rattle.mount_scan.specs.Copies.{FitsCopy};

use flash_tree::Found;

/// A copy of the page of a key that a scan found: where it lies, its version, and the number that its block got when it was
/// allocated. Its chunk has 32 bits: no tree looks up the page of a greater one.
#[derive(Clone, Copy, Debug, PartialEq, Eq)]
pub struct PageCopy {
    pub object: u64,
    pub version: u64,
    pub seq: u64,
    pub chunk: u32,
    pub block: u16,
    pub page: u16,
}

const _: () = prove!(size_of::<PageCopy>() == 32);

impl PageCopy {
    ghost use Rattle.mount_scan.specs.Copies.{copy_of};

    /// The copy of a page that counts, by its tag; none where the chunk is one that no tree looks up, or the object or the version
    /// is 0, as of no valid tag.
    pub fn of(found: &Found) -> Option<PageCopy>
        ensures copy { IfSome result (λ copy. (copy ≡ copy_of found.now) × FitsCopy found.now) }
        ensures none { IfNone result (FitsCopy found.now → ⊥) }
    {
        let tag = &found.tag;
        if tag.object == 0 || tag.version == 0 {
            return None;
        }
        Some(PageCopy {
            object: tag.object,
            version: tag.version,
            seq: tag.seq,
            chunk: u32::try_from(tag.chunk).ok()?,
            block: u16::try_from(found.block).ok()?,
            page: u16::try_from(found.page).ok()?,
        })
    }
}
