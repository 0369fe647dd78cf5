// How long a flash takes.

use crate::counts::Counts;

/// How long a call of a flash takes, in nanoseconds: a read of a page, of a tag alone, a program, which a mark is too, and an erase.
#[derive(Clone, Copy, Debug, PartialEq, Eq)]
pub struct FlashTimes {
    pub read: u64,
    pub tag: u64,
    pub program: u64,
    pub erase: u64,
}

impl FlashTimes {
    /// How long so many calls take, in nanoseconds; 2^64 - 1 where that is too long for a u64.
    pub fn total(self, calls: Counts) -> u64 {
        let Counts {
            reads,
            tags,
            programs,
            erases,
            marks,
        } = calls;
        let pages = reads.saturating_sub(tags).saturating_mul(self.read);
        let tags = tags.saturating_mul(self.tag);
        let programs = programs.saturating_add(marks).saturating_mul(self.program);
        let erases = erases.saturating_mul(self.erase);
        pages
            .saturating_add(tags)
            .saturating_add(programs)
            .saturating_add(erases)
    }
}
