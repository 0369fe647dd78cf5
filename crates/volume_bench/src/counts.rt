// How many calls there were.
ghost use Rattle.std.specs.Prelude.{◌≡◌};
ghost use Rattle.volume_bench.specs.Totaled.{calls_after};

/// How many calls of each kind there were.
#[derive(Clone, Copy, Debug, PartialEq, Eq)]
pub struct Counts {
    /// Of tags alone, and of pages.
    pub reads: u64,
    /// Those of tags alone.
    pub tags: u64,
    pub programs: u64,
    pub erases: u64,
    pub marks: u64,
}

impl Counts {
    /// Those after others, with which they begin.
    pub fn since(self, before: Counts) -> Counts
        ensures { result ≡ calls_after before self }
    {
        Counts {
            reads: self.reads.saturating_sub(before.reads),
            tags: self.tags.saturating_sub(before.tags),
            programs: self.programs.saturating_sub(before.programs),
            erases: self.erases.saturating_sub(before.erases),
            marks: self.marks.saturating_sub(before.marks),
        }
    }
}
