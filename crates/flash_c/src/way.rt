// The ways of a mount.

/// How a mount finds the pages of a volume.
#[derive(Clone, Copy, Debug, PartialEq, Eq)]
pub(crate) enum Way {
    /// By a checkpoint or the summaries of blocks, where it can.
    Shortest,
    /// By the tags of all pages.
    AllTags,
}
