// How a number stands to a run.

/// How a number stands to a run.
#[derive(Clone, Copy)]
pub(crate) enum Standing {
    /// The run has it.
    Held,
    /// The run has not got it, and is not full.
    Fits,
    /// The run has not got it, and is full.
    Full,
}
