// What a stretch of a run costs.

use crate::counts::Counts;

/// What a stretch of a run costs.
#[derive(Clone, Copy, Debug, PartialEq, Eq)]
pub struct Cost {
    /// The calls of the device.
    pub calls: Counts,
    /// Bytes that were written to files.
    pub written: u64,
    /// Commands that were refused, or failed.
    pub errors: u64,
    /// Nanoseconds of the processor, those of the simulated device included.
    pub processor: u64,
}

impl Cost {
    /// What came after another stretch, with which this one begins, in as much time of the processor as this one says.
    pub(crate) fn since(self, before: Cost) -> Cost {
        Cost {
            calls: self.calls.since(before.calls),
            written: self.written.saturating_sub(before.written),
            errors: self.errors.saturating_sub(before.errors),
            processor: self.processor,
        }
    }
}
