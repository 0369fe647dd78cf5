// Why a shell ends early.

use thiserror::Error;

/// Why the shell ended before its input did.
#[derive(Clone, Copy, Debug, PartialEq, Eq, Error)]
pub enum ShellFault {
    #[error("the lines could not be read: check where they come from")]
    Read,
    #[error("a line has more than 65,536 bytes, or follows the first 16,777,216 lines: split the input")]
    TooLong,
    #[error("the replies could not be written: the last command was done, and its reply may be cut short")]
    Write,
    #[error("memory was refused for a line: free some, then go on at the first line without a reply")]
    NoMemory,
}
