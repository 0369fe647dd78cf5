// What lines mean.
use posix_profile::Command;

/// What a line asks for.
#[derive(Drop, Debug)]
pub enum Line {
    /// A line without a word. It has no reply.
    Nothing,
    /// The moment of the lines after it.
    Now(u64),
    /// A command.
    Do(Command),
    /// Anything else.
    Bad,
}
