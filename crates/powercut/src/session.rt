// What is done while power is on, and how it ended.

use nand_model::Fate;
use posix_calls::{MountFault, Reply, Stamped};

/// What is done from one power-up to the end of a session: the volume is mounted, the commands are done up to the end or to
/// the stop, and then it is unmounted or abandoned.
#[derive(Drop)]
pub struct Session {
    pub commands: Vec<Stamped>,
    /// The call of the device at which power is lost, the first after the power-up being 1, and what it leaves.
    pub fuse: Option<(u64, Vec<Fate>)>,
    /// The calls of the device that fail, and what they leave.
    pub failures: Vec<(u64, Vec<Fate>)>,
    /// Whether the volume is unmounted at the end.
    pub unmount: bool,
}

/// How a session ended.
#[derive(Drop, Debug)]
pub struct SessionEnd {
    pub mounted: Result<(), MountFault>,
    /// The replies of the commands that were begun.
    pub replies: Vec<Reply>,
    /// How many commands were begun.
    pub begun: u64,
    /// How the unmount answered, if there was one.
    pub unmounted: Option<Reply>,
    /// Whether power was lost.
    pub cut: bool,
}
