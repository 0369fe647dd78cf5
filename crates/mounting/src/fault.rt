// Why a device is not mounted.

use thiserror::Error;

/// Why a device was not mounted.
#[derive(Clone, Copy, Debug, PartialEq, Eq, Error)]
pub enum MountFault {
    /// The power is gone, and so is the device until the next power-up.
    #[error("power was lost in the mount: mount again after the next power-up")]
    Gone,
    /// A growth was refused. The call can be made again.
    #[error("memory was refused in the mount: free some, then mount again")]
    NoMemory,
    /// There is no header of a root.
    #[error("there is no volume: format it, if it is new")]
    NotAVolume,
    /// A header is of this newer format.
    #[error("the volume has the newer format {0}: take a newer version of this program")]
    Newer(u8),
    /// What is there is no tree of a volume that can go on.
    #[error("what is there is no tree: read out what can be read, then format")]
    Damaged,
}
